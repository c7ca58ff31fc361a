//! Plans of a queue beside the use of a machine.
ghost use Rattle.std.specs.Prelude.{◌≡◌, ℕ, ◌≤◌, ◌^◌, ◌++◌, length, take, drop, IfOk, OnOk, All};
ghost use Rattle.fed_easy.specs.Plan.{backfill, behind, front, ids, queue_plan, plan_reads};
ghost use Rattle.fed_easy.specs.Promises.{IsIdleFrom};
ghost use Rattle.fed_easy.specs.Profile.{IsProfile, Tells, TellsUntil};
ghost use Rattle.fed_easy.specs.Use.{with_jobs};

use crate::profiles::Profile;
use crate::queues::QueuedJob;
use fed_lattice::NoMemory;
use fed_model::Plan;
use fed_record::MAX_MOMENT;
use fed_stamp::JobId;
use std::alloc::Global;

// Starts the front of the queue, and tells how many jobs it is.
fn start_front(
    profile: &mut Profile,
    queue: &[QueuedJob],
    starts: &mut Vec<JobId>,
) -> Result<usize, NoMemory>
    requires profile { IsProfile profile.old }
    requires soon { profile.old.start ≤ MAX_MOMENT }
    requires narrow { All (λ j. j.nodes ≤ profile.old.capacity) queue.now }
    ensures profile { OnOk result (IsProfile profile.new) }
    ensures start { OnOk result (profile.new.start ≡ profile.old.start) }
    ensures capacity { OnOk result (profile.new.capacity ≡ profile.old.capacity) }
    ensures count { IfOk result (λ n. n ≤ length queue.now) }
    ensures starts { IfOk result (λ n. starts.new.items ≡ starts.old.items ++ ids (take n queue.now)) }
    ensures front { IfOk result (λ n. (used : ℕ → ℕ) → Tells profile.old used →
        front profile.old.capacity profile.old.start used queue.now ≡ take n queue.now) }
    ensures behind { IfOk result (λ n. (used : ℕ → ℕ) → Tells profile.old used →
        behind profile.old.capacity profile.old.start used queue.now ≡ drop n queue.now) }
    ensures tells { IfOk result (λ n. (used : ℕ → ℕ) → Tells profile.old used →
        Tells profile.new (with_jobs profile.old.start (take n queue.now) used)) }
{
    let start = profile.start;
    for i in 0..queue.len() {
        let job = queue[i];
        let (nodes, limit) = (job.nodes.get(), job.limit.get());
        if !profile.fits(nodes, limit) {
            return Ok(i);
        }
        profile.add(start, start + limit, nodes)?;
        starts.push(job.id)?;
    }
    Ok(queue.len())
}

// Starts each job that fits.
fn start_behind(
    profile: &mut Profile,
    queue: &[QueuedJob],
    starts: &mut Vec<JobId>,
) -> Result<(), NoMemory>
    requires profile { IsProfile profile.old }
    requires soon { profile.old.start ≤ MAX_MOMENT }
    requires narrow { All (λ j. j.nodes ≤ profile.old.capacity) queue.now }
    ensures { OnOk result ((used : ℕ → ℕ) → TellsUntil profile.old (2 ^ 62) used →
        starts.new.items ≡ starts.old.items ++ ids (backfill profile.old.capacity profile.old.start used queue.now)) }
{
    let start = profile.start;
    for i in 0..queue.len() {
        let job = queue[i];
        let (nodes, limit) = (job.nodes.get(), job.limit.get());
        if profile.fits(nodes, limit) {
            profile.add(start, start + limit, nodes)?;
            starts.push(job.id)?;
        }
    }
    Ok(())
}

/// The plan of the queue for the second at which the profile starts.
pub(crate) fn plan_queue(
    alloc: Global,
    mut profile: Profile,
    queue: &[QueuedJob],
) -> Result<Plan, NoMemory>
    requires profile { IsProfile profile }
    requires soon { profile.start ≤ MAX_MOMENT }
    requires narrow { All (λ j. j.nodes ≤ profile.capacity) queue.now }
    ensures { IfOk result (λ plan. (used : ℕ → ℕ) (end : ℕ) → Tells profile used → IsIdleFrom end used →
        plan_reads plan ≡ queue_plan profile.capacity profile.start used end queue.now) }
{
    let mut starts = Vec::new(alloc);
    let count = start_front(&mut profile, queue, &mut starts)?;
    if count == queue.len() {
        return Ok(Plan { starts, head: None });
    }
    let head = queue[count];
    let (nodes, limit) = (head.nodes.get(), head.limit.get());
    let shadow = profile.shadow(nodes, limit);
    // a time whose end is no 64-bit number begins after the last end of every other job
    if let Some(end) = shadow.checked_add(limit) {
        profile.add(shadow, end, nodes)?;
    }
    start_behind(&mut profile, &queue[count + 1..], &mut starts)?;
    Ok(Plan {
        starts,
        head: Some((head.id, shadow)),
    })
}
