//! The jobs that wait at a site.
ghost use Rattle.std.specs.Prelude.{◌≡◌, ◌&&◌, ◌||◌, All, IfOk, IfSome, IsTrue, Some, not, refl};
ghost use Rattle.std.specs.Cmp.{partial_equiv_from_equiv, eq_by_cmp_equiv, po};
ghost use Rattle.std.specs.List.{IsDistinct, list_any};
ghost use Rattle.std.specs.List.Sorted.{IsSorted};
ghost use Rattle.std.specs.Ordering.{eq_by_cmp};
ghost use Rattle.fed_stamp.specs.Stamp.{StampValue, same_stamp};
ghost use Rattle.fed_lattice.specs.Latest.{stamp_cmp};
ghost use Rattle.fed_record.specs.JobRecord.{job_reads};
ghost use Rattle.fed_model.specs.Letter.{is_granted, is_granted_to};
ghost use Rattle.fed_board.specs.Board.{board_reads};
ghost use Rattle.fed_easy.specs.Promises.{IsSized};
ghost use Rattle.fed_easy.specs.Queue.{is_waiting as is_job_waiting, queue_in, queue_without as others_in, queued as job_queued, waiting_in};
ghost use Rattle.fed_easy.specs.QueueLaws.{queue_total};
ghost use Rattle.fed_easy.specs.QueueOrder.{queue_cmp};

use fed_board::Board;
use fed_lattice::NoMemory;
use fed_model::limit_is_ranged;
use fed_record::{JobRecord, Limit, Nodes, Priority};
use fed_stamp::{JobId, SiteId};
use std::alloc::Global;
use std::cmp::Ordering;

/// A job that waits to start, with what its place in the queue and its time depend on.
///
/// Jobs are ordered as in the queue: granted to the site first, then the greater priority, then the smaller stamp.
/// Jobs of one stamp, of which a queue has one at most, are ordered by nodes and limit.
#[derive(Clone, Copy)]
pub(crate) struct QueuedJob {
    /// Whether it is granted to the site already.
    pub(crate) is_granted: bool,
    /// How soon it is wanted: the greater comes first.
    pub(crate) priority: Priority,
    /// Its identifier.
    pub(crate) id: JobId,
    /// How many nodes it runs on.
    pub(crate) nodes: Nodes,
    /// How long it may run, in seconds.
    pub(crate) limit: Limit,
}

impl PartialEq for QueuedJob {
    ghost eq = { eq_by_cmp queue_cmp };

    ghost laws = { partial_equiv_from_equiv (eq_by_cmp_equiv queue_total) };

    fn eq(&self, other: &QueuedJob) -> bool {
        self.cmp(other).is_eq()
    }
}

impl Eq for QueuedJob {
    ghost laws = { eq_by_cmp_equiv queue_total };
}

impl PartialOrd for QueuedJob {
    ghost partial_cmp = { λ g h. Some (queue_cmp g h) };

    ghost laws = { po queue_total (λ g h. refl) };

    fn partial_cmp(&self, other: &QueuedJob) -> Option<Ordering> {
        Some(self.cmp(other))
    }
}

impl Ord for QueuedJob {
    ghost cmp = { queue_cmp };

    ghost total = { queue_total };

    ghost matches_partial_cmp = { λ g h. refl };

    ghost matches_eq = { λ g h. refl };

    fn cmp(&self, other: &QueuedJob) -> Ordering {
        let by_size = self
            .nodes
            .cmp(&other.nodes)
            .then(self.limit.cmp(&other.limit));
        let by_stamp = self.id.cmp(&other.id).then(by_size);
        let by_priority = other.priority.cmp(&self.priority).then(by_stamp);
        other.is_granted.cmp(&self.is_granted).then(by_priority)
    }
}

// Whether the job is granted to no site or to this one.
fn is_open(job: &JobRecord, site: SiteId) -> bool
    ensures { result ≡ (not (is_granted (job_reads job.now)) || is_granted_to (job_reads job.now) site) }
{
    job.holder().is_none() || job.is_granted_to(site)
}

// Whether the job waits at the site.
fn is_waiting(job: &JobRecord, site: SiteId) -> bool
    ensures { result ≡ is_job_waiting site (job_reads job.now) }
{
    job.is_submitted()
        && !job.is_gone()
        && job.progress().begun.is_none()
        && !job.is_held()
        && is_open(job, site)
        && job.has_site(site)
}

/// The job as it stands in the queue of the site, if it does.
pub(crate) fn queued(id: JobId, job: &JobRecord, site: SiteId, capacity: u64) -> Option<QueuedJob>
    ensures job { result ≡ job_queued site capacity id (job_reads job.now) }
    ensures sized { IfSome result (λ job. IsSized capacity job) }
{
    if !is_waiting(job, site) {
        return None;
    }
    let (_, nodes) = job.nodes();
    let (_, limit) = job.limit();
    limit_is_ranged(limit);
    if nodes.get() > capacity {
        return None;
    }
    Some(QueuedJob {
        is_granted: job.is_granted_to(site),
        priority: job.priority().1,
        id,
        nodes,
        limit,
    })
}

// The jobs that wait at the site, in the order of their stamps.
fn waiting_jobs(
    alloc: Global,
    board: &Board,
    site: SiteId,
    capacity: u64,
) -> Result<Vec<QueuedJob>, NoMemory>
    ensures waiting { IfOk result (λ waiting. waiting.items ≡ waiting_in site capacity (board_reads board.now)) }
    ensures distinct { IfOk result (λ waiting. IsDistinct (eq_by_cmp queue_cmp) waiting.items) }
    ensures sized { IfOk result (λ waiting. All (IsSized capacity) waiting.items) }
{
    let mut waiting = Vec::new(alloc);
    for (id, job) in board.jobs() {
        if let Some(entry) = queued(*id, job, site, capacity) {
            waiting.push(entry)?;
        }
    }
    Ok(waiting)
}

/// The queue at the site, of jobs that need at most so many nodes.
pub(crate) fn queue_of(
    alloc: Global,
    board: &Board,
    site: SiteId,
    capacity: u64,
) -> Result<Vec<QueuedJob>, NoMemory>
    ensures queue { IfOk result (λ queue. queue.items ≡ queue_in site capacity (board_reads board.now)) }
    ensures sized { IfOk result (λ queue. All (IsSized capacity) queue.items) }
{
    let mut queue = waiting_jobs(alloc, board, site, capacity)?;
    queue.sort()?;
    Ok(queue)
}

// Whether the job is one of these, by a binary search.
fn is_one_of(jobs: &[JobId], job: JobId) -> bool
    requires { IsSorted stamp_cmp jobs.now }
    ensures { result ≡ list_any (same_stamp job) jobs.now }
{
    jobs.binary_search(&job).is_ok()
}

// The jobs, in the order of their stamps.
fn sorted(alloc: Global, jobs: &[JobId]) -> Result<Vec<JobId>, NoMemory>
    ensures sorted { IfOk result (λ sorted. IsSorted stamp_cmp sorted.items) }
    ensures same { IfOk result (λ sorted. (job : StampValue) →
        list_any (same_stamp job) sorted.items ≡ list_any (same_stamp job) jobs.now) }
{
    let mut sorted = jobs.to_vec(alloc)?;
    sorted.sort()?;
    Ok(sorted)
}

/// The queue at the site, of jobs that need at most so many nodes, with these jobs left out.
pub(crate) fn queue_without(
    alloc: Global,
    board: &Board,
    site: SiteId,
    capacity: u64,
    jobs: &[JobId],
) -> Result<Vec<QueuedJob>, NoMemory>
    ensures queue { IfOk result (λ queue. queue.items ≡ others_in jobs.now site capacity (board_reads board.now)) }
    ensures sized { IfOk result (λ queue. All (IsSized capacity) queue.items) }
{
    let mut queue = queue_of(alloc, board, site, capacity)?;
    let left_out = sorted(alloc, jobs)?;
    queue.retain(|job| !is_one_of(&left_out, job.id));
    Ok(queue)
}
