//! Plans of a site's machine.
ghost use Rattle.std.specs.Prelude.{◌≡◌, ◌↔◌, ◌<◌, ◌≤◌, All, IfOk, IsErrOf};
ghost use Rattle.fed_board.specs.Board.{board_reads};
ghost use Rattle.fed_easy.specs.Plan.{plan_reads};
ghost use Rattle.fed_easy.specs.Promises.{IsSized, NoDelay, StaysWithin};
ghost use Rattle.fed_easy.specs.Queue.{queue_in, queue_without as others_in};
ghost use Rattle.fed_easy.specs.SitePlan.{bookings_in, number_of, plan_beside, plan_without as others_planned, site_plan};
ghost use Rattle.fed_easy.specs.Use.{use_at};

use crate::bookings::bookings_of;
use crate::machines::Machine;
use crate::queue_planning::plan_queue;
use crate::queues::{QueuedJob, queue_of, queue_without};
use crate::sweeps::profile_of;
use fed_board::Board;
use fed_lattice::NoMemory;
use fed_model::Plan;
use fed_record::MAX_MOMENT;
use fed_stamp::{JobId, SiteId};
use std::alloc::Global;
use thiserror::Error;

/// Why there is no plan.
#[derive(Clone, Copy, PartialEq, Eq, Debug, Drop, Error)]
pub enum PlanFault {
    /// The moment is above `MAX_MOMENT`.
    #[error("a moment is from 0 to 1000000000000")]
    Moment,
    /// An allocation failed.
    #[error("out of memory")]
    NoMemory,
}

impl From<NoMemory> for PlanFault {
    ghost use Rattle.fed_easy.specs.declared.site_planning.PlanFault.TheVariants.{NoMemory};

    ghost from_gives = { λ _ e. e ≡ NoMemory };

    fn from(_error: NoMemory) -> PlanFault {
        PlanFault::NoMemory
    }
}

impl PlanFault {
    /// The number of the fault: 1 for `Moment` and 2 for `NoMemory`.
    pub fn number(self) -> u8
        ensures { result ≡ number_of self }
    {
        match self {
            PlanFault::Moment => 1,
            PlanFault::NoMemory => 2,
        }
    }
}

// The plan of a queue at the site, at a moment in range.
fn plan_of(
    alloc: Global,
    board: &Board,
    site: SiteId,
    moment: u64,
    machine: &Machine,
    queue: &[QueuedJob],
) -> Result<Plan, NoMemory>
    requires moment { moment ≤ MAX_MOMENT }
    requires sized { All (IsSized machine.now.nodes) queue.now }
    ensures plan { IfOk result (λ p. plan_reads p ≡ plan_beside (board_reads board.now) site moment machine.now queue.now) }
    ensures no_delay { let m = machine.now in let bookings = bookings_in site (board_reads board.now) moment m in
        IfOk result (λ p. NoDelay m.nodes moment (use_at bookings) queue.now (plan_reads p)) }
    ensures within { let m = machine.now in let bookings = bookings_in site (board_reads board.now) moment m in
        IfOk result (λ p. StaysWithin m.nodes moment (use_at bookings) queue.now (plan_reads p)) }
{
    let bookings = bookings_of(alloc, board, site, moment, machine)?;
    let profile = profile_of(alloc, machine.nodes(), moment, &bookings)?;
    let plan = plan_queue(alloc, profile, queue)?;
    Ok(plan)
}

/// The plan of the site's queue at the moment, beside what runs on its machine and its standing reservations, by EASY
/// backfill (Lifka): the longest prefix of the queue in which each job fits now, after those before it, starts; the next job is
/// the head, with the least second at which it fits; each later job starts where it fits now with the head's time
/// counted as used. A job fits where at every second of its time there are nodes for it. `Moment` is answered where the
/// moment is above `MAX_MOMENT`, else `NoMemory` where an allocation fails.
///
/// With j jobs on the board, q of them in the queue, n running entries and r reservations on the board it takes j steps
/// to find the queue and at most q log q to order it, r and (n + r) log (n + r) for the changes of use, one pass over
/// these changes for the head, and for each job that is tried one pass over the changes within its time.
pub fn plan(
    alloc: Global,
    board: &Board,
    site: SiteId,
    moment: u64,
    machine: &Machine,
) -> Result<Plan, PlanFault>
    ensures plan { IfOk result (λ p. plan_reads p ≡ site_plan (board_reads board.now) site moment machine.now) }
    ensures moment { IsErrOf result PlanFault.Moment ↔ (MAX_MOMENT < moment) }
    ensures no_delay { let m = machine.now in let bookings = bookings_in site (board_reads board.now) moment m in
        IfOk result (λ p. NoDelay m.nodes moment (use_at bookings) (queue_in site m.nodes (board_reads board.now)) (plan_reads p)) }
    ensures within { let m = machine.now in let bookings = bookings_in site (board_reads board.now) moment m in
        IfOk result (λ p. StaysWithin m.nodes moment (use_at bookings) (queue_in site m.nodes (board_reads board.now)) (plan_reads p)) }
{
    if moment > MAX_MOMENT {
        return Err(PlanFault::Moment);
    }
    let queue = queue_of(alloc, board, site, machine.nodes())?;
    let plan = plan_of(alloc, board, site, moment, machine, &queue)?;
    Ok(plan)
}

/// The plan as `plan` makes it, of the site's queue with these jobs left out: such as can't be had now, and would keep
/// nodes idle. A job that isn't in the queue changes nothing. `Moment` is answered where the moment is above `MAX_MOMENT`,
/// else `NoMemory` where an allocation fails.
///
/// With q jobs in the queue and b that are left out it takes (b + q) log b steps more than `plan`.
pub fn plan_without(
    alloc: Global,
    board: &Board,
    site: SiteId,
    moment: u64,
    machine: &Machine,
    jobs: &[JobId],
) -> Result<Plan, PlanFault>
    ensures plan { IfOk result (λ p. plan_reads p ≡ others_planned jobs.now (board_reads board.now) site moment machine.now) }
    ensures moment { IsErrOf result PlanFault.Moment ↔ (MAX_MOMENT < moment) }
    ensures no_delay { let m = machine.now in let bookings = bookings_in site (board_reads board.now) moment m in
        IfOk result (λ p. NoDelay m.nodes moment (use_at bookings) (others_in jobs.now site m.nodes (board_reads board.now)) (plan_reads p)) }
    ensures within { let m = machine.now in let bookings = bookings_in site (board_reads board.now) moment m in
        IfOk result (λ p. StaysWithin m.nodes moment (use_at bookings) (others_in jobs.now site m.nodes (board_reads board.now)) (plan_reads p)) }
{
    if moment > MAX_MOMENT {
        return Err(PlanFault::Moment);
    }
    let queue = queue_without(alloc, board, site, machine.nodes(), jobs)?;
    let plan = plan_of(alloc, board, site, moment, machine, &queue)?;
    Ok(plan)
}
