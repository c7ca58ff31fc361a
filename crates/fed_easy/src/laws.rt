//! Laws of queues, of shadows and of plans. Each function changes nothing: its contract is the law.
ghost use Rattle.std.specs.Prelude.{◌≡◌, ◌↔◌, ◌≤◌, All, ℕ, List, Some};
ghost use Rattle.std.specs.List.Sorted.{IsStrictlySortedBy};
ghost use Rattle.fed_stamp.specs.Stamp.{StampValue};
ghost use Rattle.fed_lattice.specs.Sets.{Has};
ghost use Rattle.fed_model.specs.Identifiers.{jobs_in};
ghost use Rattle.fed_model.specs.View.{View};
ghost use Rattle.fed_board.specs.Board.{board_reads};
ghost use Rattle.fed_easy.specs.Extra.{extra_plan};
ghost use Rattle.fed_easy.specs.Promises.{IsIdleFrom, IsOver, IsSized};
ghost use Rattle.fed_easy.specs.Queue.{queue_in, queue_without, queued as job_queued, waiting_in};
ghost use Rattle.fed_easy.specs.QueueOrder.{queue_cmp};
ghost use Rattle.fed_easy.specs.SitePlan.{bookings_in, plan_without, reserved_in, site_plan};
ghost use Rattle.fed_easy.specs.Use.{IsShadow, last_end, shadow, use_at};
ghost use Rattle.fed_easy.specs.declared.queues.QueuedJob.{QueuedJob};

use crate::machines::Machine;
use crate::queues::queued;
use fed_board::Board;
use fed_stamp::SiteId;

/// The queue at a site holds exactly the jobs that wait there, each once: those granted to the site first, then those of
/// greater priority, then those of smaller stamps.
pub fn queues_hold_the_waiting_jobs()
    ensures ordered { (v : View) (site capacity : ℕ) → IsStrictlySortedBy queue_cmp (queue_in site capacity v) }
    ensures members { (v : View) (site capacity : ℕ) (j : QueuedJob) → Has (queue_in site capacity v) j ↔
        (Has (jobs_in v) j.id × (job_queued site capacity j.id (v.job j.id) ≡ Some j)) }
{}

/// A queue without some jobs holds the other jobs of the queue, in their order, and all of them where none of those is in it.
pub fn queues_without_jobs_hold_the_others()
    ensures ordered { (v : View) (site capacity : ℕ) (jobs : List StampValue) →
        IsStrictlySortedBy queue_cmp (queue_without jobs site capacity v) }
    ensures members { (v : View) (site capacity : ℕ) (jobs : List StampValue) (j : QueuedJob) →
        Has (queue_without jobs site capacity v) j ↔ (Has (queue_in site capacity v) j × (¬ Has jobs j.id)) }
    ensures none { (v : View) (site capacity : ℕ) (jobs : List StampValue) →
        ((j : QueuedJob) → Has (queue_in site capacity v) j → ¬ Has jobs j.id) →
        queue_without jobs site capacity v ≡ queue_in site capacity v }
{}

/// A shadow is the least second, from the moment on, at which the job fits.
pub fn shadows_are_the_least_seconds()
    ensures { (capacity now end : ℕ) (used : ℕ → ℕ) (j : QueuedJob) → IsIdleFrom end used → j.nodes ≤ capacity →
        IsShadow capacity used now j (shadow capacity used end now j) }
{}

// Each job that waits at a site of so many nodes takes nodes and time, and at most these nodes.
fn waiting_jobs_are_sized(board: &Board, site: SiteId, capacity: u64)
    ensures { All (IsSized capacity) (waiting_in site capacity (board_reads board.now)) }
{
    for (id, job) in board.jobs() {
        let _waiting = queued(*id, job, site, capacity);
    }
}

/// Where no standing reservation of the site ends after the moment, the plan is that of free and extra nodes: the shadow
/// is the first second at which the head's nodes are free, and a job behind the head starts where its nodes are free
/// now, and it ends by the shadow or needs at most the nodes that the head leaves there.
pub fn plans_are_those_by_extra_nodes(board: &Board, site: SiteId, machine: &Machine)
    ensures plan { (moment : ℕ) → let v = board_reads board.now in let m = machine.now in
        All (IsOver moment) (reserved_in site v) → let bookings = bookings_in site v moment m in
        site_plan v site moment m ≡
        extra_plan m.nodes moment (use_at bookings) (last_end bookings) (queue_in site m.nodes v) }
    ensures without { (jobs : List StampValue) (moment : ℕ) → let v = board_reads board.now in let m = machine.now in
        All (IsOver moment) (reserved_in site v) → let bookings = bookings_in site v moment m in
        plan_without jobs v site moment m ≡
        extra_plan m.nodes moment (use_at bookings) (last_end bookings) (queue_without jobs site m.nodes v) }
{
    waiting_jobs_are_sized(board, site, machine.nodes());
}
