//! What is done where the site's own scheduler asks to retire identifiers.
ghost use Rattle.std.specs.Prelude.{◌≡◌, false, IsSome};
ghost use Rattle.std.specs.List.{list_any};
ghost use Rattle.fed_model.specs.declared.askers.Who.{Who};
ghost use Rattle.fed_model.specs.declared.commands.Command.{Command};
ghost use Rattle.fed_board.specs.Board.{board_reads};
ghost use Rattle.fed_model.specs.Answer.{answer_to};
ghost use Rattle.fed_model.specs.Origin.{ranges_with as counted_ranges};
ghost use Rattle.fed_model.specs.Refusals.{has_unsettled as has_any_unsettled, is_bad_range as is_range_bad, is_settled as is_job_settled};
ghost use Rattle.fed_record.specs.JobRecord.{job_reads};
ghost use Rattle.fed_replica.specs.Retiring.{is_named as is_id_named, is_open_job, is_open_reservation};
ghost use Rattle.fed_replica.specs.Step.{answer_by};

use crate::steps::{Step, next_stamp};
use fed_board::{Board, board_is_covered, board_is_in_order};
use fed_model::MAX_RANGES;
use fed_ranges::Range;
use fed_record::{JobRecord, Operation, Refusal, Reply, Reservation};
use fed_stamp::{SiteId, Stamp};

/// Whether the range begins at 0, is empty, or reaches beyond the counters of the site's own operations.
fn is_bad_range(board: &Board, here: SiteId, first: u64, last: u64) -> bool
    ensures { result ≡ is_range_bad (board_reads board.now) here first last }
{
    first == 0 || last < first || board.version().get(here) < last
}

/// How many ranges of the site are retired once this one is too, which none touches of another.
fn ranges_with(board: &Board, here: SiteId, first: u64, last: u64) -> u64
    requires { is_range_bad (board_reads board.now) here first last ≡ false }
    ensures { result ≡ counted_ranges (board_reads board.now) here first last }
{
    board_is_covered(board);
    match board.retired().get(here) {
        Some(retirements) => retirements.ranges().len_with(Range { first, last }) as u64,
        None => 1,
    }
}

/// Whether the identifier is one of the site's, and its counter in the range.
pub fn is_named(id: Stamp, here: SiteId, first: u64, last: u64) -> bool
    ensures { result ≡ is_id_named here first last id }
{
    id.site() == here && first <= id.counter() && id.counter() <= last
}

/// Whether the job will never begin any more, and doesn't run: it is finished, or it was deleted before it began, and no
/// other site than this, its origin, has its grant.
pub fn is_settled(job: &JobRecord, here: SiteId) -> bool
    ensures { result ≡ is_job_settled here (job_reads job.now) }
{
    let progress = job.progress();
    if progress.finished.is_some() {
        return true;
    }
    if !job.deleted() || progress.begun.is_some() {
        return false;
    }
    match job.holder() {
        Some(site) => site == here,
        None => true,
    }
}

/// Whether the site has a job in the range that is not settled.
fn has_open_job(board: &Board, here: SiteId, first: u64, last: u64) -> bool
    ensures { result ≡ list_any (is_open_job here first last) board.now.jobs }
{
    for (id, job) in board.jobs() {
        if is_named(*id, here, first, last) && !is_settled(job, here) {
            return true;
        }
    }
    false
}

/// Whether the reservation, which is made, is one of the site's in the range, and stands.
fn is_open(id: Stamp, reservation: &Reservation, here: SiteId, first: u64, last: u64) -> bool
    requires { IsSome reservation.now }
    ensures { result ≡ is_open_reservation here first last (id, reservation.now) }
{
    is_named(id, here, first, last) && reservation.window().is_some()
}

/// Whether the site has a reservation in the range that stands.
fn has_open_reservation(board: &Board, here: SiteId, first: u64, last: u64) -> bool
    ensures { result ≡ list_any (is_open_reservation here first last) board.now.reservations }
{
    for (id, reservation) in board.reservations() {
        if is_open(*id, reservation, here, first, last) {
            return true;
        }
    }
    false
}

/// Whether the site has a job in the range that is not settled, or a reservation that is not cancelled.
fn has_unsettled(board: &Board, here: SiteId, first: u64, last: u64) -> bool
    ensures { result ≡ has_any_unsettled (board_reads board.now) here first last }
{
    board_is_covered(board);
    board_is_in_order(board);
    has_open_job(board, here, first, last) || has_open_reservation(board, here, first, last)
}

/// Retires the site's identifiers in the range.
#[tactic(auto, unfolding(fed_model::specs::Answer::answer_to))]
pub(crate) fn retire(board: &Board, here: SiteId, first: u64, last: u64) -> Result<Step, Refusal>
    ensures { (who : Who) → answer_by result ≡ answer_to (board_reads board.now) here who (Command.Retire first last) }
{
    let is_bad = is_bad_range(board, here, first, last);
    if !is_bad && ranges_with(board, here, first, last) > MAX_RANGES {
        return Err(Refusal::SiteFull);
    }
    let at = next_stamp(board, here)?;
    if is_bad || has_unsettled(board, here, first, last) {
        return Err(Refusal::NotSettled);
    }
    Ok(Step::Adds {
        at,
        operation: Operation::Retire { first, last },
        reply: Reply::Done,
    })
}
