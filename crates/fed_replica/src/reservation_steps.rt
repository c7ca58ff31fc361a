//! What is done where a reservation is asked for.
ghost use Rattle.std.specs.Prelude.{◌≡◌};
ghost use Rattle.fed_model.specs.declared.commands.Command.{Command};
ghost use Rattle.fed_board.specs.Board.{board_reads};
ghost use Rattle.fed_model.specs.Answer.{answer_to};
ghost use Rattle.fed_model.specs.Refusals.{is_bad_window as is_window_bad, is_standing as is_reservation_standing};
ghost use Rattle.fed_replica.specs.Step.{answer_by};

use crate::counts::reservations_at;
use crate::permissions::is_operator;
use crate::steps::{Step, next_stamp};
use fed_board::{Board, MAX_RESERVATIONS};
use fed_record::{MAX_MOMENT, Operation, Refusal, Reply, Who, Window};
use fed_stamp::{MAX_NODES, SiteId, Stamp};

/// Whether no reservation may have the window.
fn is_bad_window(window: &Window) -> bool
    ensures { result ≡ is_window_bad window.now }
{
    window.end <= window.start
        || window.end > MAX_MOMENT
        || window.nodes == 0
        || window.nodes > MAX_NODES
}

/// Whether the reservation is made and not cancelled.
fn is_standing(board: &Board, id: Stamp) -> bool
    ensures { result ≡ is_reservation_standing ((board_reads board.now).reservation id) }
{
    match board.reservation(id) {
        Some(reservation) => reservation.window().is_some(),
        None => false,
    }
}

/// Makes a reservation.
#[tactic(auto, unfolding(fed_model::specs::Answer::answer_to))]
pub(crate) fn reserve(
    board: &Board,
    here: SiteId,
    who: &Who,
    window: &Window,
) -> Result<Step, Refusal>
    ensures { answer_by result ≡ answer_to (board_reads board.now) here who.now (Command.Reserve window.now) }
{
    if !is_operator(who.role) {
        return Err(Refusal::NotPermitted);
    }
    if is_bad_window(window) {
        return Err(Refusal::BadWindow);
    }
    if reservations_at(board, here) >= MAX_RESERVATIONS {
        return Err(Refusal::SiteFull);
    }
    let at = next_stamp(board, here)?;
    Ok(Step::Adds {
        at,
        operation: Operation::Reserve { window: *window },
        reply: Reply::Reserved(at),
    })
}

/// Cancels the reservation.
#[tactic(auto, unfolding(fed_model::specs::Answer::answer_to))]
pub(crate) fn cancel(board: &Board, here: SiteId, who: &Who, id: Stamp) -> Result<Step, Refusal>
    ensures { answer_by result ≡ answer_to (board_reads board.now) here who.now (Command.Cancel id) }
{
    if !is_operator(who.role) {
        return Err(Refusal::NotPermitted);
    }
    if !is_standing(board, id) {
        return Err(Refusal::UnknownReservation);
    }
    let at = next_stamp(board, here)?;
    Ok(Step::Adds {
        at,
        operation: Operation::Cancel { reservation: id },
        reply: Reply::Done,
    })
}
