//! What a site does next where it doesn't refuse a command.
ghost use Rattle.std.specs.Prelude.{◌≡◌, Ok, Err, MatchResult};
ghost use Rattle.fed_stamp.specs.Version.{next_stamp as next_stamp_of};
ghost use Rattle.fed_model.specs.declared.refusals.Refusal.{Refusal};

use fed_board::Board;
use fed_record::{Operation, Refusal, Reply};
use fed_stamp::{SiteId, Stamp};

/// What a site does where it doesn't refuse a command.
#[derive(Drop)]
pub(crate) enum Step {
    /// It adds an operation, and replies.
    Adds {
        /// The stamp of the operation.
        at: Stamp,
        /// The operation.
        operation: Operation,
        /// What it replies once the operation is added.
        reply: Reply,
    },
    /// It adds nothing, and replies.
    Nothing(Reply),
}

/// The stamp of the site's next operation. The error is `ClockFull`.
pub(crate) fn next_stamp(board: &Board, here: SiteId) -> Result<Stamp, Refusal>
    ensures { MatchResult result (λ at. next_stamp_of board.now.version here ≡ Ok at)
        (λ e. (e ≡ Refusal.ClockFull) × (next_stamp_of board.now.version here ≡ Err (record {}))) }
{
    Ok(board.version().next(here)?)
}
