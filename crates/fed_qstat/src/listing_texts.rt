//! The texts of listings.
ghost use Rattle.std.specs.Prelude.{◌≡◌, IfOk, string_bytes};
ghost use Rattle.fed_board.specs.Board.{board_reads};
ghost use Rattle.fed_qstat.specs.Listed.{listed};

use crate::listings::{full as list_in_full, list};
use fed_board::Board;
use fed_lattice::NoMemory;
use fed_stamp::{JobId, Roster};
use std::alloc::Global;

/// The listing of these jobs on the board, or of all where none is named: a line for each job, or all that is known of
/// it. The only error is `NoMemory`.
pub fn listing_text(
    alloc: Global,
    roster: &Roster,
    board: &Board,
    is_full: bool,
    jobs: &[JobId],
) -> Result<String, NoMemory>
    ensures { IfOk result (λ text. string_bytes text ≡ listed is_full roster.now (board_reads board.now) jobs.now) }
{
    if is_full {
        list_in_full(alloc, board, roster, jobs)
    } else {
        list(alloc, board, roster, jobs)
    }
}
