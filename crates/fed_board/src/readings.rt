//! That boards are told apart by what they read as.
ghost use Rattle.std.specs.Prelude.{◌≡◌};
ghost use Rattle.fed_board.specs.Board.{board_reads};

use crate::boards::Board;
use crate::facts::{board_is_covered, records_are_covered};
use crate::records::Records;

/// Boards that read the same are equal: all that a board has can be read of it.
pub fn boards_that_read_the_same_are_equal(a: &Board, b: &Board)
    ensures { board_reads a.now ≡ board_reads b.now → a.now ≡ b.now }
{
    board_is_covered(a);
    board_is_covered(b);
    a.tables_are_well_formed();
    b.tables_are_well_formed();
}

/// Records that read the same are equal.
pub fn records_that_read_the_same_are_equal(a: &Records, b: &Records)
    ensures { board_reads a.now ≡ board_reads b.now → a.now ≡ b.now }
{
    records_are_covered(a);
    records_are_covered(b);
    a.tables_are_well_formed();
    b.tables_are_well_formed();
}
