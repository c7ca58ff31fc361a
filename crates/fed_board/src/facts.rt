//! Facts that a type's invariant keeps. Each function does nothing: its contract is the fact, which a caller tells the
//! prover by calling it.
ghost use Rattle.std.specs.Prelude.{◌≡◌, All};
ghost use Rattle.std.specs.List.Sorted.{IsStrictlySortedBy};
ghost use Rattle.std.specs.Map.{keys_of, values_of};
ghost use Rattle.std.specs.Ordering.{nat_cmp};
ghost use Rattle.fed_lattice.specs.Latest.{stamp_cmp};
ghost use Rattle.fed_lattice.specs.Table.{IsTable};
ghost use Rattle.fed_model.specs.Identifiers.{jobs_in, reservations_in};
ghost use Rattle.fed_board.specs.Board.{IsBoard, board_reads};

use crate::boards::Board;
use crate::records::Records;
use fed_lattice::Causal;
use fed_ranges::Retirements;
use fed_record::JobRecord;

/// What stands on a board is covered by its version.
pub fn board_is_covered(board: &Board)
    ensures { IsBoard board.now }
{
    let _version = board.version();
}

/// The jobs and the reservations on a board stand in ascending order, and are those that it reads as. So do the sites
/// that have retired anything.
pub fn board_is_in_order(board: &Board)
    ensures retired { IsTable nat_cmp ⟦<Retirements as Causal>⟧.well_formed board.now.retired }
    ensures jobs_ascend { IsStrictlySortedBy stamp_cmp (keys_of board.now.jobs) }
    ensures jobs { keys_of board.now.jobs ≡ jobs_in (board_reads board.now) }
    ensures reservations_ascend { IsStrictlySortedBy stamp_cmp (keys_of board.now.reservations) }
    ensures reservations { keys_of board.now.reservations ≡ reservations_in (board_reads board.now) }
{
    let _retired = board.retired();
    let _jobs = board.jobs();
    let _reservations = board.reservations();
}

/// What stands among records is covered by their version.
pub fn records_are_covered(records: &Records)
    ensures { IsBoard records.now }
{
    let _version = records.version();
}

/// The jobs and the reservations among records stand in ascending order, and are those that these read as. Each job's
/// record is well formed. The sites that have retired anything ascend too.
pub fn records_are_in_order(records: &Records)
    ensures retired { IsTable nat_cmp ⟦<Retirements as Causal>⟧.well_formed records.now.retired }
    ensures jobs_ascend { IsStrictlySortedBy stamp_cmp (keys_of records.now.jobs) }
    ensures jobs { keys_of records.now.jobs ≡ jobs_in (board_reads records.now) }
    ensures well_formed { All ⟦<JobRecord as Causal>⟧.well_formed (values_of records.now.jobs) }
    ensures reservations_ascend { IsStrictlySortedBy stamp_cmp (keys_of records.now.reservations) }
    ensures reservations { keys_of records.now.reservations ≡ reservations_in (board_reads records.now) }
{
    let _retired = records.retired();
    let _jobs = records.jobs();
    let _reservations = records.reservations();
}
