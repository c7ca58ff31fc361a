//! The laws of merging, on all boards.
ghost use Rattle.std.specs.Prelude.{◌≡◌};
ghost use Rattle.fed_lattice.specs.Laws.{IsAssociative, IsCommutative, IsIdempotent};
ghost use Rattle.fed_board.specs.Board.{merged};

use crate::boards::Board;
use crate::facts::board_is_covered;
use fed_lattice::Causal;
use fed_ranges::{Retired, tables_join_without_the_dropped};
use fed_record::{JobRecord, Reservation};
use fed_stamp::Stamp;

// What is a law of every value that merges.
fn joins_are_associative<V: Causal>()
    ensures { IsAssociative V.well_formed V.joined }
{}

fn joins_are_commutative<V: Causal>()
    ensures { IsCommutative V.well_formed V.joined }
{}

fn joins_are_idempotent<V: Causal>()
    ensures { IsIdempotent V.well_formed V.joined }
{}

/// Three boards merge to the same in either grouping.
pub fn merging_is_associative(a: &Board, b: &Board, c: &Board)
    ensures { merged ⟦<JobRecord as Causal>⟧.joined (merged ⟦<JobRecord as Causal>⟧.joined a.now b.now) c.now
        ≡ merged ⟦<JobRecord as Causal>⟧.joined a.now (merged ⟦<JobRecord as Causal>⟧.joined b.now c.now) }
{
    joins_are_associative::<Retired>();
    tables_join_without_the_dropped::<Stamp, JobRecord>();
    tables_join_without_the_dropped::<Stamp, Reservation>();
    a.tables_are_well_formed();
    b.tables_are_well_formed();
    c.tables_are_well_formed();
    board_is_covered(a);
    board_is_covered(b);
    board_is_covered(c);
}

/// Two boards merge to the same from either side.
pub fn merging_is_commutative(a: &Board, b: &Board)
    ensures { merged ⟦<JobRecord as Causal>⟧.joined a.now b.now ≡ merged ⟦<JobRecord as Causal>⟧.joined b.now a.now }
{
    joins_are_commutative::<Retired>();
    tables_join_without_the_dropped::<Stamp, JobRecord>();
    tables_join_without_the_dropped::<Stamp, Reservation>();
    a.tables_are_well_formed();
    b.tables_are_well_formed();
    board_is_covered(a);
    board_is_covered(b);
}

/// A board merges with itself to itself.
pub fn merging_is_idempotent(a: &Board)
    ensures { merged ⟦<JobRecord as Causal>⟧.joined a.now a.now ≡ a.now }
{
    joins_are_idempotent::<Retired>();
    tables_join_without_the_dropped::<Stamp, JobRecord>();
    tables_join_without_the_dropped::<Stamp, Reservation>();
    a.tables_are_well_formed();
    board_is_covered(a);
}
