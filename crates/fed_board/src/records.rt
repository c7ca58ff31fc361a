//! The records of a board, or of a part of one.
ghost use Rattle.std.specs.Prelude.{◌≡◌, ◌↔◌, ◌&&◌, All, IsTrue, IsSome};
ghost use Rattle.std.specs.List.Sorted.{IsStrictlySortedBy};
ghost use Rattle.std.specs.Map.{keys_of, values_of};
ghost use Rattle.std.specs.Map.Iter.{ShowsInOrder, deref_pair};
ghost use Rattle.std.specs.Ordering.{nat_cmp};
ghost use Rattle.fed_stamp.specs.Stamp.{StampValue};
ghost use Rattle.fed_lattice.specs.Latest.{stamp_cmp};
ghost use Rattle.fed_lattice.specs.Table.{IsTable};
ghost use Rattle.fed_record.specs.JobRecord.{JobRecordValue, job_reads};
ghost use Rattle.fed_model.specs.Letter.{is_submitted};
ghost use Rattle.fed_model.specs.Reservation.{ReservationView};
ghost use Rattle.fed_board.specs.Board.{IsBoard, board_reads};
ghost use Rattle.fed_model.specs.Identifiers.{jobs_in, reservations_in};

use crate::same::{are_same, is_same};
use fed_lattice::{Causal, Entries, Table, table_is_well_formed};
use fed_ranges::{Retired, Retirements};
use fed_record::{JobRecord, Reservation};
use fed_stamp::{JobId, Stamp, Version};
use std::marker::Model;

/// Records that a board of the version may have: some of its jobs and reservations, or all, and of some sites, or all,
/// what they have retired. They are seen as that board, and can be joined into another; what a board keeps besides,
/// counts of identifiers and lists of changes, they have not.
#[derive(Drop)]
pub struct Records {
    pub(crate) version: Version,
    pub(crate) retired: Retired,
    pub(crate) jobs: Table<JobId, JobRecord>,
    pub(crate) reservations: Table<Stamp, Reservation>,
}

impl Model for Records {
    ghost use Rattle.fed_board.specs.Board.{BoardValue, IsBoard};

    ghost Value = { BoardValue };

    ghost view = { λ r. record { version = r.version; retired = r.retired; jobs = r.jobs; reservations = r.reservations } };

    ghost invariant = { λ r.
        IsBoard (record { version = r.version; retired = r.retired; jobs = r.jobs; reservations = r.reservations }) };
}

impl Records {
    /// These records beside the version. It asks for what holds of every board.
    pub fn new(
        version: Version,
        retired: Retired,
        jobs: Table<JobId, JobRecord>,
        reservations: Table<Stamp, Reservation>,
    ) -> Records
        requires { IsBoard (record { version = version; retired = retired; jobs = jobs; reservations = reservations }) }
        ensures { result ≡ record { version = version; retired = retired; jobs = jobs; reservations = reservations } }
    {
        Records {
            version,
            retired,
            jobs,
            reservations,
        }
    }

    /// The version of the board that may have them.
    pub fn version(&self) -> Version
        ensures value { result ≡ self.now.version }
        ensures board { IsBoard self.now }
    {
        let version = self.version;
        version
    }

    /// What sites have retired: ranges of the counters of their identifiers. Of these there is no record.
    pub fn retired(&self) -> &Retired
        ensures value { result.now ≡ self.now.retired }
        ensures board { IsBoard self.now }
        ensures well_formed { IsTable nat_cmp ⟦<Retirements as Causal>⟧.well_formed self.now.retired }
    {
        table_is_well_formed(&self.retired);
        &self.retired
    }

    /// The jobs with their records, in ascending order of the stamps of their Submits. Each is submitted.
    pub fn jobs(&self) -> Entries<'_, JobId, JobRecord>
        ensures entries { result ≡ self.now.jobs }
        ensures runs { ShowsInOrder (deref_pair {K = StampValue} {X = JobRecordValue}) }
        ensures ascending { IsStrictlySortedBy stamp_cmp (keys_of self.now.jobs) }
        ensures submitted { All (λ r. IsTrue (is_submitted (job_reads r))) (values_of self.now.jobs) }
        ensures ids { keys_of self.now.jobs ≡ jobs_in (board_reads self.now) }
        ensures well_formed { All ⟦<JobRecord as Causal>⟧.well_formed (values_of self.now.jobs) }
    {
        self.jobs.iter()
    }

    /// The reservations, in ascending order of the stamps of their Reserves. Each is made.
    pub fn reservations(&self) -> Entries<'_, Stamp, Reservation>
        ensures entries { result ≡ self.now.reservations }
        ensures runs { ShowsInOrder (deref_pair {K = StampValue} {X = ReservationView}) }
        ensures ascending { IsStrictlySortedBy stamp_cmp (keys_of self.now.reservations) }
        ensures made { All IsSome (values_of self.now.reservations) }
        ensures ids { keys_of self.now.reservations ≡ reservations_in (board_reads self.now) }
    {
        self.reservations.iter()
    }

    // That the tables are well formed.
    pub(crate) fn tables_are_well_formed(&self)
        ensures retired { IsTable nat_cmp ⟦<Retirements as Causal>⟧.well_formed self.now.retired }
        ensures jobs { IsTable stamp_cmp ⟦<JobRecord as Causal>⟧.well_formed self.now.jobs }
        ensures reservations { IsTable stamp_cmp ⟦<Reservation as Causal>⟧.well_formed self.now.reservations }
    {
        table_is_well_formed(&self.retired);
        table_is_well_formed(&self.jobs);
        table_is_well_formed(&self.reservations);
    }
}

/// Records are equal exactly where they are identical: where their versions, what is retired, their jobs and their
/// reservations are.
impl PartialEq for Records {
    ghost use Rattle.fed_board.specs.BoardLaws.{same_board, board_laws};

    ghost eq = { same_board };

    ghost laws = { board_laws };

    fn eq(&self, other: &Self) -> bool
        ensures by_parts { result ≡ same_board self.now other.now }
        ensures same { IsTrue result ↔ (self.now ≡ other.now) }
    {
        self.version == other.version
            && is_same(&self.retired, &other.retired)
            && are_same(
                &self.jobs,
                &other.jobs,
                &self.reservations,
                &other.reservations,
            )
    }
}
