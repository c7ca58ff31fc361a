//! Boards: what is read of a set of operations, without them.
ghost use Rattle.std.specs.Prelude.{◌≡◌, ◌↔◌, ◌≤◌, ◌<◌, [], ◌∷◌, ◌++◌, false, Some, None, IsTrue, IsSome};
ghost use Rattle.std.specs.Prelude.{IfOk, OnOk, OnErr, MatchOption, All, filter, option_copied};
ghost use Rattle.std.specs.BTreeMap.{is_at};
ghost use Rattle.std.specs.List.Sorted.{IsStrictlySortedBy};
ghost use Rattle.std.specs.Map.{keys_of, values_of, lookup};
ghost use Rattle.std.specs.Map.Iter.{ShowsInOrder, deref_pair};
ghost use Rattle.std.specs.Ordering.{nat_cmp};
ghost use Rattle.fed_stamp.specs.Stamp.{StampValue};
ghost use Rattle.fed_stamp.specs.Version.{covers};
ghost use Rattle.fed_lattice.specs.Sets.{Has};
ghost use Rattle.fed_lattice.specs.History.{History};
ghost use Rattle.fed_lattice.specs.Latest.{stamp_cmp};
ghost use Rattle.fed_lattice.specs.Table.{IsTable};
ghost use Rattle.fed_model.specs.Body.{Body, Body.Retire, job_of, reservation_of};
ghost use Rattle.fed_ranges.specs.Retired.{has_retired};
ghost use Rattle.fed_record.specs.JobRecord.{JobRecordValue, job_reads};
ghost use Rattle.fed_model.specs.Letter.{is_submitted};
ghost use Rattle.fed_record.specs.Operation.{body_of};
ghost use Rattle.fed_model.specs.Reservation.{ReservationView};
ghost use Rattle.fed_board.specs.Board.{IsBoard, HasNamed, board_reads, empty_board, merged, with_records};
ghost use Rattle.fed_board.specs.Changes.{is_later};
ghost use Rattle.fed_board.specs.Counts.{ids_of};
ghost use Rattle.fed_model.specs.Lawful.{IsLawful, AreKin};
ghost use Rattle.fed_model.specs.Identifiers.{jobs_in, reservations_in};
ghost use Rattle.fed_model.specs.View.{view};
ghost use Rattle.fed_theory.specs.ViewSteps.{add_to_view, join_views, join_records};

use crate::counts::{change_at, count_ids, count_more};
use crate::noting::{changed_after, forget_all, none_after, note_at, note_records};
use crate::records::Records;
use crate::retiring::{drop_ids, gone_ids, ids_within, without_retired};
use crate::same::{are_same, is_same};
use crate::site_changes::SiteChanges;
use fed_lattice::{Causal, Entries, NoMemory, Table, join_entries, table_is_well_formed};
use fed_ranges::{Range, Retired, Retirements};
use fed_record::{JobRecord, Operation, Reservation};
use fed_stamp::{JobId, SITES, SiteId, Stamp, Version};
use std::alloc::Global;
use std::marker::Model;

/// What is read of a set of operations: its version, what each site has retired, the record of each job, by the stamp of
/// its `Submit`, and each reservation, by the stamp of its `Reserve`. Of what is retired it has nothing. A board stands
/// for the set where it reads as the set's view.
#[derive(Drop)]
pub struct Board {
    alloc: Global,
    version: Version,
    retired: Retired,
    jobs: Table<JobId, JobRecord>,
    reservations: Table<Stamp, Reservation>,
    job_counts: [u64; SITES],
    reservation_counts: [u64; SITES],
    // the latest changes of jobs by each site
    changes: [SiteChanges; SITES],
}

impl Model for Board {
    ghost use Rattle.std.specs.Map.{keys_of};
    ghost use Rattle.fed_board.specs.Board.{BoardValue, IsBoard};
    ghost use Rattle.fed_board.specs.Changes.{AreListed};
    ghost use Rattle.fed_board.specs.Counts.{AreCounts};

    ghost Value = { BoardValue };

    ghost view = { λ b. record { version = b.version; retired = b.retired; jobs = b.jobs; reservations = b.reservations } };

    ghost invariant = { λ b.
        IsBoard (record { version = b.version; retired = b.retired; jobs = b.jobs; reservations = b.reservations })
        × AreCounts b.job_counts (keys_of b.jobs) × AreCounts b.reservation_counts (keys_of b.reservations)
        × AreListed b.changes b.jobs };
}

impl Board {
    /// The board of no operation.
    #[tactic(auto, unfolding(fed_ranges::specs::Retired::latest_retires))]
    pub fn new(alloc: Global) -> Board
        ensures value { result ≡ empty_board }
        ensures stands { board_reads result ≡ view [] }
    {
        let version = Version::default();
        Board {
            alloc,
            changes: none_after(alloc, &version),
            version,
            retired: Table::bottom(alloc),
            jobs: Table::bottom(alloc),
            reservations: Table::bottom(alloc),
            job_counts: [0; SITES],
            reservation_counts: [0; SITES],
        }
    }

    /// The board that has these records and no others.
    pub fn from_records(alloc: Global, records: Records) -> Board
        ensures { result ≡ records }
    {
        let Records {
            version,
            retired,
            jobs,
            reservations,
        } = records;
        Board {
            alloc,
            changes: none_after(alloc, &version),
            version,
            retired,
            job_counts: count_ids(&jobs),
            reservation_counts: count_ids(&reservations),
            jobs,
            reservations,
        }
    }

    /// For each site the greatest counter among the stamps of its operations.
    pub fn version(&self) -> Version
        ensures value { result ≡ self.now.version }
        ensures board { IsBoard self.now }
    {
        let seen = self.version;
        seen
    }

    /// What each site has retired: ranges of the counters of its identifiers. Of these the board has nothing.
    pub fn retired(&self) -> &Retired
        ensures value { result.now ≡ self.now.retired }
        ensures board { IsBoard self.now }
        ensures well_formed { IsTable nat_cmp ⟦<Retirements as Causal>⟧.well_formed self.now.retired }
    {
        table_is_well_formed(&self.retired);
        &self.retired
    }

    /// The record of the job, or `None` where the job is not on the board. A record on a board is of a job that is
    /// submitted.
    pub fn job(&self, job: JobId) -> Option<&JobRecord>
        ensures value { option_copied result ≡ lookup (is_at (stamp_cmp job)) self.now.jobs }
        ensures reads { MatchOption (option_copied result) (IsTrue (is_submitted ((board_reads self.now).job job)) → ⊥)
            (λ r. (job_reads r ≡ (board_reads self.now).job job) × IsTrue (is_submitted (job_reads r))) }
    {
        self.jobs.get(job)
    }

    /// The jobs on the board with their records, in ascending order of the stamps of their Submits. They are exactly
    /// the jobs that are submitted.
    pub fn jobs(&self) -> Entries<'_, JobId, JobRecord>
        ensures entries { result ≡ self.now.jobs }
        ensures runs { ShowsInOrder (deref_pair {K = StampValue} {X = JobRecordValue}) }
        ensures ascending { IsStrictlySortedBy stamp_cmp (keys_of self.now.jobs) }
        ensures submitted { All (λ r. IsTrue (is_submitted (job_reads r))) (values_of self.now.jobs) }
        ensures all { (job : StampValue) →
            Has (keys_of self.now.jobs) job ↔ IsTrue (is_submitted ((board_reads self.now).job job)) }
        ensures ids { keys_of self.now.jobs ≡ jobs_in (board_reads self.now) }
        ensures well_formed { All ⟦<JobRecord as Causal>⟧.well_formed (values_of self.now.jobs) }
    {
        self.jobs.iter()
    }

    /// The jobs that were touched beyond the version, with their records. Where the board has listed all changes beyond
    /// it, the time that this takes grows with these changes and with the logarithm of the jobs; else with all jobs.
    pub fn changed_jobs(&self, need: &Version) -> Result<Table<JobId, JobRecord>, NoMemory>
        ensures changed { IfOk result (λ r. r ≡ filter (λ e. is_later need.now e.1) self.now.jobs) }
        ensures ascending { OnOk result (IsStrictlySortedBy stamp_cmp (keys_of self.now.jobs)) }
    {
        table_is_well_formed(&self.jobs);
        changed_after(self.alloc, &self.changes, &self.jobs, need)
    }

    /// The reservation that was made under the stamp, or `None` where it is not on the board. A reservation on a board
    /// is made.
    pub fn reservation(&self, id: Stamp) -> Option<&Reservation>
        ensures value { option_copied result ≡ lookup (is_at (stamp_cmp id)) self.now.reservations }
        ensures reads { MatchOption (option_copied result) ((board_reads self.now).reservation id ≡ None)
            (λ r. (r ≡ (board_reads self.now).reservation id) × IsSome r) }
    {
        self.reservations.get(id)
    }

    /// The reservations on the board, in ascending order of the stamps of their Reserves. They are exactly those that
    /// are made.
    pub fn reservations(&self) -> Entries<'_, Stamp, Reservation>
        ensures entries { result ≡ self.now.reservations }
        ensures runs { ShowsInOrder (deref_pair {K = StampValue} {X = ReservationView}) }
        ensures ascending { IsStrictlySortedBy stamp_cmp (keys_of self.now.reservations) }
        ensures made { All IsSome (values_of self.now.reservations) }
        ensures all { (id : StampValue) →
            Has (keys_of self.now.reservations) id ↔ IsSome ((board_reads self.now).reservation id) }
        ensures ids { keys_of self.now.reservations ≡ reservations_in (board_reads self.now) }
    {
        self.reservations.iter()
    }

    /// How many jobs on the board were submitted at the site. It takes the same time however many there are.
    pub fn job_count(&self, site: SiteId) -> u64
        ensures { result ≡ ids_of site (keys_of self.now.jobs) }
    {
        self.job_counts[site.get() as usize]
    }

    /// How many reservations on the board were made at the site, those that are cancelled among them. It takes the same
    /// time however many there are.
    pub fn reservation_count(&self, site: SiteId) -> u64
        ensures { result ≡ ids_of site (keys_of self.now.reservations) }
    {
        self.reservation_counts[site.get() as usize]
    }

    /// An equal board.
    pub fn copy(&self) -> Result<Board, NoMemory>
        ensures { IfOk result (λ b. b ≡ self.now) }
    {
        Ok(Board {
            alloc: self.alloc,
            changes: none_after(self.alloc, &self.version),
            version: self.version,
            retired: self.retired.copy()?,
            jobs: self.jobs.copy()?,
            reservations: self.reservations.copy()?,
            job_counts: self.job_counts,
            reservation_counts: self.reservation_counts,
        })
    }

    // That the tables are well formed.
    pub(crate) fn tables_are_well_formed(&self)
        ensures retired { IsTable nat_cmp ⟦<Retirements as Causal>⟧.well_formed self.now.retired }
        ensures jobs { IsTable stamp_cmp ⟦<JobRecord as Causal>⟧.well_formed self.now.jobs }
        ensures reservations { IsTable stamp_cmp ⟦<Reservation as Causal>⟧.well_formed self.now.reservations }
    {
        table_is_well_formed(&self.retired);
        table_is_well_formed(&self.jobs);
        table_is_well_formed(&self.reservations);
    }

    // Changes the record of the job that the operation is of.
    fn change_job(&mut self, job: JobId, at: Stamp, operation: &Operation) -> Result<(), NoMemory>
        requires of { job_of at (body_of operation.now) ≡ Some job }
        requires fresh { covers self.old.version at ≡ false }
        requires named { HasNamed self.old at (body_of operation.now) }
        ensures added { OnOk result (board_reads self.new ≡ add_to_view (board_reads self.old) (at, body_of operation.now)) }
        ensures unchanged { OnErr result (self.new ≡ self.old) }
    {
        let jobs = self.jobs.len();
        let site = at.site().get() as usize;
        note_at(&mut self.changes, site, at.counter(), job, jobs)?;
        change_at(&mut self.jobs, &mut self.job_counts, job, at, operation)?;
        self.version.raise(at);
        Ok(())
    }

    // Changes the reservation that the operation is of.
    fn change_reservation(
        &mut self,
        id: Stamp,
        at: Stamp,
        operation: &Operation,
    ) -> Result<(), NoMemory>
        requires of { reservation_of at (body_of operation.now) ≡ Some id }
        requires fresh { covers self.old.version at ≡ false }
        requires named { HasNamed self.old at (body_of operation.now) }
        ensures added { OnOk result (board_reads self.new ≡ add_to_view (board_reads self.old) (at, body_of operation.now)) }
        ensures unchanged { OnErr result (self.new ≡ self.old) }
    {
        change_at(
            &mut self.reservations,
            &mut self.reservation_counts,
            id,
            at,
            operation,
        )?;
        self.version.raise(at);
        Ok(())
    }

    // Retires the identifiers of the stamp's site that have a counter in the range: nothing of them is kept.
    fn retire(&mut self, at: Stamp, range: Range) -> Result<(), NoMemory>
        requires first { 1 ≤ range.first }
        requires some { range.first ≤ range.last }
        requires given { range.last < at.counter }
        ensures added { OnOk result
            (board_reads self.new ≡ add_to_view (board_reads self.old) (at, Retire range.first range.last)) }
        ensures unchanged { OnErr result (self.new ≡ self.old) }
    {
        self.tables_are_well_formed();
        let jobs = ids_within(self.alloc, &self.jobs, at.site(), range)?;
        let reservations = ids_within(self.alloc, &self.reservations, at.site(), range)?;
        self.retired.apply_at(at.site(), at, &range)?;
        drop_ids(&mut self.jobs, &mut self.job_counts, &jobs);
        drop_ids(
            &mut self.reservations,
            &mut self.reservation_counts,
            &reservations,
        );
        self.version.raise(at);
        Ok(())
    }

    /// Whether the job or the reservation that an operation with the stamp `at` is of is on the board, or the operation
    /// makes it; of a `Retire`, whether its range has a number, begins at 1 or later, and ends before the stamp's counter.
    pub fn has_named(&self, at: Stamp, operation: &Operation) -> bool
        ensures { IsTrue result ↔ HasNamed self.now at (body_of operation.now) }
    {
        match operation {
            Operation::Submit { .. } | Operation::Reserve { .. } => true,
            Operation::Cancel { reservation } => self.reservation(*reservation).is_some(),
            Operation::OfJob(job, _) => self.job(*job).is_some(),
            Operation::Retire { first, last } => {
                1 <= *first && *first <= *last && *last < at.counter()
            }
        }
    }

    /// Adds the operation with the stamp `at`, which the version does not cover. It asks that the job or the
    /// reservation that the operation is of is on the board, unless the operation makes it. One record is changed, in
    /// place; or, by a `Retire`, what is in its range is dropped, in time that grows with the identifiers up to the
    /// range's end. A board that stands for a lawful set then stands for the set with the operation. On an error the
    /// board is as before.
    pub fn apply(&mut self, at: Stamp, operation: &Operation) -> Result<(), NoMemory>
        requires fresh { covers self.old.version at ≡ false }
        requires named { HasNamed self.old at (body_of operation.now) }
        ensures added { OnOk result (board_reads self.new ≡ add_to_view (board_reads self.old) (at, body_of operation.now)) }
        ensures stands { OnOk result ((ops : History Body) → IsLawful ops → board_reads self.old ≡ view ops →
            board_reads self.new ≡ view (ops ++ (at, body_of operation.now) ∷ [])) }
        ensures unchanged { OnErr result (self.new ≡ self.old) }
    {
        if let Some(job) = operation.job(at) {
            return self.change_job(job, at, operation);
        }
        match operation {
            Operation::Retire { first, last } => {
                let range = Range {
                    first: *first,
                    last: *last,
                };
                self.retire(at, range)
            }
            _ => self.change_reservation(operation.reservation(at).unwrap(), at, operation),
        }
    }

    /// Joins the other board to this one, each job and each reservation by itself, but for those that one of the two has
    /// retired. Where the two stand for kin sets, those that two sites can hold at the same time, this board then stands
    /// for their union. On an error it is as before.
    pub fn merge(&mut self, other: &Board) -> Result<(), NoMemory>
        ensures value { OnOk result (self.new ≡ merged ⟦<JobRecord as Causal>⟧.joined self.old other.now) }
        ensures joined { OnOk result (board_reads self.new ≡ join_views (board_reads self.old) (board_reads other.now)) }
        ensures stands { OnOk result ((ops others : History Body) → AreKin ops others → board_reads self.old ≡ view ops →
            board_reads other.now ≡ view others → board_reads self.new ≡ view (ops ++ others)) }
        ensures unchanged { OnErr result (self.new ≡ self.old) }
    {
        let retired = self
            .retired
            .join(&self.version, &other.retired, &other.version)?;
        let jobs = self.jobs.join(&self.version, &other.jobs, &other.version)?;
        let jobs = without_retired(self.alloc, jobs, &retired)?;
        let reservations = self
            .reservations
            .join(&self.version, &other.reservations, &other.version)?;
        let reservations = without_retired(self.alloc, reservations, &retired)?;
        self.job_counts = count_ids(&jobs);
        self.reservation_counts = count_ids(&reservations);
        self.retired = retired;
        self.jobs = jobs;
        self.reservations = reservations;
        self.version = self.version.join(&other.version);
        forget_all(&mut self.changes, &self.version);
        Ok(())
    }

    // The jobs of this board and of the records that the other side has retired.
    fn gone_jobs(&self, other: &Records) -> Result<Vec<Stamp>, NoMemory>
        ensures { IfOk result (λ v. v.items ≡
            filter (has_retired other.now.retired) (keys_of self.now.jobs)
            ++ filter (has_retired self.now.retired) (keys_of other.now.jobs)) }
    {
        gone_ids(
            self.alloc,
            &self.jobs,
            &self.retired,
            &other.jobs,
            &other.retired,
        )
    }

    // So the reservations.
    fn gone_reservations(&self, other: &Records) -> Result<Vec<Stamp>, NoMemory>
        ensures { IfOk result (λ v. v.items ≡
            filter (has_retired other.now.retired) (keys_of self.now.reservations)
            ++ filter (has_retired self.now.retired) (keys_of other.now.reservations)) }
    {
        gone_ids(
            self.alloc,
            &self.reservations,
            &self.retired,
            &other.reservations,
            &other.retired,
        )
    }

    /// Joins the records to those of this board, each job and each reservation by itself, and leaves all others as they
    /// are, but for those that one of the two has retired. So they may be of a part of a board: those in which this one is
    /// behind. On an error this board is as before. The time that it takes grows with the records, and with the logarithm
    /// of those that are here; where the records tell of retired identifiers, with all that are here.
    pub fn join_records(&mut self, other: &Records) -> Result<(), NoMemory>
        ensures value { OnOk result (self.new ≡ with_records ⟦<JobRecord as Causal>⟧.joined self.old other.now) }
        ensures joined { OnOk result (board_reads self.new ≡ join_records (board_reads self.old) (board_reads other.now)) }
        ensures unchanged { OnErr result (self.new ≡ self.old) }
    {
        self.tables_are_well_formed();
        other.tables_are_well_formed();
        let theirs = &other.version;
        let gone_jobs = self.gone_jobs(other)?;
        let gone_reservations = self.gone_reservations(other)?;
        note_records(self.alloc, &mut self.changes, &self.jobs, &other.jobs)?;
        let (jobs, reservations) = join_entries(
            &mut self.jobs,
            &mut self.reservations,
            &mut self.retired,
            &self.version,
            &other.jobs,
            &other.reservations,
            &other.retired,
            theirs,
        )?;
        self.job_counts = count_more(self.job_counts, &jobs, &self.jobs);
        self.reservation_counts = count_more(
            self.reservation_counts,
            &reservations,
            &self.reservations,
        );
        drop_ids(&mut self.jobs, &mut self.job_counts, &gone_jobs);
        drop_ids(
            &mut self.reservations,
            &mut self.reservation_counts,
            &gone_reservations,
        );
        let reached = self.version.join(&other.version);
        self.version = reached;
        Ok(())
    }
}

/// Boards are equal exactly where they are identical: where their versions, what they have retired, their jobs and their
/// reservations are.
impl PartialEq for Board {
    ghost use Rattle.fed_board.specs.BoardLaws.{same_board, board_laws};

    ghost eq = { same_board };

    ghost laws = { board_laws };

    fn eq(&self, other: &Self) -> bool
        ensures by_parts { result ≡ same_board self.now other.now }
        ensures same { IsTrue result ↔ (self.now ≡ other.now) }
    {
        self.version == other.version
            && is_same(&self.retired, &other.retired)
            && are_same(
                &self.jobs,
                &other.jobs,
                &self.reservations,
                &other.reservations,
            )
    }
}
