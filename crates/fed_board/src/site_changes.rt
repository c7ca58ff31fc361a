//! The changes of jobs that one site made.
ghost use Rattle.std.specs.Prelude.{◌≡◌, ℕ, ◌<◌, ◌≤◌, All, OnOk};
ghost use Rattle.fed_stamp.specs.Stamp.{StampValue};
ghost use Rattle.fed_board.specs.declared.changes.Change.{Change};
ghost use Rattle.fed_board.specs.Changes.{IsListed, IsPart, IsFound, is_later};

use crate::changed_jobs::add_changed;
use crate::changes::Change;
use fed_lattice::{NoMemory, Table};
use fed_record::JobRecord;
use fed_stamp::{JobId, SITES, Version};
use std::alloc::Global;
use std::collections::VecDeque;
use std::marker::Model;

/// The latest changes of jobs that one site made, in ascending order of the counters. No change up to the floor need be
/// listed; of each later one the job stands under its counter or a greater one.
#[derive(Drop)]
pub(crate) struct SiteChanges {
    floor: u64,
    changes: VecDeque<Change>,
}

impl Model for SiteChanges {
    ghost use Rattle.std.specs.List.Sorted.{IsNonDecreasingBy};
    ghost use Rattle.fed_board.specs.declared.changes.Change.{Change};
    ghost use Rattle.fed_board.specs.Changes.{SiteValue};

    ghost Value = { SiteValue };

    ghost view = { λ s. record { floor = s.floor; changes = s.changes.items } };

    ghost invariant = { λ s. IsNonDecreasingBy (λ (c : Change). c.counter) s.changes.items };
}

impl SiteChanges {
    /// None.
    pub(crate) fn new(alloc: Global) -> SiteChanges {
        SiteChanges {
            floor: 0,
            changes: VecDeque::new(alloc),
        }
    }

    /// The counter up to which changes need not be listed.
    pub(crate) fn floor(&self) -> u64
        ensures { result ≡ self.now.floor }
    {
        self.floor
    }

    /// Takes all changes out. Those up to the floor need not be listed from then on.
    pub(crate) fn forget(&mut self, floor: u64)
        ensures { floor ≤ self.new.floor }
    {
        self.changes.clear();
        self.floor = self.floor.max(floor);
    }

    // Takes the first change out, up to which changes need not be listed from then on.
    fn forget_first(&mut self)
        ensures { (other : StampValue) (c : ℕ) → IsListed self.old other c → IsListed self.new other c }
    {
        if let Some(first) = self.changes.pop_front() {
            self.floor = self.floor.max(first.counter);
        }
    }

    // The greatest counter that is listed, or 0 where none is.
    fn greatest(&self) -> u64
        ensures { All (λ (c : Change). c.counter ≤ result) self.now.changes }
    {
        match self.changes.back() {
            Some(change) => change.counter,
            None => 0,
        }
    }

    // Lists a change after all others, under the greatest counter where its own is below that.
    fn push(&mut self, job: JobId, counter: u64) -> Result<(), NoMemory>
        ensures kept { (other : StampValue) (c : ℕ) → IsListed self.old other c → IsListed self.new other c }
        ensures listed { OnOk result (IsListed self.new job counter) }
    {
        let counter = counter.max(self.greatest());
        self.changes.push_back(Change { counter, job })?;
        Ok(())
    }

    /// Lists a change. Where more are listed than a sixteenth of the jobs and 16, the first is forgotten: so the lists of
    /// all sites together have at most a few hundred entries more than there are jobs, and where a list doesn't reach
    /// back far enough, what is asked for is no small part of all. On an error all that was listed still is.
    pub(crate) fn note(&mut self, job: JobId, counter: u64, jobs: usize) -> Result<(), NoMemory>
        ensures kept { (other : StampValue) (c : ℕ) → IsListed self.old other c → IsListed self.new other c }
        ensures listed { OnOk result (IsListed self.new job counter) }
    {
        if self.changes.len() > jobs / SITES + SITES {
            self.forget_first();
        }
        self.push(job, counter)
    }

    /// Adds the jobs that the site changed under counters beyond the one that was seen, as far as they were touched
    /// beyond the version.
    pub(crate) fn add_later(
        &self,
        changed: &mut Table<JobId, JobRecord>,
        jobs: &Table<JobId, JobRecord>,
        need: &Version,
        seen: u64,
    ) -> Result<(), NoMemory>
        requires { IsPart (is_later need.now) jobs.now changed.old }
        ensures part { OnOk result (IsPart (is_later need.now) jobs.now changed.new) }
        ensures kept { OnOk result ((job : StampValue) → IsFound (is_later need.now) jobs.now changed.old job →
            IsFound (is_later need.now) jobs.now changed.new job) }
        ensures found { OnOk result ((job : StampValue) (c : ℕ) → self.now.floor < c → seen < c →
            IsListed self.now job c → IsFound (is_later need.now) jobs.now changed.new job) }
    {
        let start = self
            .changes
            .partition_point(|change| change.counter <= seen);
        for i in start..self.changes.len() {
            add_changed(changed, jobs, self.changes[i].job, need)?;
        }
        Ok(())
    }
}
