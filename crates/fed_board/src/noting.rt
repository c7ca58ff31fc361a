//! How the changes of jobs are listed, by the sites that made them.
ghost use Rattle.std.specs.Prelude.{◌≡◌, ◌<◌, ◌≤◌, ℕ, OnOk, IfOk, IsTrue, filter, length, slice_index};
ghost use Rattle.fed_stamp.specs.declared.sites.TheConstants.{SITES};
ghost use Rattle.fed_stamp.specs.Stamp.{StampValue};
ghost use Rattle.fed_lattice.specs.Latest.{stamp_cmp};
ghost use Rattle.fed_lattice.specs.Sets.{Has};
ghost use Rattle.fed_lattice.specs.Table.{IsAtEach, value_at};
ghost use Rattle.fed_board.specs.Board.{no_operation};
ghost use Rattle.fed_board.specs.declared.rises.Rise.{Rise};
ghost use Rattle.fed_board.specs.Changes.{AreAmong, IsListed, AreListed, AreRisen, Keeps, site_at, is_later};

use crate::changed_jobs::all_changed;
use crate::rises::Rise;
use crate::site_changes::SiteChanges;
use fed_lattice::{Causal, NoMemory, Table, table_is_well_formed};
use fed_record::JobRecord;
use fed_stamp::{JobId, SITES, Version};
use std::alloc::Global;
use std::array;

/// At each site, takes all changes out. Those that the version has seen need not be listed from then on.
pub(crate) fn forget_all(changes: &mut [SiteChanges; SITES], version: &Version)
    ensures { (s : ℕ) → s < SITES → slice_index version.now s ≤ (site_at changes.new s).floor }
{
    for site in 0..SITES {
        let floor = u64::from(version.counters()[site]);
        changes[site].forget(floor);
    }
}

/// None for each site, where those that the version has seen need not be listed.
pub(crate) fn none_after(alloc: Global, version: &Version) -> [SiteChanges; SITES]
    ensures { (s : ℕ) → s < SITES → slice_index version.now s ≤ (site_at result s).floor }
{
    let mut changes = array::from_fn(|_| SiteChanges::new(alloc));
    forget_all(&mut changes, version);
    changes
}

/// Lists a change of a job by a site.
pub(crate) fn note_at(
    changes: &mut [SiteChanges; SITES],
    site: usize,
    counter: u64,
    job: JobId,
    jobs: usize,
) -> Result<(), NoMemory>
    requires { site < SITES }
    ensures kept { Keeps changes.old changes.new }
    ensures listed { OnOk result (IsListed (site_at changes.new site) job counter) }
{
    changes[site].note(job, counter, jobs)
}

// Adds the changes by which a version of the operations of one job is behind another.
fn add_rises(
    rises: &mut Vec<Rise>,
    mine: &Version,
    theirs: &Version,
    job: JobId,
) -> Result<(), NoMemory>
    ensures kept { OnOk result ((x : Rise) → Has rises.old.items x → Has rises.new.items x) }
    ensures added { OnOk result ((s : ℕ) → s < SITES → slice_index mine.now s < slice_index theirs.now s →
        Has rises.new.items (record { counter = slice_index theirs.now s; site = s; job = job })) }
{
    for site in 0..SITES {
        let counter = theirs.counters()[site];
        if mine.counters()[site] < counter {
            let counter = u64::from(counter);
            rises.push(Rise { counter, site, job })?;
        }
    }
    Ok(())
}

/// The version of the operations of the job.
fn touched_at(jobs: &Table<JobId, JobRecord>, job: JobId) -> Version
    ensures { result ≡ (value_at stamp_cmp no_operation jobs.now job).touched }
{
    match jobs.get(job) {
        Some(record) => record.touched(),
        None => Version::default(),
    }
}

// The changes by which the jobs are behind the records.
fn rises_of(
    alloc: Global,
    jobs: &Table<JobId, JobRecord>,
    records: &Table<JobId, JobRecord>,
) -> Result<Vec<Rise>, NoMemory>
    ensures { IfOk result (λ v. IsAtEach stamp_cmp (AreAmong v.items jobs.now) records.now) }
{
    let mut rises = Vec::new(alloc);
    for (job, record) in records.iter() {
        add_rises(&mut rises, &touched_at(jobs, *job), &record.touched(), *job)?;
    }
    Ok(rises)
}

// Lists these changes.
fn note_all(changes: &mut [SiteChanges; SITES], rises: &[Rise], jobs: usize) -> Result<(), NoMemory>
    ensures kept { Keeps changes.old changes.new }
    ensures listed { OnOk result ((x : Rise) → Has rises.now x → x.site < SITES →
        IsListed (site_at changes.new x.site) x.job x.counter) }
{
    for rise in rises {
        if rise.site < SITES {
            note_at(changes, rise.site, rise.counter, rise.job, jobs)?;
        }
    }
    Ok(())
}

/// Lists the changes by which the jobs are behind the records, in ascending order of the counters.
pub(crate) fn note_records(
    alloc: Global,
    changes: &mut [SiteChanges; SITES],
    jobs: &Table<JobId, JobRecord>,
    records: &Table<JobId, JobRecord>,
) -> Result<(), NoMemory>
    ensures kept { Keeps changes.old changes.new }
    ensures listed { OnOk result (AreRisen changes.new jobs.now records.now) }
{
    let mut rises = rises_of(alloc, jobs, records)?;
    rises.sort_by_key(|rise| rise.counter)?;
    note_all(changes, &rises, jobs.len().saturating_add(records.len()))
}

/// Whether all changes beyond the version are listed.
fn are_listed_after(changes: &[SiteChanges; SITES], need: &Version) -> bool
    ensures { IsTrue result → (s : ℕ) → s < SITES → (site_at changes.now s).floor ≤ slice_index need.now s }
{
    for site in 0..SITES {
        if changes[site].floor() > u64::from(need.counters()[site]) {
            return false;
        }
    }
    true
}

// The jobs that were touched beyond the version, where all changes beyond it are listed.
fn listed_changed(
    alloc: Global,
    changes: &[SiteChanges; SITES],
    jobs: &Table<JobId, JobRecord>,
    need: &Version,
) -> Result<Table<JobId, JobRecord>, NoMemory>
    requires listed { AreListed changes.now jobs.now }
    requires counters { IsAtEach stamp_cmp (λ job r. length r.touched ≡ SITES) jobs.now }
    requires after { (s : ℕ) → s < SITES → (site_at changes.now s).floor ≤ slice_index need.now s }
    ensures changed { IfOk result (λ r. r ≡ filter (λ e. is_later need.now e.1) jobs.now) }
{
    table_is_well_formed(jobs);
    let mut changed = Table::bottom(alloc);
    for site in 0..SITES {
        changes[site].add_later(&mut changed, jobs, need, u64::from(need.counters()[site]))?;
    }
    table_is_well_formed(&changed);
    Ok(changed)
}

/// The jobs that were touched beyond the version. Where all changes beyond it are listed, only jobs that are listed
/// beyond it are looked at.
pub(crate) fn changed_after(
    alloc: Global,
    changes: &[SiteChanges; SITES],
    jobs: &Table<JobId, JobRecord>,
    need: &Version,
) -> Result<Table<JobId, JobRecord>, NoMemory>
    requires listed { AreListed changes.now jobs.now }
    requires counters { IsAtEach stamp_cmp (λ job r. length r.touched ≡ SITES) jobs.now }
    ensures changed { IfOk result (λ r. r ≡ filter (λ e. is_later need.now e.1) jobs.now) }
{
    if are_listed_after(changes, need) {
        listed_changed(alloc, changes, jobs, need)
    } else {
        all_changed(alloc, jobs, need)
    }
}
