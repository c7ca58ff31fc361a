//! The jobs that were touched beyond a version.
ghost use Rattle.std.specs.Prelude.{◌≡◌, ◌<◌, ◌≤◌, ℕ, IfOk, OnOk, IsTrue, filter, slice_index};
ghost use Rattle.std.specs.List.Sorted.{IsStrictlySortedBy};
ghost use Rattle.std.specs.Map.{keys_of};
ghost use Rattle.fed_stamp.specs.Stamp.{StampValue};
ghost use Rattle.fed_lattice.specs.Latest.{stamp_cmp};
ghost use Rattle.fed_board.specs.Changes.{IsPart, IsFound, is_later};

use fed_lattice::{Causal, NoMemory, Table};
use fed_record::JobRecord;
use fed_stamp::{JobId, Version};
use std::alloc::Global;

/// Adds the job with its record, where it was touched beyond the version and is not there yet.
pub(crate) fn add_changed(
    changed: &mut Table<JobId, JobRecord>,
    jobs: &Table<JobId, JobRecord>,
    job: JobId,
    need: &Version,
) -> Result<(), NoMemory>
    requires { IsPart (is_later need.now) jobs.now changed.old }
    ensures part { OnOk result (IsPart (is_later need.now) jobs.now changed.new) }
    ensures kept { OnOk result ((other : StampValue) → IsFound (is_later need.now) jobs.now changed.old other →
        IsFound (is_later need.now) jobs.now changed.new other) }
    ensures found { OnOk result (IsFound (is_later need.now) jobs.now changed.new job) }
{
    if changed.get(job).is_some() {
        return Ok(());
    }
    if let Some(record) = jobs.get(job)
        && !record.touched().le(need)
    {
        changed.insert(job, record.copy()?)?;
    }
    Ok(())
}

/// The jobs that were touched beyond the version, looked for among all.
pub(crate) fn all_changed(
    alloc: Global,
    jobs: &Table<JobId, JobRecord>,
    need: &Version,
) -> Result<Table<JobId, JobRecord>, NoMemory>
    ensures changed { IfOk result (λ r. r ≡ filter (λ e. is_later need.now e.1) jobs.now) }
{
    let mut changed = Table::bottom(alloc);
    for (job, record) in jobs.iter() {
        if !record.touched().le(need) {
            changed.insert(*job, record.copy()?)?;
        }
    }
    Ok(changed)
}
