//! Jobs read from JSON values.
ghost use Rattle.std.specs.Prelude.{◌≡◌, true, IfOk};
ghost use Rattle.std.specs.Ordering.{nat_cmp};
ghost use Rattle.serde_json.specs.View.{view};
ghost use Rattle.fed_lattice.specs.Results.{mapped};
ghost use Rattle.fed_model.specs.Hold.{kind_cmp};
ghost use Rattle.fed_model.specs.Ranges.{IsSite};
ghost use Rattle.fed_job_json.specs.Pairs.{ArePairs};
ghost use Rattle.fed_job_json.specs.Covers.{covers_tags};
ghost use Rattle.fed_job_json.specs.Job.{parts_of, job_of};
ghost use Rattle.fed_job_json.specs.Members.{members_value};
ghost use Rattle.fed_job_json.specs.Parts.{job_from};

use crate::covers::has_covered_tags;
use crate::stages::stages;
use fed_job_json::fields::fields;
use fed_job_json::live_pairs::{holds, sites};
use fed_job_json::{Format, JobMembers, ReadJob, job_members, read_stamp, read_version};
use fed_json::{Flaw, both};
use fed_lattice::NoMemory;
use fed_record::{JobParts, JobRecord};
use fed_stamp::JobId;
use serde_json::Value;
use std::alloc::Global;

// All parts of the job, each in range.
fn parts(
    alloc: Global,
    members: &JobMembers<'_>,
    format: Format,
) -> Result<Result<ReadJob, Flaw>, NoMemory>
    ensures { IfOk result (λ r. mapped job_from r ≡ parts_of format (members_value members.now)) }
{
    let pairs = both(holds(alloc, members.holds)?, sites(alloc, members.sites)?);
    let stages = both(stages(members, format), read_version(members.touched));
    let others = both(fields(members, format), both(pairs, stages));
    match both(read_stamp(members.id), others) {
        Ok(read) => {
            let (id, (fields, ((holds, sites), (stages, touched)))) = read;
            Ok(Ok(ReadJob {
                id,
                fields,
                holds,
                sites,
                stages,
                touched,
            }))
        }
        Err(flaw) => Ok(Err(flaw)),
    }
}

// The record of what was read.
fn record(alloc: Global, job: &ReadJob) -> Result<JobRecord, NoMemory>
    requires holds { ArePairs (λ _. Unit {0}) kind_cmp job.now.holds.items }
    requires sites { ArePairs IsSite nat_cmp job.now.sites.items }
    requires covered { covers_tags (job_from job.now) ≡ true }
    ensures { IfOk result (λ r. r ≡ (job_from job.now).1) }
{
    JobRecord::from_parts(
        alloc,
        &JobParts {
            fields: job.fields,
            hold_tags: &job.holds,
            site_tags: &job.sites,
            stages: job.stages,
            touched: job.touched,
        },
    )
}

/// The identifier and the record of the job.
pub fn read_job(
    alloc: Global,
    job: &Value,
    format: Format,
) -> Result<Result<(JobId, JobRecord), Flaw>, NoMemory>
    ensures { IfOk result (λ r. r ≡ job_of format (view job.now)) }
{
    let Some(members) = job_members(job, format) else {
        return Ok(Err(Flaw::Shape));
    };
    let read = match parts(alloc, &members, format)? {
        Ok(read) => read,
        Err(flaw) => return Ok(Err(flaw)),
    };
    if !has_covered_tags(&read) {
        return Ok(Err(Flaw::Range));
    }
    let record = record(alloc, &read)?;
    if !record.has_covered_stamps() {
        return Ok(Err(Flaw::Range));
    }
    Ok(Ok((read.id, record)))
}
