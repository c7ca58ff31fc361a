//! Jobs written as JSON values.
ghost use Rattle.std.specs.Prelude.{◌≡◌, length, IsTrue, IfOk};
ghost use Rattle.serde_json.specs.View.{view};
ghost use Rattle.fed_record.specs.JobRecord.{job_reads};
ghost use Rattle.fed_model.specs.Letter.{is_submitted};
ghost use Rattle.fed_job_json.specs.Job.{job_value};

use crate::members::{put_holds_to_account, put_nodes_to_limit, put_sites_to_owner};
use crate::values::{write_stamp, write_version};
use fed_job_json::Format;
use fed_record::JobRecord;
use fed_stamp::{JobId, SITES};
use serde_json::{Map, Value, put};
use std::alloc::{AllocError, Global};

/// The format 2 value of the job.
#[tactic(auto, using(crate::proofs::MemberLaws::members_are))]
pub fn write_job(alloc: Global, id: JobId, job: &JobRecord) -> Result<Value, AllocError>
    requires submitted { IsTrue (is_submitted (job_reads job.now)) }
    requires sites { length (job_reads job.now).touched ≡ SITES }
    ensures { IfOk result (λ v. view v ≡ job_value Format.Two (id, job.now)) }
{
    let mut members = Map::new(alloc);
    put(
        &mut members,
        alloc,
        "touched",
        write_version(alloc, &job.touched())?,
    )?;
    put_sites_to_owner(&mut members, alloc, job)?;
    put_nodes_to_limit(&mut members, alloc, job)?;
    put(&mut members, alloc, "id", write_stamp(alloc, id)?)?;
    put_holds_to_account(&mut members, alloc, job)?;
    Ok(Value::Object(members))
}
