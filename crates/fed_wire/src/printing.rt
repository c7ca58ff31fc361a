//! The text of a packet, printed job by job: the JSON value of a job is given back before the next is made.
ghost use Rattle.std.specs.Prelude.{◌≡◌, ◌++◌, ◌∷◌, [], false, map, length, IsTrue, IfOk, OnOk};
ghost use Rattle.serde_json.specs.View.{items_of};
ghost use Rattle.serde_json.specs.Written.{comma_if, compact_text, items_text};
ghost use Rattle.fed_record.specs.JobRecord.{job_reads};
ghost use Rattle.fed_model.specs.Letter.{is_submitted};
ghost use Rattle.fed_job_json.specs.declared.formats.Format.TheVariants.{Two};
ghost use Rattle.fed_job_json.specs.Job.{job_value};
ghost use Rattle.fed_wire.specs.Packet.{packet_value};
ghost use Rattle.fed_wire.specs.Printed.{IsPrinted, ArePrinted, without_jobs};

use crate::writing::frame_value;
use fed_board::records_are_covered;
use fed_delta::{Delta, Packet};
use fed_parts_json::write_job;
use fed_record::JobRecord;
use fed_stamp::{JobId, SITES};
use std::alloc::{AllocError, Global};

// The index of the first byte of the first job in the text, behind `{"format":2,"jobs":[` or the same with 3.
const JOBS_AT: usize = 20;

fn frame_text(alloc: Global, packet: &Packet) -> Result<Vec<u8>, AllocError>
    ensures text { IfOk result (λ b. b.items ≡ compact_text (packet_value Two (without_jobs packet.now))) }
    ensures printed { IfOk result (λ b. IsPrinted (packet_value Two (without_jobs packet.now))) }
{
    let value = frame_value(alloc, packet)?;
    Ok(value.to_vec(alloc)?)
}

fn job_text(alloc: Global, id: JobId, job: &JobRecord) -> Result<Vec<u8>, AllocError>
    requires submitted { IsTrue (is_submitted (job_reads job.now)) }
    requires sites { length (job_reads job.now).touched ≡ SITES }
    ensures text { IfOk result (λ b. b.items ≡ compact_text (job_value Two (id, job.now))) }
    ensures printed { IfOk result (λ b. IsPrinted (job_value Two (id, job.now))) }
{
    let value = write_job(alloc, id, job)?;
    Ok(value.to_vec(alloc)?)
}

// A comma, where a job stands before.
fn put_comma(text: &mut Vec<u8>, later: bool) -> Result<(), AllocError>
    ensures { OnOk result (text.new.items ≡ text.old.items ++ comma_if later) }
{
    if later {
        return text.extend_from_slice(b",");
    }
    Ok(())
}

fn put_job(
    text: &mut Vec<u8>,
    alloc: Global,
    later: bool,
    id: JobId,
    job: &JobRecord,
) -> Result<(), AllocError>
    requires submitted { IsTrue (is_submitted (job_reads job.now)) }
    requires sites { length (job_reads job.now).touched ≡ SITES }
    ensures text { OnOk result (text.new.items ≡ text.old.items ++ (comma_if later ++ compact_text (job_value Two (id, job.now)))) }
    ensures printed { OnOk result (IsPrinted (job_value Two (id, job.now))) }
{
    put_comma(text, later)?;
    let job = job_text(alloc, id, job)?;
    text.extend_from_slice(&job)?;
    Ok(())
}

// The jobs, up to the bracket that closes their array.
fn put_jobs(text: &mut Vec<u8>, alloc: Global, delta: &Delta) -> Result<(), AllocError>
    ensures text { OnOk result (text.new.items ++ 93 ∷ [] ≡ text.old.items ++ items_text false (items_of (map (job_value Two) delta.now.changes.jobs))) }
    ensures printed { OnOk result (ArePrinted (items_of (map (job_value Two) delta.now.changes.jobs))) }
{
    records_are_covered(delta.changes());
    let mut later = false;
    for (id, job) in delta.jobs() {
        put_job(text, alloc, later, *id, job)?;
        later = true;
    }
    Ok(())
}

/// The text of the packet, with no space: of format 3 where something is retired in it, and else of format 2.
pub(crate) fn packet_text(alloc: Global, packet: &Packet) -> Result<Vec<u8>, AllocError>
    ensures text { IfOk result (λ b. b.items ≡ compact_text (packet_value Two packet.now)) }
    ensures printed { IfOk result (λ b. IsPrinted (packet_value Two packet.now)) }
{
    let frame = frame_text(alloc, packet)?;
    let mut text = Vec::with_capacity(alloc, frame.len())?;
    text.extend_from_slice(&frame[..JOBS_AT])?;
    put_jobs(&mut text, alloc, packet.delta())?;
    text.extend_from_slice(&frame[JOBS_AT..])?;
    // many texts are kept
    text.shrink_to_fit();
    Ok(text)
}
