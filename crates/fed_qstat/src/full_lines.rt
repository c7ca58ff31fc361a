//! The full listing.
ghost use Rattle.std.specs.Prelude.{◌≡◌, ◌++◌, IfOk, OnOk, IsTrue, Some, string_bytes};
ghost use Rattle.fed_record.specs.JobRecord.{job_reads};
ghost use Rattle.fed_model.specs.Letter.{is_submitted, letter as letter_of};
ghost use Rattle.fed_qstat.specs.Full.{attribute, head_line, lines_in_full, naming, resources, running, standing};

use crate::attributes::{begun_text, holder_text, holds_text, letter_sign, or_dash, sites_text};
use crate::identifiers::identifier_text;
use fed_record::{JobRecord, Letter};
use fed_stamp::{JobId, Roster};
use std::alloc::{AllocError, Global};

/// The line that names the job.
fn head_text(alloc: Global, identifier: &str) -> Result<String, AllocError>
    ensures { IfOk result (λ text. string_bytes text ≡ head_line identifier.now) }
{
    format!(in alloc; "Job Id: {identifier}\n")
}

/// The line of one attribute.
fn attribute_text(alloc: Global, label: &str, value: &str) -> Result<String, AllocError>
    ensures { IfOk result (λ text. string_bytes text ≡ attribute label.now value.now) }
{
    format!(in alloc; "    {label} = {value}\n")
}

/// Adds the line of one attribute.
fn push_attribute(
    alloc: Global,
    text: &mut String,
    label: &str,
    value: &str,
) -> Result<(), AllocError>
    ensures { OnOk result (string_bytes text.new ≡ string_bytes text.old ++ attribute label.now value.now) }
{
    let line = attribute_text(alloc, label, value)?;
    text.push_str(line.as_str())
}

/// What the job is called, and who answers for it.
fn naming_text(
    alloc: Global,
    roster: &Roster,
    id: JobId,
    job: &JobRecord,
) -> Result<String, AllocError>
    requires { IsTrue (is_submitted (job_reads job.now)) }
    ensures { IfOk result (λ text. string_bytes text ≡ naming roster.now id (job_reads job.now)) }
{
    let identifier = identifier_text(alloc, roster, id)?;
    let (_, name) = job.name();
    let (_, owner) = job.owner();
    let (_, account) = job.account();
    let mut text = head_text(alloc, identifier.as_str())?;
    push_attribute(alloc, &mut text, "Job_Name", name.as_str())?;
    push_attribute(alloc, &mut text, "Job_Owner", owner.as_str())?;
    push_attribute(alloc, &mut text, "Account_Name", or_dash(account.as_str()))?;
    Ok(text)
}

/// Where a job with this letter stands in the queue.
fn standing_text(alloc: Global, job: &JobRecord, letter: Letter) -> Result<String, AllocError>
    requires submitted { IsTrue (is_submitted (job_reads job.now)) }
    requires letter { letter_of (job_reads job.now) ≡ Some letter }
    ensures { IfOk result (λ text. string_bytes text ≡ standing (job_reads job.now)) }
{
    let priority = job.priority().1.get();
    let value = format!(in alloc; "{priority}")?;
    let mut text = attribute_text(alloc, "job_state", letter_sign(letter))?;
    push_attribute(alloc, &mut text, "Priority", value.as_str())?;
    push_attribute(alloc, &mut text, "Hold_Types", holds_text(job))?;
    Ok(text)
}

/// What the job asks for.
fn resources_text(alloc: Global, roster: &Roster, job: &JobRecord) -> Result<String, AllocError>
    requires { IsTrue (is_submitted (job_reads job.now)) }
    ensures { IfOk result (λ text. string_bytes text ≡ resources roster.now (job_reads job.now)) }
{
    let nodes = job.nodes().1.get();
    let limit = job.limit().1.get();
    let nodes_value = format!(in alloc; "{nodes}")?;
    let limit_value = format!(in alloc; "{limit}")?;
    let sites = sites_text(alloc, roster, job)?;
    let mut text = attribute_text(alloc, "Resource_List.nodes", nodes_value.as_str())?;
    push_attribute(
        alloc,
        &mut text,
        "Resource_List.walltime",
        limit_value.as_str(),
    )?;
    push_attribute(alloc, &mut text, "Resource_List.sites", sites.as_str())?;
    Ok(text)
}

/// Where and when the job runs.
fn running_text(alloc: Global, roster: &Roster, job: &JobRecord) -> Result<String, AllocError>
    ensures { IfOk result (λ text. string_bytes text ≡ running roster.now (job_reads job.now)) }
{
    let holder = holder_text(alloc, roster, job)?;
    let begun = begun_text(alloc, job)?;
    let mut text = attribute_text(alloc, "granted", holder.as_str())?;
    push_attribute(alloc, &mut text, "begun", begun.as_str())?;
    Ok(text)
}

/// The twelve lines that show a job with this letter.
pub(crate) fn full_lines(
    alloc: Global,
    roster: &Roster,
    id: JobId,
    job: &JobRecord,
    letter: Letter,
) -> Result<String, AllocError>
    requires submitted { IsTrue (is_submitted (job_reads job.now)) }
    requires letter { letter_of (job_reads job.now) ≡ Some letter }
    ensures { IfOk result (λ text. string_bytes text ≡ lines_in_full roster.now id (job_reads job.now)) }
{
    let mut text = naming_text(alloc, roster, id, job)?;
    let standing = standing_text(alloc, job, letter)?;
    text.push_str(standing.as_str())?;
    let resources = resources_text(alloc, roster, job)?;
    text.push_str(resources.as_str())?;
    let running = running_text(alloc, roster, job)?;
    text.push_str(running.as_str())?;
    Ok(text)
}
