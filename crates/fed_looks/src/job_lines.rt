//! Jobs as JSON objects, one a line or in an array.
ghost use Rattle.std.specs.Prelude.{◌≡◌, ◌≢◌, ◌++◌, ◌∷◌, [], IfOk, IsTrue, OnOk, flat_map, map, string_bytes};
ghost use Rattle.serde_json.specs.View.{members_view, view};
ghost use Rattle.fed_record.specs.JobRecord.{job_reads};
ghost use Rattle.fed_model.specs.Letter.{is_submitted};
ghost use Rattle.fed_board.specs.Board.{board_reads};
ghost use Rattle.fed_model.specs.Identifiers.{jobs_in};
ghost use Rattle.fed_looks.specs.JobMembers.{with_names, with_numbers, with_sets, with_stages};
ghost use Rattle.fed_json.specs.Values.{list_value};
ghost use Rattle.fed_looks.specs.JobObject.{job_data, json_of_jobs, known_line, known_object, lines_of_jobs, objects_of_jobs};
ghost use Rattle.fed_looks.specs.JsonLine.{json_line as line_of_value};

use crate::job_values::{begun, finished, grant, kinds, letter, sites};
use crate::json_lines::json_line;
use fed_board::Board;
use fed_lattice::NoMemory;
use fed_qstat::identifier_text;
use fed_record::{HoldKind, JobRecord};
use fed_stamp::{JobId, Roster};
use serde_json::{Map, Value, put};
use std::alloc::{AllocError, Global};

#[tactic(auto, unfolding(crate::specs::JobMembers::with_names))]
fn put_names(
    members: &mut Map<String, Value>,
    alloc: Global,
    roster: &Roster,
    id: JobId,
    job: &JobRecord,
) -> Result<(), AllocError>
    requires { IsTrue (is_submitted (job_reads job.now)) }
    ensures { OnOk result (members_view members.new.entries ≡
        with_names roster.now id (job_reads job.now) (members_view members.old.entries)) }
{
    let id = identifier_text(alloc, roster, id)?;
    put(
        members,
        alloc,
        "account",
        Value::try_from_str(alloc, job.account().1.as_str())?,
    )?;
    put(
        members,
        alloc,
        "id",
        Value::try_from_str(alloc, id.as_str())?,
    )?;
    put(
        members,
        alloc,
        "name",
        Value::try_from_str(alloc, job.name().1.as_str())?,
    )?;
    put(
        members,
        alloc,
        "owner",
        Value::try_from_str(alloc, job.owner().1.as_str())?,
    )?;
    Ok(())
}

#[tactic(auto, unfolding(crate::specs::JobMembers::with_numbers))]
fn put_numbers(
    members: &mut Map<String, Value>,
    alloc: Global,
    job: &JobRecord,
) -> Result<(), AllocError>
    requires { IsTrue (is_submitted (job_reads job.now)) }
    ensures { OnOk result (members_view members.new.entries ≡
        with_numbers (job_reads job.now) (members_view members.old.entries)) }
{
    put(members, alloc, "limit", Value::from(job.limit().1.get()))?;
    put(members, alloc, "nodes", Value::from(job.nodes().1.get()))?;
    put(
        members,
        alloc,
        "priority",
        Value::from(job.priority().1.get()),
    )?;
    Ok(())
}

#[tactic(auto, unfolding(crate::specs::JobMembers::with_stages))]
fn put_stages(
    members: &mut Map<String, Value>,
    alloc: Global,
    roster: &Roster,
    job: &JobRecord,
) -> Result<(), AllocError>
    ensures { OnOk result (members_view members.new.entries ≡
        with_stages roster.now (job_reads job.now) (members_view members.old.entries)) }
{
    let progress = job.progress();
    put(
        members,
        alloc,
        "begun",
        begun(alloc, roster, progress.begun)?,
    )?;
    put(members, alloc, "deleted", Value::from(job.deleted()))?;
    put(
        members,
        alloc,
        "finished",
        finished(alloc, progress.finished)?,
    )?;
    put(members, alloc, "grant", grant(alloc, roster, job.grant())?)?;
    Ok(())
}

#[tactic(auto, unfolding(crate::specs::JobMembers::with_sets))]
fn put_sets(
    members: &mut Map<String, Value>,
    alloc: Global,
    roster: &Roster,
    job: &JobRecord,
) -> Result<(), AllocError>
    ensures { OnOk result (members_view members.new.entries ≡
        with_sets roster.now (job_reads job.now) (members_view members.old.entries)) }
{
    let user = job.has_hold(HoldKind::User);
    let operator = job.has_hold(HoldKind::Operator);
    let system = job.has_hold(HoldKind::System);
    put(
        members,
        alloc,
        "holds",
        kinds(alloc, user, operator, system)?,
    )?;
    put(members, alloc, "letter", letter(alloc, job.letter())?)?;
    put(members, alloc, "sites", sites(alloc, roster, job)?)?;
    Ok(())
}

/// The object of a job.
fn job_value(
    alloc: Global,
    roster: &Roster,
    id: JobId,
    job: &JobRecord,
) -> Result<Value, AllocError>
    requires { IsTrue (is_submitted (job_reads job.now)) }
    ensures { IfOk result (λ v. view v ≡ job_data roster.now id (job_reads job.now)) }
{
    let mut members = Map::new(alloc);
    put_names(&mut members, alloc, roster, id, job)?;
    put_numbers(&mut members, alloc, job)?;
    put_stages(&mut members, alloc, roster, job)?;
    put_sets(&mut members, alloc, roster, job)?;
    Ok(Value::Object(members))
}

/// The line of a job's object.
fn job_line(
    alloc: Global,
    roster: &Roster,
    id: JobId,
    job: &JobRecord,
) -> Result<String, AllocError>
    requires { IsTrue (is_submitted (job_reads job.now)) }
    ensures { IfOk result (λ text. string_bytes text ≡ line_of_value (job_data roster.now id (job_reads job.now))) }
{
    let value = job_value(alloc, roster, id, job)?;
    json_line(alloc, &value)
}

/// Adds the line of a job.
fn push_job(
    alloc: Global,
    text: &mut String,
    roster: &Roster,
    id: JobId,
    job: &JobRecord,
) -> Result<(), AllocError>
    ensures { OnOk result (string_bytes text.new ≡ string_bytes text.old ++ known_line roster.now id (job_reads job.now)) }
{
    if !job.is_submitted() {
        return Ok(());
    }
    let line = job_line(alloc, roster, id, job)?;
    text.push_str(line.as_str())
}

/// Adds the line of the job with this identifier, or nothing where there is no such job.
fn push_named(
    alloc: Global,
    text: &mut String,
    roster: &Roster,
    board: &Board,
    id: JobId,
) -> Result<(), AllocError>
    ensures { OnOk result (string_bytes text.new ≡
        string_bytes text.old ++ known_line roster.now id ((board_reads board.now).job id)) }
{
    match board.job(id) {
        Some(job) => push_job(alloc, text, roster, id, job),
        None => Ok(()),
    }
}

/// The lines of all jobs.
fn all_lines(alloc: Global, roster: &Roster, board: &Board) -> Result<String, AllocError>
    ensures { IfOk result (λ text. string_bytes text ≡ lines_of_jobs roster.now (board_reads board.now) (jobs_in (board_reads board.now))) }
{
    let mut text = String::new(alloc);
    for (id, job) in board.jobs() {
        push_job(alloc, &mut text, roster, *id, job)?;
    }
    Ok(text)
}

/// The lines of the jobs that are named.
fn named_lines(
    alloc: Global,
    roster: &Roster,
    board: &Board,
    ids: &[JobId],
) -> Result<String, AllocError>
    ensures { IfOk result (λ text. string_bytes text ≡ lines_of_jobs roster.now (board_reads board.now) ids.now) }
{
    let mut text = String::new(alloc);
    for id in ids {
        push_named(alloc, &mut text, roster, board, *id)?;
    }
    Ok(text)
}

/// All that is known of these jobs, as one compact JSON object a line, with names in place of numbers: jobs that are
/// gone too, in the order in which they are named, and nothing for an identifier that no job has. Where none is named
/// all jobs are told, in the order of their stamps.
pub fn jobs_json(
    alloc: Global,
    roster: &Roster,
    board: &Board,
    jobs: &[JobId],
) -> Result<String, NoMemory>
    ensures { IfOk result (λ text. string_bytes text ≡ json_of_jobs roster.now (board_reads board.now) jobs.now) }
{
    if jobs.is_empty() {
        Ok(all_lines(alloc, roster, board)?)
    } else {
        Ok(named_lines(alloc, roster, board, jobs)?)
    }
}

/// Adds the object of a job.
fn push_object(
    alloc: Global,
    values: &mut Vec<Value>,
    roster: &Roster,
    id: JobId,
    job: &JobRecord,
) -> Result<(), AllocError>
    ensures { OnOk result (map view values.new.items ≡
        map view values.old.items ++ known_object roster.now id (job_reads job.now)) }
{
    if job.is_submitted() {
        values.push(job_value(alloc, roster, id, job)?)?;
    }
    Ok(())
}

/// Adds the object of the job with this identifier, or none where there is no such job.
fn push_named_object(
    alloc: Global,
    values: &mut Vec<Value>,
    roster: &Roster,
    board: &Board,
    id: JobId,
) -> Result<(), AllocError>
    ensures { OnOk result (map view values.new.items ≡
        map view values.old.items ++ known_object roster.now id ((board_reads board.now).job id)) }
{
    match board.job(id) {
        Some(job) => push_object(alloc, values, roster, id, job),
        None => Ok(()),
    }
}

/// The array of the objects of these jobs, each as in the line that `jobs_json` has of it, in the order in which they are
/// named, and none for an identifier that no job has. The only error is want of memory.
pub fn job_objects(
    alloc: Global,
    roster: &Roster,
    board: &Board,
    jobs: &[JobId],
) -> Result<Value, AllocError>
    ensures { IfOk result (λ v. view v ≡ list_value (objects_of_jobs roster.now (board_reads board.now) jobs.now)) }
{
    let mut values = Vec::new(alloc);
    for id in jobs {
        push_named_object(alloc, &mut values, roster, board, *id)?;
    }
    Ok(Value::Array(values))
}
