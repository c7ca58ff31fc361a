//! What is said of a site's machine, as a JSON object.
ghost use Rattle.std.specs.Prelude.{◌≡◌, ◌<◌, IfOk, length, map, string_bytes};
ghost use Rattle.serde_json.specs.View.{view};
ghost use Rattle.fed_board.specs.Board.{board_reads};
ghost use Rattle.fed_json.specs.Values.{list_value};
ghost use Rattle.fed_machine.specs.Machine.{reserved_in, runs_in};
ghost use Rattle.fed_looks.specs.JobObject.{objects_of_jobs};
ghost use Rattle.fed_site.specs.MachineJson.{json_of_machine, machine_data, machine_object as object_of_machine, reserved_data};

use fed_board::Board;
use fed_easy::nodes_of;
use fed_lattice::NoMemory;
use fed_looks::{job_objects, json_line};
use fed_machine::{Reserved, RunningJob, free_nodes, reserved_at, runs_at};
use fed_qstat::identifier_text;
use fed_record::Moment;
use fed_stamp::{JobId, Roster, SiteId};
use serde_json::{Value, json};
use std::alloc::{AllocError, Global};
use std::collections::BTreeSet;

/// The object of a reservation.
fn reserved_value(alloc: Global, roster: &Roster, reserved: Reserved) -> Result<Value, AllocError>
    ensures { IfOk result (λ v. view v ≡ reserved_data roster.now reserved) }
{
    let id = identifier_text(alloc, roster, reserved.id)?;
    json!(in alloc; {
        "end": reserved.end,
        "id": id.as_str(),
        "nodes": reserved.nodes,
        "start": reserved.start,
    })
}

fn reserved_values(
    alloc: Global,
    roster: &Roster,
    all: &BTreeSet<Reserved>,
) -> Result<Value, AllocError>
    ensures { IfOk result (λ v. view v ≡ list_value (map (reserved_data roster.now) all.now.keys)) }
{
    let mut values = Vec::new(alloc);
    for reserved in all {
        values.push(reserved_value(alloc, roster, *reserved)?)?;
    }
    Ok(Value::Array(values))
}

fn ids_of(alloc: Global, runs: &BTreeSet<RunningJob>) -> Result<Vec<JobId>, AllocError>
    ensures { IfOk result (λ ids. ids.items ≡ map (λ run. run.id) runs.now.keys) }
{
    let mut ids = Vec::new(alloc);
    for run in runs {
        ids.push(run.id)?;
    }
    Ok(ids)
}

/// The objects of the jobs that run at the site.
fn running_jobs(
    alloc: Global,
    roster: &Roster,
    board: &Board,
    here: SiteId,
) -> Result<Value, NoMemory>
    ensures { IfOk result (λ v. view v ≡ list_value (objects_of_jobs roster.now (board_reads board.now)
        (map (λ run. run.id) (runs_in here (board_reads board.now))))) }
{
    let runs = runs_at(alloc, board, here)?;
    let ids = ids_of(alloc, &runs)?;
    Ok(job_objects(alloc, roster, board, &ids)?)
}

/// The objects of its reservations that aren't over.
fn reservations(
    alloc: Global,
    roster: &Roster,
    board: &Board,
    here: SiteId,
    moment: u64,
) -> Result<Value, NoMemory>
    ensures { IfOk result (λ v. view v ≡
        list_value (map (reserved_data roster.now) (reserved_in here moment (board_reads board.now)))) }
{
    let all = reserved_at(alloc, board, here, moment)?;
    Ok(reserved_values(alloc, roster, &all)?)
}

fn machine_object(
    alloc: Global,
    nodes: u64,
    free: u64,
    reserved: Value,
    running: Value,
) -> Result<Value, AllocError>
    ensures { IfOk result (λ v. view v ≡ object_of_machine nodes free (view reserved) (view running)) }
{
    json!(in alloc; { "free": free, "nodes": nodes, "reserved": reserved, "running": running })
}

/// The object of the machine.
fn machine_value(
    alloc: Global,
    roster: &Roster,
    board: &Board,
    here: SiteId,
    moment: Moment,
) -> Result<Value, NoMemory>
    requires { here < length roster.now }
    ensures { IfOk result (λ v. view v ≡ machine_data roster.now (board_reads board.now) here moment) }
{
    let second = moment.get();
    let nodes = nodes_of(roster, here);
    let free = free_nodes(board, here, second, nodes);
    let reserved = reservations(alloc, roster, board, here, second)?;
    let running = running_jobs(alloc, roster, board, here)?;
    Ok(machine_object(alloc, nodes, free, reserved, running)?)
}

/// What `machine_lines` tells of a site's machine at a moment, in seconds, as one line: a JSON object of `nodes`, of `free`
/// among them, of `running`, the objects of the jobs that run, as `jobs_json` has them, in the order of their ends, and of
/// `reserved`, an object of `end`, `id`, `nodes` and `start` for each reservation, in the order of their starts. The only
/// error is `NoMemory`.
pub(crate) fn machine_json(
    alloc: Global,
    roster: &Roster,
    board: &Board,
    here: SiteId,
    moment: Moment,
) -> Result<String, NoMemory>
    requires { here < length roster.now }
    ensures { IfOk result (λ text. string_bytes text ≡ json_of_machine roster.now (board_reads board.now) here moment) }
{
    let value = machine_value(alloc, roster, board, here, moment)?;
    Ok(json_line(alloc, &value)?)
}
