//! What is said of a site's machine.
ghost use Rattle.std.specs.Prelude.{◌≡◌, ◌<◌, ◌-◌, ◌++◌, [], IfOk, flat_map, length, string_bytes};
ghost use Rattle.fed_record.specs.JobRecord.{job_reads};
ghost use Rattle.fed_board.specs.Board.{board_reads};
ghost use Rattle.fed_easy.specs.SitePlan.{used_in};
ghost use Rattle.fed_machine.specs.Machine.{line_of_nodes, line_of_reserved, line_of_run, lines_of_machine, reserved_from, reserved_in, run_from, runs_in};

use fed_board::Board;
use fed_easy::{nodes_of, reserved_time, running_job, used_nodes};
use fed_lattice::NoMemory;
use fed_qstat::identifier_text;
use fed_record::{JobRecord, Moment, Reservation};
use fed_stamp::{JobId, Roster, SiteId, Stamp};
use std::alloc::{AllocError, Global};
use std::collections::BTreeSet;

/// A job that runs. In this order jobs stand by their ends, then by their stamps.
#[derive(Clone, Copy, PartialEq, Eq, PartialOrd, Ord, Debug)]
pub struct RunningJob {
    /// The second at which its nodes are free.
    pub end: u64,
    /// The job.
    pub id: JobId,
    /// How many nodes it has.
    pub nodes: u64,
}

/// A reservation. In this order reservations stand by their starts, then by their stamps.
#[derive(Clone, Copy, PartialEq, Eq, PartialOrd, Ord, Debug)]
pub struct Reserved {
    /// The first second at which it has its nodes.
    pub start: u64,
    /// The reservation.
    pub id: Stamp,
    /// The second from which on it has none.
    pub end: u64,
    /// How many nodes it has.
    pub nodes: u64,
}

/// The job, if the site has begun it and it is not finished.
fn run_of(here: SiteId, id: JobId, job: &JobRecord) -> Option<RunningJob>
    ensures { result ≡ run_from here id (job_reads job.now) }
{
    let entry = running_job(job, here)?;
    Some(RunningJob {
        end: entry.end,
        id,
        nodes: entry.nodes,
    })
}

/// The reservation, if it stands, is of the site and is not over at the moment.
fn reserved_of(here: SiteId, moment: u64, id: Stamp, reservation: &Reservation) -> Option<Reserved>
    ensures { result ≡ reserved_from here moment id reservation.now }
{
    let time = reserved_time(reservation, here)?;
    if moment < time.until {
        Some(Reserved {
            start: time.from,
            id,
            end: time.until,
            nodes: time.nodes,
        })
    } else {
        None
    }
}

/// The jobs that a site has begun and that aren't finished, in the order of their ends. The only error is `NoMemory`.
pub fn runs_at(alloc: Global, board: &Board, here: SiteId) -> Result<BTreeSet<RunningJob>, NoMemory>
    ensures { IfOk result (λ runs. runs.keys ≡ runs_in here (board_reads board.now)) }
{
    let mut runs = BTreeSet::new(alloc);
    for (id, job) in board.jobs() {
        if let Some(run) = run_of(here, *id, job) {
            runs.insert(run)?;
        }
    }
    Ok(runs)
}

/// The reservations of a site that stand and aren't over at the moment, in seconds, in the order of their starts. The only
/// error is `NoMemory`.
pub fn reserved_at(
    alloc: Global,
    board: &Board,
    here: SiteId,
    moment: u64,
) -> Result<BTreeSet<Reserved>, NoMemory>
    ensures { IfOk result (λ reserved. reserved.keys ≡ reserved_in here moment (board_reads board.now)) }
{
    let mut all = BTreeSet::new(alloc);
    for (id, reservation) in board.reservations() {
        if let Some(reserved) = reserved_of(here, moment, *id, reservation) {
            all.insert(reserved)?;
        }
    }
    Ok(all)
}

/// How many of so many nodes neither a job that runs at the site nor a reservation has at the moment, in seconds.
pub fn free_nodes(board: &Board, here: SiteId, moment: u64, nodes: u64) -> u64
    ensures { result ≡ nodes - used_in here (board_reads board.now) moment }
{
    nodes.saturating_sub(used_nodes(board, here, moment))
}

fn nodes_line(alloc: Global, nodes: u64, free: u64) -> Result<String, AllocError>
    ensures { IfOk result (λ text. string_bytes text ≡ line_of_nodes nodes free) }
{
    format!(in alloc; "nodes {nodes}, free {free}\n")
}

fn run_line(alloc: Global, roster: &Roster, run: RunningJob) -> Result<String, AllocError>
    ensures { IfOk result (λ text. string_bytes text ≡ line_of_run roster.now run) }
{
    let id = identifier_text(alloc, roster, run.id)?;
    let (nodes, end) = (run.nodes, run.end);
    format!(in alloc; "run {id} {nodes} {end}\n")
}

fn reserved_line(alloc: Global, roster: &Roster, reserved: Reserved) -> Result<String, AllocError>
    ensures { IfOk result (λ text. string_bytes text ≡ line_of_reserved roster.now reserved) }
{
    let id = identifier_text(alloc, roster, reserved.id)?;
    let (start, end, nodes) = (reserved.start, reserved.end, reserved.nodes);
    format!(in alloc; "reserved {id} {start} {end} {nodes}\n")
}

fn run_lines(
    alloc: Global,
    roster: &Roster,
    runs: &BTreeSet<RunningJob>,
) -> Result<String, AllocError>
    ensures { IfOk result (λ text. string_bytes text ≡ flat_map (line_of_run roster.now) runs.now.keys) }
{
    let mut text = String::new(alloc);
    for run in runs {
        let line = run_line(alloc, roster, *run)?;
        text.push_str(line.as_str())?;
    }
    Ok(text)
}

fn reserved_lines(
    alloc: Global,
    roster: &Roster,
    all: &BTreeSet<Reserved>,
) -> Result<String, AllocError>
    ensures { IfOk result (λ text. string_bytes text ≡ flat_map (line_of_reserved roster.now) all.now.keys) }
{
    let mut text = String::new(alloc);
    for reserved in all {
        let line = reserved_line(alloc, roster, *reserved)?;
        text.push_str(line.as_str())?;
    }
    Ok(text)
}

/// What is said of a site's machine at the moment: a line `nodes N, free F`, where F is what neither a job that runs
/// nor a reservation has at the moment; then a line `run ID NODES END` for each job that runs, in the order of their
/// ends; then a line `reserved ID START END NODES` for each reservation of the site that stands and isn't over, in the
/// order of their starts.
pub fn machine_lines(
    alloc: Global,
    roster: &Roster,
    board: &Board,
    here: SiteId,
    moment: Moment,
) -> Result<String, NoMemory>
    requires { here < length roster.now }
    ensures { IfOk result (λ text. string_bytes text ≡ lines_of_machine roster.now (board_reads board.now) here moment) }
{
    let second = moment.get();
    let nodes = nodes_of(roster, here);
    let runs = runs_at(alloc, board, here)?;
    let reserved = reserved_at(alloc, board, here, second)?;
    let free = free_nodes(board, here, second, nodes);
    let mut text = nodes_line(alloc, nodes, free)?;
    let running = run_lines(alloc, roster, &runs)?;
    text.push_str(running.as_str())?;
    let windows = reserved_lines(alloc, roster, &reserved)?;
    text.push_str(windows.as_str())?;
    Ok(text)
}
