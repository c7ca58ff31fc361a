//! Sites that run the lines of a script at the same time.
ghost use Rattle.std.specs.Prelude.{◌≡◌, ◌<◌, ◌⊎◌, IfErr, IfOk, IfSome, length, map, string_bytes};
ghost use Rattle.std.specs.List.{flat_map};
ghost use Rattle.fed_threads.specs.Seat.{known_by};
ghost use Rattle.fed_main.specs.Live.{EndsLiveAs, IsOfThreads};
ghost use Rattle.fed_main.specs.Reports.{answers_of, first_fault as first_fault_of, known_at};

use crate::fault::RunFault;
use crate::live_lines::{LiveScript, read_lines};
use crate::live_sites::{Report, Sites, run_lines, take_all};
use fed_lattice::NoMemory;
use fed_replay::{MAX_SCRIPT_BYTES, ended, read_script};
use fed_script::Line;
use fed_stamp::Roster;
use fed_threads::{CallFault, Federation, Gate, OpenGate, Seat};
use std::alloc::Global;
use std::io::{Read, Write};
use std::sync::Wait;
use std::thread;
use std::thread::{JoinHandle, Threads};

/// What the two threads of a site leave.
#[derive(Drop)]
pub(crate) struct SiteReports {
    /// Of the thread that ran the site's lines.
    pub(crate) asked: Report,
    /// Of the thread that took what came to the site.
    pub(crate) taken: Report,
}

/// A thread's work: under way, or done by the thread that was to start it.
#[derive(Drop)]
enum Work {
    Started(JoinHandle<Report>),
    Done(Report),
}

impl Work {
    fn report<R: Threads>(self, rt: &R) -> Report {
        match self {
            Work::Started(thread) => thread.join(rt),
            Work::Done(report) => report,
        }
    }
}

/// Runs the lines of each site on a thread of its own, and takes what comes to each on another. The work of a thread
/// that can't be started is done at that point. What is left is in the order of the sites.
fn run_all<R: Threads + Wait + Sync, G: Gate + Sync>(
    rt: &R,
    sites: &Sites<'_, G>,
    lines: &[Line],
) -> Result<Vec<SiteReports>, NoMemory> {
    let alloc = sites.alloc;
    let count = sites.roster.len() as u8;
    thread::scope(
        thread::scope_env(),
        rt,
        move |scope| -> Result<Vec<SiteReports>, NoMemory> {
            let mut asking = Vec::with_capacity(alloc, usize::from(count))?;
            let mut taking = Vec::with_capacity(alloc, usize::from(count))?;
            let mut reports = Vec::with_capacity(alloc, usize::from(count))?;
            for number in 0..count {
                let work = match scope.spawn(move || run_lines(rt, sites, number, lines)) {
                    Ok(thread) => Work::Started(thread),
                    Err(_) => Work::Done(run_lines(rt, sites, number, lines)),
                };
                asking.push(work)?;
            }
            for number in 0..count {
                let work = match scope.spawn(move || take_all(rt, sites, number)) {
                    Ok(thread) => Work::Started(thread),
                    Err(_) => Work::Done(take_all(rt, sites, number)),
                };
                taking.push(work)?;
            }
            for (asked, taken) in asking.into_iter().zip(taking) {
                let asked = asked.report(rt);
                let taken = taken.report(rt);
                reports.push(SiteReports { asked, taken })?;
            }
            Ok(reports)
        },
    )
}

/// The fault of the least site that met one, in its lines before its taking.
fn first_fault(reports: &[SiteReports]) -> Option<CallFault>
    ensures { result ≡ first_fault_of reports.now }
{
    for site in reports {
        if let Some(fault) = site.asked.fault.or(site.taken.fault) {
            return Some(fault);
        }
    }
    None
}

/// The answers, in the order of the sites.
fn answers(alloc: Global, reports: &[SiteReports]) -> Result<String, NoMemory>
    ensures { IfOk result (λ text. string_bytes text ≡ answers_of reports.now) }
{
    let mut text = String::new(alloc);
    for site in reports {
        text.push_str(site.asked.text.as_str())?;
    }
    Ok(text)
}

/// The seats of all threads.
fn seats_of(alloc: Global, reports: Vec<SiteReports>) -> Result<Vec<Seat>, NoMemory>
    ensures { IfOk result (λ seats. map known_by seats.items ≡ flat_map known_at reports.items) }
{
    let mut seats = Vec::new(alloc);
    for site in reports {
        let SiteReports { asked, taken } = site;
        seats.push(asked.seat)?;
        seats.push(taken.seat)?;
    }
    Ok(seats)
}

/// What is answered to the lines, and how many events they came to.
fn run_sites<R: Threads + Wait + Sync, G: Gate + Sync>(
    rt: &R,
    alloc: Global,
    roster: &Roster,
    lines: &[Line],
    gate: G,
) -> Result<String, RunFault>
    ensures { IfErr result IsOfThreads }
{
    let federation = Federation::open(alloc, roster, gate)?;
    let sites = Sites {
        alloc,
        roster,
        federation: &federation,
    };
    let reports = run_all(rt, &sites, lines)?;
    if let Some(fault) = first_fault(&reports) {
        return Err(fault.into());
    }
    let mut text = answers(alloc, &reports)?;
    let closed = federation.close(seats_of(alloc, reports)?)?;
    let events = format!(in alloc; "events {}\n", closed.order().len())?;
    text.push_str(events.as_str())?;
    Ok(text)
}

/// The text that answers a script.
fn live_text<R: Threads + Wait + Sync, G: Gate + Sync>(
    rt: &R,
    alloc: Global,
    script: &LiveScript,
    gate: G,
) -> Result<String, RunFault>
    ensures { IfErr result IsOfThreads }
{
    match &script.sites {
        Some(roster) => run_sites(rt, alloc, roster.get(), &script.lines, gate),
        None => Ok(String::new(alloc)),
    }
}

/// As `live`, in a federation with this gate, which is told of each command.
pub fn live_with<R: Threads + Wait + Sync, I: Read, O: Write, G: Gate + Sync>(
    rt: &R,
    alloc: Global,
    reader: &mut I,
    writer: &mut O,
    gate: G,
) -> Result<(), RunFault>
    ensures ends { IfSome (I.remaining reader.old)
        (λ input. EndsLiveAs (O.contents writer.old) (O.contents writer.new) input result) }
    ensures long { IfSome (I.remaining reader.old)
        (λ input. MAX_SCRIPT_BYTES < length input → (result ≡ Err RunFault.Read) ⊎ (result ≡ Err RunFault.NoMemory)) }
{
    let script = match read_script(alloc, reader) {
        Ok(script) => script,
        Err(fault) => return Err(fault.into()),
    };
    run_script(rt, alloc, &script, writer, gate)
}

/// Runs the script that a reader has: the lines of each site on a thread of its own, while another thread takes what
/// comes to the site. The script is read whole before its first line is run, and the lines `take` and `equal` can't be
/// read. Once all threads are done the answers are written, those of each site together, in the order of the roster,
/// and behind them how many events the sites came to. A script of skipped lines alone is answered by nothing. It may
/// wait. The faults, of which all but `Write` have written nothing:
///
/// - `Line(n)` where line n is the first that can't be read. No line ran.
/// - `Read` where a read fails, where the script has more than 16,777,216 bytes, or where it hasn't ended after
///   20,000,000 calls of `read`. A read that is interrupted is tried again, and counts as a call. No line ran.
/// - `Write` where the answers can't be written or the writer can't be flushed. Some may have been written.
/// - `NoMemory` where memory is refused. Where it is refused to an end mark, a thread may wait for good.
/// - `Close` where what the threads did can't be settled, and `Behind` where a site is behind what a thread has seen of
///   it: no run is known that ends so, and no clause rules it out.
///
/// Of the faults that threads meet that of the least site is answered, and there that of its lines before that of its
/// taking.
pub fn live<R: Threads + Wait + Sync, I: Read, O: Write>(
    rt: &R,
    alloc: Global,
    reader: &mut I,
    writer: &mut O,
) -> Result<(), RunFault>
    ensures ends { IfSome (I.remaining reader.old)
        (λ input. EndsLiveAs (O.contents writer.old) (O.contents writer.new) input result) }
    ensures long { IfSome (I.remaining reader.old)
        (λ input. MAX_SCRIPT_BYTES < length input → (result ≡ Err RunFault.Read) ⊎ (result ≡ Err RunFault.NoMemory)) }
{
    live_with(rt, alloc, reader, writer, OpenGate)
}

/// Runs a script that was read.
fn run_script<R: Threads + Wait + Sync, O: Write, G: Gate + Sync>(
    rt: &R,
    alloc: Global,
    script: &[u8],
    writer: &mut O,
    gate: G,
) -> Result<(), RunFault>
    ensures { EndsLiveAs (O.contents writer.old) (O.contents writer.new) script.now result }
{
    let read = read_lines(alloc, script)?;
    let text = live_text(rt, alloc, &read, gate)?;
    writer
        .write_all(text.as_bytes())
        .map_err(|_| RunFault::Write)?;
    ended(Ok(()), RunFault::Write, writer.flush())
}
