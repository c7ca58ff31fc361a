//! What a chart shows: nodes of a machine for a time.
ghost use Rattle.std.specs.Prelude.{◌≡◌, [], IfOk, OnOk};
ghost use Rattle.std.specs.List.{fold};
ghost use Rattle.fed_board.specs.Board.{board_reads};
ghost use Rattle.fed_easy.specs.Plan.{plan_reads};
ghost use Rattle.fed_machine.specs.ChartBars.{bar_of, bars_in, end_of, last_top_in, level_above, meets_bar, standing_in, standing_of_run, standing_of_start, top_of, with_bar, with_head, with_reserved, with_run, with_standing, with_start};
ghost use Rattle.fed_machine.specs.Machine.{runs_in};

use crate::machines::{Reserved, RunningJob, reserved_at, runs_at};
use fed_board::Board;
use fed_easy::Plan;
use fed_lattice::NoMemory;
use fed_stamp::{JobId, SiteId, Stamp};
use std::alloc::Global;
use std::collections::BTreeSet;

/// What a bar of a chart stands for.
#[derive(Clone, Copy, PartialEq, Eq, Debug)]
pub enum Kind {
    /// A job that runs.
    Running,
    /// A job that starts at the moment, as the plan has it.
    Start,
    /// The first job of the queue that doesn't fit at the moment, at the second at which it does.
    Head,
    /// A reservation.
    Reservation,
}

/// Nodes of a machine for a time.
#[derive(Clone, Copy, PartialEq, Eq, Debug)]
pub struct Bar {
    /// What it stands for.
    pub kind: Kind,
    /// The job or the reservation.
    pub id: Stamp,
    /// How many seconds after the moment it starts.
    pub from: u64,
    /// How many seconds it lasts, 1 at least.
    pub seconds: u64,
    /// How many nodes it is.
    pub nodes: u64,
    /// How many nodes are drawn below it.
    pub bottom: u64,
}

/// A job that has nodes from the moment on. In this order jobs stand by their ends, then by their stamps.
#[derive(Clone, Copy, PartialEq, Eq, PartialOrd, Ord, Debug)]
pub(crate) struct StandingJob {
    /// For how many seconds.
    pub(crate) seconds: u64,
    /// The job.
    pub(crate) id: JobId,
    /// How many nodes it has.
    pub(crate) nodes: u64,
    /// Whether it only starts at the moment.
    pub(crate) starts: bool,
}

/// A job that runs. It has its nodes for a second at least, as in a plan.
fn run_standing(moment: u64, run: RunningJob) -> StandingJob
    ensures { result ≡ standing_of_run moment run }
{
    StandingJob {
        seconds: run.end.saturating_sub(moment).max(1),
        id: run.id,
        nodes: run.nodes,
        starts: false,
    }
}

/// A job that starts.
fn start_standing(board: &Board, job: JobId) -> Option<StandingJob>
    ensures { result ≡ standing_of_start job ((board_reads board.now).job job) }
{
    match board.job(job) {
        Some(known) => Some(StandingJob {
            seconds: known.limit().1.get(),
            id: job,
            nodes: known.nodes().1.get(),
            starts: true,
        }),
        None => None,
    }
}

/// Adds a job that runs.
fn add_run(all: &mut BTreeSet<StandingJob>, moment: u64, run: RunningJob) -> Result<(), NoMemory>
    ensures { OnOk result (all.new.keys ≡ with_run moment all.old.keys run) }
{
    all.insert(run_standing(moment, run))?;
    Ok(())
}

/// The jobs that run at a site.
fn runs_standing(
    alloc: Global,
    board: &Board,
    here: SiteId,
    moment: u64,
) -> Result<BTreeSet<StandingJob>, NoMemory>
    ensures { IfOk result (λ all. all.keys ≡ fold (with_run moment) [] (runs_in here (board_reads board.now))) }
{
    let runs = runs_at(alloc, board, here)?;
    let mut all = BTreeSet::new(alloc);
    for run in &runs {
        add_run(&mut all, moment, *run)?;
    }
    Ok(all)
}

/// Adds the jobs that start.
fn add_starts(
    all: &mut BTreeSet<StandingJob>,
    board: &Board,
    starts: &[JobId],
) -> Result<(), NoMemory>
    ensures { OnOk result (all.new.keys ≡ fold (with_start (board_reads board.now)) all.old.keys starts.now) }
{
    for start in starts {
        if let Some(standing) = start_standing(board, *start) {
            all.insert(standing)?;
        }
    }
    Ok(())
}

/// These jobs in a row.
fn listed(alloc: Global, all: &BTreeSet<StandingJob>) -> Result<Vec<StandingJob>, NoMemory>
    ensures { IfOk result (λ row. row.items ≡ all.now.keys) }
{
    let mut row = Vec::new(alloc);
    for standing in all {
        row.push(*standing)?;
    }
    Ok(row)
}

/// The jobs that have nodes from the moment on, the longest first.
fn standing_at(
    alloc: Global,
    board: &Board,
    here: SiteId,
    moment: u64,
    starts: &[JobId],
) -> Result<Vec<StandingJob>, NoMemory>
    ensures { IfOk result (λ row. row.items ≡ standing_in (board_reads board.now) here moment starts.now) }
{
    let mut all = runs_standing(alloc, board, here, moment)?;
    add_starts(&mut all, board, starts)?;
    let mut row = listed(alloc, &all)?;
    row.reverse();
    Ok(row)
}

/// The nodes up to the upper edge of a bar.
pub(crate) fn top(bar: &Bar) -> u64
    ensures { result ≡ top_of bar.now }
{
    bar.bottom.saturating_add(bar.nodes)
}

/// The upper edge of the last bar, or 0 where there is none.
fn last_top(bars: &[Bar]) -> u64
    ensures { result ≡ last_top_in bars.now }
{
    match bars.last() {
        Some(bar) => top(bar),
        None => 0,
    }
}

/// The bar of a job that has nodes from the moment on.
fn bar_at(bottom: u64, standing: StandingJob) -> Bar
    ensures { result ≡ bar_of bottom standing }
{
    Bar {
        kind: if standing.starts {
            Kind::Start
        } else {
            Kind::Running
        },
        id: standing.id,
        from: 0,
        seconds: standing.seconds,
        nodes: standing.nodes,
        bottom,
    }
}

/// Adds the bar of a job that has nodes from the moment on, on top of the last one.
fn add_standing(bars: &mut Vec<Bar>, standing: StandingJob) -> Result<(), NoMemory>
    ensures { OnOk result (bars.new.items ≡ with_standing bars.old.items standing) }
{
    let bottom = last_top(bars);
    bars.push(bar_at(bottom, standing))?;
    Ok(())
}

/// The bars of jobs that have nodes from the moment on, each on top of those before it.
fn stacked(alloc: Global, row: &[StandingJob]) -> Result<Vec<Bar>, NoMemory>
    ensures { IfOk result (λ bars. bars.items ≡ fold with_standing [] row.now) }
{
    let mut bars = Vec::new(alloc);
    for standing in row {
        add_standing(&mut bars, *standing)?;
    }
    Ok(bars)
}

/// The second after the moment at which a bar ends.
pub(crate) fn end(bar: &Bar) -> u64
    ensures { result ≡ end_of bar.now }
{
    bar.from.saturating_add(bar.seconds)
}

/// Whether a bar is there at one of so many seconds.
fn meets(bar: &Bar, from: u64, seconds: u64) -> bool
    ensures { result ≡ meets_bar from seconds bar.now }
{
    let end = from as u128 + seconds as u128;
    let bar_end = bar.from as u128 + bar.seconds as u128;
    (bar.from as u128) < end && (from as u128) < bar_end
}

/// The least number of nodes that is above all bars that are there at one of so many seconds.
fn level_over(bars: &[Bar], from: u64, seconds: u64) -> u64
    ensures { result ≡ level_above from seconds bars.now }
{
    let mut level = 0;
    for bar in bars {
        if meets(bar, from, seconds) {
            level = level.max(top(bar));
        }
    }
    level
}

/// Adds a bar above those that are there at its seconds.
fn add_bar(
    bars: &mut Vec<Bar>,
    kind: Kind,
    id: Stamp,
    from: u64,
    seconds: u64,
    nodes: u64,
) -> Result<(), NoMemory>
    ensures { OnOk result (bars.new.items ≡ with_bar kind id from seconds nodes bars.old.items) }
{
    let bottom = level_over(bars, from, seconds);
    bars.push(Bar {
        kind,
        id,
        from,
        seconds,
        nodes,
        bottom,
    })?;
    Ok(())
}

/// Adds the head of the plan, if there is one.
fn add_head(
    bars: &mut Vec<Bar>,
    board: &Board,
    moment: u64,
    head: Option<(JobId, u64)>,
) -> Result<(), NoMemory>
    ensures { OnOk result (bars.new.items ≡ with_head (board_reads board.now) moment head bars.old.items) }
{
    let Some((job, second)) = head else {
        return Ok(());
    };
    let Some(known) = board.job(job) else {
        return Ok(());
    };
    let from = second.saturating_sub(moment);
    let (seconds, nodes) = (known.limit().1.get(), known.nodes().1.get());
    add_bar(bars, Kind::Head, job, from, seconds, nodes)
}

/// Adds a reservation that isn't over at the moment, from there on.
fn add_reserved(bars: &mut Vec<Bar>, moment: u64, reserved: Reserved) -> Result<(), NoMemory>
    ensures { OnOk result (bars.new.items ≡ with_reserved moment bars.old.items reserved) }
{
    let from = reserved.start.saturating_sub(moment);
    let begins = reserved.start.max(moment);
    let seconds = reserved.end.saturating_sub(begins).max(1);
    add_bar(
        bars,
        Kind::Reservation,
        reserved.id,
        from,
        seconds,
        reserved.nodes,
    )
}

/// Adds the reservations.
fn add_all_reserved(
    bars: &mut Vec<Bar>,
    moment: u64,
    all: &BTreeSet<Reserved>,
) -> Result<(), NoMemory>
    ensures { OnOk result (bars.new.items ≡ fold (with_reserved moment) bars.old.items all.now.keys) }
{
    for reserved in all {
        add_reserved(bars, moment, *reserved)?;
    }
    Ok(())
}

/// What a site's machine has from the moment on, beside a plan of that moment: the jobs that run and those that start,
/// of which those that end later lie below, then the head, then the site's reservations in the order of their starts.
/// The head and each reservation lie above all before them that they share a second with. That no two bars share a
/// node and a second is a clause of `chart_svg`.
pub fn bars_at(
    alloc: Global,
    board: &Board,
    here: SiteId,
    moment: u64,
    plan: &Plan,
) -> Result<Vec<Bar>, NoMemory>
    ensures { IfOk result (λ bars. bars.items ≡ bars_in (board_reads board.now) here moment (plan_reads plan.now)) }
{
    let row = standing_at(alloc, board, here, moment, &plan.starts)?;
    let reserved = reserved_at(alloc, board, here, moment)?;
    let mut bars = stacked(alloc, &row)?;
    add_head(&mut bars, board, moment, plan.head)?;
    add_all_reserved(&mut bars, moment, &reserved)?;
    Ok(bars)
}
