//! A picture of a site's machine.
ghost use Rattle.std.specs.Prelude.{◌≡◌, ◌<◌, ◌++◌, IfOk, flat_map, length, string_bytes};
ghost use Rattle.std.specs.List.{AllPairs, range_with_len};
ghost use Rattle.fed_board.specs.Board.{board_reads};
ghost use Rattle.fed_machine.specs.Chart.{chart_bars, level_line_at, note_of_plan, picture_of, svg_of_chart, text_of_foot, text_of_ground, text_of_head, text_of_heading, text_of_nodes, text_of_style, text_of_tick, upward_line_at};
ghost use Rattle.fed_machine.specs.ChartBars.{LiesBelow};

use crate::chart_bars::{Bar, bars_at};
use crate::chart_marks::{boxes_text, levels_of, rise, rows_text, span_of};
use fed_board::Board;
use fed_easy::{Plan, nodes_of, plan_at};
use fed_lattice::NoMemory;
use fed_qstat::site_text;
use fed_record::Moment;
use fed_stamp::{Roster, SiteId};
use std::alloc::{AllocError, Global};

/// The colours, and what they tell.
#[tactic(auto, unfolding(crate::specs::Chart::text_of_style))]
fn style_text() -> &'static str
    ensures { result.now ≡ text_of_style }
{
    "<style>line{stroke:#ccc}line.nodes{stroke:#222;stroke-dasharray:6 4}.middle{text-anchor:middle}.end{text-anchor:end}.running{fill:#9ecae1}.start{fill:#a1d99b}.head{fill:#fdae6b}.reservation{fill:#cbb4e2}g rect{stroke:#444}g text{fill:#222;font-family:monospace;text-anchor:middle;dominant-baseline:central}</style>\n<text x='960' y='24' class='end'><tspan class='running'>&#9608;&#9608;</tspan> running <tspan class='start'>&#9608;&#9608;</tspan> start <tspan class='head'>&#9608;&#9608;</tspan> head <tspan class='reservation'>&#9608;&#9608;</tspan> reservation</text>\n"
}

/// The start of a picture with a list of so many rows.
fn head_text(alloc: Global, rows: usize) -> Result<String, AllocError>
    ensures { IfOk result (λ text. string_bytes text ≡ text_of_head rows) }
{
    let height = rows as u128 * 18 + 500;
    format!(in alloc;
        "<svg xmlns='http://www.w3.org/2000/svg' width='1020' height='{height}' font-family='sans-serif' font-size='13'>\n"
    )
}

/// That there is no plan, where there is none.
fn plan_note(planned: bool) -> &'static str
    ensures { result.now ≡ note_of_plan planned }
{
    if planned { "" } else { ", no plan" }
}

/// What the picture shows: the site, its nodes and the moment, and that there is no plan, where there is none.
fn heading_text(
    alloc: Global,
    roster: &Roster,
    here: SiteId,
    moment: u64,
    nodes: u64,
    planned: bool,
) -> Result<String, AllocError>
    ensures { IfOk result (λ text. string_bytes text ≡ text_of_heading roster.now here moment nodes planned) }
{
    let site = site_text(alloc, roster, here)?;
    let note = plan_note(planned);
    format!(in alloc;
        "<text x='60' y='24' font-size='16'>{site}: nodes {nodes}, from second {moment} on{note}</text>\n"
    )
}

/// A line upwards.
fn upward_line(alloc: Global, x: u64) -> Result<String, AllocError>
    ensures { IfOk result (λ text. string_bytes text ≡ upward_line_at x) }
{
    format!(in alloc; "<line x1='{x}' y1='40' x2='{x}' y2='446'/>")
}

/// A line upwards at so many quarters of the seconds that are shown, with its moment.
fn tick_text(alloc: Global, moment: u64, span: u64, quarters: u64) -> Result<String, AllocError>
    requires { quarters < 5 }
    ensures { IfOk result (λ text. string_bytes text ≡ text_of_tick moment span quarters) }
{
    let x = 60 + 225 * quarters;
    let second = moment as u128 + span as u128 * quarters as u128 / 4;
    let line = upward_line(alloc, x)?;
    format!(in alloc; "{line}<text x='{x}' y='462' class='middle'>{second}</text>\n")
}

/// The lines upwards.
fn ticks_text(alloc: Global, moment: u64, span: u64) -> Result<String, AllocError>
    ensures { IfOk result (λ text. string_bytes text ≡ flat_map (text_of_tick moment span) (range_with_len 0 5)) }
{
    let mut text = String::new(alloc);
    for quarters in 0..5u64 {
        let tick = tick_text(alloc, moment, span, quarters)?;
        text.push_str(tick.as_str())?;
    }
    Ok(text)
}

/// A line to the right.
fn level_line(alloc: Global, y: u16) -> Result<String, AllocError>
    ensures { IfOk result (λ text. string_bytes text ≡ level_line_at y) }
{
    format!(in alloc; "<line x1='60' y1='{y}' x2='960' y2='{y}' class='nodes'/>")
}

/// A line to the right at the number of the machine's nodes.
fn nodes_text(alloc: Global, levels: u64, nodes: u64) -> Result<String, AllocError>
    requires { 0 < levels }
    ensures { IfOk result (λ text. string_bytes text ≡ text_of_nodes levels nodes) }
{
    let y = 440 - rise(levels, nodes);
    let line = level_line(alloc, y)?;
    format!(in alloc; "{line}<text x='54' y='{y}' class='end'>{nodes}</text>\n")
}

/// The words at the axes, the 0 of the nodes, and the start of the list.
#[tactic(auto, unfolding(crate::specs::Chart::text_of_ground))]
fn ground_text() -> &'static str
    ensures { result.now ≡ text_of_ground }
{
    "<text x='54' y='440' class='end'>0</text>\n<text x='30' y='240' class='middle' transform='rotate(-90 30 240)'>nodes</text>\n<text x='510' y='478' class='middle'>seconds</text>\n<text y='480'>\n"
}

/// The end of the list and of the picture.
#[tactic(auto, unfolding(crate::specs::Chart::text_of_foot))]
fn foot_text() -> &'static str
    ensures { result.now ≡ text_of_foot }
{
    "</text>\n</svg>\n"
}

/// A picture of bars.
fn picture(
    alloc: Global,
    roster: &Roster,
    here: SiteId,
    moment: u64,
    planned: bool,
    bars: &[Bar],
) -> Result<String, AllocError>
    requires { here < length roster.now }
    ensures { IfOk result (λ text. string_bytes text ≡ picture_of roster.now here moment planned bars.now) }
{
    let nodes = nodes_of(roster, here);
    let span = span_of(bars);
    let levels = levels_of(nodes, bars);
    let mut text = head_text(alloc, bars.len())?;
    text.push_str(style_text())?;
    text.push_str(heading_text(alloc, roster, here, moment, nodes, planned)?.as_str())?;
    text.push_str(ticks_text(alloc, moment, span)?.as_str())?;
    text.push_str(boxes_text(alloc, roster, moment, span, levels, bars)?.as_str())?;
    text.push_str(nodes_text(alloc, levels, nodes)?.as_str())?;
    text.push_str(ground_text())?;
    text.push_str(rows_text(alloc, roster, moment, bars)?.as_str())?;
    text.push_str(foot_text())?;
    Ok(text)
}

/// A picture of the site's machine from the moment on, as an SVG document: nodes upwards and seconds to the right, with
/// five moments below, a line at the number of the machine's nodes, and a legend. It has a box for each job that runs
/// and for each job that the plan starts, of which those that end later lie below, for the head of the plan from its
/// second on, and for each reservation of the site that stands and isn't over, with their identifiers; below it the
/// same in words. A job that runs beyond its end is drawn for a second, as it counts in the plan. The head and the
/// reservations lie above all that they share a second with, so that no two boxes share a node and a second; what
/// doesn't fit beside the rest lies above the line of the machine's nodes. A box is drawn 2 pixels wide and 1 high at
/// least, so that it can be seen. Where no machine may be as the board has it, which no board of a run has, there is no
/// plan, and the heading says so.
pub fn chart_svg(
    alloc: Global,
    roster: &Roster,
    board: &Board,
    here: SiteId,
    moment: Moment,
) -> Result<String, NoMemory>
    requires { here < length roster.now }
    ensures picture { IfOk result (λ text. string_bytes text ≡ svg_of_chart roster.now (board_reads board.now) here moment) }
    ensures apart { AllPairs LiesBelow (chart_bars roster.now (board_reads board.now) here moment) }
{
    let second = moment.get();
    let found = plan_at(alloc, roster, board, here, moment)?;
    let planned = found.is_some();
    let plan = match found {
        Some(plan) => plan,
        None => Plan {
            starts: Vec::new(alloc),
            head: None,
        },
    };
    let bars = bars_at(alloc, board, here, second, &plan)?;
    Ok(picture(alloc, roster, here, second, planned, &bars)?)
}
