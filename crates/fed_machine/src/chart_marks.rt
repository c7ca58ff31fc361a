//! How the bars of a chart are drawn.
ghost use Rattle.std.specs.Prelude.{◌≡◌, ◌+◌, ◌*◌, ◌/◌, ◌<◌, ◌≤◌, IfOk, flat_map, string_bytes};
ghost use Rattle.fed_machine.specs.ChartMarks.{area_of_bar, class_of, levels_in, pixels_across, pixels_up, size_of_label, span_in, text_of_box, text_of_label, text_of_place, text_of_rect, text_of_row, text_of_turning, turn_of, words_of};

use crate::chart_bars::{Bar, Kind, end, top};
use fed_qstat::identifier_text;
use fed_stamp::Roster;
use std::alloc::{AllocError, Global};

/// How many pixels the seconds that are shown take.
pub(crate) const WIDTH: u128 = 900;

/// How many pixels the nodes that are shown take.
pub(crate) const HEIGHT: u128 = 400;

/// Where a bar lies in the picture, in pixels from its left and upper edges.
#[derive(Clone, Copy, PartialEq, Eq, Debug)]
pub(crate) struct Area {
    /// Its left edge.
    pub x: u16,
    /// Its upper edge.
    pub y: u16,
    /// How wide it is.
    pub width: u16,
    /// How high it is.
    pub height: u16,
}

/// How many seconds are shown: up to the last end of a bar, 4 at least.
pub(crate) fn span_of(bars: &[Bar]) -> u64
    ensures value { result ≡ span_in bars.now }
    ensures some { 4 ≤ result }
{
    let mut span = 4;
    for bar in bars {
        span = span.max(end(bar));
    }
    span
}

/// How many nodes are shown: those of the machine, and more where a bar lies above them.
pub(crate) fn levels_of(nodes: u64, bars: &[Bar]) -> u64
    ensures value { result ≡ levels_in nodes bars.now }
    ensures some { 1 ≤ result }
{
    let mut levels = nodes.max(1);
    for bar in bars {
        levels = levels.max(top(bar));
    }
    levels
}

/// How far to the right a second lies.
fn across(span: u64, second: u64) -> u16
    requires { 0 < span }
    ensures value { result ≡ pixels_across span second }
    ensures at_most { result ≤ 900 }
{
    (second as u128 * WIDTH / span as u128).min(WIDTH) as u16
}

/// How high a number of nodes lies.
pub(crate) fn rise(levels: u64, level: u64) -> u16
    requires { 0 < levels }
    ensures value { result ≡ pixels_up levels level }
    ensures at_most { result ≤ 400 }
{
    (level as u128 * HEIGHT / levels as u128).min(HEIGHT) as u16
}

/// Where a bar lies, where so many seconds and nodes are shown.
fn area_of(span: u64, levels: u64, bar: &Bar) -> Area
    requires seconds { 0 < span }
    requires nodes { 0 < levels }
    ensures { result ≡ area_of_bar span levels bar.now }
{
    let left = across(span, bar.from);
    let right = across(span, end(bar));
    let low = rise(levels, bar.bottom);
    let high = rise(levels, top(bar));
    Area {
        x: 60 + left,
        y: 440 - high,
        width: right.saturating_sub(left).max(2),
        height: high.saturating_sub(low).max(1),
    }
}

/// The name of a kind, which is its class in the picture's style too.
fn class(kind: Kind) -> &'static str
    ensures { result.now ≡ class_of kind }
{
    match kind {
        Kind::Running => "running",
        Kind::Start => "start",
        Kind::Head => "head",
        Kind::Reservation => "reservation",
    }
}

/// What a bar stands for, on how many nodes, and from and to which second.
fn words(alloc: Global, roster: &Roster, moment: u64, bar: &Bar) -> Result<String, AllocError>
    ensures { IfOk result (λ text. string_bytes text ≡ words_of roster.now moment bar.now) }
{
    let id = identifier_text(alloc, roster, bar.id)?;
    let kind = class(bar.kind);
    let nodes = bar.nodes;
    let start = moment as u128 + bar.from as u128;
    let end = moment as u128 + bar.from as u128 + bar.seconds as u128;
    format!(in alloc; "{id}: {kind}, nodes {nodes}, from {start} to {end}")
}

fn rect_text(alloc: Global, area: Area) -> Result<String, AllocError>
    ensures { IfOk result (λ text. string_bytes text ≡ text_of_rect area) }
{
    let Area {
        x,
        y,
        width,
        height,
    } = area;
    format!(in alloc; "<rect x='{x}' y='{y}' width='{width}' height='{height}'/>")
}

/// The size of the letters of a label of so many, of which each is 0.6 of it wide: the label fits into the area, along
/// its longer side.
fn label_size(area: Area, letters: usize) -> u128
    ensures { result ≡ size_of_label area letters }
{
    let long = area.width.max(area.height) as u128;
    let short = area.width.min(area.height) as u128;
    (long * 5 / (letters as u128 * 3 + 1)).min(short).min(14)
}

/// By how many degrees a label is turned: it is upright where the area is higher than wide.
fn turn(area: Area) -> &'static str
    ensures { result.now ≡ turn_of area }
{
    if area.width < area.height { "-90" } else { "0" }
}

/// The middle of an area, and the size of so many letters there.
fn place_text(alloc: Global, area: Area, letters: usize) -> Result<String, AllocError>
    ensures { IfOk result (λ text. string_bytes text ≡ text_of_place letters area) }
{
    let x = area.x as u32 + area.width as u32 / 2;
    let y = area.y as u32 + area.height as u32 / 2;
    let size = label_size(area, letters);
    format!(in alloc; "x='{x}' y='{y}' font-size='{size}'")
}

/// How a label is turned about the middle of an area.
fn turning_text(alloc: Global, area: Area) -> Result<String, AllocError>
    ensures { IfOk result (λ text. string_bytes text ≡ text_of_turning area) }
{
    let x = area.x as u32 + area.width as u32 / 2;
    let y = area.y as u32 + area.height as u32 / 2;
    let turn = turn(area);
    format!(in alloc; "rotate({turn} {x} {y})")
}

/// A label in the middle of an area.
fn label_text(alloc: Global, label: &str, area: Area) -> Result<String, AllocError>
    ensures { IfOk result (λ text. string_bytes text ≡ text_of_label label.now area) }
{
    let place = place_text(alloc, area, label.len())?;
    let turning = turning_text(alloc, area)?;
    format!(in alloc; "<text {place} transform='{turning}'>{label}</text>")
}

/// A bar with its identifier in it; a browser shows the words at the pointer. An identifier has letters, digits, hyphens
/// and a dot alone, or `#` where the roster has no such site: none of them means something to XML.
fn box_text(
    alloc: Global,
    roster: &Roster,
    moment: u64,
    span: u64,
    levels: u64,
    bar: &Bar,
) -> Result<String, AllocError>
    requires seconds { 0 < span }
    requires nodes { 0 < levels }
    ensures { IfOk result (λ text. string_bytes text ≡ text_of_box roster.now moment span levels bar.now) }
{
    let class = class(bar.kind);
    let title = words(alloc, roster, moment, bar)?;
    let area = area_of(span, levels, bar);
    let rect = rect_text(alloc, area)?;
    let id = identifier_text(alloc, roster, bar.id)?;
    let label = label_text(alloc, id.as_str(), area)?;
    format!(in alloc; "<g class='{class}'><title>{title}</title>{rect}{label}</g>\n")
}

/// The row of a bar in the list below the picture.
fn row_text(alloc: Global, roster: &Roster, moment: u64, bar: &Bar) -> Result<String, AllocError>
    ensures { IfOk result (λ text. string_bytes text ≡ text_of_row roster.now moment bar.now) }
{
    let class = class(bar.kind);
    let words = words(alloc, roster, moment, bar)?;
    format!(in alloc; "<tspan x='60' dy='18' class='{class}'>&#9608;&#9608;</tspan> {words}\n")
}

/// The bars with their identifiers.
pub(crate) fn boxes_text(
    alloc: Global,
    roster: &Roster,
    moment: u64,
    span: u64,
    levels: u64,
    bars: &[Bar],
) -> Result<String, AllocError>
    requires seconds { 0 < span }
    requires nodes { 0 < levels }
    ensures { IfOk result (λ text. string_bytes text ≡ flat_map (text_of_box roster.now moment span levels) bars.now) }
{
    let mut text = String::new(alloc);
    for bar in bars {
        let drawn = box_text(alloc, roster, moment, span, levels, bar)?;
        text.push_str(drawn.as_str())?;
    }
    Ok(text)
}

/// The rows of the list below the picture.
pub(crate) fn rows_text(
    alloc: Global,
    roster: &Roster,
    moment: u64,
    bars: &[Bar],
) -> Result<String, AllocError>
    ensures { IfOk result (λ text. string_bytes text ≡ flat_map (text_of_row roster.now moment) bars.now) }
{
    let mut text = String::new(alloc);
    for bar in bars {
        let row = row_text(alloc, roster, moment, bar)?;
        text.push_str(row.as_str())?;
    }
    Ok(text)
}
