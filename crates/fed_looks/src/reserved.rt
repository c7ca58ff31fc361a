//! What is reserved.
ghost use Rattle.std.specs.Prelude.{◌≡◌, ◌++◌, IfOk, OnOk, map, string_bytes};
ghost use Rattle.serde_json.specs.View.{view};
ghost use Rattle.fed_board.specs.Board.{board_reads};
ghost use Rattle.fed_json.specs.Values.{list_value};
ghost use Rattle.fed_looks.specs.Reserved.{if_standing, json_of_reservations, line_of_window, lines_of_reservations, of_standing, window_data, window_object};

use crate::json_lines::json_line;
use fed_board::Board;
use fed_lattice::NoMemory;
use fed_qstat::{identifier_text, site_text};
use fed_record::{Reservation, Window};
use fed_stamp::{Roster, Stamp};
use serde_json::{Value, json};
use std::alloc::{AllocError, Global};

/// The line of a reservation's window.
fn window_line(
    alloc: Global,
    roster: &Roster,
    id: Stamp,
    window: Window,
) -> Result<String, AllocError>
    ensures { IfOk result (λ text. string_bytes text ≡ line_of_window roster.now id window) }
{
    let id = identifier_text(alloc, roster, id)?;
    let site = site_text(alloc, roster, window.site)?;
    let (start, end, nodes) = (window.start, window.end, window.nodes);
    format!(in alloc; "{id} {site} {start} {end} {nodes}\n")
}

/// The object of a reservation's window.
fn window_value(
    alloc: Global,
    roster: &Roster,
    id: Stamp,
    window: Window,
) -> Result<Value, AllocError>
    ensures { IfOk result (λ v. view v ≡ window_data roster.now id window) }
{
    let id = identifier_text(alloc, roster, id)?;
    let site = site_text(alloc, roster, window.site)?;
    json!(in alloc; {
        "end": window.end,
        "id": id.as_str(),
        "nodes": window.nodes,
        "site": site.as_str(),
        "start": window.start,
    })
}

/// Adds the line of a reservation, or nothing where it is cancelled.
fn push_line(
    alloc: Global,
    text: &mut String,
    roster: &Roster,
    id: Stamp,
    reservation: &Reservation,
) -> Result<(), AllocError>
    ensures { OnOk result (string_bytes text.new ≡
        string_bytes text.old ++ if_standing (line_of_window roster.now id) reservation.now) }
{
    if !reservation.is_made() {
        return Ok(());
    }
    match reservation.window() {
        Some(window) => {
            let line = window_line(alloc, roster, id, window)?;
            text.push_str(line.as_str())
        }
        None => Ok(()),
    }
}

/// Adds the object of a reservation, or none where it is cancelled.
fn push_object(
    alloc: Global,
    values: &mut Vec<Value>,
    roster: &Roster,
    id: Stamp,
    reservation: &Reservation,
) -> Result<(), AllocError>
    ensures { OnOk result (map view values.new.items ≡
        map view values.old.items ++ if_standing (window_object roster.now id) reservation.now) }
{
    if !reservation.is_made() {
        return Ok(());
    }
    if let Some(window) = reservation.window() {
        values.push(window_value(alloc, roster, id, window)?)?;
    }
    Ok(())
}

/// A line `ID WHERE START END NODES` for each reservation that stands, in the order of their identifiers.
pub fn reservation_lines(alloc: Global, roster: &Roster, board: &Board) -> Result<String, NoMemory>
    ensures { IfOk result (λ text. string_bytes text ≡ lines_of_reservations roster.now (board_reads board.now)) }
{
    let mut text = String::new(alloc);
    for (id, reservation) in board.reservations() {
        push_line(alloc, &mut text, roster, *id, reservation)?;
    }
    Ok(text)
}

/// The array of the objects of the reservations that stand.
fn reservation_objects(alloc: Global, roster: &Roster, board: &Board) -> Result<Value, AllocError>
    ensures { IfOk result (λ v. view v ≡ list_value (of_standing (window_object roster.now) (board_reads board.now))) }
{
    let mut values = Vec::new(alloc);
    for (id, reservation) in board.reservations() {
        push_object(alloc, &mut values, roster, *id, reservation)?;
    }
    Ok(Value::Array(values))
}

/// What `reservation_lines` tells, as one line: a JSON array with an object for each reservation, whose members are `end`,
/// `id`, `nodes`, `site` and `start`. The only error is `NoMemory`.
pub fn reservations_json(alloc: Global, roster: &Roster, board: &Board) -> Result<String, NoMemory>
    ensures { IfOk result (λ text. string_bytes text ≡ json_of_reservations roster.now (board_reads board.now)) }
{
    let value = reservation_objects(alloc, roster, board)?;
    Ok(json_line(alloc, &value)?)
}
