//! Packets without their jobs, written as JSON values of format 2, or of format 3 where they tell what is retired.
ghost use Rattle.std.specs.Prelude.{◌≡◌, IsSome, IfOk, map};
ghost use Rattle.serde_json.specs.View.{view};
ghost use Rattle.serde_json.specs.View.{members_view};
ghost use Rattle.fed_json.specs.Objects.{members_from};
ghost use Rattle.fed_json.specs.Values.{list_value};
ghost use Rattle.fed_job_json.specs.declared.formats.Format.TheVariants.{Two};
ghost use Rattle.fed_parts_json.specs.Retirements.{retirements_value};
ghost use Rattle.fed_wire.specs.Packet.{members_before, packet_value as value_of, sender_member};
ghost use Rattle.fed_wire.specs.Printed.{without_jobs};
ghost use Rattle.fed_wire.specs.Reservations.{window_value, reservation_value};

use fed_delta::{Delta, Packet};
use fed_parts_json::{write_retirements, write_stamp, write_version};
use fed_record::{Reservation, Window};
use fed_stamp::Stamp;
use serde_json::{Map, Value, json, put};
use std::alloc::{AllocError, Global};

fn write_window(alloc: Global, window: Option<Window>) -> Result<Value, AllocError>
    ensures { IfOk result (λ v. view v ≡ window_value window) }
{
    match window {
        Some(window) => {
            json!(in alloc; [window.site.get(), window.start, window.end, window.nodes])
        }
        None => Ok(Value::Null),
    }
}

fn write_reservation(alloc: Global, id: Stamp, reserved: &Reservation) -> Result<Value, AllocError>
    requires { IsSome reserved.now }
    ensures { IfOk result (λ v. view v ≡ reservation_value (id, reserved.now)) }
{
    let window = write_window(alloc, reserved.window())?;
    let latest = json!(in alloc; [window, write_stamp(alloc, reserved.stamp())?])?;
    json!(in alloc; {
        "id": write_stamp(alloc, id)?,
        "window": latest
    })
}

fn write_reservations(alloc: Global, delta: &Delta) -> Result<Value, AllocError>
    ensures { IfOk result (λ v. view v ≡ list_value (map reservation_value delta.now.changes.reservations)) }
{
    let mut values = Vec::new(alloc);
    for (id, reserved) in delta.reservations() {
        values.push(write_reservation(alloc, *id, reserved)?)?;
    }
    Ok(Value::Array(values))
}

fn write_retired(alloc: Global, delta: &Delta) -> Result<Value, AllocError>
    ensures { IfOk result (λ v. view v ≡ list_value (map retirements_value delta.now.changes.retired)) }
{
    let mut values = Vec::new(alloc);
    for (site, retirements) in delta.retired().iter() {
        values.push(write_retirements(alloc, *site, retirements)?)?;
    }
    Ok(Value::Array(values))
}

// The members of the packet but its jobs and what is retired.
fn frame_members(
    alloc: Global,
    packet: &Packet,
    number: u64,
) -> Result<Map<String, Value>, AllocError>
    ensures { IfOk result (λ m. members_view m.entries
        ≡ members_from (members_before number Two (without_jobs packet.now) (sender_member packet.now))) }
{
    let delta = packet.delta();
    let mut members = Map::new(alloc);
    put(&mut members, alloc, "format", Value::from(number))?;
    put(&mut members, alloc, "jobs", Value::Array(Vec::new(alloc)))?;
    put(
        &mut members,
        alloc,
        "need",
        write_version(alloc, &delta.need())?,
    )?;
    put(
        &mut members,
        alloc,
        "reached",
        write_version(alloc, &delta.reached())?,
    )?;
    put(
        &mut members,
        alloc,
        "reservations",
        write_reservations(alloc, delta)?,
    )?;
    put(
        &mut members,
        alloc,
        "sender",
        Value::from(packet.sender().get()),
    )?;
    Ok(members)
}

/// The value of the packet with no jobs: of format 3 where it tells what is retired, and else of format 2.
pub(crate) fn frame_value(alloc: Global, packet: &Packet) -> Result<Value, AllocError>
    ensures { IfOk result (λ v. view v ≡ value_of Two (without_jobs packet.now)) }
{
    let delta = packet.delta();
    if delta.retired().is_empty() {
        return Ok(Value::Object(frame_members(alloc, packet, 2)?));
    }
    let mut members = frame_members(alloc, packet, 3)?;
    put(&mut members, alloc, "retired", write_retired(alloc, delta)?)?;
    Ok(Value::Object(members))
}
