//! Reservations read from JSON values.
ghost use Rattle.std.specs.Prelude.{◌≡◌, ◌&&◌, [], map, Some, IsSome};
ghost use Rattle.serde_json.specs.View.{view};
ghost use Rattle.fed_lattice.specs.Results.{mapped};
ghost use Rattle.fed_json.specs.Numbers.{natural_in};
ghost use Rattle.fed_job_json.specs.Fields.{field_of};
ghost use Rattle.fed_stamp.specs.Version.{covers};
ghost use Rattle.fed_wire.specs.declared.faults.Part.TheVariants.{Reservations as TheReservations};
ghost use Rattle.fed_wire.specs.Faults.{Gives};
ghost use Rattle.fed_wire.specs.Packet.{covers_window, reservation_stands};
ghost use Rattle.fed_wire.specs.Reading.{each_in, array_in};
ghost use Rattle.fed_wire.specs.Reservations.{times_of, window_of, reservation_of};

use crate::faults::{Part, Place, WireFault};
use crate::identifiers::Identifiers;
use fed_board::MAX_RESERVATIONS;
use fed_job_json::{read_site, read_stamp};
use fed_json::{Flaw, both, elements, natural, read_members};
use fed_lattice::{Causal, Table};
use fed_record::{MAX_MOMENT, Reservation, Window};
use fed_stamp::{MAX_NODES, Stamp, Version};
use serde_json::Value;
use std::alloc::Global;

fn read_times(value: &Value) -> Result<Window, Flaw>
    ensures { result ≡ times_of (view value.now) }
{
    match elements(value)? {
        [site, start, end, nodes] => {
            let numbers = both(natural(end, 0, MAX_MOMENT), natural(nodes, 1, MAX_NODES));
            let others = both(natural(start, 0, MAX_MOMENT), numbers);
            let (site, (start, (end, nodes))) = both(read_site(site), others)?;
            if start >= end {
                return Err(Flaw::Range);
            }
            Ok(Window {
                site,
                start,
                end,
                nodes,
            })
        }
        _ => Err(Flaw::Shape),
    }
}

fn read_window(value: &Value) -> Result<Option<Window>, Flaw>
    ensures { result ≡ window_of (view value.now) }
{
    if value.is_null() {
        return Ok(None);
    }
    Ok(Some(read_times(value)?))
}

fn read_window_field(value: &Value) -> Result<(Stamp, Option<Window>), Flaw>
    ensures { mapped (λ f. Some f) result ≡ field_of window_of (view value.now) }
{
    match elements(value)? {
        [times, at] => {
            let (window, stamp) = both(read_window(times), read_stamp(at))?;
            Ok((stamp, window))
        }
        _ => Err(Flaw::Shape),
    }
}

fn read_latest(value: &Value) -> Result<Reservation, Flaw>
    ensures { result ≡ field_of window_of (view value.now) }
{
    let (stamp, window) = read_window_field(value)?;
    Ok(Reservation::from_parts(stamp, window))
}

/// The identifier of the reservation, and what is read of it.
pub fn read_reservation(value: &Value) -> Result<(Stamp, Reservation), Flaw>
    ensures { result ≡ reservation_of (view value.now) }
{
    // Until a member is read, the object itself stands at its index.
    let mut members = [value; 2];
    if !read_members(value, &["id", "window"], &mut members) {
        return Err(Flaw::Shape);
    }
    both(read_stamp(members[0]), read_latest(members[1]))
}

// Whether the version covers the identifier and the greatest stamp.
fn is_covered(reached: &Version, id: Stamp, reservation: &Reservation) -> bool
    requires { IsSome reservation.now }
    ensures { result ≡ (covers reached.now id && covers_window reached.now reservation.now) }
{
    reached.covers(id) && reached.covers(reservation.stamp())
}

fn all_reservations(
    alloc: Global,
    values: &[Value],
    reached: &Version,
) -> Result<Table<Stamp, Reservation>, WireFault>
    ensures { Gives (each_in TheReservations reservation_of (reservation_stands reached.now) [] (map view values.now)) result }
{
    let mut ids = Identifiers::new();
    let mut reservations = Table::bottom(alloc);
    for (index, value) in values.iter().enumerate() {
        let place = Place {
            part: Part::Reservations,
            index,
        };
        match read_reservation(value) {
            Ok(entry) => {
                let (id, reservation) = entry;
                if !ids.admit(MAX_RESERVATIONS, id) || !is_covered(reached, id, &reservation) {
                    return Err(WireFault::Range { place });
                }
                reservations.insert(id, reservation)?;
            }
            Err(Flaw::Shape) => return Err(WireFault::Shape { place }),
            Err(Flaw::Range) => return Err(WireFault::Range { place }),
        }
    }
    Ok(reservations)
}

/// The reservations of a packet that reaches the version.
pub(crate) fn read_reservations(
    alloc: Global,
    value: &Value,
    reached: &Version,
) -> Result<Table<Stamp, Reservation>, WireFault>
    ensures { Gives (array_in TheReservations reservation_of (reservation_stands reached.now) (view value.now)) result }
{
    match elements(value) {
        Ok(values) => all_reservations(alloc, values, reached),
        Err(_) => Err(WireFault::Shape {
            place: Place {
                part: Part::Reservations,
                index: 0,
            },
        }),
    }
}
