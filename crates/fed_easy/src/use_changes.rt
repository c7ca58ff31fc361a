//! The seconds at which the use of a machine changes.
ghost use Rattle.std.specs.Prelude.{◌≡◌, ◌++◌, IfOk, List, OnOk, [], ◌∷◌};
ghost use Rattle.std.specs.List.Sorted.{IsNonDecreasingBy};
ghost use Rattle.fed_easy.specs.Events.{AreEvents};
ghost use Rattle.fed_easy.specs.declared.bookings.Booking.{Booking};

use crate::bookings::Booking;
use fed_lattice::NoMemory;
use std::alloc::Global;

/// At this second nodes come into use or go out of use.
#[derive(Clone, Copy)]
pub(crate) struct UseChange {
    /// The second.
    pub(crate) second: u64,
    /// How many nodes are in use from then on that were not before.
    pub(crate) opened: u64,
    /// How many nodes were in use until then and are not any more.
    pub(crate) closed: u64,
}

// Adds the events of the booking behind the start, of which it has none if it is over by then.
fn add_events(events: &mut Vec<UseChange>, start: u64, booking: Booking) -> Result<(), NoMemory>
    ensures { OnOk result ((bookings : List Booking) → AreEvents start bookings events.old.items →
        AreEvents start (bookings ++ booking ∷ []) events.new.items) }
{
    if booking.until <= booking.from.max(start) {
        return Ok(());
    }
    if start < booking.from {
        events.push(UseChange {
            second: booking.from,
            opened: booking.nodes,
            closed: 0,
        })?;
    }
    events.push(UseChange {
        second: booking.until,
        opened: 0,
        closed: booking.nodes,
    })?;
    Ok(())
}

/// The events of the bookings behind the start, the earlier first.
pub(crate) fn events_of(
    alloc: Global,
    start: u64,
    bookings: &[Booking],
) -> Result<Vec<UseChange>, NoMemory>
    ensures events { IfOk result (λ events. AreEvents start bookings.now events.items) }
    ensures ascending { IfOk result (λ events. IsNonDecreasingBy (λ e. e.second) events.items) }
{
    let mut events = Vec::with_capacity(alloc, bookings.len())?;
    for booking in bookings {
        add_events(&mut events, start, *booking)?;
    }
    events.sort_by_key(|event| event.second)?;
    Ok(events)
}
