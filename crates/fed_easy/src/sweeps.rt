//! Profiles of bookings.
ghost use Rattle.std.specs.Prelude.{◌≡◌, ◌≤◌, ◌<◌, ◌^◌, ◌-◌, IfOk, min, suc};
ghost use Rattle.fed_easy.specs.Profile.{IsProfile, Tells};
ghost use Rattle.fed_easy.specs.Use.{use_at};

use crate::bookings::Booking;
use crate::profiles::{Profile, Step};
use crate::use_changes::events_of;
use fed_lattice::NoMemory;
use fed_stamp::MAX_NODES;
use std::alloc::Global;

// The nodes in use before events that close and open so many, where what is beyond the capacity counts as one node
// beyond it.
fn level(closed: u128, opened: u128, capacity: u64) -> u64
    requires { capacity < 2 ^ 63 }
    ensures { result ≡ min (closed - opened) (suc capacity) }
{
    closed.saturating_sub(opened).min(u128::from(capacity) + 1) as u64
}

/// The profile, from `start` on, of a machine of so many nodes on which nothing but these bookings is in use. With n
/// bookings it takes n log n steps.
pub(crate) fn profile_of(
    alloc: Global,
    capacity: u64,
    start: u64,
    bookings: &[Booking],
) -> Result<Profile, NoMemory>
    requires capacity { capacity ≤ MAX_NODES }
    ensures profile { IfOk result IsProfile }
    ensures capacity { IfOk result (λ p. p.capacity ≡ capacity) }
    ensures start { IfOk result (λ p. p.start ≡ start) }
    ensures tells { IfOk result (λ p. Tells p (use_at bookings.now)) }
{
    let events = events_of(alloc, start, bookings)?;
    let count = events.len();
    let mut steps = Vec::with_capacity(alloc, count)?;
    let mut nodes = 0;
    let mut first = 0;
    let mut closed = 0u128;
    let mut opened = 0u128;
    for i in 0..count {
        let event = events[count - 1 - i];
        if event.second != first {
            steps.push(Step {
                from: event.second,
                nodes,
            })?;
            first = event.second;
        }
        closed += u128::from(event.closed);
        opened += u128::from(event.opened);
        nodes = level(closed, opened, capacity);
    }
    steps.reverse();
    Ok(Profile {
        capacity,
        start,
        nodes,
        steps,
    })
}
