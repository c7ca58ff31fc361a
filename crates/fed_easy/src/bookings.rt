//! Times at which nodes are in use.
ghost use Rattle.std.specs.Prelude.{◌≡◌, ◌≤◌, ◌++◌, IfOk, OnOk, map};
ghost use Rattle.fed_board.specs.Board.{board_reads};
ghost use Rattle.fed_easy.specs.SitePlan.{booked_at, bookings_in, reserved_in, running_booking as booking_of};

use crate::machines::{Machine, Running};
use fed_board::Board;
use fed_lattice::NoMemory;
use fed_record::{MAX_MOMENT, Reservation};
use fed_stamp::SiteId;
use std::alloc::Global;

/// Nodes that are in use from one second until before another.
#[derive(Clone, Copy)]
pub struct Booking {
    /// The first second at which they are in use.
    pub from: u64,
    /// The second from which on they are not.
    pub until: u64,
    /// How many nodes.
    pub nodes: u64,
}

// The time of an entry that runs: until its end, and now in any case.
fn running_booking(now: u64, entry: &Running) -> Booking
    requires { now ≤ MAX_MOMENT }
    ensures { result ≡ booking_of now entry.now }
{
    Booking {
        from: 0,
        until: entry.end.max(now + 1),
        nodes: entry.nodes,
    }
}

// The times of the entries that run.
fn running_bookings(alloc: Global, now: u64, running: &[Running]) -> Result<Vec<Booking>, NoMemory>
    requires { now ≤ MAX_MOMENT }
    ensures { IfOk result (λ bookings. bookings.items ≡ map (booking_of now) running.now) }
{
    let mut bookings = Vec::with_capacity(alloc, running.len())?;
    for entry in running {
        bookings.push(running_booking(now, entry))?;
    }
    Ok(bookings)
}

/// The time of a reservation, if it stands and is the site's.
pub fn reserved_time(reservation: &Reservation, site: SiteId) -> Option<Booking>
    ensures { result ≡ booked_at site reservation.now }
{
    if !reservation.is_made() {
        return None;
    }
    let window = reservation.window()?;
    if window.site != site {
        return None;
    }
    Some(Booking {
        from: window.start,
        until: window.end,
        nodes: window.nodes,
    })
}

// Adds the times of the site's standing reservations.
fn add_reserved(bookings: &mut Vec<Booking>, board: &Board, site: SiteId) -> Result<(), NoMemory>
    ensures { OnOk result (bookings.new.items ≡ bookings.old.items ++ reserved_in site (board_reads board.now)) }
{
    for (_, reservation) in board.reservations() {
        if let Some(booking) = reserved_time(reservation, site) {
            bookings.push(booking)?;
        }
    }
    Ok(())
}

/// What is in use at the site before any job starts: the entries that run, and its standing reservations.
pub(crate) fn bookings_of(
    alloc: Global,
    board: &Board,
    site: SiteId,
    moment: u64,
    machine: &Machine,
) -> Result<Vec<Booking>, NoMemory>
    requires { moment ≤ MAX_MOMENT }
    ensures { IfOk result (λ bookings. bookings.items ≡ bookings_in site (board_reads board.now) moment machine.now) }
{
    let mut bookings = running_bookings(alloc, moment, machine.running())?;
    add_reserved(&mut bookings, board, site)?;
    Ok(bookings)
}
