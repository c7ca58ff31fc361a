//! The order in which the entries of several journals are placed.
ghost use Rattle.std.specs.Prelude.{◌≡◌, ◌<◌, ◌+◌, ◌^◌, ℕ, false, IfOk, IsTrue, MatchOption, length};
ghost use Rattle.std.specs.List.{slice_get};
ghost use Rattle.fed_threads.specs.Claimants.{AreClaimants, rows_of};
ghost use Rattle.fed_threads.specs.Placing.{entries_of, claims_of, is_placed, is_ship, entry_at, take_allows, is_ready, none_placed, placed_after, IsPlacing};
ghost use Rattle.fed_threads.specs.Cursors.{is_claim_if, AreCursors, IsNextOf, IsLeastNext};
ghost use Rattle.fed_threads.specs.Settle.{AreClaimed};

use crate::claims::Claimants;
use crate::journal::{Asked, Claim, Entry};
use fed_lattice::NoMemory;
use std::alloc::Global;

/// The sites of the entries in their order, and how many entries of each site are placed.
#[derive(Drop)]
pub(crate) struct Order {
    pub(crate) sites: Vec<usize>,
    pub(crate) placed: Vec<usize>,
}

/// The site of the next entry, and the seat that claims it.
#[derive(Clone, Copy, Debug)]
struct Candidate {
    site: usize,
    seat: usize,
}

/// The longest orderly list of the entries, and of several the one whose sites, compared from the front, are least.
pub(crate) fn place_all(
    alloc: Global,
    journals: &[Vec<Entry>],
    seats: &[Vec<Claim>],
    claimants: &Claimants,
) -> Result<Order, NoMemory>
    requires claimed { AreClaimed (entries_of journals.now) (claims_of seats.now) }
    requires table { AreClaimants (entries_of journals.now) (claims_of seats.now) (rows_of claimants.now.rows.items) }
    ensures placing { IfOk result (λ r. IsPlacing
        (is_ready (entries_of journals.now) (claims_of seats.now))
        (none_placed (entries_of journals.now)) r.sites.items) }
    ensures count { IfOk result (λ r. length r.placed.items ≡ length journals.now) }
    ensures placed { IfOk result
        (λ r. r.placed.items ≡ placed_after (none_placed (entries_of journals.now)) r.sites.items) }
{
    let mut placed = vec![in alloc; 0; journals.len()]?;
    let mut cursors = vec![in alloc; 0; seats.len()]?;
    let mut sites = Vec::new(alloc);
    while let Some(next) = least_next(
        journals,
        seats,
        claimants,
        placed.as_slice(),
        cursors.as_slice(),
    ) {
        sites.push(next.site)?;
        placed[next.site] += 1;
        cursors[next.seat] += 1;
    }
    Ok(Order { sites, placed })
}

/// The least site whose next entry may be placed, and the seat that claims that entry.
fn least_next(
    journals: &[Vec<Entry>],
    seats: &[Vec<Claim>],
    claimants: &Claimants,
    placed: &[usize],
    cursors: &[usize],
) -> Option<Candidate>
    requires claimed { AreClaimed (entries_of journals.now) (claims_of seats.now) }
    requires table { AreClaimants (entries_of journals.now) (claims_of seats.now) (rows_of claimants.now.rows.items) }
    requires cursors { AreCursors (claims_of seats.now) placed.now cursors.now }
    requires sites { length placed.now ≡ length journals.now }
    requires seats { length cursors.now ≡ length seats.now }
    ensures { MatchOption result
        ((s : ℕ) → is_ready (entries_of journals.now) (claims_of seats.now) placed.now s ≡ false)
        (λ n. IsLeastNext (entries_of journals.now) (claims_of seats.now) placed.now cursors.now n.site n.seat) }
{
    for site in 0..journals.len() {
        if let Some(seat) = seat_of_next(journals, seats, claimants, placed, cursors, site) {
            return Some(Candidate { site, seat });
        }
    }
    None
}

/// The seat that claims the next entry of a site, where that entry may be placed.
fn seat_of_next(
    journals: &[Vec<Entry>],
    seats: &[Vec<Claim>],
    claimants: &Claimants,
    placed: &[usize],
    cursors: &[usize],
    site: usize,
) -> Option<usize>
    requires claimed { AreClaimed (entries_of journals.now) (claims_of seats.now) }
    requires table { AreClaimants (entries_of journals.now) (claims_of seats.now) (rows_of claimants.now.rows.items) }
    requires cursors { AreCursors (claims_of seats.now) placed.now cursors.now }
    requires sites { length placed.now ≡ length journals.now }
    requires seats { length cursors.now ≡ length seats.now }
    requires inside { site < length journals.now }
    ensures { MatchOption result
        (is_ready (entries_of journals.now) (claims_of seats.now) placed.now site ≡ false)
        (λ seat. IsNextOf (entries_of journals.now) (claims_of seats.now) placed.now cursors.now site seat) }
{
    let index = placed[site];
    let entry = journals[site].get(index)?;
    if !take_may_follow(journals, placed, &entry.asked) {
        return None;
    }
    let seat = claimants.seat_of(site, index)?;
    if claims_next(seats[seat].as_slice(), cursors[seat], site, index) {
        Some(seat)
    } else {
        None
    }
}

/// Whether a seat's claim at this place is of the entry.
fn claims_next(claims: &[Claim], place: usize, site: usize, index: usize) -> bool
    ensures is { result ≡ is_claim_if site index (slice_get claims.now place) }
    ensures fits { IsTrue result → place + 1 < 2 ^ 64 }
{
    match claims.get(place) {
        None => false,
        Some(claim) => claim.site.get() as usize == site && claim.index as usize == index,
    }
}

/// Whether what is asked is no take, or the ship that the take names is placed.
fn take_may_follow(journals: &[Vec<Entry>], placed: &[usize], asked: &Asked) -> bool
    ensures { result ≡ take_allows (entries_of journals.now) placed.now asked.now }
{
    match asked {
        Asked::Do { .. } | Asked::Ship { .. } => true,
        Asked::Take { sender, place, .. } => {
            let site = sender.get() as usize;
            let index = *place as usize;
            placed_there(placed, site, index) && is_ship_at(journals, site, index)
        }
    }
}

/// Whether an entry is among those placed.
fn placed_there(placed: &[usize], site: usize, index: usize) -> bool
    ensures { result ≡ is_placed placed.now site index }
{
    match placed.get(site) {
        None => false,
        Some(count) => index < *count,
    }
}

/// Whether the entry at this place of the journal is a ship.
fn is_ship_at(journals: &[Vec<Entry>], site: usize, index: usize) -> bool
    ensures { result ≡ is_ship (entry_at (entries_of journals.now) site index) }
{
    let Some(journal) = journals.get(site) else {
        return false;
    };
    match journal.get(index) {
        None => false,
        Some(entry) => matches!(entry.asked, Asked::Ship { .. }),
    }
}
