//! The entries of all journals as one list of events.
ghost use Rattle.std.specs.Prelude.{◌≡◌, ◌<◌, ◌≤◌, ◌↔◌, ℕ, List, IfOk, IfErr, IsTrue, length, slice_index};
ghost use Rattle.fed_stamp.specs.declared.sites.TheConstants.{SITES};
ghost use Rattle.fed_model.specs.declared.events.Event.{Event};
ghost use Rattle.fed_threads.specs.declared.fault.CloseFault.TheVariants as CloseFault;
ghost use Rattle.fed_threads.specs.Placing.{claims_of, entries_of};
ghost use Rattle.fed_threads.specs.Settle.{IsCloseFault, IsRunFault, IsSettled, IsWhole, RunsAll};

use crate::claims::check_claims;
use crate::course::Course;
use crate::fault::CloseFault;
use crate::journal::{Claim, Entry};
use crate::placing::place_all;
use fed_stamp::{Roster, SITES, roster_is_lawful};
use fed_world::{Event, World};
use std::alloc::Global;

/// The events that the entries of the journals come to, in the one order that is chosen. It asks for one journal for each
/// site of the roster, in the order of their numbers; the claims of the seats must be of just these entries. Else
/// it answers the first of the faults of `CloseFault`, in the order of their numbers, or `NoMemory` wherever an allocation
/// fails. Where there is a list that the journals and claims are settled to, want of memory is the only fault.
pub fn settle(
    alloc: Global,
    roster: &Roster,
    journals: &[Vec<Entry>],
    seats: &[Vec<Claim>],
) -> Result<Vec<Event>, CloseFault>
    requires { length journals.now ≡ length roster.now }
    ensures ok { IfOk result (λ events. IsSettled (entries_of journals.now) (claims_of seats.now) events.items) }
    ensures err { IfErr result (λ e. IsCloseFault (entries_of journals.now) (claims_of seats.now) e) }
    ensures settled { (events : List Event) → IsSettled (entries_of journals.now) (claims_of seats.now) events →
        IfErr result (λ e. e ≡ CloseFault.NoMemory) }
{
    let world = settle_in(alloc, roster, journals, seats)?;
    let mut events = Vec::new(alloc);
    events.extend_from_slice(world.events())?;
    Ok(events)
}

/// The world of the events that the entries of the journals come to.
pub(crate) fn settle_in(
    alloc: Global,
    roster: &Roster,
    journals: &[Vec<Entry>],
    seats: &[Vec<Claim>],
) -> Result<World, CloseFault>
    requires { length journals.now ≡ length roster.now }
    ensures ok { IfOk result (λ w. IsSettled (entries_of journals.now) (claims_of seats.now) w.events) }
    ensures sites { IfOk result (λ w. w.sites ≡ length roster.now) }
    ensures err { IfErr result (λ e. IsCloseFault (entries_of journals.now) (claims_of seats.now) e) }
{
    roster_is_lawful(roster);
    let claimants = check_claims(alloc, journals, seats)?;
    let order = place_all(alloc, journals, seats, &claimants)?;
    if !has_all(journals, &order.placed) {
        return Err(CloseFault::NoOrder {
            next: numbers_of_all(&order.placed),
        });
    }
    run_order(alloc, roster, journals, &order.sites)
}

/// Whether all entries are placed.
#[tactic(auto, using(crate::proofs::Courses::journal_is))]
fn has_all(journals: &[Vec<Entry>], placed: &[usize]) -> bool
    requires { length placed.now ≡ length journals.now }
    ensures { IsTrue result ↔ IsWhole (entries_of journals.now) placed.now }
{
    for (site, journal) in journals.iter().enumerate() {
        if placed[site] != journal.len() {
            return false;
        }
    }
    true
}

/// How many are placed of each of the 16 sites: of one that is not there none are.
fn numbers_of_all(placed: &[usize]) -> [u64; SITES]
    requires { length placed.now ≤ SITES }
    ensures numbers { (s : ℕ) → s < length placed.now → slice_index result s ≡ slice_index placed.now s }
    ensures others { (s : ℕ) → length placed.now ≤ s → slice_index result s ≡ 0 }
{
    let mut next = [0; SITES];
    for (site, number) in placed.iter().enumerate() {
        next[site] = *number as u64;
    }
    next
}

/// Runs the entries of these sites.
fn run_order(
    alloc: Global,
    roster: &Roster,
    journals: &[Vec<Entry>],
    sites: &[usize],
) -> Result<World, CloseFault>
    requires { length journals.now ≡ length roster.now }
    ensures ok { IfOk result (λ w. RunsAll (entries_of journals.now) sites.now w) }
    ensures err { IfErr result (λ e. IsRunFault (entries_of journals.now) sites.now e) }
{
    let mut course = Course::new(alloc, roster)?;
    for (k, site) in sites.iter().enumerate() {
        let site = *site;
        if site >= journals.len() {
            return Err(CloseFault::Differs { event: k as u64 });
        }
        let Some(entry) = journals[site].get(course.next(site)) else {
            return Err(CloseFault::Differs { event: k as u64 });
        };
        if !course.run(site, entry)? {
            return Err(CloseFault::Differs { event: k as u64 });
        }
    }
    Ok(course.into_world())
}
