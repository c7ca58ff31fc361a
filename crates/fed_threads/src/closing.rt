//! How a federation is closed: its journals and what its seats claim are settled to one run.
ghost use Rattle.std.specs.Prelude.{◌≡◌, ◌<◌, ◌≤◌, ◌↔◌, ℕ, List, Some, IfOk, IfErr, IsTrue, MatchOption, length, option_copied, option_map, slice_get, vec_len};
ghost use Rattle.fed_board.specs.Board.{board_reads};
ghost use Rattle.fed_model.specs.View.{view};
ghost use Rattle.fed_threads.specs.Claims.{FailsFirst};
ghost use Rattle.fed_threads.specs.Placing.{claims_of, entries_of, entry_at};
ghost use Rattle.fed_threads.specs.Settle.{AllFit, AllKeepEvents, AreReplays, FitsAt, FitsThere, HasEvent, IsCloseFaultOf, IsSettled, claims_in as claims_of_seats};
ghost use Rattle.fed_threads.specs.declared.journal.Entry.{Entry};
ghost use Rattle.fed_model.specs.Run.{run as run_of};

use crate::claims::holds;
use crate::fault::CloseFault;
use crate::federation::Federation;
use crate::gate::Gate;
use crate::journal::{Asked, Claim, Entry};
use crate::laws::settled_boards_are_replays;
use crate::locked_sites::LockedSite;
use crate::seat::Seat;
use crate::settling::settle_in;
use fed_board::Board;
use fed_lattice::NoMemory;
use fed_stamp::{SiteId, roster_is_lawful};
use fed_world::{Event, World};
use std::alloc::Global;
use std::sync::Mutex;

/// The calls of a closed federation in one order, with its journals and the boards that they left.
#[derive(Drop)]
pub struct Run {
    // of each site of the roster, by its number
    journals: Vec<Vec<Entry>>,
    world: World,
}

impl Run {
    /// The events of all calls, in one order.
    pub fn order(&self) -> &[Event]
        ensures { result.now ≡ self.now.world.events }
    {
        self.world.events()
    }

    /// The journal of a site, or `None` where the federation has no such site.
    pub fn journal(&self, site: SiteId) -> Option<&[Entry]>
        ensures { option_map (λ entries. entries.now) result ≡ slice_get (entries_of self.now.journals.items) site }
    {
        match self.journals.get(site.get() as usize) {
            Some(journal) => Some(journal.as_slice()),
            None => None,
        }
    }

    /// The board of a site, or `None` where the federation has no such site.
    pub fn board(&self, site: SiteId) -> Option<&Board>
        ensures { MatchOption (option_copied result) (self.now.world.sites ≤ site) (λ b. (site < self.now.world.sites) ×
            (board_reads b ≡ view ((run_of self.now.world.sites self.now.world.events).site site).set)) }
    {
        self.world.board(site)
    }
}

impl<G: Gate> Federation<G> {
    /// Puts all calls of all sites into one order, in which they are as they were answered to the seats. The faults: as
    /// those of `settle` of the journals and the claims of the seats, where a claim is strange also if its entry has
    /// another event than its seat keeps. Nothing is handed back.
    pub fn close(self, seats: Vec<Seat>) -> Result<Run, CloseFault>
        ensures settled { IfOk result (λ run.
            IsSettled (entries_of run.journals.items) (claims_of_seats seats.items) run.world.events) }
        ensures kept { IfOk result (λ run. AllKeepEvents (entries_of run.journals.items) seats.items) }
        ensures boards { IfOk result (λ run.
            AreReplays (entries_of run.journals.items) (run_of run.world.sites run.world.events)) }
        ensures sites { IfOk result
            (λ run. (run.world.sites ≡ length self.roster) × (vec_len run.journals ≡ length self.roster)) }
        // the journals are those that the locks held, of which nothing else is known
        ensures fault { IfErr result (λ e. (journals : List (List Entry)) × (length journals ≡ length self.roster) ×
            IsCloseFaultOf journals seats.items e) }
    {
        settled_boards_are_replays();
        let alloc = self.alloc();
        let (roster, sites) = self.into_parts();
        roster_is_lawful(&roster);
        let journals = journals_in(alloc, sites)?;
        if let Some((seat, place)) = first_strange(&journals, &seats) {
            return Err(CloseFault::Strange {
                seat: seat as u64,
                place: place as u64,
            });
        }
        let claims = claims_in(alloc, seats)?;
        let world = settle_in(alloc, &roster, &journals, &claims)?;
        Ok(Run { journals, world })
    }
}

/// The journals that the locks held. Nothing is known of them but what the type of the locked value says.
fn journals_in(alloc: Global, sites: Vec<Mutex<LockedSite>>) -> Result<Vec<Vec<Entry>>, NoMemory>
    ensures { IfOk result (λ v. vec_len v ≡ vec_len sites) }
{
    let mut journals = Vec::with_capacity(alloc, sites.len())?;
    for lock in sites {
        let (_replica, journal) = lock.into_inner().into_parts();
        journals.push(journal)?;
    }
    Ok(journals)
}

/// The claims of the seats.
fn claims_in(alloc: Global, seats: Vec<Seat>) -> Result<Vec<Vec<Claim>>, NoMemory>
    ensures { IfOk result (λ v. claims_of v.items ≡ claims_of_seats seats.items) }
{
    let mut claims = Vec::with_capacity(alloc, seats.len())?;
    for seat in seats {
        claims.push(seat.into_claims())?;
    }
    Ok(claims)
}

/// The least claim, by seat and place, whose entry isn't in its journal with the claim's outcome and the event that its
/// seat keeps.
fn first_strange(journals: &[Vec<Entry>], seats: &[Seat]) -> Option<(usize, usize)>
    ensures { MatchOption result (AllFit (entries_of journals.now) seats.now)
        (λ r. FailsFirst (FitsThere (entries_of journals.now) seats.now) r.0 r.1) }
{
    for (number, seat) in seats.iter().enumerate() {
        if let Some(place) = strange_in(journals, seat) {
            return Some((number, place));
        }
    }
    None
}

/// The first claim of a seat that is strange.
fn strange_in(journals: &[Vec<Entry>], seat: &Seat) -> Option<usize>
    ensures { MatchOption result
        ((b : ℕ) → FitsAt (entries_of journals.now) (Some seat.now) b)
        (λ k. (FitsAt (entries_of journals.now) (Some seat.now) k → ⊥) ×
        ((b : ℕ) → b < k → FitsAt (entries_of journals.now) (Some seat.now) b)) }
{
    let asked = seat.asked();
    for (place, claim) in seat.claims().iter().enumerate() {
        let Some(asked) = asked.get(place) else {
            return Some(place);
        };
        if !holds(journals, claim) || !has_event(journals, claim, asked) {
            return Some(place);
        }
    }
    None
}

/// Whether the entry that a claim names is in its journal, with this event.
fn has_event(journals: &[Vec<Entry>], claim: &Claim, asked: &Asked) -> bool
    ensures { IsTrue result ↔
        HasEvent (entry_at (entries_of journals.now) claim.now.site claim.now.index) asked.now }
{
    let Some(journal) = journals.get(claim.site.get() as usize) else {
        return false;
    };
    match journal.get(claim.index as usize) {
        None => false,
        Some(entry) => entry.asked == *asked,
    }
}
