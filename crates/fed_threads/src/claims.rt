//! Which claims of the seats fit the journals, and who claims each entry.
ghost use Rattle.std.specs.Prelude.{◌≡◌, ◌<◌, ◌≤◌, ◌↔◌, ◌+◌, ◌++◌, ◌∷◌, [], ℕ, List, IsTrue, IfOk, OnOk, IfErr, MatchOption, length};
ghost use Rattle.std.specs.List.{slice_get};
ghost use Rattle.fed_stamp.specs.declared.sites.TheConstants.{SITES};
ghost use Rattle.fed_threads.specs.declared.journal.Claim.{Claim};
ghost use Rattle.fed_threads.specs.Placing.{entries_of, claims_of};
ghost use Rattle.fed_threads.specs.Claims.{ClaimHolds, HoldsIfAny, HoldsThere, FailsFirst};
ghost use Rattle.fed_threads.specs.Claimants.{AreClaimants, AreClaimantsOf, rows_of, IsTimes, IsNot, IsNotThere, seat_at};
ghost use Rattle.fed_threads.specs.Settle.{AreClaimed, IsCloseFault};

use crate::fault::CloseFault;
use crate::journal::{Claim, Entry};
use fed_lattice::NoMemory;
use fed_stamp::SiteId;
use std::alloc::Global;

/// How often an entry is claimed.
#[derive(Clone, Copy, PartialEq, Eq, Debug)]
pub(crate) enum Times {
    Never,
    Once,
    Often,
}

impl Times {
    /// Once more.
    fn more(&self) -> Times
        ensures { (n : ℕ) → IsTimes self.now n → IsTimes result (n + 1) }
    {
        match self {
            Times::Never => Times::Once,
            Times::Once | Times::Often => Times::Often,
        }
    }
}

/// How often an entry is claimed, and the last seat that claims it, if any does.
#[derive(Clone, Copy, PartialEq, Eq, Debug)]
pub(crate) struct Claimant {
    times: Times,
    seat: usize,
}

/// Of each entry, by site and index, how often and by whom it is claimed.
#[derive(Drop)]
pub(crate) struct Claimants {
    rows: Vec<Vec<Claimant>>,
}

impl Claimants {
    /// The seat that claims this entry, if the table has the entry.
    pub(crate) fn seat_of(&self, site: usize, index: usize) -> Option<usize>
        ensures { result ≡ seat_at (rows_of self.now.rows.items) site index }
    {
        let row = self.rows.get(site)?;
        let claimant = row.get(index)?;
        Some(claimant.seat)
    }
}

/// Says for each entry how often and by whom it is claimed, where each claim is of an entry with its outcome and each
/// entry is claimed just once; otherwise the first that is not so.
pub(crate) fn check_claims(
    alloc: Global,
    journals: &[Vec<Entry>],
    seats: &[Vec<Claim>],
) -> Result<Claimants, CloseFault>
    requires { length journals.now ≤ SITES }
    ensures claimed { OnOk result (AreClaimed (entries_of journals.now) (claims_of seats.now)) }
    ensures table { IfOk result
        (λ c. AreClaimants (entries_of journals.now) (claims_of seats.now) (rows_of c.rows.items)) }
    ensures err { IfErr result (λ e. IsCloseFault (entries_of journals.now) (claims_of seats.now) e) }
{
    if let Some((seat, place)) = first_strange(journals, seats) {
        return Err(CloseFault::Strange {
            seat: seat as u64,
            place: place as u64,
        });
    }
    let rows = rows_of(alloc, journals, seats)?;
    if let Some((site, index)) = first_claimed(rows.as_slice(), &Times::Often) {
        return Err(CloseFault::Twice {
            site: site_of(site),
            index: index as u64,
        });
    }
    if let Some((site, index)) = first_claimed(rows.as_slice(), &Times::Never) {
        return Err(CloseFault::Unclaimed {
            site: site_of(site),
            index: index as u64,
        });
    }
    Ok(Claimants { rows })
}

/// The site of this number.
fn site_of(number: usize) -> SiteId
    requires { number < SITES }
    ensures { result ≡ number }
{
    SiteId::new(number as u8).unwrap_or_default()
}

/// Of each entry of the journals, how often and by whom it is claimed.
fn rows_of(
    alloc: Global,
    journals: &[Vec<Entry>],
    seats: &[Vec<Claim>],
) -> Result<Vec<Vec<Claimant>>, NoMemory>
    ensures { IfOk result (λ rows. AreClaimants (entries_of journals.now) (claims_of seats.now) (rows_of rows.items)) }
{
    let mut rows = Vec::new(alloc);
    for (site, journal) in journals.iter().enumerate() {
        let row = row_of(alloc, journal.len(), site, seats)?;
        rows.push(row)?;
    }
    Ok(rows)
}

/// Of each of so many entries of a site, how often and by whom it is claimed.
fn row_of(
    alloc: Global,
    count: usize,
    site: usize,
    seats: &[Vec<Claim>],
) -> Result<Vec<Claimant>, NoMemory>
    ensures { IfOk result (λ row. AreClaimantsOf (claims_of seats.now) site count row.items) }
{
    let unclaimed = Claimant {
        times: Times::Never,
        seat: 0,
    };
    let mut row = vec![in alloc; unclaimed; count]?;
    for (seat, claims) in seats.iter().enumerate() {
        add_claims(&mut row, site, seat, claims.as_slice());
    }
    Ok(row)
}

/// Adds what this seat, which comes after those seen, claims of a site.
fn add_claims(row: &mut Vec<Claimant>, site: usize, seat: usize, claims: &[Claim])
    ensures { (seats : List (List Claim)) (count : ℕ) → length seats ≡ seat →
        AreClaimantsOf seats site count row.old.items →
        AreClaimantsOf (seats ++ claims.now ∷ []) site count row.new.items }
{
    for claim in claims {
        add_claim(row, site, seat, claim);
    }
}

/// Adds a claim of this seat, which comes after those seen, if it is of the site.
fn add_claim(row: &mut Vec<Claimant>, site: usize, seat: usize, claim: &Claim)
    ensures { (seats : List (List Claim)) (claims : List Claim) (count : ℕ) → length seats ≡ seat →
        AreClaimantsOf (seats ++ claims ∷ []) site count row.old.items →
        AreClaimantsOf (seats ++ (claims ++ claim.now ∷ []) ∷ []) site count row.new.items }
{
    let index = claim.index as usize;
    if claim.site.get() as usize == site && index < row.len() {
        let times = row[index].times.more();
        row[index] = Claimant { times, seat };
    }
}

/// The least entry of the table, by site and index, that is claimed so often.
fn first_claimed(rows: &[Vec<Claimant>], times: &Times) -> Option<(usize, usize)>
    ensures { MatchOption result
        ((a b : ℕ) → IsNotThere times.now (rows_of rows.now) a b)
        (λ r. FailsFirst (IsNotThere times.now (rows_of rows.now)) r.0 r.1) }
{
    for (site, row) in rows.iter().enumerate() {
        if let Some(index) = first_in(row.as_slice(), times) {
            return Some((site, index));
        }
    }
    None
}

/// The first entry of a site that is claimed so often.
fn first_in(row: &[Claimant], times: &Times) -> Option<usize>
    ensures { MatchOption result
        ((b : ℕ) → IsNot times.now (slice_get row.now b))
        (λ k. (IsNot times.now (slice_get row.now k) → ⊥) × ((b : ℕ) → b < k → IsNot times.now (slice_get row.now b))) }
{
    for (index, claimant) in row.iter().enumerate() {
        if claimant.times == *times {
            return Some(index);
        }
    }
    None
}

/// The least claim, by seat and place, whose entry isn't in its journal with the claim's outcome.
fn first_strange(journals: &[Vec<Entry>], seats: &[Vec<Claim>]) -> Option<(usize, usize)>
    ensures { MatchOption result
        ((a b : ℕ) → HoldsThere (entries_of journals.now) (claims_of seats.now) a b)
        (λ r. FailsFirst (HoldsThere (entries_of journals.now) (claims_of seats.now)) r.0 r.1) }
{
    for (seat, claims) in seats.iter().enumerate() {
        if let Some(place) = strange_in(journals, claims.as_slice()) {
            return Some((seat, place));
        }
    }
    None
}

/// The first claim of a seat that doesn't hold.
fn strange_in(journals: &[Vec<Entry>], claims: &[Claim]) -> Option<usize>
    ensures { MatchOption result
        ((b : ℕ) → HoldsIfAny (entries_of journals.now) (slice_get claims.now b))
        (λ k. (HoldsIfAny (entries_of journals.now) (slice_get claims.now k) → ⊥) ×
        ((b : ℕ) → b < k → HoldsIfAny (entries_of journals.now) (slice_get claims.now b))) }
{
    for (place, claim) in claims.iter().enumerate() {
        if !holds(journals, claim) {
            return Some(place);
        }
    }
    None
}

/// Whether the entry that a claim names is in its journal, with the claim's outcome.
pub(crate) fn holds(journals: &[Vec<Entry>], claim: &Claim) -> bool
    ensures { IsTrue result ↔ ClaimHolds (entries_of journals.now) claim.now }
{
    let Some(journal) = journals.get(claim.site.get() as usize) else {
        return false;
    };
    match journal.get(claim.index as usize) {
        None => false,
        Some(entry) => entry.outcome == claim.outcome,
    }
}
