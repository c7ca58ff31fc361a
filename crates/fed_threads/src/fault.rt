//! Why a call at a site, or the closing of a federation, fails.
ghost use Rattle.std.specs.Prelude.{◌≡◌};
ghost use Rattle.fed_threads.specs.Faults.{number_of_call, number_of_close};
ghost use Rattle.fed_threads.specs.declared.fault.CallFault.TheVariants as CallFault;
ghost use Rattle.fed_threads.specs.declared.fault.CloseFault.TheVariants as CloseFault;

use fed_lattice::NoMemory;
use fed_stamp::{SITES, SiteId, Version};
use std::alloc::AllocError;
use thiserror::Error;

/// Why a call of a federation was not answered. The journal and the seat are as before.
#[derive(Clone, Copy, PartialEq, Eq, Debug, Drop, Error)]
pub enum CallFault {
    /// 1: the roster has no such site.
    #[error("no such site")]
    NoSite,
    /// 2: the site is behind what the seat has seen of it, as it is where the seat is of another federation: the seat has
    /// seen `seen` entries of its journal, which has `found`, or the board's version is not at least the one seen.
    #[error("the site is behind what the seat has seen")]
    Behind {
        /// How many entries the seat has seen.
        seen: u64,
        /// How many entries the journal has.
        found: u64,
        /// The version of the board.
        version: Version,
    },
    /// 3: an allocation failed.
    #[error("out of memory")]
    NoMemory,
}

impl CallFault {
    /// The number of the fault, from 1 to 3.
    pub fn number(&self) -> u8
        ensures { result ≡ number_of_call self.now }
    {
        match self {
            CallFault::NoSite => 1,
            CallFault::Behind { .. } => 2,
            CallFault::NoMemory => 3,
        }
    }
}

impl From<AllocError> for CallFault {
    ghost from_gives = { λ _ e. e ≡ CallFault.NoMemory };

    fn from(_e: AllocError) -> CallFault {
        CallFault::NoMemory
    }
}

impl From<NoMemory> for CallFault {
    ghost from_gives = { λ _ e. e ≡ CallFault.NoMemory };

    fn from(_e: NoMemory) -> CallFault {
        CallFault::NoMemory
    }
}

/// Why the entries of journals and the claims of seats are not settled, in the order in which the reasons are looked
/// for; want of memory comes wherever an allocation fails. Seats and their claims, the entries of a journal and those of
/// an order are counted from 0.
#[derive(Clone, Copy, PartialEq, Eq, Debug, Drop, Error)]
pub enum CloseFault {
    /// 1: the least claim, by seat and place, whose entry isn't in its journal, or has another outcome. In `close` also
    /// one whose entry has another event than the seat keeps.
    #[error("claim {place} of seat {seat} is of no entry")]
    Strange { seat: u64, place: u64 },
    /// 2: the least entry, by site and index, that is claimed twice.
    #[error("an entry is claimed twice")]
    Twice { site: SiteId, index: u64 },
    /// 3: the least entry, by site and index, that no seat claims.
    #[error("an entry is not claimed")]
    Unclaimed { site: SiteId, index: u64 },
    /// 4: not all entries can be put in one order. `next` is how many of each site can.
    #[error("the entries have no order")]
    NoOrder { next: [u64; SITES] },
    /// 5: the first entry of the order that the run of the order doesn't have so.
    #[error("entry {event} of the order differs from its run")]
    Differs { event: u64 },
    /// 6: an allocation failed.
    #[error("out of memory")]
    NoMemory,
}

impl CloseFault {
    /// The number of the fault, from 1 to 6.
    pub fn number(&self) -> u8
        ensures { result ≡ number_of_close self.now }
    {
        match self {
            CloseFault::Strange { .. } => 1,
            CloseFault::Twice { .. } => 2,
            CloseFault::Unclaimed { .. } => 3,
            CloseFault::NoOrder { .. } => 4,
            CloseFault::Differs { .. } => 5,
            CloseFault::NoMemory => 6,
        }
    }
}

impl From<AllocError> for CloseFault {
    ghost from_gives = { λ _ e. e ≡ CloseFault.NoMemory };

    fn from(_e: AllocError) -> CloseFault {
        CloseFault::NoMemory
    }
}

impl From<NoMemory> for CloseFault {
    ghost from_gives = { λ _ e. e ≡ CloseFault.NoMemory };

    fn from(_e: NoMemory) -> CloseFault {
        CloseFault::NoMemory
    }
}
