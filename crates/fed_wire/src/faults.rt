//! Why a packet could not be read.
ghost use Rattle.std.specs.Prelude.{◌≡◌};
ghost use Rattle.fed_json.specs.Reading.{Reading};

use fed_json::Flaw;
use fed_lattice::NoMemory;
use std::alloc::AllocError;
use thiserror::Error;

/// A part of a packet.
#[derive(Clone, Copy, Debug, PartialEq, Eq)]
pub enum Part {
    /// The packet as a whole.
    Whole,
    /// The site that sent it.
    Sender,
    /// The version that the receiver must have.
    Need,
    /// The version that the receiver has afterwards.
    Reached,
    /// The array of jobs.
    Jobs,
    /// The array of reservations.
    Reservations,
    /// The array of what the sites have retired.
    Retired,
}

/// Where in a packet a fault lies: in a part, at the site of a version or at the element of an array, from 0.
#[derive(Clone, Copy, Debug, PartialEq, Eq)]
pub struct Place {
    /// The part that it lies in.
    pub part: Part,
    /// The site of a version, the element of an array, or 0 where the part has neither.
    pub index: usize,
}

/// The first fault of the bytes, in the order of the checks.
#[derive(Clone, Copy, Debug, PartialEq, Eq, Drop, Error)]
pub enum WireFault {
    /// 1: the bytes are no JSON text.
    #[error("the bytes are no JSON text")]
    NotJson,
    /// 2: the text is of another format than 1, 2 and 3, or of format 3 and has no member `retired`.
    #[error("the text is of format {0}, which is not read")]
    Version(u64),
    /// 3: a value is not of the form that stands in its place.
    #[error("a value of another form at {place:?}")]
    Shape { place: Place },
    /// 4: a value is out of its range.
    #[error("a value out of range at {place:?}")]
    Range { place: Place },
    /// 5: an allocation failed.
    #[error("out of memory")]
    NoMemory,
}

impl WireFault {
    ghost use Rattle.fed_wire.specs.Faults.{number_of};

    /// The number of the fault: 1 for `NotJson`, 2 for `Version`, 3 for `Shape`, 4 for `Range` and 5 for `NoMemory`.
    pub fn number(self) -> u8
        ensures { result ≡ number_of self }
    {
        match self {
            WireFault::NotJson => 1,
            WireFault::Version(_) => 2,
            WireFault::Shape { .. } => 3,
            WireFault::Range { .. } => 4,
            WireFault::NoMemory => 5,
        }
    }
}

impl From<NoMemory> for WireFault {
    ghost use Rattle.fed_wire.specs.declared.faults.WireFault.TheVariants.{NoMemory as OutOfMemory};

    ghost from_gives = { λ _ e. e ≡ OutOfMemory };

    fn from(_error: NoMemory) -> WireFault {
        WireFault::NoMemory
    }
}
