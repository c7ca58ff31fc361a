//! What is wrong with the words of a utility.
ghost use Rattle.std.specs.Prelude.{◌≡◌};
ghost use Rattle.fed_words.specs.declared.faults.UsageFault.{UsageFault};
ghost use Rattle.fed_words.specs.Fault.{fault_number};

use fed_lattice::NoMemory;
use std::alloc::{AllocError, AllocFailed};
use thiserror::Error;

/// Why the words of a utility ask nothing: the first fault in the order of reading, from left to right, a list of
/// resources pair by pair and its sites name by name.
#[derive(Clone, Copy, PartialEq, Eq, Debug, Drop, Error)]
pub enum UsageFault {
    /// 1: the first word names no utility, or there is none.
    #[error("the first word names no utility")]
    UnknownUtility,
    /// 2: the utility has no option of this letter.
    #[error("the utility has no such option")]
    UnknownOption,
    /// 3: there is no word behind an option that takes an argument.
    #[error("an option lacks its argument")]
    MissingArgument,
    /// 4: an argument is out of its range or form, or names no resource.
    #[error("a value has a wrong form or is out of range, or no such resource exists")]
    BadValue,
    /// 5: an operand hasn't the form of an identifier.
    #[error("an identifier has a wrong form")]
    BadIdentifier,
    /// 6: the roster has no site of this name.
    #[error("no site of the roster has this name")]
    UnknownSite,
    /// 7: the utility takes one or more jobs, and no operand stands behind the options.
    #[error("no job is named")]
    MissingOperand,
    /// 8: an allocation failed.
    #[error("there was no memory for it")]
    NoMemory,
}

impl UsageFault {
    /// The number of the fault, from 1 to 8.
    pub fn number(self) -> u8
        ensures { result ≡ fault_number self }
    {
        match self {
            UsageFault::UnknownUtility => 1,
            UsageFault::UnknownOption => 2,
            UsageFault::MissingArgument => 3,
            UsageFault::BadValue => 4,
            UsageFault::BadIdentifier => 5,
            UsageFault::UnknownSite => 6,
            UsageFault::MissingOperand => 7,
            UsageFault::NoMemory => 8,
        }
    }
}

impl From<AllocError> for UsageFault {
    ghost from_gives = { λ _ fault. fault ≡ UsageFault.NoMemory };

    fn from(_error: AllocError) -> UsageFault {
        UsageFault::NoMemory
    }
}

impl<T: Drop> From<AllocFailed<T>> for UsageFault {
    ghost from_gives = { λ _ fault. fault ≡ UsageFault.NoMemory };

    fn from(_refused: AllocFailed<T>) -> UsageFault {
        UsageFault::NoMemory
    }
}

impl From<NoMemory> for UsageFault {
    ghost from_gives = { λ _ fault. fault ≡ UsageFault.NoMemory };

    fn from(_refused: NoMemory) -> UsageFault {
        UsageFault::NoMemory
    }
}
