//! Why a site on a disk fails.
ghost use Rattle.std.specs.Prelude.{◌≡◌};

use fed_journal::JournalFault;
use fed_lattice::NoMemory;
use std::alloc::{AllocError, AllocFailed};
use std::io;
use thiserror::Error;

/// Why a home isn't made or opened, or lines aren't answered.
#[derive(Clone, Copy, Debug, Drop, Error)]
pub enum HomeFault {
    /// 1: an allocation failed.
    #[error("out of memory")]
    NoMemory,
    /// 2: the disk failed, with this error.
    #[error("{0}")]
    Failed(io::Error),
    /// 3: this line of the journal, counted from 1, is damaged.
    #[error("line {line} of the journal is damaged")]
    Damaged { line: u64 },
    /// 4: the journal would have more bytes than it may.
    #[error("the journal is full")]
    Full,
    /// 5: the journal has no entry, so that no site is named.
    #[error("the journal has no entry")]
    NoHeader,
    /// 6: the header doesn't say `nettlebeam` and a format from 1 to 4, the name of a site, and a roster that has it.
    #[error("the header doesn't name a site and its roster in a format from 1 to 4")]
    UnreadHeader,
    /// 7: the journal has entries, so that no site can be made there.
    #[error("the journal has entries")]
    HasEntries,
    /// 8: the disk failed with this error as the first gate of a group was opened. The journal may have the group or not.
    #[error("{0}")]
    InDoubt(io::Error),
    /// 9: the header is of format 2 or 4, and the entry behind it isn't what a site of that name and roster knew.
    #[error("line 2 of the journal is damaged: it isn't what the site knew")]
    UnreadKnown,
    /// 10: the header is of format 4, and this line of the journal, counted from 1, isn't what the site had heard of another.
    #[error("line {line} of the journal is damaged: it isn't what the site had heard of another")]
    UnreadHeard { line: u64 },
    /// 11: this line of the journal, counted from 1, changes nothing of what the site is after the lines before it, so that
    /// this program wouldn't have kept it.
    #[error("line {line} of the journal isn't done as it was when it was kept")]
    UnkeptEntry { line: u64 },
}

impl HomeFault {
    ghost use Rattle.fed_home.specs.Fault.{is_in_doubt, number_of};

    /// The number of the fault: 1 for `NoMemory`, 2 for `Failed`, 3 for `Damaged`, 4 for `Full`, 5 for `NoHeader`, 6 for
    /// `UnreadHeader`, 7 for `HasEntries`, 8 for `InDoubt`, 9 for `UnreadKnown`, 10 for `UnreadHeard` and 11 for
    /// `UnkeptEntry`.
    pub fn number(self) -> u8
        ensures { result ≡ number_of self }
    {
        match self {
            HomeFault::NoMemory => 1,
            HomeFault::Failed(_) => 2,
            HomeFault::Damaged { .. } => 3,
            HomeFault::Full => 4,
            HomeFault::NoHeader => 5,
            HomeFault::UnreadHeader => 6,
            HomeFault::HasEntries => 7,
            HomeFault::InDoubt(_) => 8,
            HomeFault::UnreadKnown => 9,
            HomeFault::UnreadHeard { .. } => 10,
            HomeFault::UnkeptEntry { .. } => 11,
        }
    }

    /// Whether the journal may have the group that was to be added. After any other fault it has nothing of the group.
    pub fn is_in_doubt(self) -> bool
        ensures { result ≡ is_in_doubt self }
    {
        matches!(self, HomeFault::InDoubt(_))
    }
}

impl From<JournalFault> for HomeFault {
    ghost use Rattle.fed_home.specs.Fault.{fault_of};

    ghost from_gives = { λ fault r. r ≡ fault_of fault };

    fn from(fault: JournalFault) -> HomeFault {
        match fault {
            JournalFault::NoMemory => HomeFault::NoMemory,
            JournalFault::Failed(error) => HomeFault::Failed(error),
            JournalFault::Damaged { line } => HomeFault::Damaged { line },
            JournalFault::Full => HomeFault::Full,
            JournalFault::InDoubt(error) => HomeFault::InDoubt(error),
        }
    }
}

impl From<NoMemory> for HomeFault {
    ghost use Rattle.fed_home.specs.declared.faults.HomeFault.TheVariants.{NoMemory};

    ghost from_gives = { λ _ r. r ≡ NoMemory };

    fn from(_fault: NoMemory) -> HomeFault {
        HomeFault::NoMemory
    }
}

impl From<AllocError> for HomeFault {
    ghost use Rattle.fed_home.specs.declared.faults.HomeFault.TheVariants.{NoMemory};

    ghost from_gives = { λ _ r. r ≡ NoMemory };

    fn from(_error: AllocError) -> HomeFault {
        HomeFault::NoMemory
    }
}

impl<T: Drop> From<AllocFailed<T>> for HomeFault {
    ghost use Rattle.fed_home.specs.declared.faults.HomeFault.TheVariants.{NoMemory};

    ghost from_gives = { λ _ r. r ≡ NoMemory };

    fn from(_refused: AllocFailed<T>) -> HomeFault {
        HomeFault::NoMemory
    }
}
