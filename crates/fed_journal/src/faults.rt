//! Why a disk or a journal fails.
ghost use Rattle.std.specs.Prelude.{◌≡◌};

use std::alloc::{AllocError, AllocFailed};
use std::io;
use thiserror::Error;

/// Why a call of a device fails.
#[derive(Clone, Copy, Debug, Drop, Error)]
pub enum DeviceFault {
    /// 1: an allocation failed.
    #[error("out of memory")]
    NoMemory,
    /// 2: the disk failed, with this error.
    #[error("{0}")]
    Failed(io::Error),
}

impl DeviceFault {
    ghost use Rattle.fed_journal.specs.Fault.{device_number_of};

    /// The number of the fault: 1 for `NoMemory` and 2 for `Failed`.
    pub fn number(self) -> u8
        ensures { result ≡ device_number_of self }
    {
        match self {
            DeviceFault::NoMemory => 1,
            DeviceFault::Failed(_) => 2,
        }
    }
}

impl From<AllocError> for DeviceFault {
    ghost use Rattle.fed_journal.specs.declared.faults.DeviceFault.TheVariants.{NoMemory};

    ghost from_gives = { λ _ r. r ≡ NoMemory };

    fn from(_error: AllocError) -> DeviceFault {
        DeviceFault::NoMemory
    }
}

impl From<io::Error> for DeviceFault {
    ghost use Rattle.fed_journal.specs.declared.faults.DeviceFault.TheVariants.{Failed};

    ghost from_gives = { λ error r. r ≡ Failed error };

    fn from(error: io::Error) -> DeviceFault {
        DeviceFault::Failed(error)
    }
}

impl<T: Drop> From<AllocFailed<T>> for DeviceFault {
    ghost use Rattle.fed_journal.specs.declared.faults.DeviceFault.TheVariants.{NoMemory};

    ghost from_gives = { λ _ r. r ≡ NoMemory };

    fn from(_refused: AllocFailed<T>) -> DeviceFault {
        DeviceFault::NoMemory
    }
}

/// Why a journal isn't opened, or a group not added.
#[derive(Clone, Copy, Debug, Drop, Error)]
pub enum JournalFault {
    /// 1: an allocation failed.
    #[error("out of memory")]
    NoMemory,
    /// 2: the disk failed, with this error.
    #[error("{0}")]
    Failed(io::Error),
    /// 3: a line of the file, counted from 1, is neither an entry's nor has a closed gate, or the file ends before it.
    #[error("line {line} of the journal is damaged")]
    Damaged { line: u64 },
    /// 4: the file would pass `MAX_BYTES`.
    #[error("the journal is full")]
    Full,
    /// 5: the disk failed with this error as the first gate of a group was opened. The file may have the group or not.
    #[error("{0}")]
    InDoubt(io::Error),
}

impl JournalFault {
    ghost use Rattle.fed_journal.specs.Fault.{number_of};

    /// The number of the fault: 1 for `NoMemory`, 2 for `Failed`, 3 for `Damaged`, 4 for `Full` and 5 for `InDoubt`.
    pub fn number(self) -> u8
        ensures { result ≡ number_of self }
    {
        match self {
            JournalFault::NoMemory => 1,
            JournalFault::Failed(_) => 2,
            JournalFault::Damaged { .. } => 3,
            JournalFault::Full => 4,
            JournalFault::InDoubt(_) => 5,
        }
    }
}

impl From<AllocError> for JournalFault {
    ghost use Rattle.fed_journal.specs.declared.faults.JournalFault.TheVariants.{NoMemory};

    ghost from_gives = { λ _ r. r ≡ NoMemory };

    fn from(_error: AllocError) -> JournalFault {
        JournalFault::NoMemory
    }
}

impl<T: Drop> From<AllocFailed<T>> for JournalFault {
    ghost use Rattle.fed_journal.specs.declared.faults.JournalFault.TheVariants.{NoMemory};

    ghost from_gives = { λ _ r. r ≡ NoMemory };

    fn from(_refused: AllocFailed<T>) -> JournalFault {
        JournalFault::NoMemory
    }
}

impl From<DeviceFault> for JournalFault {
    ghost use Rattle.fed_journal.specs.Fault.{fault_of};

    ghost from_gives = { λ fault r. r ≡ fault_of fault };

    fn from(fault: DeviceFault) -> JournalFault {
        match fault {
            DeviceFault::NoMemory => JournalFault::NoMemory,
            DeviceFault::Failed(error) => JournalFault::Failed(error),
        }
    }
}

/// Why a file isn't opened.
#[derive(Clone, Copy, Debug, Drop, Error)]
pub enum OpenFault {
    /// An allocation failed.
    #[error("out of memory")]
    NoMemory,
    /// Another open of the file has its lock.
    #[error("in use by another process")]
    InUse,
    /// The system failed, with this error: the file or its directory isn't there, may not be read or written, or its disk failed.
    #[error("{0}")]
    Failed(io::Error),
}

impl From<io::Error> for OpenFault {
    ghost use Rattle.fed_journal.specs.Fault.{open_fault_of};

    ghost from_gives = { λ error r. r ≡ open_fault_of error };

    fn from(error: io::Error) -> OpenFault {
        match error.kind() {
            io::ErrorKind::OutOfMemory => OpenFault::NoMemory,
            _ => OpenFault::Failed(error),
        }
    }
}

impl From<AllocError> for OpenFault {
    ghost use Rattle.fed_journal.specs.declared.faults.OpenFault.TheVariants.{NoMemory};

    ghost from_gives = { λ _ r. r ≡ NoMemory };

    fn from(_error: AllocError) -> OpenFault {
        OpenFault::NoMemory
    }
}
