//! Why an input is not served to its end.
ghost use Rattle.std.specs.Prelude.{◌≡◌};

use fed_home::HomeFault;
use std::alloc::{AllocError, AllocFailed};
use std::io;
use thiserror::Error;

/// Why an input is not served to its end.
#[derive(Clone, Copy, Debug, Drop, Error)]
pub enum ServeFault {
    /// 1: there is no memory for the input, or the disk failed so that lines may be kept or not. They are not answered.
    #[error("{0}")]
    Home(HomeFault),
    /// 2: the input can't be read.
    #[error("standard input: {0}")]
    Read(io::Error),
    /// 3: the answers can't be written.
    #[error("standard output: {0}")]
    Write(io::Error),
    /// 4: lines can't be kept, for this cause. They are answered so, and nothing of them is kept.
    #[error("{0}")]
    NotKept(HomeFault),
}

impl ServeFault {
    ghost use Rattle.fed_serve.specs.Fault.{number_of};

    /// The number of the fault: 1 for `Home`, 2 for `Read`, 3 for `Write` and 4 for `NotKept`.
    pub fn number(self) -> u8
        ensures { result ≡ number_of self }
    {
        match self {
            ServeFault::Home(_) => 1,
            ServeFault::Read(_) => 2,
            ServeFault::Write(_) => 3,
            ServeFault::NotKept(_) => 4,
        }
    }
}

impl From<HomeFault> for ServeFault {
    ghost use Rattle.fed_serve.specs.declared.faults.ServeFault.TheVariants.{Home};

    ghost from_gives = { λ fault r. r ≡ Home fault };

    fn from(fault: HomeFault) -> ServeFault {
        ServeFault::Home(fault)
    }
}

impl From<AllocError> for ServeFault {
    ghost use Rattle.fed_home.specs.declared.faults.HomeFault.TheVariants.{NoMemory};
    ghost use Rattle.fed_serve.specs.declared.faults.ServeFault.TheVariants.{Home};

    ghost from_gives = { λ _ r. r ≡ Home NoMemory };

    fn from(_error: AllocError) -> ServeFault {
        ServeFault::Home(HomeFault::NoMemory)
    }
}

impl<T: Drop> From<AllocFailed<T>> for ServeFault {
    ghost use Rattle.fed_home.specs.declared.faults.HomeFault.TheVariants.{NoMemory};
    ghost use Rattle.fed_serve.specs.declared.faults.ServeFault.TheVariants.{Home};

    ghost from_gives = { λ _ r. r ≡ Home NoMemory };

    fn from(_refused: AllocFailed<T>) -> ServeFault {
        ServeFault::Home(HomeFault::NoMemory)
    }
}
