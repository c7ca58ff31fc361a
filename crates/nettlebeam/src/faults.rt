//! Why the program doesn't do what it is asked.
ghost use Rattle.std.specs.Prelude.{◌≡◌};
ghost use Rattle.nettlebeam.specs.Fault.{IsOfError, of_compacting};

use fed_home::HomeFault;
use fed_journal::{DeviceFault, JournalFault, OpenFault};
use fed_lattice::NoMemory;
use fed_serve::{NotCompacted, ServeFault, Stop};
use std::alloc::AllocError;
use std::fmt::{self, Display, Formatter};
use std::io::{self, ErrorKind};

/// Why the program doesn't do what it is asked.
#[derive(Clone, Copy, Drop)]
pub enum Fault {
    /// The words of `init` name no roster that has the site.
    Roster,
    /// The directory has other files than those of a site that isn't made yet.
    NotEmpty,
    /// There is no journal in the directory.
    NoSite,
    /// Another process has the directory.
    InUse,
    /// The directory can't be made, or looked at.
    Directory(io::Error),
    /// The site can't be opened, or can't answer.
    Home(HomeFault),
    /// No second file can be made beside the journal, so that it isn't compacted.
    NotCompacted(io::Error),
    /// A file has the name of a new journal that no compaction of the site has left, so that the journal isn't compacted.
    Taken,
    /// The disk failed as the compacted journal took the place of the old one: the file is the one or the other.
    Replaced(io::Error),
    /// The journal isn't compacted, since what would be written isn't read as what the site has.
    Uncompactable,
    /// The journal can't be copied to the file that is to keep it.
    Kept(io::Error),
    /// Standard input can't be read.
    Input(io::Error),
    /// Standard output can't be written.
    Output(io::Error),
}

impl Fault {
    ghost use Rattle.nettlebeam.specs.Status.{fault_status};

    /// The status that the program ends with: 2 where its words are at fault, and 3 else.
    pub fn status(self) -> u8
        ensures { result ≡ fault_status self }
    {
        match self {
            Fault::Roster => 2,
            _ => 3,
        }
    }
}

/// An error of the system where a journal's file is opened: where there is no file, there is no site.
fn fault_of_error(error: io::Error) -> Fault
    ensures { IsOfError error result }
{
    match error.kind() {
        ErrorKind::NotFound => Fault::NoSite,
        _ => Fault::Home(HomeFault::Failed(error)),
    }
}

impl From<OpenFault> for Fault {
    ghost use Rattle.nettlebeam.specs.Fault.{IsOfOpening};

    ghost from_gives = { IsOfOpening };

    fn from(fault: OpenFault) -> Fault {
        match fault {
            OpenFault::NoMemory => Fault::Home(HomeFault::NoMemory),
            OpenFault::InUse => Fault::InUse,
            OpenFault::Failed(error) => fault_of_error(error),
        }
    }
}

impl From<HomeFault> for Fault {
    ghost use Rattle.nettlebeam.specs.declared.faults.Fault.TheVariants.{Home};

    ghost from_gives = { λ fault r. r ≡ Home fault };

    fn from(fault: HomeFault) -> Fault {
        Fault::Home(fault)
    }
}

impl From<DeviceFault> for Fault {
    ghost use Rattle.nettlebeam.specs.Fault.{of_device};

    ghost from_gives = { λ fault r. r ≡ of_device fault };

    fn from(fault: DeviceFault) -> Fault {
        match fault {
            DeviceFault::NoMemory => Fault::Home(HomeFault::NoMemory),
            DeviceFault::Failed(error) => Fault::Home(HomeFault::Failed(error)),
        }
    }
}

/// Why a journal may be the old one or the compacted one, or isn't compacted.
pub fn fault_of_compacting(fault: HomeFault) -> Fault
    ensures { result ≡ of_compacting fault }
{
    match fault {
        HomeFault::Failed(error) => Fault::Replaced(error),
        _ => Fault::Home(fault),
    }
}

impl From<NotCompacted> for Fault {
    ghost use Rattle.nettlebeam.specs.Fault.{of_cause};

    ghost from_gives = { λ cause r. r ≡ of_cause cause };

    fn from(cause: NotCompacted) -> Fault {
        match cause {
            NotCompacted::Refused(error) => Fault::NotCompacted(error),
            NotCompacted::Unread => Fault::Uncompactable,
            NotCompacted::Stopped(fault) => fault_of_compacting(fault),
        }
    }
}

impl From<Stop<Fault>> for Fault {
    ghost use Rattle.nettlebeam.specs.Fault.{of_stop};

    ghost from_gives = { λ stop r. r ≡ of_stop stop };

    fn from(stop: Stop<Fault>) -> Fault {
        match stop {
            Stop::Served(fault) => Fault::from(fault),
            Stop::Unopened(fault) => fault,
        }
    }
}

impl From<ServeFault> for Fault {
    ghost use Rattle.nettlebeam.specs.Fault.{of_serving};

    ghost from_gives = { λ fault r. r ≡ of_serving fault };

    fn from(fault: ServeFault) -> Fault {
        match fault {
            ServeFault::Home(fault) | ServeFault::NotKept(fault) => Fault::Home(fault),
            ServeFault::Read(error) => Fault::Input(error),
            ServeFault::Write(error) => Fault::Output(error),
        }
    }
}

impl From<JournalFault> for Fault {
    ghost use Rattle.nettlebeam.specs.Fault.{of_journal};

    ghost from_gives = { λ fault r. r ≡ of_journal fault };

    fn from(fault: JournalFault) -> Fault {
        Fault::Home(HomeFault::from(fault))
    }
}

impl From<NoMemory> for Fault {
    ghost use Rattle.fed_home.specs.declared.faults.HomeFault.TheVariants.{NoMemory};
    ghost use Rattle.nettlebeam.specs.declared.faults.Fault.TheVariants.{Home};

    ghost from_gives = { λ _ r. r ≡ Home NoMemory };

    fn from(_fault: NoMemory) -> Fault {
        Fault::Home(HomeFault::NoMemory)
    }
}

impl From<AllocError> for Fault {
    ghost use Rattle.fed_home.specs.declared.faults.HomeFault.TheVariants.{NoMemory};
    ghost use Rattle.nettlebeam.specs.declared.faults.Fault.TheVariants.{Home};

    ghost from_gives = { λ _ r. r ≡ Home NoMemory };

    fn from(_error: AllocError) -> Fault {
        Fault::Home(HomeFault::NoMemory)
    }
}

/// A fault that was met at a directory, or at the file of an old journal.
#[derive(Clone, Copy, Drop)]
pub struct FaultAt<'a> {
    pub directory: &'a str,
    pub fault: Fault,
}

impl Display for FaultAt<'_> {
    fn fmt<W: fmt::Write>(&self, f: &mut Formatter<W>) -> fmt::Result {
        let directory = self.directory;
        match self.fault {
            Fault::Roster => write!(f, "the words name no roster that has the site"),
            Fault::NotEmpty => write!(f, "{directory}: not empty, so no site is made there"),
            Fault::NoSite => write!(
                f,
                "{directory}: no site is there; nettlebeam init makes one"
            ),
            Fault::InUse => write!(
                f,
                "{directory}: in use by another process; try again when it has ended"
            ),
            Fault::Directory(error) => write!(f, "{directory}: {error}"),
            Fault::Home(fault) => write_home_fault(f, directory, fault),
            Fault::NotCompacted(error) => write!(
                f,
                "{directory}/journal: not compacted: {error}; nothing is changed"
            ),
            Fault::Taken => write!(
                f,
                "{directory}/journal: not compacted: journal.new is there, and no compaction of this site has left it; nothing is changed: move it away"
            ),
            Fault::Replaced(error) => write!(
                f,
                "{directory}/journal: {error}; it is the old journal or the compacted one, and both stand for the same site"
            ),
            Fault::Uncompactable => write!(
                f,
                "{directory}/journal: not compacted: it wouldn't be read as what the site has; nothing is changed"
            ),
            Fault::Kept(error) => write!(f, "{directory}: {error}; nothing is changed"),
            Fault::Input(error) => write!(f, "standard input: {error}"),
            Fault::Output(error) => write!(f, "standard output: {error}; what was done is kept"),
        }
    }
}

/// Writes why the site of a directory can't be opened, or can't answer.
fn write_home_fault<W: fmt::Write>(
    f: &mut Formatter<W>,
    directory: &str,
    fault: HomeFault,
) -> fmt::Result {
    match fault {
        HomeFault::NoMemory => write!(f, "out of memory; the site is as its journal says"),
        HomeFault::Failed(error) => write!(
            f,
            "{directory}/journal: {error}; nothing of what wasn't answered is kept"
        ),
        HomeFault::Damaged { line } => write!(
            f,
            "{directory}/journal, line {line}: damaged; nothing is changed: mend the line from a copy of the journal"
        ),
        HomeFault::InDoubt(error) => write!(
            f,
            "{directory}/journal: {error}; the lines that weren't answered are kept or not: restart the machine, then look with qstat before anything is asked again"
        ),
        HomeFault::Full => write!(f, "{directory}/journal: it may grow no further"),
        HomeFault::NoHeader => write!(
            f,
            "{directory}/journal: no entry is there; call nettlebeam init again, if no site has been made"
        ),
        HomeFault::UnreadHeader => write!(
            f,
            "{directory}/journal, line 1: it doesn't name a site and its roster in a format that this program reads, which are 1 to 4"
        ),
        HomeFault::HasEntries => write!(f, "{directory}: a site is there already"),
        HomeFault::UnreadKnown => write!(
            f,
            "{directory}/journal, line 2: damaged: it isn't what the site knew; nothing is changed: mend the line from a copy of the journal"
        ),
        HomeFault::UnreadHeard { line } => write!(
            f,
            "{directory}/journal, line {line}: damaged: it isn't what the site had heard of another; nothing is changed: mend the line from a copy of the journal"
        ),
        HomeFault::UnkeptEntry { line } => write!(
            f,
            "{directory}/journal, line {line}: it isn't done as it was when it was kept; nothing is changed: use the version of the program that kept it"
        ),
    }
}
