//! Journals in files of a directory: what the calls of the program don't show.
ghost use Rattle.std.specs.Prelude.{List, ℕ};
ghost use Rattle.fed_journal.specs.Device.{LeavesJust};
ghost use Rattle.fed_journal.specs.Files.{file_may_leave, file_seen};
ghost use Rattle.fed_journal.specs.Journal.{IsRead};

use fed_journal::{
    Device, FileDevice, Journal, JournalFault, OpenFault, OpenedFile, Recovered, Replacement,
    are_lines,
};
use std::alloc::Global;
use std::fs;
use std::io::{self, ErrorKind};
use std::test::Fail;

const NAME: &str = "journal";

// By sha256sum: of sixteen zeros and the first text, and then of the digits that came before and the next text.
const ONE_GROUP: &[u8] =
    b"+ f935701589470944 nettlebeam 1 argonne argonne:8 lemont:4\n+ f21d6a690739bf6e ann qsub\n-";

const NEW: &[u8] =
    b"+ daeceba625b20fa8 nettlebeam 2 argonne argonne:8 lemont:4\n+ f9f88272b1379892 {\"version\": 1}\n-";

const TEXTS: [&[u8]; 2] = [b"nettlebeam 1 argonne argonne:8 lemont:4", b"ann qsub"];

/// The texts of the new file.
const OTHERS: [&[u8]; 2] = [
    b"nettlebeam 2 argonne argonne:8 lemont:4",
    b"{\"version\": 1}",
];

/// Makes an empty directory for a test.
fn fresh(rt: &HostRuntime, directory: &str) -> io::Result<()> {
    let _ = fs::remove_dir_all(rt, directory);
    fs::create_dir(rt, directory)
}

/// Adds a group to the journal in a file, and gives what it had before.
fn add(
    alloc: Global,
    device: FileDevice<HostRuntime>,
    texts: &[&[u8]],
) -> Result<Recovered, JournalFault>
    requires { LeavesJust (file_seen device) (file_may_leave device) }
{
    match Journal::open(alloc, device) {
        Err(unopened) => Err(unopened.fault),
        Ok((mut journal, recovered)) => {
            journal.repair()?;
            // none of the tests' texts has a line feed
            if are_lines(texts) {
                journal.append(texts)?;
            }
            Ok(recovered)
        }
    }
}

#[test]
fn a_file_is_read_once(rt: HostRuntime) -> Result<(), Fail> {
    let directory = "journal_once";
    fresh(&rt, directory)?;
    fs::write(&rt, "journal_once/journal", b"one".as_slice())?;
    let mut device = FileDevice::open(&rt, directory, NAME)?;
    let bytes = device.read(rt.alloc())?;
    assert_eq!(rt; bytes.as_slice(), b"one".as_slice());
    device.write_at(0, b"second")?;
    device.cut(3)?;
    device.sync()?;
    let written = fs::read(&rt, "journal_once/journal")?;
    assert_eq!(rt; written.as_slice(), b"sec".as_slice());
    // a second read fails, and so does each call behind it
    assert!(rt; device.read(rt.alloc()).is_err());
    assert!(rt; device.write_at(0, b"third").is_err());
    assert!(rt; device.sync().is_err());
    fs::remove_dir_all(&rt, directory)?;
    Ok(())
}

/// Makes a file where it is missing, and adds a group to its journal. Nothing where either fails.
fn attempt(rt: &HostRuntime, directory: &str) -> Option<Recovered> {
    match FileDevice::make(rt, directory, NAME) {
        Err(_) => None,
        Ok(device) => add(rt.alloc(), device, &TEXTS).ok(),
    }
}

// Whichever allocation fails, the group can be added by a second attempt, and is there once.
#[test]
fn failed_allocations_in_a_file(rt: HostRuntime) -> Result<(), Fail> {
    let directory = "journal_refused";
    if fresh(&rt, directory).is_err() {
        fresh(&rt, directory)?;
    }
    if attempt(&rt, directory).is_none() {
        let recovered = attempt(&rt, directory).ok_or("refused twice")?;
        assert!(rt; recovered.entries.is_empty());
    }
    let bytes = match fs::read(&rt, "journal_refused/journal") {
        Ok(bytes) => bytes,
        Err(_) => fs::read(&rt, "journal_refused/journal")?,
    };
    assert_eq!(rt; bytes.as_slice(), ONE_GROUP);
    if fs::remove_dir_all(&rt, directory).is_err() {
        fs::remove_dir_all(&rt, directory)?;
    }
    Ok(())
}

/// The kind of the error that a file isn't replaced for.
fn refusal(replacement: Replacement) -> Option<ErrorKind> {
    match replacement {
        Replacement::Refused(error) => Some(error.kind()),
        Replacement::Done => None,
    }
}

#[test]
fn another_file_of_the_name_is_not_replaced(rt: HostRuntime) -> Result<(), Fail> {
    let directory = "journal_moved";
    fresh(&rt, directory)?;
    fs::write(&rt, "journal_moved/journal", ONE_GROUP)?;
    let mut device = FileDevice::open(&rt, directory, NAME)?;
    fs::rename(&rt, "journal_moved/journal", "journal_moved/away")?;
    let gone = device.replace(NEW.to_vec(rt.alloc())?)?;
    assert_eq!(rt; refusal(gone), Some(ErrorKind::NotFound));
    fs::write(&rt, "journal_moved/journal", b"another".as_slice())?;
    let taken = device.replace(NEW.to_vec(rt.alloc())?)?;
    assert_eq!(rt; refusal(taken), Some(ErrorKind::Other));
    let other = fs::read(&rt, "journal_moved/journal")?;
    assert_eq!(rt; other.as_slice(), b"another".as_slice());
    assert!(rt; !fs::exists(&rt, "journal_moved/journal.new")?);
    fs::remove_dir_all(&rt, directory)?;
    Ok(())
}

/// Whether a file can't be taken, as it is in use.
fn is_in_use(rt: &HostRuntime, file: OpenedFile) -> bool {
    matches!(file.take(rt), Err(OpenFault::InUse))
}

// Two are opened beside the one that has the lock. Of these one is taken while it has it, and one behind a replacement, which
// finds what a crash left of an earlier one.
#[test]
fn a_file_that_is_replaced_is_not_taken(rt: HostRuntime) -> Result<(), Fail> {
    let directory = "journal_waiting";
    fresh(&rt, directory)?;
    let mut device = FileDevice::make(&rt, directory, NAME)?;
    let held = OpenedFile::open(&rt, directory, NAME)?;
    let waiting = OpenedFile::open(&rt, directory, NAME)?;
    assert!(rt; is_in_use(&rt, held));
    fs::write(&rt, "journal_waiting/journal.new", ONE_GROUP)?;
    let replaced = device.replace(NEW.to_vec(rt.alloc())?)?;
    assert_eq!(rt; refusal(replaced), None);
    drop(device);
    assert!(rt; is_in_use(&rt, waiting));
    let mut again = FileDevice::open(&rt, directory, NAME)?;
    let bytes = again.read(rt.alloc())?;
    assert_eq!(rt; bytes.as_slice(), NEW);
    fs::remove_dir_all(&rt, directory)?;
    Ok(())
}

/// Puts a journal of other texts in the place of the one in a file.
fn replace_in(
    alloc: Global,
    device: FileDevice<HostRuntime>,
    texts: &[&[u8]],
) -> Result<Replacement, JournalFault>
    requires { LeavesJust (file_seen device) (file_may_leave device) }
{
    match Journal::open(alloc, device) {
        Err(unopened) => Err(unopened.fault),
        Ok((mut journal, _)) => {
            journal.repair()?;
            // no text has a line feed
            if are_lines(texts) {
                return journal.replace(texts);
            }
            Err(JournalFault::Full)
        }
    }
}

/// Replaces the journal of a file. `false` where memory is refused.
fn is_replaced(rt: &HostRuntime, directory: &str) -> bool {
    match FileDevice::open(rt, directory, NAME) {
        Err(_) => false,
        Ok(device) => matches!(
            replace_in(rt.alloc(), device, &OTHERS),
            Ok(Replacement::Done)
        ),
    }
}

// Whichever allocation fails, the journal can be replaced by a second attempt.
#[test]
fn failed_allocations_of_a_replacement(rt: HostRuntime) -> Result<(), Fail> {
    let directory = "journal_spared";
    if fresh(&rt, directory).is_err() {
        fresh(&rt, directory)?;
    }
    if fs::write(&rt, "journal_spared/journal", ONE_GROUP).is_err() {
        fs::write(&rt, "journal_spared/journal", ONE_GROUP)?;
    }
    assert!(rt; is_replaced(&rt, directory) || is_replaced(&rt, directory));
    let bytes = match fs::read(&rt, "journal_spared/journal") {
        Ok(bytes) => bytes,
        Err(_) => fs::read(&rt, "journal_spared/journal")?,
    };
    assert_eq!(rt; bytes.as_slice(), NEW);
    if fs::remove_dir_all(&rt, directory).is_err() {
        fs::remove_dir_all(&rt, directory)?;
    }
    Ok(())
}
