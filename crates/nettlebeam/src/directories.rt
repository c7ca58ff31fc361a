//! A site's directory: its journal, and the files of what was cut from it.
ghost use Rattle.std.specs.Prelude.{◌≡◌, ◌↔◌, IfOk, IsTrue};
ghost use Rattle.fed_journal.specs.Device.{LeavesJust};
ghost use Rattle.fed_journal.specs.Files.{file_may_leave, file_seen};
ghost use Rattle.fed_home.specs.Home.{IsOpen, IsReplayed, gate_of};

use crate::faults::Fault;
use fed_home::Home;
use fed_journal::{Device, FileDevice, OpenFault, keep};
use std::fs::{self, File, Files};
use std::io::{self, ErrorKind, Read};
use std::path::Path;
use std::thread;
use std::time::{Clock, Duration};

/// The name of the journal's file.
pub const JOURNAL: &str = "journal";

/// The name of a new journal that a compaction makes beside it.
pub const NEW_JOURNAL: &str = "journal.new";

/// What the names of the files begin with that keep what was cut from the journal.
pub const CUT: &str = "journal.cut-";

/// How often the lock of a directory is tried, and how long the program waits between: ten seconds in all.
const TRIES: u32 = 500;

const PAUSE_MILLISECONDS: u64 = 20;

/// How many files of what was cut there may be.
const CUTS: u32 = 1_000_000;

/// The directory that a file or directory of this name is in.
pub fn parent_of(name: &str) -> Path<'_> {
    match Path::new(name).parent() {
        Some(parent) if !parent.as_str().is_empty() => parent,
        _ => Path::new("."),
    }
}

/// Waits until the disk has the name of a file or directory.
pub fn sync_parent(rt: &impl Files<File = File>, name: &str) -> io::Result<()> {
    File::open(rt, parent_of(name))?.sync_all()
}

/// The journal's file. Where another process has it, it is waited for, up to ten seconds.
pub fn open_device<R: Files<File = File> + Clock + AllocGlobal + Clone + Drop>(
    rt: &R,
    directory: &str,
) -> Result<FileDevice<R>, Fault>
    ensures { IfOk result (λ device. LeavesJust (file_seen device) (file_may_leave device)) }
{
    for _ in 0..TRIES {
        match FileDevice::open(rt, directory, JOURNAL) {
            Ok(device) => return Ok(device),
            Err(OpenFault::InUse) => thread::sleep(rt, Duration::from_millis(PAUSE_MILLISECONDS)),
            Err(fault) => return Err(Fault::from(fault)),
        }
    }
    Err(Fault::InUse)
}

/// Removes the file of this name if it has what is to be cut, or a part of it: the journal has it all still.
fn remove_part<R: Files<File = File> + AllocGlobal>(
    rt: &R,
    directory: &str,
    name: &str,
    cut: &[u8],
) -> io::Result<()> {
    let path = Path::new(directory).join(rt.alloc(), name)?;
    let mut text = Vec::new(rt.alloc());
    File::open(rt, path.as_path())?
        .take(cut.len() as u64 + 1)
        .read_to_end(&mut text)?;
    if cut.starts_with(&text) {
        fs::remove_file(rt, path.as_path())?;
    }
    Ok(())
}

/// Keeps what is to be cut in the file of this number, and says so: not if the file has something. If it can't be kept, as on
/// a full disk, no part of it stays: else each further try would leave one more.
fn keep_in<R: Files<File = File> + AllocGlobal + Clone + Drop>(
    rt: &R,
    directory: &str,
    number: u32,
    cut: &[u8],
) -> Result<bool, Fault> {
    let name = format!(in rt.alloc(); "{CUT}{number}")?;
    let mut device = FileDevice::make(rt, directory, name.as_str())?;
    match keep(rt.alloc(), &mut device, cut) {
        Ok(kept) => Ok(kept),
        Err(fault) => {
            // what is to be said is why it can't be kept
            let _ = remove_part(rt, directory, name.as_str(), cut);
            Err(Fault::from(fault))
        }
    }
}

/// Keeps what is to be cut in the first of the files `journal.cut-1`, `journal.cut-2` .. that isn't there, or is empty, and
/// gives its number.
fn keep_cut<R: Files<File = File> + AllocGlobal + Clone + Drop>(
    rt: &R,
    directory: &str,
    cut: &[u8],
) -> Result<u32, Fault> {
    for number in 1..=CUTS {
        if keep_in(rt, directory, number, cut)? {
            return Ok(number);
        }
    }
    Err(Fault::Directory(ErrorKind::StorageFull.into()))
}

/// The site of a directory as its journal says, and what stands behind the journal's gate.
pub fn find_home<R: Files<File = File> + Clock + AllocGlobal + Clone + Drop>(
    rt: &R,
    directory: &str,
) -> Result<(Home<FileDevice<R>>, Vec<u8>), Fault>
    ensures { IfOk result (λ found. IsReplayed file_seen file_may_leave found.0 found.1.items) }
{
    let device = open_device(rt, directory)?;
    match Home::open(rt.alloc(), device) {
        Ok((home, cut)) => Ok((home, cut)),
        Err(unopened) => Err(Fault::Home(unopened.fault)),
    }
}

/// Keeps what is to be cut, as of a group that a crash cut, in a file of its own, and says so on standard error.
pub fn keep_tail<R: Files<File = File> + AllocGlobal + Clone + Drop>(
    streams: &impl Eprint,
    rt: &R,
    directory: &str,
    cut: &[u8],
) -> Result<(), Fault> {
    if cut.is_empty() {
        return Ok(());
    }
    let number = keep_cut(rt, directory, cut)?;
    let count = cut.len();
    // the file is there also where standard error takes nothing
    let _ = eprintln!(streams;
        "nettlebeam: {directory}/journal: {count} bytes that were never answered are cut, and kept in {CUT}{number}"
    );
    Ok(())
}

/// The site of a directory, its journal at rest. What stood behind the journal's gate is kept in a file of its own first.
pub fn open_home<R: Files<File = File> + Clock + AllocGlobal + Clone + Drop>(
    streams: &impl Eprint,
    rt: &R,
    directory: &str,
) -> Result<Home<FileDevice<R>>, Fault>
    ensures { IfOk result (λ home. IsOpen file_seen file_may_leave home) }
{
    let (mut home, cut) = find_home(rt, directory)?;
    keep_tail(streams, rt, directory, &cut)?;
    home.repair()?;
    Ok(home)
}

/// Whether all that was acknowledged is there, where the gate stood there before: then what stands behind the gate is of
/// lines that were answered `not kept`.
fn has_all<D: Device + Drop>(home: &Home<D>, gate: usize) -> bool
    ensures { IsTrue result ↔ (gate_of home.now ≡ gate) }
{
    home.gate() == gate
}

/// The site of a directory, its journal at rest, where this process has just answered lines that they aren't kept, and its
/// gate stood there before. What stands behind the gate is of those lines: where there is no room to keep it, it is cut all
/// the same. But where the gate stands elsewhere the disk has changed the journal, and nothing is cut that isn't kept.
pub fn open_home_again<R: Files<File = File> + Clock + AllocGlobal + Clone + Drop>(
    streams: &impl Eprint,
    rt: &R,
    directory: &str,
    gate: usize,
) -> Result<Home<FileDevice<R>>, Fault>
    ensures { IfOk result (λ home. IsOpen file_seen file_may_leave home) }
{
    let (mut home, cut) = find_home(rt, directory)?;
    if let Err(fault) = keep_tail(streams, rt, directory, &cut) {
        if !has_all(&home, gate) {
            return Err(fault);
        }
    }
    home.repair()?;
    Ok(home)
}
