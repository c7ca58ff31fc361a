//! A journal's file on the machine's disk.
//!
//! What a crash may leave of the file is defined by the calls that were noted with their answers (`specs/Calls.antt`). So
//! what a journal promises holds of a real disk under these suppositions, which no proof shows:
//!
//! - Each method below makes just the call that it notes, and notes its answer. A body that notes a sync and makes none
//!   would be proved as well, so this file has to be read. A write that the system does in parts is noted as one, and so is
//!   a replacement, which is a file made beside this one, written and synced, a rename and a sync of the directory.
//! - After a crash the file is one of those that the noted calls allow: outside of a write's range nothing changes, a write
//!   of one byte is done or it isn't, and what was there when a sync returned stays.
//! - A rename over a file is done or it isn't: at each moment the name is the old file's or the new one's. What it was when
//!   a sync of the directory returned, it stays. The new file is synced before it is renamed, so it is whole by then.
//! - What `open` reads is what the disk has. The file and its directory are synced first. A system that forgot, after a
//!   sync that failed in an earlier process, that its copy is not the disk's may still show that copy.
//!   Nor does it say which of two files has the name, where a sync of the directory failed in an earlier process: the name
//!   that `open` found may be the new file's, and a power cut bring the old one back, with all that was added since gone.
//! - Nobody else changes the file, or what has its name. The lock keeps out other processes that take it, and no others.
//!
//! A file that takes the place of another has its owner, group and permissions. It isn't given an access list (ACL) or
//! another attribute that the old one had.
ghost use Rattle.std.specs.Prelude.{◌≡◌, ◌↔◌, ℕ, true, [], ◌∷◌, ◌++◌, length, reverse, Vec, Some, None, is_some, IfOk, IfSome, IsErrOf, IsTrue};
ghost use Rattle.std.specs.declared.alloc.Global.{Global};
ghost use Rattle.fed_journal.specs.Calls.{counts_now, errors_by, left_by, left_since, only_now, seen_by};

use crate::calls::{Call, Calls, note_found};
use crate::devices::{Device, Replacement};
use crate::faults::{DeviceFault, OpenFault};
use std::alloc::{AllocError, Global};
use std::fs::{self, File, Metadata, OpenOptions, TryLockError};
use std::io::{self, ErrorKind, Read};
use std::os::fd::{AsFd, AsRawFd};
use std::os::unix::fs::{FileExt, MetadataExt, OpenOptionsExt, fchown};
use std::path::{Path, PathBuf};
use std::rt::Files;

/// Who may do what with a file that is made: its owner may read and write it.
const OWNER_ALONE: u32 = 0o600;

/// What the name of a file has behind it until the file takes the place of another.
const NEW_SUFFIX: &str = ".new";

/// How many bytes of a new file are read back at a time.
const PART_BYTES: usize = 8192;

/// An open file, which this process has to itself until it is dropped.
#[derive(Drop)]
pub struct FileDevice<R: Drop> {
    rt: R,
    alloc: Global,
    place: Place,
    file: File,
    // what was found there, until it is read or the file is changed
    found: Option<Vec<u8>>,
    // why the last call that failed did
    failed: Option<io::Error>,
    calls: Calls,
    ghost same: { (bytes : Vec ℕ Global) → found ≡ Some bytes → bytes.items ≡ seen_by (reverse calls.items) },
    ghost unread: { is_some found ≡ true → failed ≡ None },
    ghost whole: { failed ≡ None → errors_by (reverse calls.items) ≡ [] },
}

/// Where a file stands.
#[derive(Drop)]
struct Place {
    directory: PathBuf,
    path: PathBuf,
    // where a file is made that is to take its place
    new_path: PathBuf,
}

/// A file that is opened and not locked yet: another process may have it, and another file may take its place.
#[derive(Drop)]
pub struct OpenedFile {
    place: Place,
    file: File,
}

/// A file that is to take the place of another, and the directory of both.
#[derive(Drop)]
struct NewFile {
    file: File,
    directory: File,
}

/// Why a file isn't read again.
fn already_read() -> io::Error {
    io::Error::new(io::ErrorKind::Unsupported, "the file was read before")
}

/// Where the file of this name stands.
fn place_of(alloc: Global, directory: &str, name: &str) -> Result<Place, AllocError> {
    let directory = PathBuf::from_str(alloc, directory)?;
    let new_name = format!(in alloc; "{name}{NEW_SUFFIX}")?;
    Ok(Place {
        path: directory.join(alloc, name)?,
        new_path: directory.join(alloc, new_name.as_str())?,
        directory,
    })
}

/// The file under a number beyond those of the standard streams: what is meant for one that was closed must not land in it.
fn beyond_streams(file: File) -> io::Result<File> {
    if file.as_raw_fd() > 2 {
        return Ok(file);
    }
    file.try_clone()
}

/// Locks a file. No other open of it has the lock then, in this process or another.
fn lock(file: &File) -> Result<(), OpenFault> {
    match file.try_lock() {
        Ok(()) => Ok(()),
        Err(TryLockError::WouldBlock) => Err(OpenFault::InUse),
        Err(TryLockError::Error(error)) => Err(OpenFault::Failed(error)),
    }
}

/// Whether these are of one file.
fn is_same_file(one: &Metadata, other: &Metadata) -> bool {
    one.dev() == other.dev() && one.ino() == other.ino()
}

/// Whether the path leads to the file: another one may have taken its place while its lock was waited for.
fn is_named(rt: &impl Files, path: Path<'_>, file: &File) -> io::Result<bool> {
    Ok(is_same_file(&fs::metadata(rt, path)?, &file.metadata()?))
}

/// An error where a rename to this path would not put a file in the place of this one: the path is a symbolic link, or
/// another file's.
fn check_name(rt: &impl Files, path: Path<'_>, file: &Metadata) -> io::Result<()> {
    let named = fs::symlink_metadata(rt, path)?;
    if named.is_symlink() {
        let why = "the file is a symbolic link";
        return Err(io::Error::new(ErrorKind::Unsupported, why));
    }
    if !is_same_file(&named, file) {
        return Err(io::Error::other("another file has its name"));
    }
    Ok(())
}

/// Removes a file, if it is there.
fn remove_left(rt: &impl Files, path: Path<'_>) -> io::Result<()> {
    match fs::remove_file(rt, path) {
        Err(error) if error.kind() != ErrorKind::NotFound => Err(error),
        _ => Ok(()),
    }
}

/// Gives a file the owner, the group and the permissions of another.
fn give_as(file: &File, old: &Metadata) -> io::Result<()> {
    let new = file.metadata()?;
    if new.uid() != old.uid() || new.gid() != old.gid() {
        fchown(file.as_fd(), Some(old.uid()), Some(old.gid()))?;
    }
    file.set_permissions(old.permissions())
}

/// Whether a reader gives these bytes and no others. Where it gives fewer, there may be an error of kind `UnexpectedEof`.
#[tactic(auto, using(crate::proofs::ReadBack::parts))]
fn has_bytes<R: Read>(reader: &mut R, bytes: &[u8]) -> io::Result<bool>
    ensures { IfOk result (λ same. IfSome (R.remaining reader.old) (λ given. IsTrue same ↔ (given ≡ bytes.now))) }
{
    let mut buffer = [0u8; PART_BYTES];
    for part in bytes.chunks(PART_BYTES) {
        let read = &mut buffer[..part.len()];
        reader.read_exact(read)?;
        if *read != *part {
            return Ok(false);
        }
    }
    Ok(reader.read(&mut buffer)? == 0)
}

/// Makes a file with these bytes, which this process has to itself, and waits until the disk has it.
fn write_new(
    rt: &impl Files<File = File>,
    path: Path<'_>,
    old: &Metadata,
    bytes: &[u8],
) -> io::Result<File> {
    let made = OpenOptions::new()
        .read(true)
        .write(true)
        .create_new(true)
        .mode(OWNER_ALONE)
        .open(rt, path)?;
    let mut file = beyond_streams(made)?;
    // before it has a byte: from the rename on nobody else may have it
    file.try_lock()?;
    give_as(&file, old)?;
    file.write_all_at(bytes, 0)?;
    file.sync_all()?;
    if !has_bytes(&mut file, bytes)? {
        let why = "what is read back isn't what was written";
        return Err(io::Error::new(ErrorKind::InvalidData, why));
    }
    Ok(file)
}

/// Reads a file, once the disk has what is read, and the file's name.
fn read_settled(alloc: Global, file: &mut File, directory: &File) -> io::Result<Vec<u8>> {
    file.sync_all()?;
    directory.sync_all()?;
    let mut bytes = Vec::new(alloc);
    file.read_to_end(&mut bytes)?;
    Ok(bytes)
}

impl OpenedFile {
    ghost use Rattle.fed_journal.specs.Device.{LeavesJust};
    ghost use Rattle.fed_journal.specs.Files.{file_may_leave, file_seen};

    /// Opens the file of this name in a directory. Where the file or the directory is missing, `Failed` has an error of
    /// kind `NotFound`; where it may not be read or written, one of kind `PermissionDenied`. `InUse` never comes.
    pub fn open<R: Files<File = File> + AllocGlobal>(
        rt: &R,
        directory: &str,
        name: &str,
    ) -> Result<OpenedFile, OpenFault>
        ensures { ¬ IsErrOf result OpenFault.InUse }
    {
        OpenedFile::open_as(rt, directory, name, false)
    }

    /// Opens the file of this name in a directory, and makes it where it is missing, empty and for its owner alone. The
    /// errors are those of `open`, but that the file may be missing.
    pub fn make<R: Files<File = File> + AllocGlobal>(
        rt: &R,
        directory: &str,
        name: &str,
    ) -> Result<OpenedFile, OpenFault>
        ensures { ¬ IsErrOf result OpenFault.InUse }
    {
        OpenedFile::open_as(rt, directory, name, true)
    }

    fn open_as<R: Files<File = File> + AllocGlobal>(
        rt: &R,
        directory: &str,
        name: &str,
        is_made: bool,
    ) -> Result<OpenedFile, OpenFault>
        ensures { ¬ IsErrOf result OpenFault.InUse }
    {
        let place = place_of(rt.alloc(), directory, name)?;
        let opened = OpenOptions::new()
            .read(true)
            .write(true)
            .create(is_made)
            .mode(OWNER_ALONE)
            .open(rt, place.path.as_path())?;
        let file = beyond_streams(opened)?;
        Ok(OpenedFile { place, file })
    }

    /// Locks the file, and reads it once the disk has it and its name. `InUse` comes while another open of the file has the
    /// lock, and where another file has taken its place since it was opened: what is written to the old one would be lost.
    /// `Failed` has an error of kind `NotFound` where no file has its name any more, and else the disk's or the system's.
    pub fn take<R: Files<File = File> + AllocGlobal + Clone + Drop>(
        self,
        rt: &R,
    ) -> Result<FileDevice<R>, OpenFault>
        ensures { IfOk result (λ device. LeavesJust (file_seen device) (file_may_leave device)) }
    {
        let OpenedFile { place, mut file } = self;
        lock(&file)?;
        if !is_named(rt, place.path.as_path(), &file)? {
            return Err(OpenFault::InUse);
        }
        let directory = File::open(rt, place.directory.as_path())?;
        let alloc = rt.alloc();
        let bytes = read_settled(alloc, &mut file, &directory)?;
        let (calls, bytes) = note_found(bytes);
        Ok(FileDevice {
            rt: rt.clone()?,
            alloc,
            place,
            file,
            found: Some(bytes),
            failed: None,
            calls,
        })
    }
}

impl<R: Files<File = File> + AllocGlobal + Clone + Drop> FileDevice<R> {
    ghost use Rattle.fed_journal.specs.Device.{LeavesJust};
    ghost use Rattle.fed_journal.specs.Files.{file_may_leave, file_seen};

    /// Opens the file of this name in a directory. Where the file or the directory is missing, `Failed` has an error of
    /// kind `NotFound`; `InUse` comes while another open of the file lasts, and where another file has just taken its place.
    pub fn open(rt: &R, directory: &str, name: &str) -> Result<FileDevice<R>, OpenFault>
        ensures { IfOk result (λ device. LeavesJust (file_seen device) (file_may_leave device)) }
    {
        OpenedFile::open(rt, directory, name)?.take(rt)
    }

    /// Opens the file of this name in a directory, and makes it where it is missing, empty and for its owner alone. The
    /// errors are those of `open`, but that the file may be missing.
    pub fn make(rt: &R, directory: &str, name: &str) -> Result<FileDevice<R>, OpenFault>
        ensures { IfOk result (λ device. LeavesJust (file_seen device) (file_may_leave device)) }
    {
        OpenedFile::make(rt, directory, name)?.take(rt)
    }

    /// Makes the file that is to take the place of this one, with its owner, group and permissions. Where that fails, it is
    /// removed as far as it can be.
    fn make_new(&self, bytes: &[u8]) -> io::Result<NewFile> {
        let old = self.file.metadata()?;
        check_name(&self.rt, self.place.path.as_path(), &old)?;
        // opened here, so that from the rename on nothing is left to fail but the disk
        let directory = File::open(&self.rt, self.place.directory.as_path())?;
        let new_path = self.place.new_path.as_path();
        // as a crash left it before its rename
        remove_left(&self.rt, new_path)?;
        match write_new(&self.rt, new_path, &old, bytes) {
            Ok(file) => Ok(NewFile { file, directory }),
            Err(error) => {
                let _ = fs::remove_file(&self.rt, new_path);
                Err(error)
            }
        }
    }

    /// Renames the new file over this one, and waits until the disk has that.
    fn rename_new(&self, directory: &File) -> io::Result<()> {
        let place = &self.place;
        fs::rename(&self.rt, place.new_path.as_path(), place.path.as_path())?;
        directory.sync_all()
    }

    /// Notes a call with its answer. What was found before it is then nothing to rely on.
    fn note(&mut self, call: Call, answer: io::Result<()>) -> io::Result<()>
        ensures noted { self.new.calls.items ≡ self.old.calls.items ++ (call, answer) ∷ [] }
        ensures told { result ≡ answer }
    {
        self.found = None;
        self.calls = self.calls.and(&call, &answer);
        self.failed = answer.err().or(self.failed);
        answer
    }
}

impl<R: Files<File = File> + AllocGlobal + Clone + Drop> Device for FileDevice<R> {
    ghost seen = { λ d. seen_by (reverse d.calls.items) };

    ghost may_leave = { λ d c. left_by (reverse d.calls.items) c };

    ghost moment = { λ d. length (reverse d.calls.items) };

    ghost left_since = { λ d t c. left_since (reverse d.calls.items) t c };

    ghost errors = { λ d. errors_by (reverse d.calls.items) };

    ghost counts_now = { λ d t c le now. counts_now (reverse d.calls.items) t c le now };

    ghost only_now = { λ d c left. only_now (reverse d.calls.items) c left };

    /// Gives what was found when the file was opened, once, and before the file is changed or synced. Any other read is a
    /// call that failed.
    fn read(&mut self, _alloc: Global) -> Result<Vec<u8>, DeviceFault> {
        match self.found.take() {
            Some(bytes) => Ok(bytes),
            None => {
                let error = self.failed.unwrap_or(already_read());
                self.calls = self.calls.and(&Call::Refused, &Err(error));
                self.failed = Some(error);
                Err(DeviceFault::Failed(error))
            }
        }
    }

    fn write_at(&mut self, at: usize, bytes: &[u8]) -> Result<(), DeviceFault> {
        if let Some(error) = self.failed {
            return Ok(self.note(Call::Refused, Err(error))?);
        }
        let written = bytes.to_vec(self.alloc)?;
        let answer = self.file.write_all_at(bytes, at as u64);
        Ok(self.note(Call::Wrote { at, bytes: written }, answer)?)
    }

    fn cut(&mut self, len: usize) -> io::Result<()> {
        if let Some(error) = self.failed {
            return self.note(Call::Refused, Err(error));
        }
        let answer = self.file.set_len(len as u64);
        self.note(Call::Resized { len }, answer)
    }

    fn sync(&mut self) -> io::Result<()> {
        if let Some(error) = self.failed {
            return self.note(Call::Refused, Err(error));
        }
        let answer = self.file.sync_data();
        self.note(Call::Flushed, answer)
    }

    /// `Refused` where the path of the file is a symbolic link or another file's, or a file can't be made beside it that has
    /// its owner, group and permissions and these bytes, as for want of room. What was made of it is removed, as far as it
    /// can be. After `Done` this process has the new file to itself.
    fn replace(&mut self, bytes: Vec<u8>) -> Result<Replacement, DeviceFault> {
        if let Some(error) = self.failed {
            let _ = self.note(Call::Refused, Err(error));
            return Err(DeviceFault::Failed(error));
        }
        match self.make_new(&bytes) {
            Err(error) => Ok(Replacement::Refused(error)),
            Ok(new) => {
                let answer = self.rename_new(&new.directory);
                self.note(Call::Replaced { bytes }, answer)?;
                self.file = new.file;
                Ok(Replacement::Done)
            }
        }
    }
}
