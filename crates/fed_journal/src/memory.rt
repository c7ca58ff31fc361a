//! A file in memory, for tests. It can be told to stop at a call, as a machine does that loses its power. Its disk then has
//! what was synced last, and a part of what was changed since.
ghost use Rattle.std.specs.Prelude.{◌≡◌, ◌≤◌, [], ◌∷◌, ◌++◌, length, true, false, Err, IfOk, MatchOption, reverse};
ghost use Rattle.std.specs.declared.io.Error.{Error};
ghost use Rattle.fed_journal.specs.Calls.{IsCached, IsTornBy, counts_now, errors_by, left_by, left_since, only_now, overlaid, seen_by};
ghost use Rattle.fed_journal.specs.Device.{Torn};

use crate::calls::{Call, Calls};
use crate::devices::{Device, Replacement};
use crate::faults::DeviceFault;
use std::alloc::{AllocError, Global};
use std::io;

/// How much the disk has of the last change where a file stops before the sync of it.
#[derive(Clone, Copy, PartialEq, Eq, Debug, Drop)]
pub enum Tear {
    /// So many bytes of a write, from its front. Neither a cut nor a replacement is done.
    Front(usize),
    /// So many bytes of a write, from its back, with zeros where the file had none before them. A cut is done, and so is a
    /// replacement.
    Back(usize),
}

/// A file in memory.
#[derive(Drop)]
pub struct Memory {
    alloc: Global,
    // what a read gives
    bytes: Vec<u8>,
    // what a crash leaves for certain
    disk: Vec<u8>,
    // the last change, until it is synced
    change: Option<Call>,
    calls: Calls,
    is_up: bool,
    // how many calls are done before it stops
    left: usize,
    tear: Tear,
    ghost same: { is_up ≡ true → bytes.items ≡ seen_by (reverse calls.items) },
    ghost whole: { is_up ≡ true → errors_by (reverse calls.items) ≡ [] },
    // the disk has one of the files that a crash may leave
    ghost on_disk: { ∥ left_by (reverse calls.items) disk.items ∥₁ },
    ghost cached: { is_up ≡ true → ∥ IsCached (reverse calls.items) disk.items bytes.items change ∥₁ },
}

/// A file with other bytes at an offset.
fn overlay(alloc: Global, file: &[u8], at: usize, bytes: &[u8]) -> Result<Vec<u8>, AllocError>
    requires { at ≤ length file.now }
    ensures { IfOk result (λ changed. changed.items ≡ overlaid at bytes.now file.now) }
{
    let mut changed = file[..at].to_vec(alloc)?;
    changed.extend_from_slice(bytes)?;
    if bytes.len() < file.len() - at {
        changed.extend_from_slice(&file[at + bytes.len()..])?;
    }
    Ok(changed)
}

/// A file with so many bytes of a write, from its front.
fn tear_behind(
    alloc: Global,
    file: &[u8],
    at: usize,
    bytes: &[u8],
    count: usize,
) -> Result<Vec<u8>, AllocError>
    requires { at ≤ length file.now }
    ensures { IfOk result (λ torn. Torn at bytes.now file.now torn.items) }
{
    overlay(alloc, file, at, &bytes[..count.min(bytes.len())])
}

/// A file with so many bytes of a write, from its back, with zeros where the file had none before them.
fn tear_before(
    alloc: Global,
    file: &[u8],
    at: usize,
    bytes: &[u8],
    count: usize,
) -> Result<Vec<u8>, AllocError>
    requires { at ≤ length file.now }
    ensures { IfOk result (λ torn. Torn at bytes.now file.now torn.items) }
{
    let missing = bytes.len() - count.min(bytes.len());
    let part = &bytes[missing..];
    let mut longer = file.to_vec(alloc)?;
    if part.is_empty() {
        return Ok(longer);
    }
    if missing > file.len() - at {
        longer.resize(at + missing, 0)?;
    }
    overlay(alloc, &longer, at + missing, part)
}

/// What the disk has of a change that was not synced.
fn tear_change(alloc: Global, disk: &[u8], change: &Call, tear: Tear) -> Result<Vec<u8>, AllocError>
    ensures { IfOk result (λ torn. IsTornBy change.now disk.now torn.items) }
{
    match change {
        Call::Wrote { at, bytes } if *at <= disk.len() => match tear {
            Tear::Front(count) => tear_behind(alloc, disk, *at, bytes, count),
            Tear::Back(count) => tear_before(alloc, disk, *at, bytes, count),
        },
        Call::Resized { len } if matches!(tear, Tear::Back(_)) && *len <= disk.len() => {
            disk[..*len].to_vec(alloc)
        }
        Call::Replaced { bytes } if matches!(tear, Tear::Back(_)) => bytes.to_vec(alloc),
        _ => disk.to_vec(alloc),
    }
}

/// Leaves a part of a change on the disk, or none where there is no memory for it.
fn tear_disk(alloc: Global, disk: &mut Vec<u8>, change: &Call, tear: Tear)
    ensures { IsTornBy change.now disk.old.items disk.new.items }
{
    if let Ok(torn) = tear_change(alloc, disk, change, tear) {
        *disk = torn;
    }
}

/// Leaves a part of the last change on the disk, if there is one that was not synced.
fn tear_last(alloc: Global, disk: &mut Vec<u8>, change: &Option<Call>, tear: Tear)
    ensures { MatchOption change.now (disk.new.items ≡ disk.old.items) (λ call. IsTornBy call disk.old.items disk.new.items) }
{
    if let Some(change) = change {
        tear_disk(alloc, disk, change, tear);
    }
}

/// Why a call fails in whose midst the file stops, or behind that.
fn stopped() -> io::Error {
    io::Error::other("the machine has stopped")
}

/// Notes a call in whose midst the file stops, or behind that, and gives why it fails.
fn stop(calls: &mut Calls, is_up: &mut bool, call: &Call) -> io::Error
    ensures noted { calls.new.items ≡ calls.old.items ++ (call.now, Err result) ∷ [] }
    ensures down { is_up.new ≡ false }
{
    let error = stopped();
    *calls = calls.and(call, &Err(error));
    *is_up = false;
    error
}

impl Memory {
    ghost use Rattle.fed_journal.specs.Device.{LeavesJust};
    ghost use Rattle.fed_journal.specs.Memory.{calls_left, disk_of, is_running, memory_may_leave, memory_seen, tear_of};

    /// A file with these bytes, which doesn't stop.
    pub fn new(alloc: Global, bytes: &[u8]) -> Result<Memory, DeviceFault>
        ensures bytes { IfOk result (λ file. memory_seen file ≡ bytes.now) }
        ensures durable { IfOk result (λ file. LeavesJust (memory_seen file) (memory_may_leave file)) }
    {
        Memory::stopping(alloc, bytes, usize::MAX, Tear::Front(0))
    }

    /// A file with these bytes, which does so many calls that change it or wait for the disk, and stops at the next.
    pub fn stopping(
        alloc: Global,
        bytes: &[u8],
        left: usize,
        tear: Tear,
    ) -> Result<Memory, DeviceFault>
        ensures bytes { IfOk result (λ file. memory_seen file ≡ bytes.now) }
        ensures durable { IfOk result (λ file. LeavesJust (memory_seen file) (memory_may_leave file)) }
        ensures stop { IfOk result (λ file. (calls_left file ≡ left) × (tear_of file ≡ tear) × (is_running file ≡ true)) }
    {
        let found = bytes.to_vec(alloc)?;
        Ok(Memory {
            alloc,
            bytes: bytes.to_vec(alloc)?,
            disk: bytes.to_vec(alloc)?,
            change: None,
            calls: Calls::new().and(&Call::Found { bytes: found }, &Ok(())),
            is_up: true,
            left,
            tear,
        })
    }

    /// What the disk has: nothing of a change after the last sync, but for the part of it that a stop left. It is one of the
    /// files that a crash may leave.
    pub fn into_disk(self) -> Vec<u8>
        ensures disk { result ≡ disk_of self }
        ensures left { ∥ memory_may_leave self result.items ∥₁ }
    {
        self.disk
    }

    /// Whether it has not stopped.
    pub fn is_up(&self) -> bool
        ensures { result ≡ is_running self.now }
    {
        self.is_up
    }
}

impl Device for Memory {
    ghost seen = { λ d. seen_by (reverse d.calls.items) };

    ghost may_leave = { λ d c. left_by (reverse d.calls.items) c };

    ghost moment = { λ d. length (reverse d.calls.items) };

    ghost left_since = { λ d t c. left_since (reverse d.calls.items) t c };

    ghost errors = { λ d. errors_by (reverse d.calls.items) };

    ghost counts_now = { λ d t c le now. counts_now (reverse d.calls.items) t c le now };

    ghost only_now = { λ d c left. only_now (reverse d.calls.items) c left };

    fn read(&mut self, alloc: Global) -> Result<Vec<u8>, DeviceFault> {
        if !self.is_up {
            return Err(DeviceFault::Failed(stop(&mut self.calls, &mut self.is_up, &Call::Refused)));
        }
        Ok(self.bytes.to_vec(alloc)?)
    }

    fn write_at(&mut self, at: usize, bytes: &[u8]) -> Result<(), DeviceFault> {
        if !self.is_up {
            return Err(DeviceFault::Failed(stop(&mut self.calls, &mut self.is_up, &Call::Refused)));
        }
        let written = bytes.to_vec(self.alloc)?;
        let call = Call::Wrote { at, bytes: written };
        if self.left == 0 {
            tear_disk(self.alloc, &mut self.disk, &call, self.tear);
            return Err(DeviceFault::Failed(stop(&mut self.calls, &mut self.is_up, &call)));
        }
        let changed = overlay(self.alloc, &self.bytes, at, bytes)?;
        self.calls = self.calls.and(&call, &Ok(()));
        self.bytes = changed;
        self.change = Some(call);
        self.left -= 1;
        Ok(())
    }

    fn cut(&mut self, len: usize) -> io::Result<()> {
        if !self.is_up {
            return Err(stop(&mut self.calls, &mut self.is_up, &Call::Refused));
        }
        let call = Call::Resized { len };
        if self.left == 0 {
            tear_disk(self.alloc, &mut self.disk, &call, self.tear);
            return Err(stop(&mut self.calls, &mut self.is_up, &call));
        }
        self.calls = self.calls.and(&call, &Ok(()));
        self.bytes.truncate(len);
        self.change = Some(call);
        self.left -= 1;
        Ok(())
    }

    // Where there is no memory for what the disk is to have, the disk fails.
    fn sync(&mut self) -> io::Result<()> {
        if !self.is_up {
            return Err(stop(&mut self.calls, &mut self.is_up, &Call::Refused));
        }
        if self.left == 0 {
            tear_last(self.alloc, &mut self.disk, &self.change, self.tear);
            return Err(stop(&mut self.calls, &mut self.is_up, &Call::Flushed));
        }
        let Ok(disk) = self.bytes.to_vec(self.alloc) else {
            return Err(stop(&mut self.calls, &mut self.is_up, &Call::Flushed));
        };
        self.calls = self.calls.and(&Call::Flushed, &Ok(()));
        self.disk = disk;
        self.change = None;
        self.left -= 1;
        Ok(())
    }

    fn replace(&mut self, bytes: Vec<u8>) -> Result<Replacement, DeviceFault> {
        if !self.is_up {
            return Err(DeviceFault::Failed(stop(&mut self.calls, &mut self.is_up, &Call::Refused)));
        }
        let seen = bytes.to_vec(self.alloc)?;
        let disk = bytes.to_vec(self.alloc)?;
        let call = Call::Replaced { bytes };
        if self.left == 0 {
            tear_disk(self.alloc, &mut self.disk, &call, self.tear);
            return Err(DeviceFault::Failed(stop(&mut self.calls, &mut self.is_up, &call)));
        }
        self.calls = self.calls.and(&call, &Ok(()));
        self.bytes = seen;
        self.disk = disk;
        self.change = None;
        self.left -= 1;
        Ok(Replacement::Done)
    }
}
