//! Journals: texts in groups, each group on the disk before it is acknowledged.
ghost use Rattle.std.specs.Prelude.{◌≡◌, ◌≤◌, ◌++◌, ◌∷◌, [], List, ℕ, false, length, map, IfErr, IfOk, IsErrOf, MatchResult, OnErr, OnOk};
ghost use Rattle.std.specs.List.{All};
ghost use Rattle.std.specs.declared.io.Error.{Error};
ghost use Rattle.fed_journal.specs.Device.{Holds, LeavesJust, LeavesOnly, Torn};
ghost use Rattle.fed_journal.specs.Journal.{Has};
ghost use Rattle.fed_journal.specs.Fault.{StopsGate, StopsGroup, StopsOpening, StopsRepair, StopsReplacing, is_in_doubt};
ghost use Rattle.fed_journal.specs.Lines.{IsLine, Stands, at_rest, recovered, texts_of};

use crate::devices::{Device, Replacement};
use crate::digests::{Digest, FIRST_DIGEST};
use crate::faults::{DeviceFault, JournalFault};
use crate::lines::{behind_gate, read_lines, write_lines};
use crate::steps::{put, shorten};
use std::alloc::Global;

/// The most bytes that a journal may have.
pub const MAX_BYTES: usize = 1 << 60;

/// A journal on a device. It is read by `open`, and can be added to once `repair` has brought its file to rest.
#[derive(Drop)]
pub struct Journal<D: Device + Drop> {
    alloc: Global,
    device: D,
    // how long the file is
    len: usize,
    // where the closed gate stands, behind the last entry
    gate: usize,
    // the digest of the last entry
    digest: Digest,
}

/// What a journal had when it was opened.
#[derive(Drop)]
pub struct Recovered {
    /// The entries, from the first on.
    pub entries: Vec<Vec<u8>>,
    /// What stands behind the closed gate, as of a group that was not finished: no entry, and `repair` cuts it.
    pub tail: Vec<u8>,
}

/// A device that isn't opened, and why.
#[derive(Drop)]
pub struct Unopened<D: Device + Drop> {
    pub device: D,
    pub fault: JournalFault,
}

/// What a file has.
#[derive(Drop)]
struct Contents {
    recovered: Recovered,
    len: usize,
    gate: usize,
    digest: Digest,
}

/// Reads what a file has.
fn read_contents<D: Device>(alloc: Global, device: &mut D) -> Result<Contents, JournalFault>
    requires { LeavesJust (D.seen device.old) (D.may_leave device.old) }
    ensures entries { IfOk result (λ contents. recovered (D.seen device.old) ≡ Ok (texts_of contents.recovered.entries.items)) }
    ensures known { IfOk result (λ contents. Has (D.seen device.old) (texts_of contents.recovered.entries.items) contents.recovered.tail.items contents.digest contents.gate contents.len) }
    ensures same { D.seen device.new ≡ D.seen device.old }
    ensures durable { LeavesJust (D.seen device.new) (D.may_leave device.new) }
    ensures any_moment { LeavesOnly D.moment D.left_since device.old device.new (λ c. c ≡ D.seen device.old) }
    ensures no_error { IfOk result (λ contents. D.errors device.new ≡ D.errors device.old) }
    ensures fault { IfErr result (StopsOpening (D.errors device.old) (D.errors device.new) (D.seen device.old)) }
{
    let file = device.read(alloc)?;
    let read = read_lines(alloc, &file)?;
    let gate = file.len() - read.rest.len();
    let tail = behind_gate(read.rest).to_vec(alloc)?;
    let digest = read.digest;
    Ok(Contents {
        recovered: Recovered {
            entries: read.entries,
            tail,
        },
        len: file.len(),
        gate,
        digest,
    })
}

/// Opens a gate, and waits until the disk has it. Where memory is refused, it stays closed; where the disk fails, it is in doubt.
fn open_gate<D: Device>(device: &mut D, gate: usize) -> Result<(), JournalFault>
    requires room { gate ≤ length (D.seen device.old) }
    requires durable { LeavesJust (D.seen device.old) (D.may_leave device.old) }
    ensures written { OnOk result (Holds gate (43 ∷ []) (D.seen device.old) (D.seen device.new)) }
    ensures durable { OnOk result (LeavesJust (D.seen device.new) (D.may_leave device.new)) }
    ensures any_moment { LeavesOnly D.moment D.left_since device.old device.new (Torn gate (43 ∷ []) (D.seen device.old)) }
    ensures no_error { OnOk result (D.errors device.new ≡ D.errors device.old) }
    ensures fault { IfErr result (StopsGate (D.errors device.old) (D.errors device.new)) }
    ensures untouched { IsErrOf result JournalFault.NoMemory → device.new ≡ device.old }
{
    match put(device, gate, b"+") {
        Ok(()) => Ok(()),
        Err(DeviceFault::NoMemory) => Err(JournalFault::NoMemory),
        Err(DeviceFault::Failed(error)) => Err(JournalFault::InDoubt(error)),
    }
}

impl<D: Device + Drop> Journal<D> {
    ghost use Rattle.fed_journal.specs.Journal.{IsBeforeOrAfter, IsOldOrNew, IsRead, IsSettled, device_of, entries_in, gate_of};

    /// Reads the journal of a file that the disk has, as after a crash, or of a new file, which is empty. Changes nothing:
    /// so the tail can be kept elsewhere before `repair` cuts it, and nothing is lost by a crash in between.
    pub fn open(alloc: Global, mut device: D) -> Result<(Journal<D>, Recovered), Unopened<D>>
        requires { LeavesJust (D.seen device) (D.may_leave device) }
        ensures entries { IfOk result (λ opened. recovered (D.seen device) ≡ Ok (texts_of opened.1.entries.items)) }

        // Nothing of the file is left out: it is the entries at rest, and the tail.
        ensures whole { IfOk result (λ opened. Stands (D.seen device) (texts_of opened.1.entries.items) opened.1.tail.items) }
        ensures read { IfOk result (λ opened. IsRead D.seen D.may_leave opened.0 opened.1.tail.items) }

        // The file is as it was, and a crash at any moment of the call leaves it so.
        ensures same { MatchResult result (λ opened. D.seen (device_of opened.0) ≡ D.seen device) (λ unopened. D.seen unopened.device ≡ D.seen device) }
        ensures any_moment { MatchResult result
            (λ opened. LeavesOnly D.moment D.left_since device (device_of opened.0) (λ c. c ≡ D.seen device))
            (λ unopened. LeavesOnly D.moment D.left_since device unopened.device (λ c. c ≡ D.seen device)) }
        ensures no_error { IfOk result (λ opened. D.errors (device_of opened.0) ≡ D.errors device) }
        ensures fault { IfErr result (λ unopened. StopsOpening (D.errors device) (D.errors unopened.device) (D.seen device) unopened.fault) }
    {
        match read_contents(alloc, &mut device) {
            Ok(contents) => {
                let digest = contents.digest;
                let journal = Journal {
                    alloc,
                    device,
                    len: contents.len,
                    gate: contents.gate,
                    digest,
                };
                Ok((journal, contents.recovered))
            }
            Err(fault) => Err(Unopened { device, fault }),
        }
    }

    /// Brings the file to rest: cuts the tail, or writes the gate that a new file lacks. After an `Err` it has to be opened again.
    pub fn repair(&mut self) -> Result<(), JournalFault>
        requires { (tail : List ℕ) × IsRead D.seen D.may_leave self.old tail }
        ensures settled { OnOk result (IsSettled D.seen D.may_leave self.new) }
        ensures same { OnOk result (recovered (D.seen (device_of self.new)) ≡ recovered (D.seen (device_of self.old))) }

        // A crash at any moment of the call leaves the same entries.
        ensures any_moment { LeavesOnly D.moment D.left_since (device_of self.old) (device_of self.new) (λ c. recovered c ≡ recovered (D.seen (device_of self.old))) }
        ensures no_error { OnOk result (D.errors (device_of self.new) ≡ D.errors (device_of self.old)) }
        ensures fault { IfErr result (StopsRepair (D.errors (device_of self.old)) (D.errors (device_of self.new))) }
    {
        if self.len == 0 {
            put(&mut self.device, 0, b"-")?;
            self.len = 1;
        } else if self.len > self.gate + 1 {
            shorten(&mut self.device, self.gate + 1)?;
            self.len = self.gate + 1;
        }
        Ok(())
    }

    /// Adds a group of texts. At `Ok` it is acknowledged: from then on each crash leaves a file that has it. After `InDoubt`
    /// the file may have it or not; after any other `Err` it has nothing of it. After an `Err` the file has to be opened again.
    pub fn append(&mut self, texts: &[&[u8]]) -> Result<(), JournalFault>
        requires settled { IsSettled D.seen D.may_leave self.old }
        requires lines { All IsLine (map (λ text. text.now) texts.now) }
        ensures acknowledged { OnOk result (IsSettled D.seen D.may_leave self.new) }
        ensures appended { OnOk result (recovered (D.seen (device_of self.new)) ≡ Ok (entries_in (D.seen (device_of self.old)) ++ map (λ text. text.now) texts.now)) }

        // A crash at any moment of the call leaves the entries from before it, with the whole group or without any of it.
        ensures any_moment { LeavesOnly D.moment D.left_since (device_of self.old) (device_of self.new)
            (IsBeforeOrAfter (entries_in (D.seen (device_of self.old))) (map (λ text. text.now) texts.now)) }

        // An error that doesn't leave the group in doubt leaves nothing of it, whenever a crash comes.
        ensures nothing { IfErr result (λ fault. is_in_doubt fault ≡ false →
            LeavesOnly D.moment D.left_since (device_of self.old) (device_of self.new) (λ c. recovered c ≡ recovered (D.seen (device_of self.old)))) }
        ensures no_error { OnOk result (D.errors (device_of self.new) ≡ D.errors (device_of self.old)) }
        ensures fault { IfErr result (StopsGroup (D.errors (device_of self.old)) (D.errors (device_of self.new))
            (length (at_rest (entries_in (D.seen (device_of self.old)) ++ map (λ text. text.now) texts.now)))) }
        ensures full { IsErrOf result JournalFault.Full → self.new ≡ self.old }

        // After an error the journal still tells the gate behind what was acknowledged.
        ensures gate { OnErr result (gate_of self.new ≡ gate_of self.old) }
    {
        if texts.is_empty() {
            return Ok(());
        }
        let group = write_lines(self.alloc, &self.digest, texts)?;
        let lines = &group.bytes;
        if self.gate > MAX_BYTES || lines.len() > MAX_BYTES - self.gate {
            return Err(JournalFault::Full);
        }
        // The group counts once its first gate is open, so that gate is opened last, when the disk has all the rest.
        put(&mut self.device, self.gate + 1, &lines[1..])?;
        open_gate(&mut self.device, self.gate)?;
        self.gate += lines.len() - 1;
        self.len = self.gate + 1;
        let digest = group.digest;
        self.digest = digest;
        Ok(())
    }

    /// Puts a journal of these texts alone in the place of this one: at `Done` the disk has it. At `Refused` nothing is done.
    /// After `Failed` the file is the one or the other, and has to be opened again; after any other `Err` nothing is done.
    pub fn replace(&mut self, texts: &[&[u8]]) -> Result<Replacement, JournalFault>
        requires settled { IsSettled D.seen D.may_leave self.old }
        requires lines { All IsLine (map (λ text. text.now) texts.now) }
        ensures settled { IfOk result (λ r. IsSettled D.seen D.may_leave self.new) }
        ensures replaced { IfOk result (λ r. r ≡ Replacement.Done → recovered (D.seen (device_of self.new)) ≡ Ok (map (λ text. text.now) texts.now)) }
        ensures undone { IfOk result (λ r. (e : Error) → r ≡ Replacement.Refused e → self.new ≡ self.old) }

        // A crash at any moment of the call leaves the entries from before it, or these alone.
        ensures any_moment { LeavesOnly D.moment D.left_since (device_of self.old) (device_of self.new)
            (IsOldOrNew (D.seen (device_of self.old)) (map (λ text. text.now) texts.now)) }
        ensures no_error { IfOk result (λ r. D.errors (device_of self.new) ≡ D.errors (device_of self.old)) }
        ensures fault { IfErr result (StopsReplacing (D.errors (device_of self.old)) (D.errors (device_of self.new))
            (length (at_rest (map (λ text. text.now) texts.now)))) }
        ensures untouched { IsErrOf result JournalFault.NoMemory → self.new ≡ self.old }
        ensures full { IsErrOf result JournalFault.Full → self.new ≡ self.old }
    {
        let group = write_lines(self.alloc, &FIRST_DIGEST, texts)?;
        let digest = group.digest;
        let len = group.bytes.len();
        if len > MAX_BYTES {
            return Err(JournalFault::Full);
        }
        let replacement = self.device.replace(group.bytes)?;
        if let Replacement::Done = replacement {
            self.len = len;
            self.gate = len - 1;
            self.digest = digest;
        }
        Ok(replacement)
    }

    /// How many bytes the file has.
    pub fn file_len(&self) -> usize
        requires { IsSettled D.seen D.may_leave self.now }
        ensures { result ≡ length (D.seen (device_of self.now)) }
    {
        self.len
    }

    /// Where the closed gate stands behind the last entry that is acknowledged, in bytes from the front; also after an
    /// `append` that failed.
    pub fn gate(&self) -> usize
        ensures { result ≡ gate_of self.now }
    {
        self.gate
    }

    /// Gives the device back.
    pub fn into_device(self) -> D
        ensures { result ≡ device_of self }
    {
        self.device
    }
}
