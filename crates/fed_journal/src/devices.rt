//! The disk as a journal sees it: a file that it reads and writes, and what a crash may leave of it. A write or a cut of a
//! file that the disk has may be left torn until the next sync. Of a second one before that sync nothing is said. A file
//! that takes the place of another is there whole, or the other is.
ghost use Rattle.std.specs.Prelude.{◌≡◌, ◌⊎◌, ◌≤◌, List, [], ℕ, length, take, IfOk, IsErrOf, OnOk};
ghost use Rattle.fed_journal.specs.Device.{Holds, Leaves, LeavesJust, Passes, Shortened, Torn};
ghost use Rattle.fed_journal.specs.Fault.{Tells, told};
ghost use Rattle.std.specs.declared.io.Error.{Error};

use crate::faults::DeviceFault;
use std::alloc::Global;
use std::io;

/// What came of putting a file in the place of another.
#[derive(Clone, Copy, Debug, Drop)]
pub enum Replacement {
    /// The new file stands in its place, and the disk has it.
    Done,
    /// The new file can't be made, and why: nothing is done.
    Refused(io::Error),
}

/// A file on a disk. After a call that failed, nothing is known of it but what a crash may leave, and each call behind it is
/// refused.
pub trait Device {
    /// The bytes that a read gives.
    ghost seen: { Self → List ℕ };

    /// What a crash at this moment may leave.
    ghost may_leave: { Self → List ℕ → Type 0 };

    /// The moment, by a count that never falls.
    ghost moment: { Self → ℕ };

    /// What a crash at this moment or an earlier one might have left, back to the one of this count: in the middle of a call too.
    ghost left_since: { Self → ℕ → List ℕ → Type 0 };

    /// The errors of the calls that failed, the newest first.
    ghost errors: { Self → List Error };

    /// The whole file.
    fn read(&mut self, alloc: Global) -> Result<Vec<u8>, DeviceFault>
        ensures bytes { IfOk result (λ bytes. bytes.items ≡ seen self.old) }
        ensures same { seen self.new ≡ seen self.old }
        ensures crash { (c : List ℕ) → may_leave self.new c → may_leave self.old c }
        ensures time { Passes (moment self.old) (moment self.new) (left_since self.old) (left_since self.new) (may_leave self.new) }
        ensures cause { Tells (errors self.old) (errors self.new) result }
        ensures refuses { OnOk result (errors self.old ≡ []) };

    /// Writes over what stands at an offset, and past the end. Where memory is refused, nothing is done.
    fn write_at(&mut self, at: usize, bytes: &[u8]) -> Result<(), DeviceFault>
        requires { at ≤ length (seen self.old) }
        ensures written { OnOk result (Holds at bytes.now (seen self.old) (seen self.new)) }
        ensures crash { LeavesJust (seen self.old) (may_leave self.old) → Leaves (Torn at bytes.now (seen self.old)) (may_leave self.new) }
        ensures time { Passes (moment self.old) (moment self.new) (left_since self.old) (left_since self.new) (may_leave self.new) }
        ensures cause { Tells (errors self.old) (errors self.new) result }
        ensures untouched { IsErrOf result DeviceFault.NoMemory → self.new ≡ self.old }
        ensures refuses { OnOk result (errors self.old ≡ []) };

    /// Cuts the file to a length. This takes no memory.
    fn cut(&mut self, len: usize) -> io::Result<()>
        requires { len ≤ length (seen self.old) }
        ensures cut { OnOk result (seen self.new ≡ take len (seen self.old)) }
        ensures crash { LeavesJust (seen self.old) (may_leave self.old) → Leaves (Shortened len (seen self.old)) (may_leave self.new) }
        ensures time { Passes (moment self.old) (moment self.new) (left_since self.old) (left_since self.new) (may_leave self.new) }
        ensures cause { Tells (errors self.old) (errors self.new) (told result) }
        ensures refuses { OnOk result (errors self.old ≡ []) };

    /// Waits until the disk has what a read gives. From then on a crash leaves that. This takes no memory.
    fn sync(&mut self) -> io::Result<()>
        ensures durable { OnOk result (LeavesJust (seen self.old) (may_leave self.new)) }
        ensures same { seen self.new ≡ seen self.old }
        ensures crash { (c : List ℕ) → may_leave self.new c → may_leave self.old c }
        ensures time { Passes (moment self.old) (moment self.new) (left_since self.old) (left_since self.new) (may_leave self.new) }
        ensures cause { Tells (errors self.old) (errors self.new) (told result) }
        ensures refuses { OnOk result (errors self.old ≡ []) };

    /// Puts a file with these bytes in the place of this one, and waits until the disk has it. A crash in between leaves the
    /// one or the other, whole. Where memory is refused, nothing is done; after `Failed` the file is the one or the other.
    fn replace(&mut self, bytes: Vec<u8>) -> Result<Replacement, DeviceFault>
        ensures replaced { IfOk result (λ r. r ≡ Replacement.Done → seen self.new ≡ bytes.items) }
        ensures durable { IfOk result (λ r. r ≡ Replacement.Done → LeavesJust bytes.items (may_leave self.new)) }
        ensures undone { IfOk result (λ r. (e : Error) → r ≡ Replacement.Refused e → self.new ≡ self.old) }
        ensures crash { LeavesJust (seen self.old) (may_leave self.old) → Leaves (λ c. (c ≡ seen self.old) ⊎ (c ≡ bytes.items)) (may_leave self.new) }
        ensures time { Passes (moment self.old) (moment self.new) (left_since self.old) (left_since self.new) (may_leave self.new) }
        ensures cause { Tells (errors self.old) (errors self.new) result }
        ensures untouched { IsErrOf result DeviceFault.NoMemory → self.new ≡ self.old }
        ensures refuses { OnOk result (errors self.old ≡ []) };

    /// This moment is one of those since an earlier one,
    ghost counts_now: { (file : Self) (t : ℕ) (c : List ℕ) → t ≤ moment file → may_leave file c → left_since file t c };

    /// and the only one since itself.
    ghost only_now: { (file : Self) (c : List ℕ) → left_since file (moment file) c → may_leave file c };
}
