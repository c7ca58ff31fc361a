//! Steps on a disk that end with a sync. Each goes out from a file that the disk has.
ghost use Rattle.std.specs.Prelude.{◌≡◌, ◌≤◌, length, take, IsErrOf, OnOk};
ghost use Rattle.fed_journal.specs.Device.{Holds, LeavesJust, LeavesOnly, Shortened, Torn};
ghost use Rattle.fed_journal.specs.Fault.{Tells};

use crate::devices::Device;
use crate::faults::DeviceFault;

/// Writes, and waits until the disk has it. A crash in between leaves the write torn. Where memory is refused, nothing is done.
pub(crate) fn put<D: Device>(device: &mut D, at: usize, bytes: &[u8]) -> Result<(), DeviceFault>
    requires room { at ≤ length (D.seen device.old) }
    requires durable { LeavesJust (D.seen device.old) (D.may_leave device.old) }
    ensures written { OnOk result (Holds at bytes.now (D.seen device.old) (D.seen device.new)) }
    ensures durable { OnOk result (LeavesJust (D.seen device.new) (D.may_leave device.new)) }
    ensures any_moment { LeavesOnly D.moment D.left_since device.old device.new (Torn at bytes.now (D.seen device.old)) }
    ensures cause { Tells (D.errors device.old) (D.errors device.new) result }
    ensures untouched { IsErrOf result DeviceFault.NoMemory → device.new ≡ device.old }
{
    device.write_at(at, bytes)?;
    Ok(device.sync()?)
}

/// Cuts, and waits until the disk has it. A crash in between leaves some length between the two.
pub(crate) fn shorten<D: Device>(device: &mut D, len: usize) -> Result<(), DeviceFault>
    requires room { len ≤ length (D.seen device.old) }
    requires durable { LeavesJust (D.seen device.old) (D.may_leave device.old) }
    ensures cut { OnOk result (D.seen device.new ≡ take len (D.seen device.old)) }
    ensures durable { OnOk result (LeavesJust (D.seen device.new) (D.may_leave device.new)) }
    ensures any_moment { LeavesOnly D.moment D.left_since device.old device.new (Shortened len (D.seen device.old)) }
    ensures cause { Tells (D.errors device.old) (D.errors device.new) result }
{
    device.cut(len)?;
    Ok(device.sync()?)
}
