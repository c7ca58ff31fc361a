//! What stands behind the closed gate of a journal can be kept in a file of its own, before it is cut.
ghost use Rattle.std.specs.Prelude.{◌≡◌, ◌≢◌, [], IfOk, MatchBool};
ghost use Rattle.fed_journal.specs.Device.{LeavesJust};
ghost use Rattle.fed_journal.specs.Fault.{Tells};

use crate::devices::Device;
use crate::faults::DeviceFault;
use crate::steps::put;
use std::alloc::Global;

/// Keeps bytes in a file that is empty, as a new one is, and waits until the disk has them. Where the file isn't empty, it
/// is as it was, and the answer is `false`.
pub fn keep<D: Device>(alloc: Global, device: &mut D, bytes: &[u8]) -> Result<bool, DeviceFault>
    requires { LeavesJust (D.seen device.old) (D.may_leave device.old) }
    ensures kept { IfOk result (λ kept. MatchBool kept
        ((D.seen device.old ≡ []) × (D.seen device.new ≡ bytes.now))
        ((D.seen device.old ≢ []) × (D.seen device.new ≡ D.seen device.old))) }
    ensures durable { IfOk result (λ kept. LeavesJust (D.seen device.new) (D.may_leave device.new)) }
    ensures cause { Tells (D.errors device.old) (D.errors device.new) result }
{
    if !device.read(alloc)?.is_empty() {
        return Ok(false);
    }
    put(device, 0, bytes)?;
    Ok(true)
}
