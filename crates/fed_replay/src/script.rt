//! Reading a script to its end.
ghost use Rattle.std.specs.Prelude.{◌≡◌, ◌≤◌, ◌⊎◌, true, IfOk, IfErr, IfSome, OnOk, vec_len};
ghost use Rattle.std.specs.Io.KnownBytes.{IsAtEnd};
ghost use Rattle.fed_replay.specs.Reading.{AppendsRead};

use crate::fault::ReplayFault;
use std::alloc::Global;
use std::io::{ErrorKind, Read};

/// The most bytes that a script may have.
pub const MAX_SCRIPT_BYTES: usize = 16_777_216;

/// The most calls of `read` that are made for one script, so that a reader that is always interrupted is not called for
/// ever.
pub const MAX_READS: u32 = 20_000_000;

/// The bytes that are asked for at once.
const CHUNK_BYTES: usize = 8192;

/// Reads a script to its end. A read that is interrupted is made again, and counts. The errors: `Read` where a read
/// fails, where the script has more than `MAX_SCRIPT_BYTES` or where it hasn't ended after `MAX_READS` calls;
/// `NoMemory` where memory is refused.
#[tactic(auto, using(crate::proofs::KnownBytes::Consumes_steps))]
pub fn read_script<R: Read>(alloc: Global, reader: &mut R) -> Result<Vec<u8>, ReplayFault>
    ensures bytes { IfOk result (λ script. IfSome (R.remaining reader.old) (λ input. script.items ≡ input)) }
    ensures end { OnOk result (IsAtEnd (R.remaining reader.new)) }
    ensures size { IfOk result (λ script. vec_len script ≤ MAX_SCRIPT_BYTES) }
    ensures errors { IfErr result (λ fault. (fault ≡ ReplayFault.Read) ⊎ (fault ≡ ReplayFault.NoMemory)) }
{
    let mut script = Vec::new(alloc);
    for _ in 0..MAX_READS {
        if read_chunk(reader, &mut script)? {
            return Ok(script);
        }
    }
    Err(ReplayFault::Read)
}

// One call of `read`, whose bytes go to the end of the script. Answers whether the script has ended.
fn read_chunk<R: Read>(reader: &mut R, script: &mut Vec<u8>) -> Result<bool, ReplayFault>
    requires { vec_len script.old ≤ MAX_SCRIPT_BYTES }
    ensures bytes { OnOk result (AppendsRead (R.remaining reader.old) (R.remaining reader.new)
        script.old.items script.new.items) }
    ensures end { IfOk result (λ ended. ended ≡ true → IsAtEnd (R.remaining reader.new)) }
    ensures size { OnOk result (vec_len script.new ≤ MAX_SCRIPT_BYTES) }
    ensures errors { IfErr result (λ fault. (fault ≡ ReplayFault.Read) ⊎ (fault ≡ ReplayFault.NoMemory)) }
{
    let mut chunk = [0; CHUNK_BYTES];
    let count = match reader.read(&mut chunk) {
        Ok(count) => count,
        Err(error) => {
            return if error.kind() == ErrorKind::Interrupted {
                Ok(false)
            } else {
                Err(ReplayFault::Read)
            };
        }
    };
    if count > MAX_SCRIPT_BYTES - script.len() {
        return Err(ReplayFault::Read);
    }
    script
        .extend_from_slice(&chunk[..count])
        .map_err(|_| ReplayFault::NoMemory)?;
    Ok(count == 0)
}
