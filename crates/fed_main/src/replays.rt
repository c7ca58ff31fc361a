//! Replaying a script, with the faults of runs.
ghost use Rattle.std.specs.Prelude.{◌≡◌, ◌<◌, ◌⊎◌, IfSome, IsErrOf, length};
ghost use Rattle.std.specs.Io.KnownBytes.{Keeps};
ghost use Rattle.fed_main.specs.Ends.{EndsAs};

use crate::fault::RunFault;
use fed_replay::MAX_SCRIPT_BYTES;
use std::alloc::Global;
use std::io::{Read, Write};

/// Runs the script that a reader has, and writes the answers. The script is read whole before its first line is run,
/// and the writer is flushed after the last that ran. The memory that the sites took is given back when the process ends,
/// and not before. The faults:
///
/// - `Line(n)` where line n is the first that can't be read. The answers of the lines before it are written.
/// - `Read` where a read fails, where the script has more than 16,777,216 bytes, or where it hasn't ended after
///   20,000,000 calls of `read`. A read that is interrupted is tried again, and counts as a call. Nothing is written.
/// - `Write` where an answer can't be written or the writer can't be flushed, also after a line that can't be read or
///   is refused memory. Some of the answers may have been written.
/// - `NoMemory` where memory is refused. The answers of the lines before that are written.
pub fn replay<R: Read, W: Write>(
    alloc: Global,
    reader: &mut R,
    writer: &mut W,
) -> Result<(), RunFault>
    ensures replays { IfSome (R.remaining reader.old)
        (λ input. EndsAs (W.contents writer.old) (W.contents writer.new) input result) }
    ensures long { IfSome (R.remaining reader.old)
        (λ input. MAX_SCRIPT_BYTES < length input → (result ≡ Err RunFault.Read) ⊎ (result ≡ Err RunFault.NoMemory)) }
    ensures read { IsErrOf result RunFault.Read → Keeps (W.contents writer.old) (W.contents writer.new) }
{
    match fed_replay::replay(alloc, reader, writer) {
        Ok(()) => Ok(()),
        Err(fault) => Err(fault.into()),
    }
}
