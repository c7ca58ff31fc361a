//! Replaying a script: its lines run in order, each answered before the next one runs.
ghost use Rattle.std.specs.Prelude.{◌≡◌, ◌<◌, ◌⊎◌, IfSome, IsErrOf, None, OnErr, OnOk, length};
ghost use Rattle.std.specs.Io.KnownBytes.{Keeps};
ghost use Rattle.fed_replay.specs.Ends.{EndsAs};

use crate::fault::ReplayFault;
use crate::script::{MAX_SCRIPT_BYTES, read_script};
use crate::session::Session;
use fed_script::split_line;
use std::alloc::Global;
use std::io::{self, Read, Write};
use std::mem;

/// Runs the script that a reader has, and writes the answers. The script is read whole before its first line is run,
/// and the writer is flushed after the last that ran. The memory that the sites took is given back when the process ends,
/// and not before. The faults:
///
/// - `Line(n)` where line n is the first that can't be read. The answers of the lines before it are written.
/// - `Read` where a read fails, where the script has more than 16,777,216 bytes, or where it hasn't ended after
///   20,000,000 calls of `read`. A read that is interrupted is tried again, and counts as a call. Nothing is written.
/// - `Write` where an answer can't be written or the writer can't be flushed, also after a line that can't be read or
///   is refused memory. Some of the answers may have been written.
/// - `NoMemory` where memory is refused. The answers of the lines before that are written.
pub fn replay<R: Read, W: Write>(
    alloc: Global,
    reader: &mut R,
    writer: &mut W,
) -> Result<(), ReplayFault>
    ensures replays { IfSome (R.remaining reader.old)
        (λ input. EndsAs (W.contents writer.old) (W.contents writer.new) input result) }
    ensures long { IfSome (R.remaining reader.old)
        (λ input. MAX_SCRIPT_BYTES < length input → (result ≡ Err ReplayFault.Read) ⊎ (result ≡ Err ReplayFault.NoMemory)) }
    ensures read { IsErrOf result ReplayFault.Read → Keeps (W.contents writer.old) (W.contents writer.new) }
{
    let script = match read_script(alloc, reader) {
        Ok(script) => script,
        Err(fault) => return Err(fault),
    };
    let ran = run_script(alloc, &script, writer);
    ended(ran, ReplayFault::Write, writer.flush())
}

/// How a run ends behind which the writer was flushed: a flush that fails is told, by this fault, in place of all else.
pub fn ended<F: Drop>(ran: Result<(), F>, fault: F, flushed: io::Result<()>) -> Result<(), F>
    ensures ok { OnOk flushed (result ≡ ran) }
    ensures err { OnErr flushed (result ≡ Err fault) }
{
    match flushed {
        Ok(()) => ran,
        Err(_) => Err(fault),
    }
}

/// Runs a script. What the run holds is left to the end of the process: to give it back job by job would take a tenth of
/// the time of a script of submissions, and nothing comes behind a replay.
fn run_script<W: Write>(alloc: Global, script: &[u8], writer: &mut W) -> Result<(), ReplayFault>
    ensures ends { EndsAs (W.contents writer.old) (W.contents writer.new) script.now result }
    ensures read { ¬ IsErrOf result ReplayFault.Read }
{
    let mut session = Session::new();
    let ran = run_lines(alloc, &mut session, script, writer);
    mem::forget(session);
    ran
}

/// Runs the lines of a script, where no line has named the sites yet.
fn run_lines<W: Write>(
    alloc: Global,
    session: &mut Session,
    script: &[u8],
    writer: &mut W,
) -> Result<(), ReplayFault>
    requires { session.old.world ≡ None }
    ensures ends { EndsAs (W.contents writer.old) (W.contents writer.new) script.now result }
    ensures read { ¬ IsErrOf result ReplayFault.Read }
{
    let mut rest = script;
    let mut number = 0u64;
    while let Some((line, after)) = split_line(rest) {
        number += 1;
        // an empty line does nothing in each state
        if line.is_empty() {
            rest = after;
            continue;
        }
        let text = match session.run_line(alloc, line) {
            Ok(Some(text)) => text,
            Ok(None) => return Err(ReplayFault::Line(number)),
            Err(_) => return Err(ReplayFault::NoMemory),
        };
        writer
            .write_all(text.as_str().as_bytes())
            .map_err(|_| ReplayFault::Write)?;
        rest = after;
    }
    Ok(())
}
