//! Answering an input.
ghost use Rattle.std.specs.Prelude.{◌≡◌, ◌≤◌, ◌<◌, ◌++◌, [], List, ℕ, false, take, length, IfErr, IfOk, OnOk, None, Ok};
ghost use Rattle.std.specs.List.{All};
ghost use Rattle.std.specs.Io.KnownBytes.{Consumes, IsAtEnd, Keeps};
ghost use Rattle.std.specs.Str.Lines.{lines};
ghost use Rattle.std.specs.declared.io.Error.{Error};
ghost use Rattle.fed_journal.specs.Device.{LeavesOnly};
ghost use Rattle.fed_journal.specs.Journal.{IsBeforeOrAfter, entries_in};
ghost use Rattle.fed_journal.specs.Lines.{recovered};
ghost use Rattle.fed_site.specs.Journal.{kept_lines};
ghost use Rattle.fed_site.specs.Told.{IsTold, answers_in};
ghost use Rattle.fed_home.specs.Fault.{StopsAnswers, is_in_doubt};
ghost use Rattle.fed_home.specs.Home.{IsOpen, state_in, home_device, site_of};
ghost use Rattle.fed_home.specs.Replay.{AreReplies};
ghost use Rattle.fed_home.specs.declared.faults.HomeFault.{HomeFault};
ghost use Rattle.fed_serve.specs.Inputs.{EndsLines, HasNoLineFeed, IsKnownAs, cut_line, lines_in};
ghost use Rattle.fed_serve.specs.Served.{HasServed, IsDone, IsStop, KeepsSome, Serves, StopsAt, StopsServing, bytes_with};

use crate::faults::ServeFault;
use crate::inputs::{given_lines, take_lines};
use crate::written::{write_answers, write_not_kept};
use fed_home::{Home, HomeFault, Told};
use fed_journal::Device;
use std::alloc::Global;
use std::io::{ErrorKind, Read, Write};

/// How serving ends where nothing fails.
#[derive(Clone, Copy, PartialEq, Eq, Debug)]
pub enum Served {
    /// The input has ended, and all of it is answered.
    Ended,
    /// The journal has more bytes than it was to have. What has come is answered, and the call may be made again to go on.
    Long,
}

/// The bytes that are asked for at once. The lines among those that come are one group.
const CHUNK_BYTES: usize = 65_536;

/// What is given for a last line that was cut on its way: a line that can't be read.
const CUT: &[u8] = b"\0\n";

/// The bytes that come next, to the front of the chunk: how many there are, 0 at the end of the input. A call of `read`
/// that is interrupted is made again.
fn read_chunk<R: Read>(reader: &mut R, chunk: &mut [u8]) -> Result<usize, ServeFault>
    requires { 0 < length chunk.old }
    ensures room { length chunk.new ≡ length chunk.old }
    ensures read { IfOk result (λ count. (count ≤ length chunk.new)
        × Consumes (R.remaining reader.old) (R.remaining reader.new) (take count chunk.new)
        × (count ≡ 0 → IsAtEnd (R.remaining reader.new))) }
    ensures fault { IfErr result (λ fault. (error : Error) × (fault ≡ ServeFault.Read error)
        × Keeps (R.remaining reader.old) (R.remaining reader.new)) }
{
    for _ in 0..u64::MAX {
        match reader.read(chunk) {
            Ok(count) => return Ok(count),
            Err(error) => {
                if error.kind() != ErrorKind::Interrupted {
                    return Err(ServeFault::Read(error));
                }
            }
        }
    }
    Err(ServeFault::Read(ErrorKind::Interrupted.into()))
}

/// What is told of the whole lines of a text, as one group.
fn answers_to<D: Device + Drop>(
    alloc: Global,
    home: &mut Home<D>,
    text: &[u8],
    frames: bool,
) -> Result<Vec<Told>, HomeFault>
    requires open { IsOpen D.seen D.may_leave home.old }
    requires whole { EndsLines text.now }
    ensures done { OnOk result (IsDone frames D.seen D.may_leave home.old home.new (lines_in text.now)) }
    ensures answers { IfOk result (λ answers. AreReplies (site_of home.old).roster (state_in home.old) (lines_in text.now) (answers_in answers.items)) }
    ensures words { IfOk result (λ answers. All (IsTold frames) answers.items) }
    ensures any_moment { LeavesOnly D.moment D.left_since (home_device home.old) (home_device home.new)
        (IsBeforeOrAfter (entries_in (D.seen (home_device home.old)))
        (kept_lines (site_of home.old).roster (state_in home.old) (lines_in text.now))) }
    ensures nothing { IfErr result (λ fault. is_in_doubt fault ≡ false →
        LeavesOnly D.moment D.left_since (home_device home.old) (home_device home.new) (λ c. recovered c ≡ Ok (entries_in (D.seen (home_device home.old))))) }
    ensures fault { IfErr result (StopsAnswers (D.errors (home_device home.old)) (D.errors (home_device home.new)) (bytes_with D.seen home.old (lines_in text.now))) }
{
    let lines = given_lines(alloc, text)?;
    home.answer(&lines, frames)
}

/// What is told beside `not kept` in frames, where there is memory for it.
fn not_kept_words(alloc: Global, frames: bool, fault: HomeFault) -> Option<String>
    ensures { frames ≡ false → result ≡ None }
{
    if !frames {
        return None;
    }
    format!(in alloc;
        "not kept: {fault}; neither this line is done nor another that came with it"
    ).ok()
}

/// Answers the lines of a text that can't be kept, unless it is in doubt whether they are. Gives the fault that is told.
fn stop<W: Write>(
    alloc: Global,
    text: &[u8],
    writer: &mut W,
    frames: bool,
    fault: HomeFault,
) -> ServeFault
    ensures { IsStop frames (lines text.now) (W.contents writer.old) (W.contents writer.new) fault result }
{
    if fault.is_in_doubt() {
        return ServeFault::Home(fault);
    }
    let words = not_kept_words(alloc, frames, fault);
    match write_not_kept(writer, text, words.as_deref(), frames) {
        Ok(()) => ServeFault::NotKept(fault),
        Err(error) => ServeFault::Write(error),
    }
}

/// Answers the whole lines of a text as one group.
fn answer_text<D: Device + Drop, W: Write>(
    alloc: Global,
    home: &mut Home<D>,
    text: &[u8],
    writer: &mut W,
    frames: bool,
) -> Result<(), ServeFault>
    requires open { IsOpen D.seen D.may_leave home.old }
    requires whole { EndsLines text.now }
    ensures served { OnOk result (HasServed frames D.seen D.may_leave home.old home.new (lines_in text.now) (W.contents writer.old) (W.contents writer.new)) }
    ensures stopped { IfErr result (StopsAt frames D.seen D.errors D.moment D.left_since home.old home.new (lines_in text.now) (W.contents writer.old) (W.contents writer.new)) }
    ensures any_moment { LeavesOnly D.moment D.left_since (home_device home.old) (home_device home.new)
        (IsBeforeOrAfter (entries_in (D.seen (home_device home.old)))
        (kept_lines (site_of home.old).roster (state_in home.old) (lines_in text.now))) }
    ensures fault { IfErr result (StopsServing (D.errors (home_device home.new))) }
{
    match answers_to(alloc, home, text, frames) {
        Ok(answers) => match write_answers(writer, &answers, frames) {
            Ok(()) => Ok(()),
            Err(error) => Err(ServeFault::Write(error)),
        },
        Err(fault) => Err(stop(alloc, text, writer, frames, fault)),
    }
}

/// Answers what has come of a last line, if anything: it was cut on its way, and can't be read.
fn answer_cut<D: Device + Drop, W: Write>(
    alloc: Global,
    home: &mut Home<D>,
    begun: &mut Vec<u8>,
    writer: &mut W,
    frames: bool,
) -> Result<Served, ServeFault>
    requires { IsOpen D.seen D.may_leave home.old }
    ensures ended { IfOk result (λ served. served ≡ Served.Ended) }
    ensures served { OnOk result (HasServed frames D.seen D.may_leave home.old home.new (cut_line begun.old.items) (W.contents writer.old) (W.contents writer.new)) }
    ensures stopped { IfErr result (StopsAt frames D.seen D.errors D.moment D.left_since home.old home.new (cut_line begun.old.items) (W.contents writer.old) (W.contents writer.new)) }
    ensures any_moment { LeavesOnly D.moment D.left_since (home_device home.old) (home_device home.new)
        (IsBeforeOrAfter (entries_in (D.seen (home_device home.old)))
        (kept_lines (site_of home.old).roster (state_in home.old) (cut_line begun.old.items))) }
    ensures fault { IfErr result (StopsServing (D.errors (home_device home.new))) }
    ensures taken { begun.new.items ≡ [] }
{
    if begun.is_empty() {
        return Ok(Served::Ended);
    }
    begun.clear();
    match answer_text(alloc, home, CUT, writer, frames) {
        Ok(()) => Ok(Served::Ended),
        Err(fault) => Err(fault),
    }
}

/// Answers each line of an input, until it ends: by the text that the site says to it and an empty line; in `frames` by a
/// head line, that text, and the words that the user is told beside it, if any. The head line has the status that the
/// program ends with where this is its only line, the bytes of the text and the bytes of the words. A last line without its
/// line feed was cut on its way: it is given as a line that can't be read. The lines that come together are one group, which the disk has
/// before one of them is answered. Of the next line `begun` has what has come of it, at first nothing. Between two groups
/// the call ends with `Long` once the journal has more than `most_bytes` bytes, at once where it has.
///
/// Errors: `Read` of an input that can't be read: what came before is answered. `Write` of answers that can't be written:
/// the lines are kept. `NotKept` of a group that can't be kept, for want of memory or of room on the disk, or since the
/// journal is full: each of its lines is answered `not kept`, nothing of it is, and once the home is opened again the call
/// may be made again to go on. `Home` with `InDoubt`, where nobody knows whether the group is kept, or with `NoMemory`,
/// where there is none for the input: nobody is answered of these lines.
pub fn serve<D: Device + Drop, R: Read, W: Write>(
    alloc: Global,
    home: &mut Home<D>,
    begun: &mut Vec<u8>,
    reader: &mut R,
    writer: &mut W,
    frames: bool,
    most_bytes: usize,
) -> Result<Served, ServeFault>
    requires open { IsOpen D.seen D.may_leave home.old }
    requires begun { HasNoLineFeed begun.old.items }
    ensures served { Serves frames D.seen D.may_leave D.errors home.old home.new (R.remaining reader.old) (R.remaining reader.new) begun.old.items begun.new.items
        (W.contents writer.old) (W.contents writer.new) result }
    ensures ended { IfOk result (λ served. served ≡ Served.Ended → IsAtEnd (R.remaining reader.new)) }

    // A crash at any moment of the call leaves the entries from before it and, behind them, what some first lines keep.
    ensures any_moment { (input : List ℕ) × IsKnownAs (R.remaining reader.old) input
        × LeavesOnly D.moment D.left_since (home_device home.old) (home_device home.new)
        (KeepsSome (site_of home.old).roster (state_in home.old) (entries_in (D.seen (home_device home.old))) (lines_in (begun.old.items ++ input))) }
    ensures begun { IfErr result (λ fault. (cause : HomeFault) → fault ≡ ServeFault.NotKept cause → HasNoLineFeed begun.new.items) }
    ensures paused { IfOk result (λ served. served ≡ Served.Long → HasNoLineFeed begun.new.items) }
    ensures long { IfOk result (λ served. served ≡ Served.Long → most_bytes < length (D.seen (home_device home.new))) }
    ensures open { OnOk result (IsOpen D.seen D.may_leave home.new) }
    ensures fault { IfErr result (StopsServing (D.errors (home_device home.new))) }
{
    let mut chunk = vec![in alloc; 0u8; CHUNK_BYTES]?;
    for _ in 0..u64::MAX {
        if home.journal_len() > most_bytes {
            return Ok(Served::Long);
        }
        let count = match read_chunk(reader, &mut chunk) {
            Ok(0) => return answer_cut(alloc, home, begun, writer, frames),
            Ok(count) => count,
            Err(fault) => return Err(fault),
        };
        let lines = take_lines(alloc, begun, &chunk[..count])?;
        if let Err(fault) = answer_text(alloc, home, &lines, writer, frames) {
            return Err(fault);
        }
    }
    Err(ServeFault::Read(ErrorKind::Other.into()))
}
