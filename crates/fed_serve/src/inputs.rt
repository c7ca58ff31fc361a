//! The lines of an input.
ghost use Rattle.std.specs.Prelude.{◌≡◌, ◌++◌, List, ℕ, IfOk, OnOk, map};
ghost use Rattle.std.specs.Str.Lines.{lines};
ghost use Rattle.fed_serve.specs.Inputs.{EndsLines, HasNoLineFeed, given_as, lines_in, most_bytes_of};

use fed_script::split_line;
use std::alloc::{AllocError, Global};
use std::mem;

/// The most bytes that a line may have. A longer one can't be read, unless it takes a packet.
pub const MAX_LINE_BYTES: usize = 67_108_864;

/// The most bytes that a line may have which takes a packet. A longer one can't be read.
pub const MAX_TAKE_BYTES: usize = 1_073_741_824;

/// A line that can't be read.
pub const UNREADABLE: &[u8] = b"\0";

/// The most bytes that a line may have which begins as this one.
fn most_of(line: &[u8]) -> usize
    ensures { result ≡ most_bytes_of line.now }
{
    if line.starts_with(b"take ") {
        MAX_TAKE_BYTES
    } else {
        MAX_LINE_BYTES
    }
}

/// The line that a site is given: for one that is too long a line that can't be read.
pub fn at_most_longest(line: &[u8]) -> &[u8]
    ensures { result.now ≡ given_as line.now }
{
    if line.len() > most_of(line) {
        UNREADABLE
    } else {
        line
    }
}

/// Whole lines, as a site is given them.
pub(crate) fn given_lines(alloc: Global, text: &[u8]) -> Result<Vec<&[u8]>, AllocError>
    requires { EndsLines text.now }
    ensures { IfOk result (λ given. map (λ line. line.now) given.items ≡ lines_in text.now) }
{
    let mut given = Vec::new(alloc);
    let mut rest = text;
    while let Some((line, after)) = split_line(rest) {
        given.push(at_most_longest(line))?;
        rest = after;
    }
    Ok(given)
}

/// Cuts a text behind its last line feed: whole lines, and what has come of the next one.
fn split_behind_lines(text: &[u8]) -> (&[u8], &[u8])
    ensures cut { text.now ≡ result.0.now ++ result.1.now }
    ensures whole { EndsLines result.0.now }
    ensures begun { HasNoLineFeed result.1.now }
{
    match text.iter().rposition(|byte| *byte == b'\n') {
        Some(last) => text.split_at(last + 1),
        None => (&[], text),
    }
}

/// Takes the lines that a chunk of the input ends, the first of which had begun before it, and leaves what has begun of
/// the next one. Of a line that is too long the end is left out.
pub(crate) fn take_lines(
    alloc: Global,
    begun: &mut Vec<u8>,
    chunk: &[u8],
) -> Result<Vec<u8>, AllocError>
    requires { HasNoLineFeed begun.old.items }
    ensures lines { IfOk result (λ taken. (more : List ℕ) →
        lines_in (begun.old.items ++ (chunk.now ++ more)) ≡ lines_in taken.items ++ lines_in (begun.new.items ++ more)) }
    ensures whole { IfOk result (λ taken. EndsLines taken.items) }
    ensures begun { OnOk result (HasNoLineFeed begun.new.items) }
{
    let (whole, rest) = split_behind_lines(chunk);
    let mut taken = Vec::new(alloc);
    if !whole.is_empty() {
        begun.extend_from_slice(whole)?;
        taken = mem::replace(begun, Vec::new(alloc));
    }
    begun.extend_from_slice(rest)?;
    begun.truncate(most_of(begun) + 2);
    Ok(taken)
}
