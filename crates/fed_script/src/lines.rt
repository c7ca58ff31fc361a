//! Cutting a script into lines, and a line into words.
ghost use Rattle.std.specs.Prelude.{◌≡◌, ◌<◌, [], ◌∷◌, true, IfOk, IfNone, IfSome, IsTrue, length, map, position, ◌==◌};
ghost use Rattle.std.specs.Str.Lines.{lines, strip_carriage_return};
ghost use Rattle.fed_script.specs.Lines.{is_readable, words_of};

use memchr::memchr;
use smallvec::SmallVec;
use std::alloc::{AllocError, Global};
use std::str;

/// Cuts off the first line, which ends at a line feed or at the end of the script. A carriage return
/// before the line feed is dropped. `None` where the script is empty.
pub fn split_line(script: &[u8]) -> Option<(&[u8], &[u8])>
    ensures none { IfNone result (lines script.now ≡ []) }
    ensures some { IfSome result (λ cut. lines script.now ≡ cut.0.now ∷ lines cut.1.now) }
    ensures shorter { IfSome result (λ cut. length cut.1.now < length script.now) }
{
    if script.is_empty() {
        return None;
    }
    match line_end(script) {
        Some(end) => Some((without_carriage_return(&script[..end]), &script[end + 1..])),
        None => Some((script, &[])),
    }
}

// The index of the first line feed.
fn line_end(script: &[u8]) -> Option<usize>
    ensures { result ≡ position (λ byte. byte == 10) script.now }
{
    match script {
        // empty lines are common, and a search costs more
        [b'\n', ..] => Some(0),
        _ => memchr(b'\n', script),
    }
}

fn without_carriage_return(line: &[u8]) -> &[u8]
    ensures { result.now ≡ strip_carriage_return line.now }
{
    match line {
        [front @ .., b'\r'] => front,
        _ => line,
    }
}

/// How many words take no allocation: few lines have more.
pub const INLINE_WORDS: usize = 8;

/// The words of a line.
pub type Words<'a> = SmallVec<&'a str, INLINE_WORDS>;

/// The text of a word that can be read: it is ASCII.
fn text_of(word: &[u8]) -> &str
    requires { IsTrue (is_readable word.now) }
    ensures { result.now ≡ word.now }
{
    unsafe { str::from_utf8_unchecked(word) }
}

/// Adds the words of a line, which are parted by spaces and tabs, and says whether it can be read: not where it has a
/// byte that no line may have, another than a printable ASCII character, a space or a tab.
pub(crate) fn push_words<'a>(line: &'a [u8], words: &mut Words<'a>) -> Result<bool, AllocError>
    requires { words.old.items ≡ [] }
    ensures readable { IfOk result (λ read. read ≡ is_readable line.now) }
    ensures cut { IfOk result (λ read. read ≡ true → map (λ word. word.now) words.new.items ≡ words_of line.now) }
{
    let mut start = 0;
    for (index, byte) in line.iter().enumerate() {
        if b' ' < *byte && *byte <= b'~' {
            continue;
        }
        if *byte != b' ' && *byte != b'\t' {
            return Ok(false);
        }
        if start < index {
            words.push(text_of(&line[start..index]))?;
        }
        start = index + 1;
    }
    if start < line.len() {
        words.push(text_of(&line[start..]))?;
    }
    Ok(true)
}
