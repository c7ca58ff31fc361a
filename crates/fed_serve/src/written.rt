//! What is written to lines. Nothing here takes memory, so that what the disk has is answered where there is none left.
ghost use Rattle.std.specs.Prelude.{◌≡◌, ◌++◌, ◌∷◌, [], List, ℕ, OnOk, option_map, unwrap_or};
ghost use Rattle.std.specs.Io.KnownBytes.{Appends};
ghost use Rattle.std.specs.Str.Lines.{lines};
ghost use Rattle.fed_serve.specs.Frame.{frame_bytes, head_line};
ghost use Rattle.fed_serve.specs.Written.{answered_status as status_of, not_kept_bytes, not_kept_text, told_bytes, told_text};

use fed_script::split_line;
use fed_site::{Complaint, Told};
use itoa::Buffer;
use std::io::{self, Write};

/// The status of a line that can't be kept.
const NOT_KEPT: u8 = 3;

/// The status where a line is answered: 0, and 1 where it isn't done as it asks, for this cause.
pub fn answered_status(complaint: Option<Complaint>) -> u8
    ensures { result ≡ status_of complaint }
{
    match complaint {
        None => 0,
        Some(_) => 1,
    }
}

/// Writes the head line of a frame: its status, and the numbers of bytes of its answer and of its words.
#[tactic(auto, using(crate::proofs::Writing::appends_more))]
fn write_head<W: Write>(writer: &mut W, status: u8, answer: &[u8], words: &[u8]) -> io::Result<()>
    ensures { OnOk result (Appends (W.contents writer.old) (W.contents writer.new)
        (head_line (record { status = status; answer = answer.now; words = words.now }))) }
{
    let mut digits = Buffer::new();
    writer.write_all(digits.format(status).as_bytes())?;
    writer.write_all(b" ")?;
    writer.write_all(digits.format(answer.len()).as_bytes())?;
    writer.write_all(b" ")?;
    writer.write_all(digits.format(words.len()).as_bytes())?;
    writer.write_all(b"\n")
}

/// Writes a frame.
#[tactic(auto, using(crate::proofs::Writing::appends_more))]
fn write_frame<W: Write>(writer: &mut W, status: u8, answer: &[u8], words: &[u8]) -> io::Result<()>
    ensures { OnOk result (Appends (W.contents writer.old) (W.contents writer.new)
        (frame_bytes (record { status = status; answer = answer.now; words = words.now }))) }
{
    write_head(writer, status, answer, words)?;
    writer.write_all(answer)?;
    writer.write_all(words)
}

/// The bytes of words, if any.
fn words_bytes<'a>(words: Option<&'a str>) -> &'a [u8]
    ensures { result.now ≡ unwrap_or (option_map (λ w. w.now) words.entry) [] }
{
    match words {
        Some(words) => words.as_bytes(),
        None => &[],
    }
}

/// Writes what is told of a line: one frame, or the answer and an empty line.
#[tactic(auto, using(crate::proofs::Writing::appends_more))]
fn write_told<W: Write>(writer: &mut W, told: &Told, frames: bool) -> io::Result<()>
    ensures { OnOk result (Appends (W.contents writer.old) (W.contents writer.new) (told_bytes frames told.now)) }
{
    if frames {
        let status = answered_status(told.answer.complaint());
        let words = words_bytes(told.words.as_deref());
        return write_frame(writer, status, told.answer.bytes(), words);
    }
    writer.write_all(told.answer.bytes())?;
    writer.write_all(b"\n")
}

/// Writes what is told of lines.
#[tactic(auto, using(crate::proofs::Writing::appends_more, crate::proofs::Writing::appends_kept))]
pub(crate) fn write_answers<W: Write>(
    writer: &mut W,
    answers: &[Told],
    frames: bool,
) -> io::Result<()>
    ensures { OnOk result (Appends (W.contents writer.old) (W.contents writer.new) (told_text frames answers.now)) }
{
    for told in answers {
        write_told(writer, told, frames)?;
    }
    writer.flush()
}

/// Writes to a line that it is not kept, with these words, if any, in a frame.
#[tactic(auto, using(crate::proofs::Writing::appends_more))]
fn write_one_not_kept<W: Write>(writer: &mut W, words: Option<&str>, frames: bool) -> io::Result<()>
    ensures { OnOk result (Appends (W.contents writer.old) (W.contents writer.new) (not_kept_bytes frames (option_map (λ w. w.now) words.entry))) }
{
    if frames {
        return write_frame(writer, NOT_KEPT, b"not kept\n", words_bytes(words));
    }
    writer.write_all(b"not kept\n\n")
}

/// Writes to each line of a text that it is not kept, with these words, if any, in frames.
#[tactic(auto, using(crate::proofs::Writing::appends_more, crate::proofs::Writing::appends_kept))]
pub(crate) fn write_not_kept<W: Write>(
    writer: &mut W,
    text: &[u8],
    words: Option<&str>,
    frames: bool,
) -> io::Result<()>
    ensures { OnOk result (Appends (W.contents writer.old) (W.contents writer.new) (not_kept_text frames (option_map (λ w. w.now) words.entry) (lines text.now))) }
{
    let mut rest = text;
    while let Some((_, after)) = split_line(rest) {
        write_one_not_kept(writer, words, frames)?;
        rest = after;
    }
    writer.flush()
}
