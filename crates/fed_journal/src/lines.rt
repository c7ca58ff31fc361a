//! What the bytes of a journal say. An entry is a line, `+ DIGEST TEXT`; behind the last stands a closed gate, `-`, and
//! behind that perhaps what is left of a group that was not finished.
ghost use Rattle.std.specs.Prelude.{◌≡◌, ◌⊎◌, ◌↔◌, false, true, [], ◌∷◌, ◌++◌, drop, map, IfErr, IfOk, OnOk, IsTrue, MatchOption};
ghost use Rattle.std.specs.List.{All};
ghost use Rattle.fed_journal.specs.Fault.{IsDamage};
ghost use Rattle.fed_journal.specs.Lines.{IsLine, closed_lines, digest_of, first_digest, front_of, is_closed, is_entry, last_digest, line_of, open_lines, texts_of};

use crate::digests::{Digest, FIRST_DIGEST, digest_after};
use crate::faults::JournalFault;
use std::alloc::{AllocError, Global};

/// How many bytes of an entry's line stand before its text: a gate, a space, the digest and a space.
const FRONT_BYTES: usize = 19;

/// An entry of a file.
#[derive(Drop)]
struct Entry<'a> {
    text: &'a [u8],
    digest: Digest,
}

/// The entries of a file.
#[derive(Drop)]
pub(crate) struct Lines<'a> {
    pub(crate) entries: Vec<Vec<u8>>,
    /// The digest of the last entry.
    pub(crate) digest: Digest,
    /// What stands behind the entries: a closed gate first, or nothing in a new file.
    pub(crate) rest: &'a [u8],
}

/// The lines of a group, with a closed gate behind them.
#[derive(Drop)]
pub(crate) struct Group {
    pub(crate) bytes: Vec<u8>,
    /// The digest of the last entry.
    pub(crate) digest: Digest,
}

/// Whether a text may be an entry: it has no line feed.
pub fn is_line(text: &[u8]) -> bool
    ensures { IsTrue result ↔ IsLine text.now }
{
    !text.contains(&b'\n')
}

/// Whether each of these texts may be an entry.
pub fn are_lines(texts: &[&[u8]]) -> bool
    ensures { IsTrue result ↔ All IsLine (map (λ text. text.now) texts.now) }
{
    for text in texts {
        if !is_line(text) {
            return false;
        }
    }
    true
}

/// The bytes of an entry's line before its text.
fn write_front(digest: &Digest) -> [u8; FRONT_BYTES]
    ensures { result ≡ front_of digest.now }
{
    let mut front = [b' '; FRONT_BYTES];
    front[0] = b'+';
    front[2..18].copy_from_slice(digest);
    front
}

/// The first line without its line feed, and what stands behind it.
fn split_line(bytes: &[u8]) -> Option<(&[u8], &[u8])>
    ensures { MatchOption result (IsLine bytes.now) (λ parts. (bytes.now ≡ parts.0.now ++ 10 ∷ parts.1.now) × IsLine parts.0.now) }
{
    let end = bytes.iter().position(|byte| *byte == b'\n')?;
    Some((&bytes[..end], &bytes[end + 1..]))
}

/// The entry of a line behind an entry with that digest.
fn read_line<'a>(before: &Digest, line: &'a [u8]) -> Option<Entry<'a>>
    ensures { MatchOption result (is_entry before.now line.now ≡ false)
        (λ entry. (line.now ≡ line_of before.now entry.text.now) × (entry.digest ≡ digest_of before.now entry.text.now)) }
{
    if line.len() < FRONT_BYTES {
        return None;
    }
    let (front, text) = line.split_at(FRONT_BYTES);
    let digest = digest_after(before, text);
    if front != write_front(&digest).as_slice() {
        return None;
    }
    Some(Entry { text, digest })
}

/// Whether a closed gate stands at the front.
fn is_gate_closed(bytes: &[u8]) -> bool
    ensures { result ≡ is_closed bytes.now }
{
    matches!(bytes, [b'-', ..])
}

/// What stands behind a closed gate, and nothing where there is none.
pub(crate) fn behind_gate(rest: &[u8]) -> &[u8]
    ensures { result.now ≡ drop 1 rest.now }
{
    match rest {
        [_, tail @ ..] => tail,
        [] => rest,
    }
}

/// Reads the lines of a file.
pub(crate) fn read_lines(alloc: Global, file: &[u8]) -> Result<Lines<'_>, JournalFault>
    ensures lines { IfOk result (λ read. All IsLine (texts_of read.entries.items)) }
    ensures digest { IfOk result (λ read. read.digest ≡ last_digest first_digest (texts_of read.entries.items)) }
    ensures file { IfOk result (λ read. file.now ≡ open_lines first_digest (texts_of read.entries.items) ++ read.rest.now) }
    ensures gate { IfOk result (λ read. (file.now ≡ []) ⊎ (is_closed read.rest.now ≡ true)) }
    ensures fault { IfErr result (IsDamage file.now) }
{
    let mut entries = Vec::new(alloc);
    let mut digest = FIRST_DIGEST;
    let mut rest = file;
    if file.is_empty() {
        return Ok(Lines {
            entries,
            digest,
            rest,
        });
    }
    while !is_gate_closed(rest) {
        let line = entries.len() as u64 + 1;
        let Some((front, more)) = split_line(rest) else {
            return Err(JournalFault::Damaged { line });
        };
        let Some(entry) = read_line(&digest, front) else {
            return Err(JournalFault::Damaged { line });
        };
        entries.push(entry.text.to_vec(alloc)?)?;
        digest = entry.digest;
        rest = more;
    }
    Ok(Lines {
        entries,
        digest,
        rest,
    })
}

/// Adds the line of an entry.
fn write_line(bytes: &mut Vec<u8>, digest: &Digest, text: &[u8]) -> Result<(), AllocError>
    ensures { OnOk result (bytes.new.items ≡ bytes.old.items ++ ((front_of digest.now ++ text.now) ++ 10 ∷ [])) }
{
    bytes.extend_from_slice(&write_front(digest))?;
    bytes.extend_from_slice(text)?;
    bytes.push(b'\n')?;
    Ok(())
}

/// The lines of these entries behind one with that digest.
pub(crate) fn write_lines(
    alloc: Global,
    before: &Digest,
    texts: &[&[u8]],
) -> Result<Group, AllocError>
    ensures bytes { IfOk result (λ group. group.bytes.items ≡ closed_lines before.now (map (λ text. text.now) texts.now)) }
    ensures digest { IfOk result (λ group. group.digest ≡ last_digest before.now (map (λ text. text.now) texts.now)) }
{
    let mut bytes = Vec::new(alloc);
    let mut digest = *before;
    for text in texts {
        digest = digest_after(&digest, text);
        write_line(&mut bytes, &digest, text)?;
    }
    bytes.push(b'-')?;
    Ok(Group { bytes, digest })
}
