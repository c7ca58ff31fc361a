//! Lines whose words are given apart.
ghost use Rattle.std.specs.Prelude.{◌≡◌, ◌∷◌, [], IfOk, map, not};
ghost use Rattle.std.specs.List.{join_by, list_all};
ghost use Rattle.fed_serve.specs.Words.{is_word as is_word_of, line_of, parts_words, take_line_of};

use crate::inputs::UNREADABLE;
use std::alloc::{AllocError, Global};

/// Whether no byte parts words, or ends a line.
fn is_whole(text: &[u8]) -> bool
    ensures { result ≡ list_all (λ byte. not (parts_words byte)) text.now }
{
    text.iter()
        .all(|byte| !matches!(*byte, b' ' | b'\t' | b'\n'))
}

/// Whether a text is a word of a line: not empty, and with no space, tab or line feed.
fn is_word(word: &str) -> bool
    ensures { result ≡ is_word_of word.now }
{
    !word.is_empty() && is_whole(word.as_bytes())
}

/// Whether each is a word.
fn are_words(words: &[&str]) -> bool
    ensures { result ≡ list_all (λ word. is_word_of word.now) words.now }
{
    words.iter().all(|word| is_word(word))
}

/// Words with a space between any two.
#[tactic(auto, using(crate::proofs::WordLines::joined_words))]
fn joined(alloc: Global, words: &[&str]) -> Result<Vec<u8>, AllocError>
    ensures { IfOk result (λ line. line.items ≡ join_by (λ word. word) (32 ∷ []) (map (λ word. word.now) words.now)) }
{
    Ok(words.join(alloc, " ")?.into_bytes())
}

/// The line of these words, a space between any two. Where one of them is empty or has a space, a tab or a line feed, the
/// line would have other words: then it is a line that can't be read.
#[tactic(auto, using(crate::proofs::WordLines::all_words))]
pub fn line_of_words(alloc: Global, words: &[&str]) -> Result<Vec<u8>, AllocError>
    ensures { IfOk result (λ line. line.items ≡ line_of (map (λ word. word.now) words.now)) }
{
    if are_words(words) {
        joined(alloc, words)
    } else {
        UNREADABLE.to_vec(alloc)
    }
}

/// The line of these words, as `take` or `take from NAME`, and after them the packet whose text this input is. One line
/// feed at its end is left out. If the words are none of a line, the line can't be read.
pub fn take_line(alloc: Global, words: &[&str], input: &[u8]) -> Result<Vec<u8>, AllocError>
    ensures { IfOk result (λ line. line.items ≡ take_line_of (map (λ word. word.now) words.now) input.now) }
{
    let mut line = line_of_words(alloc, words)?;
    line.push(b' ')?;
    line.extend_from_slice(input.strip_suffix(b"\n".as_slice()).unwrap_or(input))?;
    Ok(line)
}
