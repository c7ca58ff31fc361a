//! Short names, held without memory of their own.
ghost use Rattle.std.specs.Prelude.{◌≡◌, ◌≤◌, length, IsTrue, Some, if◌then◌else◌, nat_eq, refl};
ghost use Rattle.std.specs.Bool.{OnTrue};
ghost use Rattle.std.specs.Ordering.{nat_cmp};
ghost use Rattle.std.specs.Cmp.{partial_equiv_from_equiv};
ghost use Rattle.std.specs.Cmp.Lexicographic.{pointwise, slice_cmp, nat_list_eq_equiv, nat_list_cmp_total, texts_po, texts_ties};
ghost use Rattle.fed_stamp.specs.Word.{is_name_byte as may_stand_in_name, is_name as has_form_of_name};

use std::cmp::Ordering;
use std::marker::Model;
use std::{fmt, str};

/// How many characters a name has at most.
pub const MAX_NAME: usize = 15;

/// A name: 1 to 15 characters, of which the first is an ASCII letter, and each other one an ASCII
/// letter, an ASCII digit, `_`, `-` or `.`. Names are ordered as texts.
#[derive(Clone, Copy)]
pub struct Word {
    // the name, then zeros
    bytes: [u8; MAX_NAME],
    // how many bytes the name has
    count: u8,
}

impl Model for Word {
    ghost use Rattle.std.specs.Prelude.{◌≡◌, IsTrue, ℕ, List, length, take};
    ghost use Rattle.fed_stamp.specs.Word.{is_name, padded};

    ghost Value = { List ℕ };

    ghost view = { λ w. take w.count w.bytes };

    ghost invariant = { λ w. (padded (take w.count w.bytes) ≡ w.bytes) × (length (take w.count w.bytes) ≡ w.count) × IsTrue (is_name (take w.count w.bytes)) };

    ghost inverse = { λ text. record { bytes = padded text; count = length text } };

    ghost inverse_ok = { λ w h i. record { bytes = h.0 i; count = h.1 i } };
}

/// Whether a name may have this byte behind its first.
fn is_name_byte(byte: u8) -> bool
    ensures { result ≡ may_stand_in_name byte }
{
    byte.is_ascii_alphanumeric() || byte == b'_' || byte == b'-' || byte == b'.'
}

/// Whether a text is a name.
#[tactic(auto, unfolding(crate::specs::Word::is_name))]
fn is_name(text: &str) -> bool
    ensures same { result ≡ has_form_of_name text.now }
    ensures fits { OnTrue result (length text.now ≤ MAX_NAME) }
{
    let bytes = text.as_bytes();
    if bytes.is_empty() || bytes.len() > MAX_NAME || !bytes[0].is_ascii_alphabetic() {
        return false;
    }
    for byte in bytes {
        if !is_name_byte(*byte) {
            return false;
        }
    }
    true
}

impl Word {
    /// The name of this text, where it has the form of one.
    pub fn new(text: &str) -> Option<Word>
        ensures { result ≡ (if has_form_of_name text.now then Some text.now else None) }
    {
        if !is_name(text) {
            return None;
        }
        let mut bytes = [0; MAX_NAME];
        bytes[..text.len()].copy_from_slice(text.as_bytes());
        let count = text.len() as u8;
        Some(Word { bytes, count })
    }

    /// The text of the name.
    pub fn as_str(&self) -> &str
        ensures same { result.now ≡ self.now }
        ensures name { IsTrue (has_form_of_name result.now) }
    {
        // a name is ASCII, and so text
        unsafe { str::from_utf8_unchecked(self.as_bytes()) }
    }

    // The bytes of the name, which are compared without being read as text.
    fn as_bytes(&self) -> &[u8]
        ensures same { result.now ≡ self.now }
        ensures name { IsTrue (has_form_of_name result.now) }
    {
        &self.bytes[..self.count as usize]
    }
}

impl PartialEq for Word {
    ghost eq = { pointwise nat_eq };

    ghost laws = { partial_equiv_from_equiv nat_list_eq_equiv };

    fn eq(&self, other: &Word) -> bool {
        self.as_bytes() == other.as_bytes()
    }
}

impl Eq for Word {
    ghost laws = { nat_list_eq_equiv };
}

impl PartialOrd for Word {
    ghost partial_cmp = { λ a b. Some (slice_cmp nat_cmp a b) };

    ghost laws = { texts_po };

    fn partial_cmp(&self, other: &Word) -> Option<Ordering> {
        Some(self.cmp(other))
    }
}

impl Ord for Word {
    ghost cmp = { slice_cmp nat_cmp };

    ghost total = { nat_list_cmp_total };

    ghost matches_partial_cmp = { λ a b. refl };

    ghost matches_eq = { texts_ties };

    fn cmp(&self, other: &Word) -> Ordering {
        self.as_bytes().cmp(other.as_bytes())
    }
}

impl fmt::Debug for Word {
    fn fmt<W: fmt::Write>(&self, f: &mut fmt::Formatter<W>) -> fmt::Result {
        fmt::Debug::fmt(&self.as_str(), f)
    }
}
