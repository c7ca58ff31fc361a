//! Lists of kinds of holds.
ghost use Rattle.std.specs.Prelude.{◌≡◌};
ghost use Rattle.std.specs.List.{list_all, list_any};
ghost use Rattle.fed_words.specs.Kinds.{has_letter as stands_in, is_kind_letter as is_letter_of_kind, kinds_in};

use fed_model::HoldKinds;

/// The kinds that a list of the letters `u`, `o` and `s` names, in any order and with repeats, or `None` where it is
/// empty or has another character.
pub fn read_kinds(text: &str) -> Option<HoldKinds>
    ensures { result ≡ kinds_in text.now }
{
    let letters = text.as_bytes();
    if letters.is_empty() || !are_kind_letters(letters) {
        return None;
    }
    Some(HoldKinds::made_of(
        has_letter(letters, b'u'),
        has_letter(letters, b'o'),
        has_letter(letters, b's'),
    ))
}

fn are_kind_letters(letters: &[u8]) -> bool
    ensures { result ≡ list_all is_letter_of_kind letters.now }
{
    letters
        .iter()
        .all(|byte| *byte == b'u' || *byte == b'o' || *byte == b's')
}

fn has_letter(letters: &[u8], letter: u8) -> bool
    ensures { result ≡ stands_in letter letters.now }
{
    letters.iter().any(|byte| *byte == letter)
}
