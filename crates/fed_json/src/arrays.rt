//! Arrays, texts and truth values.
ghost use Rattle.std.specs.Prelude.{◌≡◌, map};
ghost use Rattle.serde_json.specs.View.{view};
ghost use Rattle.fed_lattice.specs.Results.{mapped};
ghost use Rattle.fed_json.specs.Reading.{or_shape};
ghost use Rattle.fed_json.specs.Values.{elements_of, is_word as is_the_word, text_of, truth_of};

use crate::flaws::Flaw;
use serde_json::Value;

/// The elements of an array, or `Shape` where it is none.
pub fn elements(value: &Value) -> Result<&[Value], Flaw>
    ensures { mapped (λ s. map view s.now) result ≡ elements_of (view value.now) }
{
    match value.as_array() {
        Some(values) => Ok(values.as_slice()),
        None => Err(Flaw::Shape),
    }
}

/// A text, or `Shape` where it is none.
pub fn text(value: &Value) -> Result<&str, Flaw>
    ensures { mapped (λ s. s.now) result ≡ text_of (view value.now) }
{
    value.as_str().ok_or(Flaw::Shape)
}

/// Whether it is this text.
pub fn is_word(value: &Value, word: &str) -> bool
    ensures { result ≡ is_the_word word.now (view value.now) }
{
    match value.as_str() {
        Some(text) => text == word,
        None => false,
    }
}

/// Whether it is `true` or `false`, or `Shape` where it is neither.
pub fn truth(value: &Value) -> Result<bool, Flaw>
    ensures { result ≡ truth_of (view value.now) }
{
    value.as_bool().ok_or(Flaw::Shape)
}
