//! Words that are priorities.
ghost use Rattle.std.specs.Prelude.{◌≡◌};
ghost use Rattle.fed_words.specs.Priority.{priority_in};

use fed_model::Priority;

/// The priority that a word writes: an optional `+` or `-`, then one or more decimal digits, with a value from
/// `MIN_PRIORITY` to `MAX_PRIORITY`. `None` where the word has another form or the value is out of this range.
pub fn read_priority(word: &str) -> Option<Priority>
    ensures { result ≡ priority_in word.now }
{
    match word.parse::<i16>() {
        Ok(number) => Priority::new(number),
        Err(_) => None,
    }
}
