//! Words that are numbers.
ghost use Rattle.std.specs.Prelude.{◌≡◌};
ghost use Rattle.fed_stamp.specs.declared.rosters.TheConstants.{MAX_NODES};
ghost use Rattle.fed_model.specs.declared.limits.TheConstants.{MAX_LIMIT};
ghost use Rattle.fed_words.specs.Number.{decimal_in, number_in};

use fed_model::{Limit, Nodes};

/// The number that a word writes in one or more decimal digits and no sign, of which the first may be zeros, or `None`
/// where it has another form or the number doesn't fit in 64 bits.
pub fn read_number(word: &str) -> Option<u64>
    ensures { result ≡ decimal_in word.now }
{
    // `parse` would read the digits behind a plus sign
    if matches!(word.as_bytes(), [b'+', ..]) {
        return None;
    }
    word.parse().ok()
}

/// The number of nodes that a word writes in decimal digits, from 1 to `MAX_NODES`, or `None` where the word has another
/// form or the number is out of this range.
pub fn read_nodes(word: &str) -> Option<Nodes>
    ensures { result ≡ number_in 1 MAX_NODES word.now }
{
    Nodes::new(read_number(word)?)
}

/// The time limit that a word writes in decimal digits, from 1 to `MAX_LIMIT` whole seconds, or `None` where the word
/// has another form or the number is out of this range.
pub fn read_limit(word: &str) -> Option<Limit>
    ensures { result ≡ number_in 1 MAX_LIMIT word.now }
{
    Limit::new(read_number(word)?)
}
