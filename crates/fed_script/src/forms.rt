//! Words that stand in a fixed number.
ghost use Rattle.std.specs.Prelude.{◌≡◌, option_map};
ghost use Rattle.fed_words.specs.Item.{words_of};
ghost use Rattle.fed_script.specs.Forms.{one_word as one_of, two_words as two_of, three_words as three_of, four_words as four_of};

/// The word, where it is one.
pub fn one_word<'a>(words: &[&'a str]) -> Option<&'a str>
    ensures { option_map (λ w. w.now) result ≡ one_of (words_of words.now) }
{
    match words {
        [a] => Some(a),
        [] => None,
        [_, _, ..] => None,
    }
}

/// The words, where they are two.
pub fn two_words<'a>(words: &[&'a str]) -> Option<(&'a str, &'a str)>
    ensures { option_map (λ w. (w.0.now, w.1.now)) result ≡ two_of (words_of words.now) }
{
    match words {
        [a, b] => Some((a, b)),
        [] => None,
        [_] => None,
        [_, _, _, ..] => None,
    }
}

/// The words, where they are three.
pub(crate) fn three_words<'a>(words: &[&'a str]) -> Option<(&'a str, &'a str, &'a str)>
    ensures { option_map (λ w. (w.0.now, w.1.now, w.2.now)) result ≡ three_of (words_of words.now) }
{
    match words {
        [a, b, c] => Some((a, b, c)),
        [] => None,
        [_] => None,
        [_, _] => None,
        [_, _, _, _, ..] => None,
    }
}

/// The words, where they are four.
pub(crate) fn four_words<'a>(words: &[&'a str]) -> Option<(&'a str, &'a str, &'a str, &'a str)>
    ensures { option_map (λ w. (w.0.now, w.1.now, w.2.now, w.3.now)) result ≡ four_of (words_of words.now) }
{
    match words {
        [a, b, c, d] => Some((a, b, c, d)),
        [] => None,
        [_] => None,
        [_, _] => None,
        [_, _, _] => None,
        [_, _, _, _, _, ..] => None,
    }
}
