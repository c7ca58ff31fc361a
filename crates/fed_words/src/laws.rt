//! What words are by the utility syntax, and the way back: words that say what a user asks are read as that. Each
//! function does nothing: its contract is the law.
ghost use Rattle.std.specs.Prelude.{◌≡◌, ℕ, ◌<◌, List, None, Ok, length};
ghost use Rattle.fed_stamp.specs.Roster.{IsRoster};
ghost use Rattle.fed_words.specs.declared.utilities.Utility.{Utility};
ghost use Rattle.fed_words.specs.Request.{Asked, request_in};
ghost use Rattle.fed_words.specs.Spelling.{spelling};
ghost use Rattle.fed_words.specs.Syntax.{IsLine, UtilityLine, items_of_line, rest_of_ending, words_of_line};
ghost use Rattle.fed_words.specs.Askable.{CanBeAsked, words_for};

/// Words of the utility syntax (POSIX.1-2017, XBD 12.2) are read as the options and operands that the grammar gives, or
/// the fault that they end at.
pub fn words_are_read_by_the_grammar()
    ensures { (utility : Utility) (line : UtilityLine) → IsLine utility line →
        spelling utility None (words_of_line line)
        ≡ record { items = items_of_line line; rest = rest_of_ending line.ending } }
{}

/// All words are of the grammar, with its two endings for faults.
pub fn all_words_are_of_the_grammar()
    ensures { (utility : Utility) (words : List (List ℕ)) →
        (line : UtilityLine) × IsLine utility line × (words ≡ words_of_line line) }
{}

/// Each request that a user can ask for is asked by words: by each option in a word of its own, with its argument in
/// the next word, then `--`, and then the jobs by their whole identifiers. The words ask the same at each site.
pub fn requests_are_read_from_words()
    ensures { (roster : List (List ℕ × ℕ)) (here : ℕ) (request : Asked) (asked : CanBeAsked roster request) →
        IsRoster roster → request_in roster here (words_for roster request asked) ≡ Ok request }
{}

/// Each request that words ask at a site of the roster is one that a user can ask for: by options of the utility whose
/// values are in their ranges, and for jobs of sites of the roster.
pub fn requests_read_can_be_asked()
    ensures { (roster : List (List ℕ × ℕ)) (here : ℕ) (words : List (List ℕ)) (request : Asked) → here < length roster →
        request_in roster here words ≡ Ok request → CanBeAsked roster request }
{}
