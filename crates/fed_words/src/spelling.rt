//! What words spell: options and operands.
ghost use Rattle.std.specs.Prelude.{◌≡◌, ℕ, [], List, Ok, codes, drop};
ghost use Rattle.std.specs.Str.{bytes_eq};
ghost use Rattle.fed_words.specs.Fault.{Gives};
ghost use Rattle.fed_words.specs.Item.{words_of};
ghost use Rattle.fed_words.specs.Reading.{reading};
ghost use Rattle.fed_words.specs.Setting.{last_settings, settings_in};
ghost use Rattle.fed_words.specs.Spelling.{Item, group, is_options as spells_options, spelling};

use crate::faults::UsageFault;
use crate::settings::Settings;
use crate::utilities::{Choice, Utility};
use fed_stamp::Roster;
use std::alloc::Global;

/// Sets what the options of one word set, whose letters stand behind its `-`. Gives the option whose argument is still
/// wanted, if there is one.
fn read_group(
    alloc: Global,
    roster: &Roster,
    utility: Utility,
    word: &str,
    settings: &mut Settings,
) -> Result<Option<Choice>, UsageFault>
    ensures { (items : List Item) → settings_in roster.now items ≡ Ok settings.old →
        Gives (λ wanted. (settings.new, wanted)) result (reading roster.now items (group utility (drop 1 word.now))) }
{
    let bytes = word.as_bytes();
    for index in 1..bytes.len() {
        let Some(option) = utility.choice(bytes[index] as char) else {
            return Err(UsageFault::UnknownOption);
        };
        if option.takes_argument() {
            let argument = &word[index + 1..];
            if argument.is_empty() {
                return Ok(Some(option));
            }
            settings.set(alloc, roster, option, argument)?;
            return Ok(None);
        }
        settings.set(alloc, roster, option, "")?;
    }
    Ok(None)
}

/// Whether a word is one of options: it has a `-` in front, and more.
fn is_options(word: &str) -> bool
    ensures { result ≡ spells_options word.now }
{
    matches!(word.as_bytes(), [b'-', _, ..])
}

/// Whether a word ends the options.
fn is_end(word: &str) -> bool
    ensures { result ≡ bytes_eq word.now (codes "--") }
{
    matches!(word.as_bytes(), b"--")
}

/// Sets what the options of the words behind a utility's name set, each as it is read, and gives the operands.
pub(crate) fn read_options<'a, 'w>(
    alloc: Global,
    roster: &Roster,
    utility: Utility,
    words: &'w [&'a str],
    settings: &mut Settings,
) -> Result<&'w [&'a str], UsageFault>
    requires { settings.old ≡ last_settings [] }
    ensures { Gives (λ operands. (settings.new, words_of operands.now)) result
        (reading roster.now [] (spelling utility None (words_of words.now))) }
{
    let mut wanted: Option<Choice> = None;
    for (index, word) in words.iter().enumerate() {
        if let Some(option) = wanted {
            settings.set(alloc, roster, option, word)?;
            wanted = None;
            continue;
        }
        if !is_options(word) {
            return Ok(&words[index..]);
        }
        if is_end(word) {
            return Ok(&words[index + 1..]);
        }
        wanted = read_group(alloc, roster, utility, word, settings)?;
    }
    match wanted {
        Some(_) => Err(UsageFault::MissingArgument),
        None => Ok(&[]),
    }
}
