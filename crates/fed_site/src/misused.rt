//! What the user is told of words that ask nothing: the word at fault, and what it should be.

use crate::site::Site;
use fed_lattice::NoMemory;
use fed_record::{MAX_LIMIT, MAX_PRIORITY, MIN_PRIORITY};
use fed_script::told_words;
use fed_stamp::MAX_NODES;
use fed_words::{Choice, UsageFault, Utility, read_resources, read_words};
use std::alloc::{AllocError, Global};

/// The index of the word at fault. Words are read from left to right, so it is the last of the first words that have
/// the same fault.
fn place_at_fault(alloc: Global, site: &Site, words: &[&str], fault: UsageFault) -> Option<usize> {
    for index in 0..words.len() {
        match read_words(alloc, &words[..=index], site.roster(), site.here()) {
            Err(found) if found == fault => return Some(index),
            _ => (),
        }
    }
    None
}

/// The option of a word that takes an argument, with its argument: what stands behind the letter, or the next word.
fn option_in<'a>(utility: Utility, word: &'a str, next: &'a str) -> Option<(Choice, &'a str)> {
    let letters = word.strip_prefix('-')?;
    for (index, letter) in letters.char_indices() {
        let choice = utility.choice(letter)?;
        if choice.takes_argument() {
            let behind = letters.get(index.saturating_add(1)..)?;
            return Some((choice, if behind.is_empty() { next } else { behind }));
        }
    }
    None
}

/// The option whose argument is at fault, where the word at this index is the argument or ends in it.
fn option_at<'a>(utility: Utility, words: &[&'a str], index: usize) -> Option<(Choice, &'a str)> {
    let word: &'a str = words.get(index)?;
    let before: &'a str = words.get(index.saturating_sub(1))?;
    match option_in(utility, before, word) {
        Some((choice, argument)) if argument == word => Some((choice, argument)),
        _ => option_in(utility, word, ""),
    }
}

/// What is wrong with a resource and its value.
fn resource_text(alloc: Global, pair: &str) -> Result<String, AllocError> {
    match pair.split_once('=') {
        Some((name, value)) => match name {
            "nodes" => format!(in alloc; "{pair} is no number of nodes from 1 to {MAX_NODES}"),
            "walltime" => {
                format!(in alloc; "{pair} is no number of seconds from 1 to {MAX_LIMIT}")
            }
            "sites" => format!(in alloc; "{value} is no list of sites, as argonne+lemont"),
            _ => format!(in alloc; "{name} is no resource: there are nodes, walltime and sites"),
        },
        None => format!(in alloc; "{pair} is no resource with its value, as nodes=2"),
    }
}

/// What is wrong with a list of resources: the first pair that can't be read.
fn resources_text(alloc: Global, site: &Site, list: &str) -> Result<String, AllocError> {
    for pair in list.split(',') {
        if read_resources(alloc, site.roster(), pair).is_err() {
            return resource_text(alloc, pair);
        }
    }
    format!(in alloc; "{list} is no list of resources")
}

/// What is wrong with the argument of an option.
fn value_text(
    alloc: Global,
    site: &Site,
    choice: Choice,
    argument: &str,
) -> Result<String, AllocError> {
    match choice {
        Choice::Account => {
            format!(in alloc;
                "{argument} is no account: a letter and up to 14 letters, digits, ., - and _"
            )
        }
        Choice::Name => {
            format!(in alloc;
                "{argument} is no name: a letter and up to 14 letters, digits, ., - and _"
            )
        }
        Choice::Kinds => {
            format!(in alloc; "{argument} is no list of holds: there are u, o and s")
        }
        Choice::Priority => {
            format!(in alloc; "{argument} is no priority from {MIN_PRIORITY} to {MAX_PRIORITY}")
        }
        Choice::Resources => resources_text(alloc, site, argument),
        Choice::Held | Choice::Full => format!(in alloc; "{argument} is no value"),
    }
}

/// Why the word at this index of a utility's words asks nothing.
fn word_text(
    alloc: Global,
    site: &Site,
    words: &[&str],
    index: usize,
    fault: UsageFault,
) -> Result<String, AllocError> {
    let name = words.first().copied().unwrap_or("");
    let word = words.get(index).copied().unwrap_or("");
    match fault {
        UsageFault::UnknownUtility => {
            format!(in alloc;
                "{word} is no utility: there are qsub, qalter, qhold, qrls, qdel and qstat"
            )
        }
        UsageFault::UnknownOption => format!(in alloc; "{name} has no option {word}"),
        UsageFault::MissingArgument => format!(in alloc; "{word} lacks its argument"),
        UsageFault::BadValue => {
            match Utility::named(name).and_then(|utility| option_at(utility, words, index)) {
                Some((choice, argument)) => value_text(alloc, site, choice, argument),
                None => format!(in alloc; "{word} has a wrong form or is out of range"),
            }
        }
        UsageFault::BadIdentifier => {
            format!(in alloc; "{word} is no identifier of a job, as 3 or 3.argonne")
        }
        UsageFault::UnknownSite => format!(in alloc; "{word} names a site that the roster has not"),
        UsageFault::MissingOperand => format!(in alloc; "{name} names no job"),
        UsageFault::NoMemory => format!(in alloc; "there was no memory for it"),
    }
}

/// Why these words of a utility ask nothing. `None` where no word of them is at fault.
fn utility_text(
    alloc: Global,
    site: &Site,
    words: &[&str],
    fault: UsageFault,
) -> Result<Option<String>, AllocError> {
    let index = match fault {
        UsageFault::MissingArgument | UsageFault::MissingOperand => words.len().checked_sub(1),
        _ => place_at_fault(alloc, site, words, fault),
    };
    let Some(index) = index else {
        return Ok(None);
    };
    let number = fault.number();
    let why = word_text(alloc, site, words, index, fault)?;
    Ok(Some(format!(in alloc; "usage {number} ({fault:?}): {why}")?))
}

/// Why the words of a line, the first of which names who asks, ask nothing. `None` where no word of them is at fault.
pub fn misused_text(
    alloc: Global,
    site: &Site,
    line: &[u8],
    fault: UsageFault,
) -> Result<Option<String>, NoMemory> {
    let Some(words) = told_words(alloc, line)? else {
        return Ok(None);
    };
    match words.as_slice().split_first() {
        Some((_, words)) => Ok(utility_text(alloc, site, words, fault)?),
        None => Ok(None),
    }
}
