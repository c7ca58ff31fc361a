//! What the user is told of a roster that doesn't go on with the one that the site knows: the word at fault.

use crate::site::Site;
use fed_lattice::NoMemory;
use fed_script::{read_roster, told_words};
use fed_stamp::{MAX_NODES, Roster, SITES, SiteId};
use std::alloc::{AllocError, Global};

/// The name in `NAME:NODES`.
fn name_in(word: &str) -> &str {
    match word.split_once(':') {
        Some((name, _)) => name,
        None => word,
    }
}

/// What is wrong with the words that stand where the known names must. `None` where each of these is there.
fn known_text(alloc: Global, known: &Roster, words: &[&str]) -> Result<Option<String>, AllocError> {
    for number in 0..SITES as u8 {
        let Some(site) = SiteId::new(number) else {
            return Ok(None);
        };
        let Some(name) = known.name(site) else {
            return Ok(None);
        };
        match words.get(number as usize) {
            Some(word) if name_in(word) == name => {}
            Some(word) => {
                return Ok(Some(format!(in alloc; "{word} stands where {name} must")?));
            }
            None => return Ok(Some(format!(in alloc; "{name} is left out")?)),
        }
    }
    Ok(None)
}

/// The index of the first word with which the words name no roster.
fn index_at_fault(alloc: Global, words: &[&str]) -> Result<usize, AllocError> {
    for index in 0..words.len() {
        if read_roster(alloc, &words[..=index])?.is_none() {
            return Ok(index);
        }
    }
    Ok(words.len())
}

/// Why these words are no roster that goes on with the known one: the word at fault.
fn word_at_fault_text(alloc: Global, known: &Roster, words: &[&str]) -> Result<String, AllocError> {
    if let Some(text) = known_text(alloc, known, words)? {
        return Ok(text);
    }
    let index = index_at_fault(alloc, words)?;
    let word = words.get(index).copied().unwrap_or("");
    if index < known.len() {
        return format!(in alloc; "{word} has no number of nodes from 1 to {MAX_NODES}");
    }
    format!(in alloc;
        "{word} is no further site: a name that isn't there yet, a colon, and 1 to {MAX_NODES} nodes; there are {SITES} sites at most"
    )
}

/// Why the roster of a line isn't the one from then on. `None` where the line tells none.
pub fn other_roster_text(
    alloc: Global,
    site: &Site,
    line: &[u8],
) -> Result<Option<String>, NoMemory> {
    let Some(words) = told_words(alloc, line)? else {
        return Ok(None);
    };
    match words.as_slice().split_first() {
        Some((_, words)) => {
            let why = word_at_fault_text(alloc, site.roster(), words)?;
            Ok(Some(format!(in alloc; "other roster: {why}")?))
        }
        None => Ok(None),
    }
}
