//! The words and the line of a roster.
ghost use Rattle.std.specs.Prelude.{◌≡◌, ◌<◌, IfOk, length, map, slice_index_or, string_bytes, []};
ghost use Rattle.fed_site.specs.Rosters.{line_of_roster, text_of_roster, word_of_site};

use fed_easy::nodes_of;
use fed_lattice::NoMemory;
use fed_qstat::site_text;
use fed_stamp::{Roster, SiteId};
use std::alloc::{AllocError, Global};

/// `NAME:NODES`
fn site_word(alloc: Global, roster: &Roster, site: SiteId) -> Result<String, AllocError>
    requires { site < length roster.now }
    ensures { IfOk result (λ word. string_bytes word ≡ word_of_site (slice_index_or roster.now site ([], 0))) }
{
    let name = site_text(alloc, roster, site)?;
    let nodes = nodes_of(roster, site);
    format!(in alloc; "{name}:{nodes}")
}

/// The words that tell the roster.
fn site_words(alloc: Global, roster: &Roster) -> Result<Vec<String>, AllocError>
    ensures { IfOk result (λ words. map string_bytes words.items ≡ map word_of_site roster.now) }
{
    let mut words = Vec::new(alloc);
    for number in 0..roster.len() as u8 {
        let site = SiteId::new(number).unwrap();
        words.push(site_word(alloc, roster, site)?)?;
    }
    Ok(words)
}

/// The roster in words, `NAME:NODES NAME:NODES ..`: behind `roster` they tell a site the same, and behind a site's name a
/// journal's header. The only error is `NoMemory`.
pub fn roster_text(alloc: Global, roster: &Roster) -> Result<String, NoMemory>
    ensures { IfOk result (λ text. string_bytes text ≡ text_of_roster roster.now) }
{
    let words = site_words(alloc, roster)?;
    Ok(words.join(alloc, " ")?)
}

/// These words in one line. The only error is `NoMemory`.
pub(crate) fn roster_line(alloc: Global, roster: &Roster) -> Result<String, NoMemory>
    ensures { IfOk result (λ text. string_bytes text ≡ line_of_roster roster.now) }
{
    let mut text = roster_text(alloc, roster)?;
    text.push_str("\n")?;
    Ok(text)
}
