//! The words of a script that name the sites.
ghost use Rattle.std.specs.Prelude.{◌≡◌, IfOk, option_map};
ghost use Rattle.std.specs.List.{list_any};
ghost use Rattle.fed_stamp.specs.Roster.{sites_of};
ghost use Rattle.fed_words.specs.Item.{words_of};
ghost use Rattle.fed_script.specs.Rosters.{is_reserved as begins_another_line, roster_of, site_of, sites_in};

use fed_stamp::Roster;
use fed_words::read_number;
use std::alloc::{AllocError, Global};
use std::marker::Model;

/// A roster in memory of its own, so that what holds it is small.
#[derive(Drop)]
pub struct BoxedRoster {
    roster: Box<Roster>,
}

impl Model for BoxedRoster {
    ghost use Rattle.std.specs.Prelude.{List, ℕ};

    ghost Value = { List (List ℕ × ℕ) };

    ghost view = { λ h. h.roster.value };
}

impl BoxedRoster {
    /// The roster in a box of its own; an error where no room is left for it.
    pub fn new(alloc: Global, roster: Roster) -> Result<BoxedRoster, AllocError>
        ensures { IfOk result (λ held. held ≡ roster) }
    {
        Ok(BoxedRoster {
            roster: Box::new(alloc, roster)?,
        })
    }

    /// The roster.
    pub fn get(&self) -> &Roster
        ensures { result.now ≡ self.now }
    {
        &self.roster
    }
}

/// The roster in a box of its own, where there is one.
fn boxed(alloc: Global, roster: Option<Roster>) -> Result<Option<BoxedRoster>, AllocError>
    ensures { IfOk result (λ held. held ≡ roster) }
{
    match roster {
        Some(roster) => Ok(Some(BoxedRoster::new(alloc, roster)?)),
        None => Ok(None),
    }
}

/// The roster of these words, each `NAME:NODES`, the name of a site, a colon and its number of nodes in decimal
/// digits. `None` where a word has another form, `Roster::new` refuses the sites, or one of them is named `roster` or
/// `equal`, which are the first words of other lines.
pub fn read_roster(alloc: Global, words: &[&str]) -> Result<Option<BoxedRoster>, AllocError>
    ensures { IfOk result (λ roster. roster ≡ roster_of (words_of words.now)) }
{
    let Some(sites) = read_sites(alloc, words)? else {
        return Ok(None);
    };
    if has_reserved(&sites) {
        return Ok(None);
    }
    boxed(alloc, Roster::new(&sites).ok())
}

/// Whether a name is the first word of another line.
fn is_reserved(name: &str) -> bool
    ensures { result ≡ begins_another_line name.now }
{
    name == "roster" || name == "equal"
}

fn has_reserved(sites: &[(&str, u64)]) -> bool
    ensures { result ≡ list_any (λ site. begins_another_line site.0.now) sites.now }
{
    sites.iter().any(|site| is_reserved(site.0))
}

/// The names and numbers that the words write, where each writes them.
fn read_sites<'a>(
    alloc: Global,
    words: &[&'a str],
) -> Result<Option<Vec<(&'a str, u64)>>, AllocError>
    ensures { IfOk result (λ sites.
        option_map (λ s. sites_of s.items) sites ≡ sites_in (words_of words.now)) }
{
    let mut sites = Vec::new(alloc);
    for word in words {
        let Some(site) = read_site(word) else {
            return Ok(None);
        };
        sites.push(site)?;
    }
    Ok(Some(sites))
}

/// The name and the number of nodes that a word writes.
fn read_site(word: &str) -> Option<(&str, u64)>
    ensures { option_map (λ s. (s.0.now, s.1)) result ≡ site_of word.now }
{
    let (name, nodes) = word.split_once(':')?;
    Some((name, read_number(nodes)?))
}
