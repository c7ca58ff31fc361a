//! The first entry of a site's journal, as `nettlebeam 3 argonne argonne:8 lemont:4`.
ghost use Rattle.std.specs.Prelude.{◌≡◌, IfOk};
ghost use Rattle.fed_words.specs.Item.{words_of as texts_of};
ghost use Rattle.fed_replica.specs.State.{state_of};
ghost use Rattle.fed_home.specs.Header.{format_of, header_in, header_of, header_text, site_among};

use fed_lattice::NoMemory;
use fed_qstat::site_text;
use fed_script::{BoxedRoster, read_roster, told_words};
use fed_site::{Site, roster_text};
use fed_stamp::SiteId;
use std::alloc::Global;

/// The formats of a journal.
#[derive(Clone, Copy, PartialEq, Eq, Debug)]
pub enum JournalFormat {
    /// Version 1: the site had nothing before the entries behind the header.
    One,
    /// Version 2, of a journal that was compacted: the entry behind the header is what the site knew.
    Two,
    /// Version 3 is as version 1. A program that doesn't know all the lines of today refuses it.
    Three,
    /// Version 4 is as version 2, with an entry for each site of the roster behind what the site knew: what it had heard.
    Four,
}

impl JournalFormat {
    ghost use Rattle.fed_home.specs.Header.{is_compacted};

    /// Whether the journal was compacted, so that the entry behind the header is what the site knew.
    pub fn is_compacted(self) -> bool
        ensures { result ≡ is_compacted self }
    {
        match self {
            JournalFormat::One | JournalFormat::Three => false,
            JournalFormat::Two | JournalFormat::Four => true,
        }
    }
}

/// What the first entry of a journal names.
#[derive(Drop)]
pub struct Header {
    /// The sites of the federation.
    pub roster: BoxedRoster,
    /// The site whose journal it is, one of the roster.
    pub site: SiteId,
    /// The journal's format.
    pub format: JournalFormat,
}

/// The format of this version.
fn read_format(version: &str) -> Option<JournalFormat>
    ensures { result ≡ format_of version.now }
{
    if version == "1" {
        Some(JournalFormat::One)
    } else if version == "2" {
        Some(JournalFormat::Two)
    } else if version == "3" {
        Some(JournalFormat::Three)
    } else if version == "4" {
        Some(JournalFormat::Four)
    } else {
        None
    }
}

/// The site of this name, of the roster that the words name.
fn find_site(
    alloc: Global,
    format: JournalFormat,
    name: &str,
    sites: &[&str],
) -> Result<Option<Header>, NoMemory>
    ensures { IfOk result (λ header. header ≡ site_among format name.now (texts_of sites.now)) }
{
    let Some(roster) = read_roster(alloc, sites)? else {
        return Ok(None);
    };
    match roster.get().find(name) {
        Some(site) => Ok(Some(Header {
            roster,
            site,
            format,
        })),
        None => Ok(None),
    }
}

/// What the words of a header say: the program, the version of the format, the name of a site, and the roster.
fn read_words(alloc: Global, words: &[&str]) -> Result<Option<Header>, NoMemory>
    ensures { IfOk result (λ header. header ≡ header_of (texts_of words.now)) }
{
    match words {
        [program, version, name, sites @ ..] => {
            if *program != "nettlebeam" {
                return Ok(None);
            }
            match read_format(version) {
                Some(format) => find_site(alloc, format, name, sites),
                None => Ok(None),
            }
        }
        [] | [_] | [_, _] => Ok(None),
    }
}

/// What a header says: `nettlebeam`, a number from `1` to `4`, the name of a site, and `NAME:NODES` for each site of a roster
/// that has it, parted by spaces and tabs. `None` where it says anything else.
pub fn read_header(alloc: Global, line: &[u8]) -> Result<Option<Header>, NoMemory>
    ensures { IfOk result (λ header. header ≡ header_in line.now) }
{
    match told_words(alloc, line)? {
        Some(words) => read_words(alloc, words.as_slice()),
        None => Ok(None),
    }
}

/// The header of a site's journal in format 4.
pub(crate) fn write_header(alloc: Global, site: &Site) -> Result<Vec<u8>, NoMemory>
    ensures { IfOk result (λ header. header.items ≡ header_text site.now.roster (state_of site.now.replica).site) }
{
    let roster = site.roster();
    let name = site_text(alloc, roster, site.here())?;
    let sites = roster_text(alloc, roster)?;
    let header = format!(in alloc; "nettlebeam 4 {name} {sites}")?;
    Ok(header.into_bytes())
}
