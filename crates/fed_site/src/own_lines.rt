//! What a line says at a site.
ghost use Rattle.std.specs.Prelude.{◌≡◌, IfOk, is_some, nat_eq, option_map, position};
ghost use Rattle.std.specs.List.{list_any};
ghost use Rattle.fed_words.specs.Item.{words_of as texts_of};
ghost use Rattle.fed_script.specs.Rosters.{is_colon};
ghost use Rattle.fed_site.specs.Line.{packet_text as packet_text_in};
ghost use Rattle.fed_site.specs.OwnLine.{own_line_of, own_words};
ghost use Rattle.fed_site.specs.OwnLineView.{read_as};
ghost use Rattle.fed_site.specs.Rosters.{words_behind as words_behind_first};

use fed_lattice::NoMemory;
use fed_looks::{Look, read_look};
use fed_script::{BoxedRoster, Line, read_own_words, read_roster, told_words};
use fed_stamp::{Roster, SiteId};
use std::alloc::Global;

/// What a line says at a site.
#[derive(Drop)]
pub enum OwnLine<'a> {
    /// `roster NAME:NODES ..`: the roster, or `None` where the words name none.
    Roster(Option<BoxedRoster>),
    /// `take TEXT`, `take from NAME TEXT`: what stands behind `take`.
    Packet(&'a [u8]),
    /// What an operator asks the site.
    Look(Look),
    /// Another, which says what a script's line says that has the site's name in front. `None` where it can't be read.
    Line(Option<Line>),
}

/// Whether the line has a line feed.
fn has_line_feed(line: &[u8]) -> bool
    ensures { result ≡ list_any (nat_eq 10) line.now }
{
    line.contains(&b'\n')
}

/// `take TEXT`: what stands behind `take`, which has no line feed.
fn packet_text(line: &[u8]) -> Option<&[u8]>
    ensures { option_map (λ text. text.now) result ≡ packet_text_in line.now }
{
    if line.starts_with(b"take ") && !has_line_feed(line) {
        Some(&line[5..])
    } else {
        None
    }
}

fn has_colon(word: &str) -> bool
    ensures { result ≡ is_some (position is_colon word.now) }
{
    word.split_once(':').is_some()
}

/// The words behind the first, where they tell the roster.
fn words_behind<'a, 'w>(words: &'w [&'a str]) -> Option<&'w [&'a str]>
    ensures { option_map (λ behind. texts_of behind.now) result ≡ words_behind_first (texts_of words.now) }
{
    match words {
        [first, rest @ ..] => match rest {
            [word, ..] if *first == "roster" && has_colon(word) => Some(rest),
            _ => None,
        },
        [] => None,
    }
}

/// What the words of a line say.
fn read_words<'a>(
    alloc: Global,
    roster: &Roster,
    here: SiteId,
    words: &[&'a str],
) -> Result<OwnLine<'a>, NoMemory>
    ensures { IfOk result (λ said. read_as said ≡ own_words roster.now here (texts_of words.now)) }
{
    if let Some(sites) = words_behind(words) {
        return Ok(OwnLine::Roster(read_roster(alloc, sites)?));
    }
    match read_look(alloc, roster, here, words)? {
        Some(look) => Ok(OwnLine::Look(look)),
        None => Ok(OwnLine::Line(read_own_words(alloc, roster, here, words)?)),
    }
}

/// What a line says. A packet's text may be long, so it isn't cut into words.
pub(crate) fn read_line<'a>(
    alloc: Global,
    roster: &Roster,
    here: SiteId,
    line: &'a [u8],
) -> Result<OwnLine<'a>, NoMemory>
    ensures { IfOk result (λ said. read_as said ≡ own_line_of roster.now here line.now) }
{
    if let Some(text) = packet_text(line) {
        return Ok(OwnLine::Packet(text));
    }
    match told_words(alloc, line)? {
        Some(words) => read_words(alloc, roster, here, words.as_slice()),
        None => Ok(OwnLine::Line(None)),
    }
}
