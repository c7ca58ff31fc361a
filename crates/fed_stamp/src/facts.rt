//! Facts that a type's invariant keeps. Each function does nothing: its contract is the fact, which a caller tells the
//! prover by calling it.
ghost use Rattle.std.specs.Prelude.{◌<◌, ◌≤◌, IsTrue};
ghost use Rattle.fed_stamp.specs.declared.sites.TheConstants.{SITES};
ghost use Rattle.fed_stamp.specs.declared.stamps.TheConstants.{MAX_COUNTER};
ghost use Rattle.fed_stamp.specs.Roster.{IsRoster};
ghost use Rattle.fed_stamp.specs.Version.{IsVersion};
ghost use Rattle.fed_stamp.specs.Word.{is_name};

use crate::rosters::Roster;
use crate::sites::SiteId;
use crate::stamps::Stamp;
use crate::versions::Version;
use crate::words::Word;

/// A site is one of the 16.
pub fn site_is_in_range(site: SiteId)
    ensures { site < SITES }
{
    let _number = site.get();
}

/// The counter of a stamp is from 1 to `MAX_COUNTER`, and its site is one of the 16.
pub fn stamp_is_in_range(stamp: Stamp)
    ensures at_least { 1 ≤ stamp.counter }
    ensures at_most { stamp.counter ≤ MAX_COUNTER }
    ensures site { stamp.site < SITES }
{
    let _counter = stamp.counter();
    site_is_in_range(stamp.site());
}

/// A version has a counter for each of the 16 sites, none above `MAX_COUNTER`.
pub fn version_is_in_range(version: &Version)
    ensures { IsVersion version.now }
{
    let _counters = version.counters();
}

/// A roster is a lawful list of sites: of 1 to 16, whose names have the form of one and differ, each with nodes.
pub fn roster_is_lawful(roster: &Roster)
    ensures { IsRoster roster.now }
{
    let _sites = roster.len();
}

/// A word is a name.
pub fn word_is_name(word: &Word)
    ensures { IsTrue (is_name word.now) }
{
    let _text = word.as_str();
}
