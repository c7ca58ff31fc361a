//! The entries that a compacted journal has, and what comes of compacting one.
ghost use Rattle.std.specs.Prelude.{◌≡◌, ◌≢◌, ◌≤◌, ◌+◌, true, false, Some, IfOk, length, min};
ghost use Rattle.fed_journal.specs.Lines.{at_rest, texts_of};
ghost use Rattle.fed_stamp.specs.declared.sites.TheConstants.{SITES};
ghost use Rattle.fed_home.specs.Compaction.{AreEntriesOf, AreOfAnother};
ghost use Rattle.fed_home.specs.Replay.{replay as replay_of, replayed_of};

use crate::faults::HomeFault;
use crate::headers::write_header;
use crate::runs::{heard_text, replay};
use fed_lattice::NoMemory;
use fed_site::Site;
use std::alloc::Global;
use std::io;

/// What came of compacting a journal.
#[derive(Clone, Copy, Debug, Drop)]
pub enum Compaction {
    /// The disk has the compacted journal.
    Done,
    /// The compacted journal would have this many bytes, more than it was to have. Nothing is done.
    Long { bytes: usize },
    /// The disk can't have a second file, for this cause. Nothing is done.
    Refused(io::Error),
    /// What would be written isn't read as what the site has. Nothing is done.
    Unread,
}

/// How many bytes of a journal's line are not the entry's.
const FRAME_BYTES: usize = 20;

/// How many bytes a journal of these entries has, or the most that can be told.
pub(crate) fn bytes_of(entries: &[Vec<u8>]) -> usize
    ensures { result ≡ min (length (at_rest (texts_of entries.now))) usize.MAX }
{
    let mut bytes = 1usize;
    for entry in entries {
        bytes = bytes
            .saturating_add(entry.len())
            .saturating_add(FRAME_BYTES);
    }
    bytes
}

/// The entries of a journal that begins with what a site has: the header, what it knows, and for each site of its roster the
/// line that tells what it has heard of that.
pub(crate) fn entries_from(alloc: Global, site: &Site) -> Result<Vec<Vec<u8>>, NoMemory>
    ensures short { IfOk result (λ entries. length entries.items ≤ 2 + SITES) }
    ensures are { IfOk result (λ entries. AreEntriesOf (replayed_of site.now) (texts_of entries.items)) }
{
    let mut entries = Vec::new(alloc);
    entries.push(write_header(alloc, site)?)?;
    entries.push(site.known_text(alloc)?)?;
    for number in 0..site.roster().len() {
        entries.push(heard_text(alloc, site, number)?)?;
    }
    Ok(entries)
}

/// Whether two sites of one roster have the same.
fn is_same_site(one: &Site, other: &Site) -> bool
    ensures same { result ≡ true → replayed_of one.now ≡ replayed_of other.now }
    ensures apart { result ≡ false → replayed_of one.now ≢ replayed_of other.now }
{
    one.roster() == other.roster() && one.holds_the_same(other)
}

/// Whether entries stand for a site.
pub(crate) fn stand_for(alloc: Global, entries: &[Vec<u8>], site: &Site) -> Result<bool, NoMemory>
    ensures same { IfOk result (λ same. same ≡ true → replay_of (texts_of entries.now) ≡ Some (replayed_of site.now)) }
    ensures apart { IfOk result (λ same. same ≡ false → AreOfAnother (replayed_of site.now) (texts_of entries.now)) }
{
    match replay(alloc, entries) {
        Ok(again) => Ok(is_same_site(&again, site)),
        Err(HomeFault::NoMemory) => Err(NoMemory),
        Err(_) => Ok(false),
    }
}
