//! A file that is where a compaction makes the new journal: what a crash left of an earlier one is removed, and nothing else.

use crate::directories::{JOURNAL, NEW_JOURNAL};
use crate::faults::Fault;
use fed_site::Site;
use std::alloc::{AllocError, Global};
use std::fs::{self, File, Files};
use std::io::{self, ErrorKind, Read};
use std::os::unix::fs::MetadataExt;
use std::path::Path;

/// A disk has the front of a file that it was to have, or 0 in its place, up to so many bytes at once.
const SECTOR_BYTES: usize = 512;

/// Where the text of a journal's line begins, behind its gate and its digest.
const TEXT: usize = 19;

/// Whether a file that begins so may be a journal of which the first entry begins with this text.
fn may_begin(front: &[u8], text: &[u8]) -> bool {
    front.iter().enumerate().all(|(at, byte)| match at {
        0 => *byte == b'+',
        1 | 18 => *byte == b' ',
        2..=17 => byte.is_ascii_hexdigit(),
        _ => text.get(at - TEXT).is_none_or(|wanted| wanted == byte),
    })
}

/// Whether a file that begins so may be what a crash left of a compaction of this site: its journal's front, or nothing yet.
fn is_left(alloc: Global, front: &[u8], site: &Site) -> Result<bool, AllocError> {
    if front.iter().all(|byte| *byte == 0) {
        return Ok(true);
    }
    let Some(name) = site.roster().name(site.here()) else {
        return Ok(false);
    };
    for format in ["2", "4"] {
        let text = format!(in alloc; "nettlebeam {format} {name} ")?;
        if may_begin(front, text.as_bytes()) {
            return Ok(true);
        }
    }
    Ok(false)
}

/// Whether the file of the new journal's name may be removed: there is none, or it is the journal's owner's, and may be what a
/// crash left of a compaction.
fn may_remove(
    rt: &(impl Files<File = File> + AllocGlobal),
    directory: &str,
    site: &Site,
) -> io::Result<bool> {
    let path = Path::new(directory).join(rt.alloc(), NEW_JOURNAL)?;
    let found = match fs::symlink_metadata(rt, path.as_path()) {
        Ok(found) => found,
        Err(error) if error.kind() == ErrorKind::NotFound => return Ok(true),
        Err(error) => return Err(error),
    };
    if !found.is_file() {
        return Ok(false);
    }
    if found.len() == 0 {
        return Ok(true);
    }
    let journal = Path::new(directory).join(rt.alloc(), JOURNAL)?;
    if found.uid() != fs::metadata(rt, journal.as_path())?.uid() {
        return Ok(false);
    }
    let mut front = Vec::new(rt.alloc());
    File::open(rt, path.as_path())?
        .take(SECTOR_BYTES as u64)
        .read_to_end(&mut front)?;
    Ok(is_left(rt.alloc(), &front, site)?)
}

/// An error where a compaction would remove a file that none of this site has left.
pub fn check_new(
    rt: &(impl Files<File = File> + AllocGlobal),
    directory: &str,
    site: &Site,
) -> Result<(), Fault> {
    match may_remove(rt, directory, site) {
        Ok(true) => Ok(()),
        Ok(false) => Err(Fault::Taken),
        Err(error) => Err(Fault::NotCompacted(error)),
    }
}
