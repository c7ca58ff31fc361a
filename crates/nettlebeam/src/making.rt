//! Making the home of a site.

use crate::directories::{CUT, JOURNAL, keep_tail, sync_parent};
use crate::faults::Fault;
use fed_home::{Home, HomeFault, read_header};
use fed_journal::{FileDevice, Journal};
use fed_serve::line_of_words;
use std::alloc::{AllocError, Global};
use std::fs::{self, DirBuilder, File, Files};
use std::io::{self, ErrorKind};
use std::os::unix::fs::DirBuilderExt;

/// Its owner alone may use the directory.
const OWNER_ALONE: u32 = 0o700;

/// How many bytes a journal has beside the header that is its one entry.
const FRAME_BYTES: u64 = 21;

/// The most bytes of a header whose numbers of nodes have no zeros in front: the format, a name of 15 characters, and 16
/// sites with names of 15 characters and numbers of 7 digits.
const LONGEST_HEADER: u64 = 412;

/// The first entry of the journal.
fn header<'x>(alloc: Global, site: &'x str, sites: &[&'x str]) -> Result<Vec<u8>, AllocError> {
    let mut words = vec![in alloc; "nettlebeam", "3", site]?;
    words.extend_from_slice(sites)?;
    line_of_words(alloc, &words)
}

/// Why no site may be made in a directory, if so: its journal is longer than what an `init` leaves that is cut short, in
/// whatever words it was called, or it has other files.
fn taken_by<R: Files + AllocGlobal + Clone + Drop>(
    rt: &R,
    directory: &str,
    longest: u64,
) -> io::Result<Option<Fault>> {
    let mut taken = None;
    for entry in fs::read_dir(rt, directory)? {
        let entry = entry?;
        if entry.file_name().starts_with(CUT) {
            continue;
        }
        if entry.file_name() != JOURNAL {
            taken = Some(Fault::NotEmpty);
        } else if entry.metadata()?.len() > longest {
            return Ok(Some(Fault::Home(HomeFault::HasEntries)));
        }
    }
    Ok(taken)
}

/// Makes the directory, where it isn't there.
fn make_directory<R: Files + AllocGlobal + Clone + Drop>(
    rt: &R,
    directory: &str,
    longest: u64,
) -> Result<(), Fault> {
    match DirBuilder::new().mode(OWNER_ALONE).create(rt, directory) {
        Ok(()) => Ok(()),
        Err(error) if error.kind() == ErrorKind::AlreadyExists => {
            match taken_by(rt, directory, longest) {
                Ok(None) => Ok(()),
                Ok(Some(fault)) => Err(fault),
                Err(error) => Err(Fault::Directory(error)),
            }
        }
        Err(error) => Err(Fault::Directory(error)),
    }
}

/// Keeps what stands behind the closed gate of a journal that has no entry, as of an `init` that was cut short.
fn keep_found<R: Files<File = File> + AllocGlobal + Clone + Drop>(
    streams: &impl Eprint,
    rt: &R,
    directory: &str,
) -> Result<(), Fault> {
    let device = FileDevice::make(rt, directory, JOURNAL)?;
    let found = match Journal::open(rt.alloc(), device) {
        Ok((_, found)) => found,
        Err(unopened) => return Err(Fault::from(unopened.fault)),
    };
    if found.entries.is_empty() {
        keep_tail(streams, rt, directory, &found.tail)
    } else {
        Err(Fault::Home(HomeFault::HasEntries))
    }
}

/// Makes a directory that isn't there, that is empty, or that has what an earlier call left that was cut short, the home of
/// a site of the roster.
pub fn make_home<'x, R: Files<File = File> + AllocGlobal + Clone + Drop>(
    streams: &impl Eprint,
    rt: &R,
    directory: &str,
    site: &'x str,
    sites: &[&'x str],
) -> Result<(), Fault> {
    let header = header(rt.alloc(), site, sites)?;
    if read_header(rt.alloc(), &header)?.is_none() {
        return Err(Fault::Roster);
    }
    let longest = LONGEST_HEADER.max(header.len() as u64);
    make_directory(rt, directory, longest + FRAME_BYTES)?;
    // before anything is written: a later call finds a site, and syncs nothing more
    sync_parent(rt, directory).map_err(Fault::Directory)?;
    keep_found(streams, rt, directory)?;
    let device = FileDevice::make(rt, directory, JOURNAL)?;
    match Home::make(rt.alloc(), device, &header) {
        Ok(_) => Ok(()),
        Err(unopened) => Err(Fault::Home(unopened.fault)),
    }
}
