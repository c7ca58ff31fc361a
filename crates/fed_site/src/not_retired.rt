//! What the user is told where identifiers aren't retired.

use crate::site::Site;
use fed_board::Board;
use fed_model::MAX_RANGES;
use fed_qstat::{identifier_text, site_text};
use fed_record::JobRecord;
use fed_replica::retire_steps::{is_named, is_settled};
use fed_stamp::{JobId, Stamp};
use std::alloc::{AllocError, Global};

/// Why a job is not settled.
fn unsettled_text(
    alloc: Global,
    site: &Site,
    id: JobId,
    job: &JobRecord,
) -> Result<String, AllocError> {
    let name = identifier_text(alloc, site.roster(), id)?;
    if let Some((stamp, _)) = job.progress().begun {
        let place = site_text(alloc, site.roster(), stamp.site())?;
        return format!(in alloc; "{name} has begun at {place}, and is not finished");
    }
    match job.holder() {
        Some(holder) if job.deleted() => {
            let place = site_text(alloc, site.roster(), holder)?;
            format!(in alloc; "{name} is deleted, but {place} still has its grant")
        }
        _ => format!(in alloc; "{name} can still begin"),
    }
}

/// The first job of the range that is not settled, and why, if there is one.
fn unsettled_job_text(
    alloc: Global,
    site: &Site,
    first: u64,
    last: u64,
) -> Result<Option<String>, AllocError> {
    let here = site.here();
    for (id, job) in site.board().jobs() {
        if is_named(*id, here, first, last) && !is_settled(job, here) {
            return Ok(Some(unsettled_text(alloc, site, *id, job)?));
        }
    }
    Ok(None)
}

/// Whether the reservation is made and not cancelled.
fn is_standing(board: &Board, id: Stamp) -> bool {
    match board.reservation(id) {
        Some(reservation) => reservation.window().is_some(),
        None => false,
    }
}

/// The first reservation of the range that stands, if there is one.
fn standing_text(
    alloc: Global,
    site: &Site,
    first: u64,
    last: u64,
) -> Result<Option<String>, AllocError> {
    let here = site.here();
    let board = site.board();
    for (id, _reservation) in board.reservations() {
        if is_named(*id, here, first, last) && is_standing(board, *id) {
            let name = identifier_text(alloc, site.roster(), *id)?;
            return Ok(Some(format!(in alloc; "{name} is a reservation that is not cancelled")?));
        }
    }
    Ok(None)
}

/// Why a range of the site's identifiers is not retired: it is no range, or something in it is not settled.
pub(crate) fn not_settled_text(
    alloc: Global,
    site: &Site,
    first: u64,
    last: u64,
) -> Result<String, AllocError> {
    let here = site_text(alloc, site.roster(), site.here())?;
    let own = site.version().get(site.here());
    if first == 0 {
        return format!(in alloc; "the range begins at 0, and the identifiers of {here} begin at 1");
    }
    if last < first {
        return format!(in alloc;
            "the range is empty: its end, {last}, is below its start, {first}"
        );
    }
    if last > own {
        return format!(in alloc;
            "the range ends at {last}, and the identifiers of {here} end at {own}"
        );
    }
    if let Some(text) = unsettled_job_text(alloc, site, first, last)? {
        return Ok(text);
    }
    match standing_text(alloc, site, first, last)? {
        Some(text) => Ok(text),
        None => format!(in alloc; "a job from {first} to {last} is not settled"),
    }
}

/// That the site would have too many ranges.
pub(crate) fn too_many_ranges_text(alloc: Global, site: &Site) -> Result<String, AllocError> {
    let here = site_text(alloc, site.roster(), site.here())?;
    format!(in alloc;
        "{here} would have more than {MAX_RANGES} ranges of retired identifiers: retire more at once, up to a range that \
        is retired"
    )
}
