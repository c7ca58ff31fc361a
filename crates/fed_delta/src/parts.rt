//! Whether records may be those of a delta.
ghost use Rattle.std.specs.Prelude.{◌↔◌, IsTrue};
ghost use Rattle.std.specs.Ordering.{nat_cmp};
ghost use Rattle.fed_lattice.specs.Latest.{stamp_cmp};
ghost use Rattle.fed_lattice.specs.Table.{IsAtEach};
ghost use Rattle.fed_board.specs.Board.{AreKept, AreKnownRetirements, IsBoard, IsKnownJob, IsKnownReservation};

use fed_lattice::{Causal, Table};
use fed_ranges::{Retired, Retirements, is_retired};
use fed_record::{JobRecord, Reservation, tags_are_covered};
use fed_stamp::{JobId, SiteId, Stamp, Version, site_is_in_range, version_is_in_range};

/// Whether a board of the version may have the job with this identifier.
fn is_known_job(version: &Version, id: JobId, job: &JobRecord) -> bool
    ensures { IsTrue result ↔ IsKnownJob version.now id job.now }
{
    site_is_in_range(id.site());
    let touched = job.touched();
    version_is_in_range(&touched);
    tags_are_covered(job);
    if !version.covers(id) || !touched.le(version) {
        return false;
    }
    if !job.is_submitted() {
        return false;
    }
    job.has_covered_stamps()
}

/// Whether a board of the version may have the reservation with this identifier.
fn is_known_reservation(version: &Version, id: Stamp, reservation: &Reservation) -> bool
    ensures { IsTrue result ↔ IsKnownReservation version.now id reservation.now }
{
    site_is_in_range(id.site());
    version.covers(id) && reservation.is_made() && version.covers(reservation.stamp())
}

/// Whether a board of the version may have these jobs.
fn are_known_jobs(version: &Version, jobs: &Table<JobId, JobRecord>) -> bool
    ensures { IsTrue result ↔ IsAtEach stamp_cmp (IsKnownJob version.now) jobs.now }
{
    for (id, job) in jobs.iter() {
        if !is_known_job(version, *id, job) {
            return false;
        }
    }
    true
}

/// Whether a board of the version may have these reservations.
fn are_known_reservations(version: &Version, reservations: &Table<Stamp, Reservation>) -> bool
    ensures { IsTrue result ↔ IsAtEach stamp_cmp (IsKnownReservation version.now) reservations.now }
{
    for (id, reservation) in reservations.iter() {
        if !is_known_reservation(version, *id, reservation) {
            return false;
        }
    }
    true
}

/// Whether a board of the version may know that the site has retired these.
fn are_known_retirements(version: &Version, site: SiteId, retirements: &Retirements) -> bool
    ensures { IsTrue result ↔ AreKnownRetirements version.now site retirements.now }
{
    site_is_in_range(site);
    let ranges = retirements.ranges();
    retirements.latest() <= version.get(site)
        && ranges.is_between(retirements.latest())
        && ranges.len() > 0
}

/// Whether a board of the version may know that these are retired.
fn is_known_retired(version: &Version, retired: &Retired) -> bool
    ensures { IsTrue result ↔ IsAtEach nat_cmp (AreKnownRetirements version.now) retired.now }
{
    for (site, retirements) in retired.iter() {
        if !are_known_retirements(version, *site, retirements) {
            return false;
        }
    }
    true
}

/// Whether none of the table's identifiers is retired.
fn are_kept<V: Causal + Drop>(retired: &Retired, table: &Table<Stamp, V>) -> bool
    ensures { IsTrue result ↔ AreKept retired.now table.now }
{
    for (id, _value) in table.iter() {
        if is_retired(retired, *id) {
            return false;
        }
    }
    true
}

/// Whether these may be what a delta reaches and tells, as `Delta::from_parts` asks: each job is submitted, its
/// identifier and its operations are covered by the version, and each stamp that is read of it is covered by that of
/// its operations; each reservation is made, and its identifier and its stamp are covered by the version; what is retired
/// is known at the version, and has none of the jobs and reservations. It takes no memory.
pub fn are_parts(
    reached: &Version,
    retired: &Retired,
    jobs: &Table<JobId, JobRecord>,
    reservations: &Table<Stamp, Reservation>,
) -> bool
    ensures { IsTrue result ↔ IsBoard (record
        { version = reached.now; retired = retired.now; jobs = jobs.now; reservations = reservations.now }) }
{
    is_known_retired(reached, retired)
        && are_known_jobs(reached, jobs)
        && are_known_reservations(reached, reservations)
        && are_kept(retired, jobs)
        && are_kept(retired, reservations)
}
