//! How many nodes of a site are in use. They are counted up to 2^64 - 1, and it takes no memory.
ghost use Rattle.std.specs.Prelude.{◌≡◌, ◌-◌, ◌^◌, min};
ghost use Rattle.fed_record.specs.JobRecord.{job_reads};
ghost use Rattle.fed_board.specs.Board.{board_reads};
ghost use Rattle.fed_easy.specs.Machine.{nodes_of, nodes_of_any, running_in, running_of};
ghost use Rattle.fed_easy.specs.SitePlan.{booked_at, reserved_in, used_in};
ghost use Rattle.fed_easy.specs.Use.{use_at, use_by};

use crate::bookings::reserved_time;
use crate::machines::running_job;
use fed_board::Board;
use fed_record::{JobRecord, Reservation};
use fed_stamp::SiteId;

/// The nodes that a job has, if the site has begun it and it is not finished.
fn nodes_of_job(job: &JobRecord, site: SiteId) -> u64
    ensures { result ≡ nodes_of_any (running_of site (job_reads job.now)) }
{
    match running_job(job, site) {
        Some(entry) => entry.nodes,
        None => 0,
    }
}

/// The nodes of the site that a reservation has at the moment.
fn nodes_of_reservation(reservation: &Reservation, site: SiteId, moment: u64) -> u64
    ensures { result ≡ use_by (booked_at site reservation.now) moment }
{
    match reserved_time(reservation, site) {
        Some(time) => {
            if time.from <= moment && moment < time.until {
                time.nodes
            } else {
                0
            }
        }
        None => 0,
    }
}

/// The nodes that the jobs which run at the site have.
fn nodes_of_jobs(board: &Board, site: SiteId) -> u64
    ensures { result ≡ min (nodes_of (running_in site (board_reads board.now))) (2 ^ 64 - 1) }
{
    let mut used = 0u64;
    for (_, job) in board.jobs() {
        used = used.saturating_add(nodes_of_job(job, site));
    }
    used
}

/// The nodes of the site that its standing reservations have at the moment.
fn nodes_of_reservations(board: &Board, site: SiteId, moment: u64) -> u64
    ensures { result ≡ min (use_at (reserved_in site (board_reads board.now)) moment) (2 ^ 64 - 1) }
{
    let mut used = 0u64;
    for (_, reservation) in board.reservations() {
        used = used.saturating_add(nodes_of_reservation(reservation, site, moment));
    }
    used
}

/// How many nodes of the site are in use at the moment: those of the jobs that run there, and those of its standing
/// reservations of which the moment is a second.
pub fn used_nodes(board: &Board, site: SiteId, moment: u64) -> u64
    ensures { result ≡ min (used_in site (board_reads board.now) moment) (2 ^ 64 - 1) }
{
    nodes_of_jobs(board, site).saturating_add(nodes_of_reservations(board, site, moment))
}
