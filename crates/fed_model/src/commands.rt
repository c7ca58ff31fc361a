//! What a site may be asked to do, by users and by its own scheduler.
use crate::holds::HoldKinds;
use crate::moments::Moment;
use crate::values::{Changes, JobValues};
use crate::windows::Window;
use fed_stamp::{JobId, SiteId, Stamp};

/// What somebody, or a site's own scheduler, asks a site to do. `job` names a job by the stamp of its `Submit`.
#[derive(Clone, Copy, PartialEq, Eq, Debug)]
pub enum Command {
    /// Submit a job, with a user hold if `held`.
    Submit {
        /// What it is submitted with.
        values: JobValues,
        /// Whether it gets a user hold.
        held: bool,
    },
    /// Set the values named.
    Alter {
        job: JobId,
        /// The values named; the others stay.
        changes: Changes,
    },
    /// Add holds of these kinds.
    Hold {
        job: JobId,
        kinds: HoldKinds,
    },
    /// Remove the holds of these kinds that the site sees.
    Release {
        job: JobId,
        kinds: HoldKinds,
    },
    /// Delete the job.
    Delete {
        job: JobId,
    },
    /// Grant the job to the site that asks.
    Grant {
        job: JobId,
        /// The site that asks.
        asker: SiteId,
    },
    /// Hand back the open grant.
    HandBack {
        job: JobId,
    },
    /// Hand back the open grant, also where the job was deleted before it began.
    Decline {
        job: JobId,
    },
    /// Begin the job.
    Begin {
        job: JobId,
        /// When it begins, in seconds.
        moment: Moment,
    },
    /// Finish the job, with a status.
    Finish {
        job: JobId,
        /// When it finished, in seconds.
        moment: Moment,
        /// The status that it gave, from 0 to `MAX_STATUS`.
        status: u8,
    },
    /// Make a reservation.
    Reserve {
        /// The nodes to keep free, and when.
        window: Window,
    },
    /// Cancel a reservation, named by the stamp of its `Reserve`.
    Cancel {
        reservation: Stamp,
    },
    /// Retire this site's identifiers with counters in the range, of jobs and of reservations: nothing is kept of them.
    Retire {
        /// The least counter of the range.
        first: u64,
        /// The greatest counter of the range.
        last: u64,
    },
}
