//! Operations: what is done to jobs and reservations.
ghost use Rattle.std.specs.Prelude.{◌≡◌};
ghost use Rattle.fed_model.specs.Body.{job_of, reservation_of};
ghost use Rattle.fed_record.specs.Operation.{body_of};

use fed_model::{Beginning, Changes, Ending, HoldKind, HoldKinds, JobValues, Term, Window};
use fed_stamp::{JobId, SiteId, Stamp, Word};

/// What is done to a job that was submitted. A pair is an element, a site or a kind of hold, beside the stamp of the
/// operation that added it.
#[derive(Drop, Debug)]
pub enum JobOperation {
    /// Sets the values named. Adds the sites named, and removes the pairs.
    Set {
        /// The values named.
        changes: Changes,
        /// The pairs of sites that it removes.
        removed: Vec<(SiteId, Stamp)>,
    },
    /// Adds holds of these kinds.
    Hold {
        kinds: HoldKinds,
    },
    /// Removes pairs of holds.
    Release {
        /// The pairs of holds that it removes.
        removed: Vec<(HoldKind, Stamp)>,
    },
    /// Deletes the job.
    Delete,
    /// Grants the job to the site. Only the site that the job was submitted at does so.
    Grant {
        /// The site that the job is granted to.
        site: SiteId,
        /// 1 where the job has no grant before, else 1 above the term handed back.
        term: Term,
    },
    /// Hands the grant of the term back.
    HandBack {
        /// The term of the grant.
        term: Term,
    },
    /// Begins the job.
    Begin {
        /// When, on how many nodes, and by when it ends.
        beginning: Beginning,
    },
    /// Finishes the job.
    Finish {
        /// When, and with what status.
        ending: Ending,
    },
}

/// What is done, under a stamp, to a job or a reservation. A job is named by the stamp of its `Submit`, a reservation
/// by that of its `Reserve`; `job` and `reservation` name the one that the operation is of.
#[derive(Drop, Debug)]
pub enum Operation {
    /// Submits a job with its sites and, if `held`, a user hold.
    Submit {
        /// The user who submits it.
        owner: Word,
        /// What it is submitted with, its sites among them.
        values: JobValues,
        /// Whether it gets a user hold.
        held: bool,
    },
    /// Does this to the job.
    OfJob(JobId, JobOperation),
    /// Makes a reservation.
    Reserve {
        /// The nodes that are kept free, and when.
        window: Window,
    },
    /// Cancels a reservation.
    Cancel {
        reservation: Stamp,
    },
    /// Retires the identifiers of the site that makes it, of jobs and of reservations, whose counters are in the range.
    Retire {
        /// The least counter of the range.
        first: u64,
        /// The greatest counter of the range.
        last: u64,
    },
}

impl Operation {
    /// The job that the operation is of, where its stamp is `at`, or `None` where it is of no job.
    pub fn job(&self, at: Stamp) -> Option<JobId>
        ensures { result ≡ job_of at (body_of self.now) }
    {
        match self {
            Operation::Submit { .. } => Some(at),
            Operation::OfJob(job, _) => Some(*job),
            Operation::Reserve { .. } | Operation::Cancel { .. } | Operation::Retire { .. } => None,
        }
    }

    /// The reservation that the operation is of, where its stamp is `at`, or `None` where it is of no reservation.
    pub fn reservation(&self, at: Stamp) -> Option<Stamp>
        ensures { result ≡ reservation_of at (body_of self.now) }
    {
        match self {
            Operation::Reserve { .. } => Some(at),
            Operation::Cancel { reservation } => Some(*reservation),
            _ => None,
        }
    }
}
