//! What a job's origin decides where a site asks for the job.
use crate::refusals::Refusal;

/// What a job's origin decides where a site asks for the job.
#[derive(Clone, Copy, PartialEq, Eq, Debug)]
pub enum Decision {
    /// The job is to be granted to the site: its grant is not open.
    Grant,
    /// The job is granted to the site already, and there is nothing to do.
    Yours,
    /// The job isn't granted to the site: `UnknownJob`, `Gone`, `NotOrigin`, `Held`, `NotEligible` or `TakenBy`.
    Refused(Refusal),
}
