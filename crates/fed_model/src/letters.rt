//! The letter that tells the state of a job in a listing.

/// The state of a job that isn't gone, by the letter that listings show: E, R, H and Q are letters of job states of the
/// batch services of POSIX.1-2017, XCU chapter 3. That T means a granted job is this project's own. The first that
/// holds in the order here is the job's.
#[derive(Clone, Copy, PartialEq, Eq, Debug)]
pub enum Letter {
    /// `E`: begun and deleted.
    Exiting,
    /// `R`: begun.
    Running,
    /// `H`: a hold is present.
    Held,
    /// `T`: granted to a site.
    Granted,
    /// `Q`: none of these; it waits for a grant.
    Queued,
}
