//! What a plan says.
use fed_stamp::JobId;

/// Which jobs start now, and when the first of the others is to start.
#[derive(Drop, Debug)]
pub struct Plan {
    /// The jobs that start now, in the order of the queue.
    pub starts: Vec<JobId>,
    /// The first job of the queue that doesn't fit now, with the least second, from the moment on, at which it does.
    pub head: Option<(JobId, u64)>,
}
