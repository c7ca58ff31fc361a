//! By which changes jobs are behind records of them.

use fed_stamp::JobId;

/// A change by a site, under the counter, by which a job is behind a record of it.
#[derive(Clone, Copy, Drop)]
pub(crate) struct Rise {
    pub(crate) counter: u64,
    pub(crate) site: usize,
    pub(crate) job: JobId,
}
