//! Which job a change was of.

use fed_stamp::JobId;

/// A change of a job, under the counter of its stamp or a greater one.
#[derive(Clone, Copy, Drop)]
pub(crate) struct Change {
    pub(crate) counter: u64,
    pub(crate) job: JobId,
}
