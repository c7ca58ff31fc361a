//! Why a replay ends early.

use thiserror::Error;

/// Why a replay ends early.
#[derive(Clone, Copy, Debug, PartialEq, Eq, Drop, Error)]
pub enum ReplayFault {
    /// The line with this number, from 1, is the first that can't be read. It has done nothing.
    #[error("line {0}: cannot be read")]
    Line(u64),
    /// The script can't be read to its end: a read failed, the script has more than 16,777,216 bytes, or it hasn't
    /// ended after 20,000,000 calls of `read`. A read that is interrupted is tried again, and counts as a call. No line
    /// ran.
    #[error("the script can't be read to its end")]
    Read,
    /// An answer can't be written, or the writer can't be flushed after the last line that ran.
    #[error("an answer can't be written")]
    Write,
    /// Memory was refused, for the script or for a line. Of that line nothing is written.
    #[error("out of memory")]
    NoMemory,
}
