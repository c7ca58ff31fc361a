//! What a site on a disk says to an input of lines, group by group, and to one line whose words are given apart.
#![tactic(auto)]

mod faults;
mod inputs;
pub mod laws;
mod lines;
pub mod openings;
mod serving;
mod written;

pub use faults::ServeFault;
pub use inputs::{MAX_LINE_BYTES, MAX_TAKE_BYTES, at_most_longest};
pub use lines::{line_of_words, take_line};
pub use openings::{NotCompacted, Place, Stop, serve_all};
pub use serving::{Served, serve};
pub use written::answered_status;
