//! All sites of a federation and the packets between them, over whole runs.
#![tactic(auto)]

pub mod exchanges;
mod steps;
mod texts;
mod worlds;

pub use fed_model::{Event, Outcome};
pub use worlds::{World, run, site_sets_are_within_limits};
