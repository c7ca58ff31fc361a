//! Which identifiers are retired: sets of counters that are kept as ranges. Of each set there is one list of ranges, and
//! sets join to their union.
#![tactic(auto)]

mod laws;
pub mod ranges;
mod retired;
mod retirements;

pub use laws::{
    joins_are_unions, ranges_are_counted_by_their_starts, ranges_are_one_for_each_set,
    tables_join_without_the_dropped,
};
pub use ranges::{Range, Ranges};
pub use retired::{Retired, is_retired};
pub use retirements::Retirements;
