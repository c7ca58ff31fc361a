//! Observed-remove sets without tombstones: each element has the stamps of the operations that added it, its tags,
//! and an operation that removes an element removes the tags that it has seen. Only live pairs of an element and a
//! tag are kept: a pair that one side of a join lacks was removed there if that side's version covers its stamp.
#![tactic(auto)]

mod elements;
mod groups;
mod laws;
mod merges;
mod pairs;
mod sets;
mod tag_changes;
mod tags;

pub use elements::Elements;
pub use laws::joins_take_the_later_state;
pub use pairs::Pairs;
pub use sets::TagSet;
pub use tag_changes::TagChange;
