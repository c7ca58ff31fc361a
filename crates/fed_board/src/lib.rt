//! Boards, which stand for sets of operations: each reads as the view of its set.
#![tactic(auto)]

mod boards;
mod changed_jobs;
mod changes;
mod counts;
mod facts;
mod merging;
mod noting;
mod readings;
mod records;
mod retiring;
mod rises;
mod same;
mod site_changes;

pub use boards::Board;
pub use facts::{board_is_covered, board_is_in_order, records_are_covered, records_are_in_order};
pub use fed_model::{MAX_JOBS, MAX_RESERVATIONS};
pub use merging::{merging_is_associative, merging_is_commutative, merging_is_idempotent};
pub use readings::{boards_that_read_the_same_are_equal, records_that_read_the_same_are_equal};
pub use records::Records;
