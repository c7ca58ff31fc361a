//! What the lines of a script say.
#![tactic(auto)]

mod askers;
mod commands;
mod forms;
pub mod laws;
mod lines;
mod rosters;
mod script_lines;
mod values;
mod verbs;

pub use forms::{one_word, two_words};
pub use lines::{Words, split_line};
pub use rosters::{BoxedRoster, read_roster};
pub use script_lines::{Line, read_first_line, read_later_line, read_own_words, told_words};
pub use values::{read_id, read_moment};
