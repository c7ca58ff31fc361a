//! Reading pieces of JSON, each with the kind of its fault, and making them.
#![tactic(auto)]

mod arrays;
mod flaws;
mod numbers;
mod objects;

pub use arrays::{elements, is_word, text, truth};
pub use flaws::{Flaw, both};
pub use numbers::{integer, natural};
pub use objects::{has_names, member, read_members};
