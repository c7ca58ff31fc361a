//! What is said of the jobs of a board, and the texts that answer the lines of a site: the same in a replay, live, and at
//! a site by itself.
#![tactic(auto)]

mod attributes;
mod full_lines;
mod identifiers;
pub mod laws;
mod listing_texts;
mod listings;
mod outcomes;
mod padding;
mod plan_texts;
mod short_lines;

pub use attributes::{hold_letters, holder_text, holds_text, letter_sign};
pub use identifiers::{identifier_text, site_text};
pub use listing_texts::listing_text;
pub use listings::{full, list};
pub use outcomes::{AnswerText, outcome_line, usage_line};
pub use plan_texts::plan_text;
