//! One site of a federation by itself: what it says to lines of bytes, what the user is told beside that, and the replay of
//! the lines that it keeps.
#![tactic(auto)]

mod acts;
mod answers;
mod complaints;
mod identifier_lines;
mod knowing;
pub mod laws;
mod line_words;
mod look_texts;
mod machine_objects;
mod misused;
mod not_retired;
mod other_rosters;
mod own_lines;
mod packets;
mod plan_objects;
mod reasons;
mod refused;
mod roster_lines;
mod rosters;
mod seen;
mod site;
mod tellings;

pub use answers::{Begun, LineText, TextAnswer};
pub use complaints::{Complaint, RefusedCommand};
pub use identifier_lines::IdentifierLine;
pub use line_words::words_of_lines;
pub use look_texts::look_text;
pub use plan_objects::plan_json;
pub use roster_lines::roster_text;
pub use seen::seen_lines;
pub use site::{Site, SiteAnswer};
pub use tellings::{Told, words_beside};
