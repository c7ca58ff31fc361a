//! A site on a disk. What the site says rests on the entries of its journal, which the disk has before anything is said.
#![tactic(auto)]

mod compactions;
mod faults;
mod headers;
mod homes;
pub mod laws;
mod runs;

pub use compactions::Compaction;
pub use faults::HomeFault;
pub use fed_site::Told;
pub use headers::{Header, JournalFormat, read_header};
pub use homes::{Home, UnopenedHome};
pub use runs::replay;
