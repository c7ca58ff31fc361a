//! The words of the six utilities, and what they ask: the options and operands of the utility syntax (POSIX.1-2017, XBD
//! 12.2), and the readers of their values.
#![tactic(auto)]

mod faults;
pub mod identifiers;
mod jobs;
mod kinds;
pub mod laws;
mod numbers;
mod priorities;
mod requests;
pub mod resources;
pub mod settings;
mod sites;
mod spelling;
mod utilities;

pub use faults::UsageFault;
pub use identifiers::read_identifier;
pub use kinds::read_kinds;
pub use numbers::{read_limit, read_nodes, read_number};
pub use priorities::read_priority;
pub use requests::{Request, read_words};
pub use resources::read_resources;
pub use sites::read_site;
pub use utilities::{Choice, Utility};
