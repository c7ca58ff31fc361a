//! A journal of texts on a disk. Texts are added in groups, each of which a crash leaves whole or leaves out, and which is
//! acknowledged once the disk has it. Each entry's digest covers the entries before it, so that damage is told.
#![tactic(auto)]

mod calls;
mod devices;
pub mod digests;
mod faults;
mod files;
mod journals;
pub mod laws;
mod lines;
mod memory;
mod steps;
mod tails;

pub use devices::{Device, Replacement};
pub use faults::{DeviceFault, JournalFault, OpenFault};
pub use files::{FileDevice, OpenedFile};
pub use journals::{Journal, MAX_BYTES, Recovered, Unopened};
pub use lines::{are_lines, is_line};
pub use memory::{Memory, Tear};
pub use tails::keep;
