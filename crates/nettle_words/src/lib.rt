//! The words of the program `nettlebeam`: what it is asked, and what it says where they can't be read.
#![tactic(auto)]

mod command_line;

pub use command_line::{Asked, Task, commands_are_taken, read_command_line};
