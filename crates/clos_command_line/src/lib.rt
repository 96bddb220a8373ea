//! The command line of the program `clos`: its words, and what they ask for.
#![tactic(auto)]

mod command_line;
mod options;

pub use command_line::{VERSION, settings};
pub use options::{MAX_DEPTH, MAX_STEPS, Settings};
