//! What the programs share of the process that they run in: the words of the command line, its session, its outputs, and its
//! status.
#![tactic(auto)]

mod arguments;
mod outputs;
mod session;

pub use arguments::{run_words, words};
pub use clos_program::{
    Fault, Output, STATUS_DONE, STATUS_FAULT, STATUS_USAGE, Settings, program, reads_input,
};
pub use outputs::fail;
pub use session::{ProcessSession, Program};
