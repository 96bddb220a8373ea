//! How a program that runs forms ends: its status, and the line that tells why it ended early.
#![tactic(auto)]

mod fault;
mod status;

pub use clos_system::{
    Callback, Dependent, Dependents, Handed, Limits, Listener, Native, Natives, Notice, Performed,
    Recorder, Relation, RunFault, Session, Stop, Summary, print_notice, read_source, run, run_form,
};
pub use fault::{Fault, FileName, report};
pub use status::{STATUS_CONDITION, STATUS_DONE, STATUS_FAULT, STATUS_USAGE, is_told};
