//! What the program `clos` does: files run one after another in one session, and a status at the end.
#![tactic(auto)]

pub mod dependents;
pub mod natives;
mod notices;
mod output;
mod running;
mod sources;
mod way;

pub use clos_command_line::{Settings, settings};
pub use clos_ending::{
    Callback, Dependent, Dependents, Fault, FileName, Handed, Limits, Native, Natives, Notice,
    Performed, Recorder, Relation, RunFault, STATUS_CONDITION, STATUS_DONE, STATUS_FAULT,
    STATUS_USAGE, Session, Stop, Summary, read_source, report, run_form,
};
pub use dependents::{KindNumber, kind_number};
pub use natives::{affine, low};
pub use output::Output;
pub use running::{is_input, limits, program, program_in, reads_input};
pub use sources::Sources;
pub use way::Way;
