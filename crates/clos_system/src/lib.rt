//! Runs of whole texts in sessions, and their transcripts.
#![tactic(auto)]

mod transcript;

pub use clos_session::{
    Callback, ConditionKind, Dependent, Dependents, Handed, Limits, Listener, Native, Natives,
    Notice, Recorder, Relation, Reply, Session, Stop, Values, World, print_notice,
};
pub use transcript::{Performed, RunFault, Summary, read_source, run, run_form};
