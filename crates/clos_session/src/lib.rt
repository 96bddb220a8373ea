//! Sessions: the top-level forms that are submitted one after another, and what they leave.
#![tactic(auto)]

mod notices;
mod session;

pub use clos_perform::{
    Callback, Condition, ConditionKind, Dependent, Dependents, Handed, Limits, Listener, Native,
    Natives, Notice, Recorder, Relation, Stop, Values, World,
};
pub use notices::print_notice;
pub use session::{Reply, Session};
