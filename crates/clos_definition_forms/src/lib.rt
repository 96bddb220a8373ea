//! Definition forms: what each evaluates, and the one step of its effect.
#![tactic(auto)]

mod definition;
mod dependents;
mod forms;
mod variable;

pub use clos_eval::{
    Condition, ConditionKind, Limits, Native, Natives, Relation, Stop, Values, World, called_value,
    evaluate, plain,
};
pub use clos_making::{
    Callback, Dependent, Dependents, Handed, Listener, Notice, Recorder, define_combination, defun,
    place_of,
};
pub use definition::{defclass, defgeneric, defmethod, remove_method};
pub use dependents::{Change, change_dependents};
pub use variable::define_variable;
