//! Top-level forms performed: what each does by the rules (HyperSpec 3.1.2.1).
#![tactic(auto)]

mod form;

pub use clos_definition_forms::{
    Callback, Condition, ConditionKind, Dependent, Dependents, Handed, Limits, Listener, Native,
    Natives, Notice, Recorder, Relation, Stop, Values, World, called_value, place_of,
};
pub use form::perform;
