//! The machine that evaluates forms: its turns, by what comes next, and the whole of a form.
#![tactic(auto)]

mod actions;
pub mod eval;
mod forms;
mod frames;
mod host;
mod natives;

pub use clos_machine::fault::wrong_type;
pub use clos_machine::truth::t;
pub use clos_machine::{
    CombinationDefinition, Condition, ConditionKind, Function, Limits, Stop, Values, World,
    about_name, called_value, name_of, plain, setter_value,
};
pub use clos_native::{Native, Relation};
pub use clos_objects_core::class_functions::symbol_in;
pub use eval::evaluate;
pub use host::Natives;
