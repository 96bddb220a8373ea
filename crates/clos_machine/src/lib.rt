//! The machine that evaluates forms, and what its states stand for.
#![tactic(auto)]

pub mod counter;
pub mod fault;
pub mod finalized;
pub mod locals;
pub mod machine;
pub mod moves;
pub mod names;
pub mod parameters;
pub mod truth;
pub mod updating;

pub use clos_forms::{ClassFunction, Output, SlotFunction};
pub use clos_meaning::{
    Arguments, CombinationDefinition, Condition, ConditionKind, Context, Dispatch, EffectiveMethod,
    Function, Limits, Running, Stop, Values, World, about, about_both, about_name, called_value,
    name_of, plain, setter_value,
};
