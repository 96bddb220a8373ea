//! What forms mean, without any machine: `specs/Meaning.antt` and what it stands on. The code has what both the meaning and
//! the machine speak of: what a running body knows of its call.
#![tactic(auto)]

pub mod arguments;

pub use arguments::{Arguments, Context, Dispatch, Running};
pub use clos_world::{
    CombinationDefinition, Condition, ConditionKind, Discarded, Effective, EffectiveMethod,
    EffectiveSlot, Function, Layout, Limits, Lost, Stop, SystemFunction, Values, World, about,
    about_both, about_name, called_value, name_of, plain, setter_value,
};
