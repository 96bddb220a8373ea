//! The state of a session: its classes, generic functions, methods and instances, and what was written.
#![tactic(auto)]

pub mod condition;
pub mod dispatch;
pub mod effective_method;
pub mod function_name;
pub mod functions;
pub mod globals;
pub mod hearing;
pub mod keys;
pub mod limits;
pub mod tables;
pub mod values;
pub mod world;

pub use clos_class::{Effective, EffectiveSlot, Layout};
pub use clos_comb::{CombinationDefinition, Outcome, UseFault, name_of};
pub use clos_method::{MethodIds, SystemFunction};
pub use clos_store::{Discarded, Lost};
pub use condition::{
    Condition, ConditionKind, Stop, about, about_both, about_call, about_name, about_names, plain,
};
pub use effective_method::EffectiveMethod;
pub use function_name::{called_value, setter_value};
pub use functions::{Function, Functions};
pub use globals::Globals;
pub use hearing::Hearing;
pub use limits::Limits;
pub use tables::World;
pub use values::Values;
