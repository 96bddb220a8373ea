//! The names that the language gives a meaning, and what a call of each name calls (HyperSpec 1.9, 3.1.2.1.2).
#![tactic(auto)]

mod called_name;
mod callee;
mod names;
mod special;

pub use called_name::CalledName;
pub use callee::{Callee, ClassFunction, Output, SlotFunction};
pub use names::{
    definition_names, function_names, is_among, is_closed_function, is_definition, is_function,
    is_system_function, is_the, names_constant, system_function_names,
};
pub use special::{Special, is_special_operator, special_operator_name};
