//! Forms one after another, conditionals, the collecting of values, variables, names that stand for slots, and output.
#![tactic(auto)]

pub mod arguments;
pub mod binding;
pub mod control;
pub mod output;
pub mod slot_names;
