//! Classes as values, find-method, and the slots of instances by their names.
#![tactic(auto)]

pub mod class_functions;
pub mod find_method;
pub mod slots;
