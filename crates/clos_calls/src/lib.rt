//! Calls: of functions by their names, and of generic functions; bodies with their parameters.
#![tactic(auto)]

pub mod bodies;
pub mod functions;
pub mod generic_calls;
mod keywords;
