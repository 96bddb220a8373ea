//! What methods do, and their next methods (HyperSpec 7.6.6).
#![tactic(auto)]

pub mod methods;
pub mod next_methods;

pub use clos_calls::{bodies, functions, generic_calls};
