//! The making of instances, and the methods of the system that initialize them.
#![tactic(auto)]

pub mod class_change;
mod classes;
pub mod creation;
mod shared;
pub mod system_methods;
mod updates;

pub use clos_filling::filling;
