//! Method combinations, and the effective method of a call (HyperSpec 7.6.6).
#![tactic(auto)]

mod arguments;
mod call;
pub mod combinations;
pub mod direction;
pub mod fault;
mod groups;
pub mod laws;
mod long;
pub mod meter;
pub mod outcome;
mod short;
mod standard;

pub use clos_groups::{CombinationDefinition, LongForm, ShortForm};
pub use combinations::{Combinations, name_of};
pub use fault::{CombinationFault, UseFault};
pub use meter::Meter;
pub use outcome::Outcome;
