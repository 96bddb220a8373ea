//! Functions that a host stores, and programs call by name.
#![tactic(auto)]

mod lookup;
mod native;
mod relation;

pub use lookup::find;
pub use native::{Boxed, Native};
pub use relation::Relation;
