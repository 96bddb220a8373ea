//! What calls of generic functions were worked out to, kept for the next call.
#![tactic(auto)]

pub mod cache;
pub mod change;
pub mod key;
pub mod laws;

pub use cache::Cache;
pub use key::{Argument, Key};
