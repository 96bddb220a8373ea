//! Class precedence lists (HyperSpec 4.3.5), over classes that are known by their numbers.
#![tactic(auto)]

mod order;
mod precedence;
mod predecessors;
mod seen;
mod superclasses;

pub use precedence::{contains, precedence_list};
pub use seen::Seen;
pub use superclasses::Superclasses;
