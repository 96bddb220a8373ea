//! Classes and their precedence (HyperSpec 4.3).
#![tactic(auto)]

mod admit;
mod among;
mod anew;
mod below;
mod cycle;
mod definitions;
mod direct;
mod exchange;
mod fault;
mod fill;
mod find;
mod kept;
pub mod laws;
mod lists;
mod names;
pub mod numbers;
mod place;
mod predefined;
mod preview;
mod settle;
mod table;
mod touched;
mod woken;

pub use admit::Changed;
pub use fault::ClassFault;
pub use preview::Preview;
pub use table::Hierarchy;
