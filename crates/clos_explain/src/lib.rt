//! Why forms end with conditions, told from what the session's tables have.
#![tactic(auto)]

mod circle;
mod classes;
mod combinations;
mod condition;
mod congruence;
mod functions;
mod limits;
mod nearest;
mod pointed;
mod slots;
mod subject;

pub use clos_look::{World, cache_page, class_page, generic_page, methods_page};
pub use condition::{Explained, explanation, no_class};
