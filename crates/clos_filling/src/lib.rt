//! Initargs: which are valid, and which slots they fill; and slots that are filled one after another (HyperSpec 7.1).
#![tactic(auto)]

pub mod filling;
pub mod initargs;
pub mod reached;
pub mod slot_names;
