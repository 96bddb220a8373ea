//! Runs of files whose conditions and faults of reading are explained, and pages of what they defined.
#![tactic(auto)]

mod explained;
mod paged;

pub use clos_program::{Limits, Output, Session, limits, program, settings};
pub use explained::run_explained;
pub use paged::run_paged;
