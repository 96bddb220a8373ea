//! The transcript of a run, form by form: what each wrote, and on fresh lines its condition or its value.
#![tactic(auto)]

mod line;
mod told;

pub use line::ends_line;
pub use told::tell;
