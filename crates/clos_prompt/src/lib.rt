//! Sessions at a prompt, where lines come and each is answered.
#![tactic(auto)]

mod call;
mod command;
mod prompt;
mod waiting;
mod writing;

pub use prompt::run_prompt;
