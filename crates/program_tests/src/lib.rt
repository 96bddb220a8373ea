//! Tests of the program that runs files: what no clause says of its words, texts and statuses.
#![tactic(auto)]

#[cfg(test)]
mod command_line;
#[cfg(test)]
mod dependents;
#[cfg(test)]
mod natives;
#[cfg(test)]
mod program;
