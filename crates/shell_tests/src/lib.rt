//! Tests of the prompt and what is shown there, of how conditions and faults of reading are explained, and of the page of what files
//! defined: what no clause says of their texts.
#![tactic(auto)]

#[cfg(test)]
mod explained;
#[cfg(test)]
mod explanations;
#[cfg(test)]
mod malformed;
#[cfg(test)]
mod paged;
#[cfg(test)]
mod prompt;
#[cfg(test)]
mod shown;
