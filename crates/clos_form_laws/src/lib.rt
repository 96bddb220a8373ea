//! Laws of forms: what well-formed ones mean is told of parts that can't be malformed, and evaluation comes to no others.
#![tactic(auto)]

pub mod laws;
