//! Laws of sessions: what holds in each state that forms lead to from the first one.
#![tactic(auto)]

pub mod laws;
