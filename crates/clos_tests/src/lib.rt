//! Tests of sessions: what no row of texts can state.
#![tactic(auto)]

#[cfg(test)]
mod data;
#[cfg(test)]
mod dependents;
#[cfg(test)]
mod drawn;
#[cfg(test)]
mod session;
