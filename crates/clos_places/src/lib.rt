//! Places, and names as places: how they get new values (HyperSpec 5.1).
#![tactic(auto)]

pub mod assignment;
pub mod places;
