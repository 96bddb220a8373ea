//! Top-level forms: from data to definitions and expressions that are checked (HyperSpec 3.2.3.1).
#![tactic(auto)]

mod top;

pub use top::{Top, parse_top};
