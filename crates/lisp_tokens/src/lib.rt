//! What stands at a place of a text (HyperSpec 2.1 to 2.4): gaps, tokens, strings, prefixes, and why a text is at fault.
//!
//! How all data are spelled, lists too, is defined in `specs/`, as relations on whole texts. The functions read what has no
//! other datum in it: where gaps end, what begins after them, a token, a string.
#![tactic(auto)]

pub mod characters;
pub mod fault;
pub mod front;
pub mod gaps;
pub mod strings;
pub mod token;

pub use characters::{begins_with, goes_on};
pub use fault::ReadFault;
pub use front::{Front, Prefix, front_at};
pub use gaps::skip_gaps;
pub use strings::read_string;
pub use token::read_token;
