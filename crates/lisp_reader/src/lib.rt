//! Reading: from the bytes of a text to its data (HyperSpec 2).
//!
//! `read_form` gives the next datum from an offset on. What it answers is defined in `specs/`, over the gaps and spellings
//! of `lisp_tokens`, relations on whole texts, and for a text that spells no datum where it is at fault. A law says that
//! there is one answer for each text.
#![tactic(auto)]

pub mod laws;
mod lists;
pub mod read;

pub use lisp_tokens::ReadFault;
pub use read::{MAX_NESTING, read_form};
