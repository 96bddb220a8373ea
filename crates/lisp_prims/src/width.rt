//! How large integers may be.

/// An integer of the language (HyperSpec 12.1.4.1.1).
pub type Integer = i64;

/// One without its sign.
pub type Natural = u64;
