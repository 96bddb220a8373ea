//! What begins at a place of a text, and the prefixes (HyperSpec 2.4.3, 2.4.6, 2.4.7, 2.4.8.2).
ghost use Rattle.std.specs.Prelude.{◌≡◌, ◌≤◌, length};
ghost use Rattle.lisp_tokens.specs.Front.{Begins};

use crate::characters::{begins_with, is_token_char};
use crate::fault::ReadFault;

/// A prefix: how long it is, and the name of the operator that it stands for.
#[derive(Clone, Copy, Debug, Drop)]
pub struct Prefix {
    pub len: usize,
    pub operator: &'static str,
}

/// What begins at a place of a text.
#[derive(Clone, Copy, Debug, Drop)]
pub enum Front {
    Token,
    String,
    List,
    Prefixed(Prefix),
    /// No datum, and why.
    Nothing(ReadFault),
}

/// What begins at `at`.
pub fn front_at(bytes: &[u8], at: usize) -> Front
    requires { at ≤ length bytes.now }
    ensures { Begins bytes.now at result }
{
    if at == bytes.len() {
        return Front::Nothing(ReadFault::EndInside(at));
    }
    match bytes[at] {
        b'(' => Front::List,
        b'"' => Front::String,
        b')' => Front::Nothing(ReadFault::StrayClose(at)),
        b'\'' => prefix_of(1, "QUOTE"),
        b'`' => prefix_of(1, "QUASIQUOTE"),
        b'#' if begins_with(bytes, at + 1, b'\'') => prefix_of(2, "FUNCTION"),
        b'#' => Front::Nothing(ReadFault::BadHash(at)),
        b',' if begins_with(bytes, at + 1, b'@') => prefix_of(2, "UNQUOTE-SPLICING"),
        b',' if begins_with(bytes, at + 1, b'.') => Front::Nothing(ReadFault::BadToken(at)),
        b',' => prefix_of(1, "UNQUOTE"),
        first if is_token_char(first) => Front::Token,
        _ => Front::Nothing(ReadFault::BadToken(at)),
    }
}

fn prefix_of(len: usize, operator: &'static str) -> Front
    ensures { result ≡ Front.Prefixed (record { len = len; operator = operator.entry }) }
{
    Front::Prefixed(Prefix { len, operator })
}
