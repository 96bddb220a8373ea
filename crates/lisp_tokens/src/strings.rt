//! Strings (HyperSpec 2.4.5).
ghost use Rattle.std.specs.Prelude.{◌≡◌, ℕ, ◌<◌, ◌≤◌, length, slice_index, false, MatchResult, IfOk, encode_utf8_all, string_bytes};
ghost use Rattle.std.specs.Str.{chars};
ghost use Rattle.lisp_tokens.specs.Offsets.{Reads, Refuses};
ghost use Rattle.lisp_tokens.specs.Strings.{body_len, characters};

use crate::fault::ReadFault;
use lisp_data::{Datum, Text};
use std::alloc::{AllocError, Global};

/// The string that begins with the quote at `at`, and where it ends.
pub fn read_string(alloc: Global, bytes: &[u8], at: usize) -> Result<(Datum, usize), ReadFault>
    requires within { at < length bytes.now }
    requires begins { slice_index bytes.now at ≡ 34 }
    ensures { MatchResult result
        (λ found. (room : ℕ) → Reads bytes.now room at found)
        (λ e. (room : ℕ) → Refuses bytes.now room at e) }
{
    let (_, rest) = bytes.split_at(at + 1);
    let len = body_len(rest);
    match str::from_utf8(&rest[..len]) {
        Err(error) => Err(ReadFault::NotText(at + 1 + error.valid_up_to())),
        Ok(body) => {
            if len == rest.len() {
                return Err(ReadFault::EndInside(bytes.len()));
            }
            let text = Text::new(unescaped(alloc, body)?)?;
            Ok((Datum::Str(text), at + 1 + len + 1))
        }
    }
}

/// How many bytes stand before the closing quote, or the end.
fn body_len(text: &[u8]) -> usize
    ensures value { result ≡ body_len false text.now }
    ensures within { result ≤ length text.now }
{
    let mut taken = false;
    for (at, byte) in text.iter().enumerate() {
        if taken {
            taken = false;
        } else if *byte == b'\\' {
            taken = true;
        } else if *byte == b'"' {
            return at;
        }
    }
    text.len()
}

/// The characters of a string: each but a backslash that takes the next one.
fn unescaped(alloc: Global, body: &str) -> Result<String, AllocError>
    ensures { IfOk result (λ s. string_bytes s ≡ characters body.now) }
{
    let mut out = String::new(alloc);
    let mut taken = false;
    for character in body.chars() {
        if character == '\\' && !taken {
            taken = true;
            continue;
        }
        out.push(character)?;
        taken = false;
    }
    Ok(out)
}
