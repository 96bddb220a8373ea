//! The gaps between data: blanks and comments (HyperSpec 2.1.4.7, 2.4.4, 2.4.8.19).
ghost use Rattle.std.specs.Prelude.{◌≡◌, ℕ, ◌+◌, ◌<◌, ◌≤◌, length, take, drop, slice_index, true, MatchOption, MatchResult, IsUtf8, IsTrue};
ghost use Rattle.std.specs.List.{prefix_len};
ghost use Rattle.std.specs.Str.{IsValidUpTo};
ghost use Rattle.lisp_tokens.specs.Offsets.{GapRefuses};
ghost use Rattle.lisp_tokens.specs.Gaps.{Gaps, Closes, Unclosed, is_in_line, line, opens_comment, closes_comment};

use crate::characters::{begins_with, is_blank};
use crate::fault::ReadFault;

/// Where the gaps that begin at `from` end.
pub fn skip_gaps(bytes: &[u8], from: usize) -> Result<usize, ReadFault>
    requires { from ≤ length bytes.now }
    ensures { MatchResult result
        (λ n. (from ≤ n) × (n ≤ length bytes.now) × Gaps (drop from bytes.now) (drop n bytes.now))
        (GapRefuses bytes.now from) }
{
    let mut at = from;
    while at < bytes.len() {
        let byte = bytes[at];
        if is_blank(byte) {
            at += 1;
        } else if byte == b';' {
            at = line_end(bytes, at)?;
        } else if opens_comment(bytes, at) {
            at = comment_end(bytes, at)?;
        } else {
            return Ok(at);
        }
    }
    Ok(at)
}

/// Where the comment that begins with the semicolon at `at` ends: before a newline, or with the text.
fn line_end(bytes: &[u8], at: usize) -> Result<usize, ReadFault>
    requires within { at < length bytes.now }
    requires begins { slice_index bytes.now at ≡ 59 }
    ensures { MatchResult result
        (λ n. (n ≡ at + 1 + prefix_len is_in_line (drop (at + 1) bytes.now))
        × (n ≤ length bytes.now) × IsUtf8 (line (drop (at + 1) bytes.now)))
        (GapRefuses bytes.now at) }
{
    let (_, rest) = bytes.split_at(at + 1);
    let len = line_len(rest);
    match invalid_at(&rest[..len]) {
        None => Ok(at + 1 + len),
        Some(invalid) => Err(ReadFault::NotText(at + 1 + invalid)),
    }
}

/// How many bytes stand before the first newline, or the end.
fn line_len(text: &[u8]) -> usize
    ensures { result ≡ prefix_len is_in_line text.now }
{
    text.iter().take_while(|byte| **byte != b'\n').count()
}

/// Where the comment that begins with the mark `#|` at `at` ends: after the mark `|#` that closes it.
fn comment_end(bytes: &[u8], at: usize) -> Result<usize, ReadFault>
    requires within { at + 2 ≤ length bytes.now }
    requires begins { opens_comment (drop at bytes.now) ≡ true }
    ensures { MatchResult result
        (λ n. (k : ℕ) × (n ≡ at + 2 + k) × (n ≤ length bytes.now)
        × Closes (drop (at + 2) bytes.now) k × IsUtf8 (take k (drop (at + 2) bytes.now)))
        (GapRefuses bytes.now at) }
{
    let (_, rest) = bytes.split_at(at + 2);
    match comment_len(rest) {
        Some(len) => match invalid_at(&rest[..len]) {
            None => Ok(at + 2 + len),
            Some(invalid) => Err(ReadFault::NotText(at + 2 + invalid)),
        },
        None => match invalid_at(rest) {
            None => Err(ReadFault::EndInside(at)),
            Some(invalid) => Err(ReadFault::NotText(at + 2 + invalid)),
        },
    }
}

/// How many bytes follow a mark `#|`, up to and with the mark that closes it, or None where the text ends first.
fn comment_len(text: &[u8]) -> Option<usize>
    ensures { MatchOption result (Unclosed text.now) (λ n. (n ≤ length text.now) × Closes text.now n) }
{
    let mut inner: usize = 0;
    let mut at = 0;
    while at < text.len() {
        if opens_comment(text, at) {
            inner += 1;
            at += 2;
        } else if !closes_comment(text, at) {
            at += 1;
        } else if inner > 0 {
            inner -= 1;
            at += 2;
        } else {
            return Some(at + 2);
        }
    }
    None
}

/// Whether the mark `#|` stands at `at`.
#[tactic(auto, using(crate::proofs::OnComments::at_marks))]
fn opens_comment(bytes: &[u8], at: usize) -> bool
    requires { at < length bytes.now }
    ensures value { result ≡ opens_comment (drop at bytes.now) }
    ensures within { IsTrue result → at + 2 ≤ length bytes.now }
{
    begins_with(bytes, at, b'#') && begins_with(bytes, at + 1, b'|')
}

/// Whether the mark `|#` stands at `at`.
#[tactic(auto, using(crate::proofs::OnComments::at_marks))]
fn closes_comment(bytes: &[u8], at: usize) -> bool
    requires { at < length bytes.now }
    ensures value { result ≡ closes_comment (drop at bytes.now) }
    ensures within { IsTrue result → at + 2 ≤ length bytes.now }
{
    begins_with(bytes, at, b'|') && begins_with(bytes, at + 1, b'#')
}

/// Where a text is no UTF-8, if it is none.
fn invalid_at(text: &[u8]) -> Option<usize>
    ensures { MatchOption result (IsUtf8 text.now) (λ n. IsValidUpTo text.now n) }
{
    match str::from_utf8(text) {
        Ok(_) => None,
        Err(error) => Some(error.valid_up_to()),
    }
}
