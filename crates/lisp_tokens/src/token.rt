//! Tokens: integers, keywords and symbols (HyperSpec 2.2, 2.3).
ghost use Rattle.std.specs.Prelude.{◌≡◌, ℕ, ◌+◌, ◌<◌, ◌≤◌, ◌==◌, ◌||◌, not, length, drop, slice_index, true, map, FitsSigned, IfOk, IsTrue, MatchResult, SomeIff};
ghost use Rattle.std.specs.Char.{to_ascii_uppercase};
ghost use Rattle.std.specs.Int.{w64};
ghost use Rattle.std.specs.List.{prefix_len, position_or_len, before_first, after_first, list_all};
ghost use Rattle.std.specs.Str.{IsAscii};
ghost use Rattle.std.specs.Str.Parse.{without_leading_sign};
ghost use Rattle.lisp_tokens.specs.Offsets.{Reads, Refuses};
ghost use Rattle.lisp_tokens.specs.Characters.{begins_token};
ghost use Rattle.lisp_tokens.specs.Token.{class_of, is_integer, is_ratio, is_float, is_keyword, is_digits, is_empty, is_point, all_digits, are_float_parts, is_marker, run, value};

use crate::characters::token_len;
use crate::fault::ReadFault;
use lisp_data::{Datum, Name};
use std::alloc::{AllocError, Global};

/// What a token is by its spelling alone.
#[derive(Clone, Copy, Debug, Drop, PartialEq, Eq)]
pub enum Class {
    Integer,
    Dot,
    Keyword,
    Symbol,
    /// A number of another type, more than one dot, or a colon out of place.
    Bad,
}

/// The token that begins at `at`, and where it ends.
pub fn read_token(alloc: Global, bytes: &[u8], at: usize) -> Result<(Datum, usize), ReadFault>
    requires within { at < length bytes.now }
    requires begins { begins_token (slice_index bytes.now at) ≡ true }
    ensures { MatchResult result
        (λ found. (room : ℕ) → Reads bytes.now room at found)
        (λ e. (room : ℕ) → Refuses bytes.now room at e) }
{
    let token = token_at(bytes, at);
    let end = at + token.len();
    let Ok(text) = str::from_utf8(token) else {
        unreachable!("the characters of a token are ASCII")
    };
    match class_of(token) {
        Class::Integer => match integer(token) {
            Some(number) => Ok((Datum::Int(number), end)),
            None => Err(ReadFault::BadToken(at)),
        },
        Class::Keyword => Ok((Datum::Sym(upcased_name(alloc, &text[1..], true)?), end)),
        Class::Symbol => Ok((Datum::Sym(upcased_name(alloc, text, false)?), end)),
        Class::Dot => Err(ReadFault::BadDot(at)),
        Class::Bad => Err(ReadFault::BadToken(at)),
    }
}

/// The longest run of token characters from `at` on.
fn token_at(bytes: &[u8], at: usize) -> &[u8]
    requires { at ≤ length bytes.now }
    ensures value { result.now ≡ run (drop at bytes.now) }
    ensures within { at + length result.now ≤ length bytes.now }
{
    let (_, rest) = bytes.split_at(at);
    let len = token_len(rest);
    &rest[..len]
}

/// The class of a token, by the first line that fits.
#[tactic(auto, unfolding(crate::specs::Token::class_of))]
fn class_of(run: &[u8]) -> Class
    ensures value { result ≡ class_of run.now }
    ensures integer { result ≡ Class.Integer → is_integer run.now ≡ true }
    ensures keyword { result ≡ Class.Keyword → is_keyword run.now ≡ true }
{
    if is_integer(run) {
        Class::Integer
    } else if is_other_number(run) {
        Class::Bad
    } else if all_points(run) {
        if run.len() == 1 {
            Class::Dot
        } else {
            Class::Bad
        }
    } else if !run.contains(&b':') {
        Class::Symbol
    } else if is_keyword(run) {
        Class::Keyword
    } else {
        Class::Bad
    }
}

/// An optional sign, digits, an optional point.
#[tactic(auto, unfolding(crate::specs::Token::is_integer))]
fn is_integer(run: &[u8]) -> bool
    ensures { result ≡ is_integer run.now }
{
    let (digits, after) = split_at_byte(without_sign(run), b'.');
    is_digits(digits) && after.is_empty()
}

/// A ratio or a float.
fn is_other_number(run: &[u8]) -> bool
    ensures { result ≡ (is_ratio run.now || is_float run.now) }
{
    is_ratio(run) || is_float(run)
}

/// Points, and nothing else.
fn all_points(run: &[u8]) -> bool
    ensures { result ≡ list_all is_point run.now }
{
    run.iter().all(|byte| *byte == b'.')
}

/// An optional sign, digits, a slash, digits.
#[tactic(auto, unfolding(crate::specs::Token::is_ratio))]
fn is_ratio(run: &[u8]) -> bool
    ensures { result ≡ is_ratio run.now }
{
    let (numerator, denominator) = split_at_byte(without_sign(run), b'/');
    is_digits(numerator) && is_digits(denominator)
}

/// An optional sign and a number with a fraction or an exponent.
#[tactic(auto, unfolding(crate::specs::Token::is_float))]
fn is_float(run: &[u8]) -> bool
    ensures { result ≡ is_float run.now }
{
    let unsigned = without_sign(run);
    let mantissa_len = mantissa_len(unsigned);
    let (mantissa, exponent) = unsigned.split_at(mantissa_len);
    let (whole, fraction) = split_at_byte(mantissa, b'.');
    are_float_parts(whole, fraction, exponent)
}

/// Digits on both sides of the point, and an exponent or nothing from its marker on.
fn are_float_parts(whole: &[u8], fraction: &[u8], exponent: &[u8]) -> bool
    ensures { result ≡ are_float_parts whole.now fraction.now exponent.now }
{
    if !all_digits(whole) || !all_digits(fraction) {
        return false;
    }
    if exponent.is_empty() {
        return !fraction.is_empty();
    }
    has_bytes(whole, fraction) && is_digits(without_sign(&exponent[1..]))
}

/// Whether one of two texts is not empty.
fn has_bytes(one: &[u8], other: &[u8]) -> bool
    ensures { result ≡ (not (is_empty one.now) || not (is_empty other.now)) }
{
    !one.is_empty() || !other.is_empty()
}

/// A colon and at least one character, none of them a colon.
#[tactic(auto, unfolding(crate::specs::Token::is_keyword))]
fn is_keyword(run: &[u8]) -> bool
    ensures { result ≡ is_keyword run.now }
{
    match run {
        [b':', name @ ..] => !name.is_empty() && !name.contains(&b':'),
        _ => false,
    }
}

fn without_sign(run: &[u8]) -> &[u8]
    ensures { result.now ≡ without_leading_sign run.now }
{
    match run {
        [b'+' | b'-', rest @ ..] => rest,
        _ => run,
    }
}

fn all_digits(text: &[u8]) -> bool
    ensures { result ≡ all_digits text.now }
{
    text.iter().all(|byte| byte.is_ascii_digit())
}

/// At least one digit, and nothing else.
fn is_digits(text: &[u8]) -> bool
    ensures { result ≡ is_digits text.now }
{
    !text.is_empty() && all_digits(text)
}

/// How many bytes stand before the marker of an exponent, or the end.
fn mantissa_len(text: &[u8]) -> usize
    ensures value { result ≡ position_or_len is_marker text.now }
    ensures within { result ≤ length text.now }
{
    text.iter()
        .take_while(|byte| !is_exponent_marker(**byte))
        .count()
}

fn is_exponent_marker(byte: u8) -> bool
    ensures { result ≡ is_marker byte }
{
    b"esfdlESFDL".contains(&byte)
}

/// How many bytes stand before the first such byte, or the end.
fn len_before(text: &[u8], byte: u8) -> usize
    ensures value { result ≡ position_or_len (λ c. c == byte) text.now }
    ensures within { result ≤ length text.now }
{
    text.iter().take_while(|other| **other != byte).count()
}

/// What stands before the first such byte, and what after it.
fn split_at_byte(text: &[u8], byte: u8) -> (&[u8], &[u8])
    ensures before { result.0.now ≡ before_first (λ c. c == byte) text.now }
    ensures after { result.1.now ≡ after_first (λ c. c == byte) text.now }
{
    let before = len_before(text, byte);
    let after = text.len().min(before + 1);
    (&text[..before], &text[after..])
}

/// The number that an integer's token writes, or None outside of 64 bits.
fn integer(run: &[u8]) -> Option<i64>
    requires ascii { IsAscii run.now }
    requires digits { is_integer run.now ≡ true }
    ensures { SomeIff result (FitsSigned w64 (value run.now)) (value run.now) }
{
    let (signed, _) = split_at_byte(run, b'.');
    match str::from_utf8(signed) {
        Ok(text) => text.parse().ok(),
        Err(_) => unreachable!("digits and signs are ASCII"),
    }
}

/// The name of these characters, its letters in upper case.
fn upcased_name(alloc: Global, text: &str, keyword: bool) -> Result<Name, AllocError>
    ensures { IfOk result (λ name. name ≡ record { text = map to_ascii_uppercase text.now; keyword = keyword }) }
{
    let mut upcased = String::from_str(alloc, text)?;
    upcased.make_ascii_uppercase();
    Name::new(alloc, upcased.as_str(), keyword)
}
