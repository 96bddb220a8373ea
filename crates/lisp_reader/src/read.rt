//! Data: lists, prefixes and what stands in them (HyperSpec 2.2, 2.4).
ghost use Rattle.std.specs.Prelude.{◌≡◌, ℕ, ◌+◌, ◌<◌, ◌≤◌, length, drop, map, slice_index, false, Err, IfOk, IfSome, IsTrue, MatchResult};
ghost use Rattle.lisp_reader.specs.Answers.{Answers, TakesMemory, most_open, outermost, ReadsTail, RefusesTail, Ends, RefusesEnd};
ghost use Rattle.lisp_tokens.specs.Offsets.{Reads, Refuses};
ghost use Rattle.lisp_tokens.specs.Front.{BeginsPrefix};
ghost use Rattle.lisp_tokens.specs.Reading.{closes, dot_fits, is_dot};
ghost use Rattle.lisp_data.specs.Datum.{nesting_of};
ghost use Rattle.lisp_data.specs.DatumView.{datum_of};
ghost use Rattle.lisp_tokens.specs.Gaps.{Gaps};
ghost use Rattle.lisp_tokens.specs.declared.fault.ReadFault.TheVariants.{Memory};

use crate::lists::{ending_in, list_of, prefixed_by};
use lisp_data::Datum;
use lisp_tokens::{
    Front, Prefix, ReadFault, begins_with, front_at, goes_on, read_string, read_token, skip_gaps,
};
use std::alloc::Global;

/// How many lists and prefixes may be open at once.
pub const MAX_NESTING: usize = 200;

/// The next datum of a text from an offset on and the offset after it, or None where only gaps are left. Memory runs out
/// only at a symbol, a string, a list with elements or a datum after a prefix.
pub fn read_form(
    alloc: Global,
    bytes: &[u8],
    from: usize,
) -> Result<Option<(Datum, usize)>, ReadFault>
    requires { from ≤ length bytes.now }
    ensures answer { Answers bytes.now from result }
    ensures advances { IfOk result (λ found. IfSome found (λ datum. from < datum.1)) }
    ensures shallow { IfOk result (λ found. IfSome found (λ datum. nesting_of (datum_of datum.0) ≤ most_open)) }
    ensures memory { result ≡ Err Memory → TakesMemory (drop from bytes.now) }
{
    let start = skip_gaps(bytes, from)?;
    if start == bytes.len() {
        return Ok(None);
    }
    match read_datum(alloc, bytes, start, MAX_NESTING) {
        Ok((datum, end)) => Ok(Some((datum, end))),
        Err(fault) => Err(outermost(fault, start)),
    }
}

/// This fault inside of a datum that begins at `start`: if the text ends, it ends inside of that one.
fn outermost(fault: ReadFault, start: usize) -> ReadFault
    ensures { result ≡ outermost fault start }
{
    match fault {
        ReadFault::EndInside(_) => ReadFault::EndInside(start),
        other => other,
    }
}

/// The datum that begins at `at` and the offset after it, where `room` more lists and prefixes may open.
/// The text's end inside it is a fault somewhere in it.
#[cycle(reader)]
fn read_datum(
    alloc: Global,
    bytes: &[u8],
    at: usize,
    room: usize,
) -> Result<(Datum, usize), ReadFault>
    requires within { at ≤ length bytes.now }
    requires few { room ≤ most_open }
    ensures { MatchResult result (Reads bytes.now room at) (Refuses bytes.now room at) }
{
    match front_at(bytes, at) {
        Front::Token => read_token(alloc, bytes, at),
        Front::String => read_string(alloc, bytes, at),
        Front::List => read_list(alloc, bytes, at, room),
        Front::Prefixed(prefix) => read_prefixed(alloc, bytes, at, room, prefix),
        Front::Nothing(fault) => Err(fault),
    }
}

/// The list that begins with the parenthesis at `at`.
#[cycle(reader)]
fn read_list(
    alloc: Global,
    bytes: &[u8],
    at: usize,
    room: usize,
) -> Result<(Datum, usize), ReadFault>
    requires within { at < length bytes.now }
    requires begins { slice_index bytes.now at ≡ 40 }
    requires few { room ≤ most_open }
    ensures { MatchResult result (Reads bytes.now room at) (Refuses bytes.now room at) }
{
    if room == 0 {
        return Err(ReadFault::TooDeep(at));
    }
    let mut items = Vec::new(alloc);
    let mut cursor = at + 1;
    'items: loop {
        let next = skip_gaps(bytes, cursor)?;
        if closes(bytes, next) {
            return Ok((list_of(alloc, items)?, next + 1));
        }
        if dot_fits(&items, bytes, next) {
            let (last, end) = read_tail(alloc, bytes, next, room - 1)?;
            return Ok((ending_in(alloc, items, last)?, end));
        }
        let (item, after) = read_datum(alloc, bytes, next, room - 1)?;
        items.push(item)?;
        cursor = after;
    }
}

/// The datum after the dot at `dot`, and the offset after the closing parenthesis that follows it.
#[cycle(reader)]
fn read_tail(
    alloc: Global,
    bytes: &[u8],
    dot: usize,
    room: usize,
) -> Result<(Datum, usize), ReadFault>
    requires within { dot < length bytes.now }
    requires begins { slice_index bytes.now dot ≡ 46 }
    requires few { room ≤ most_open }
    ensures { MatchResult result (ReadsTail bytes.now room dot) (RefusesTail bytes.now room dot) }
{
    let start = skip_gaps(bytes, dot + 1)?;
    if closes(bytes, start) {
        return Err(ReadFault::BadDot(dot));
    }
    let (last, after) = read_datum(alloc, bytes, start, room)?;
    let end = list_end(alloc, bytes, after)?;
    Ok((last, end))
}

/// The datum that begins with this prefix at `at`.
#[cycle(reader)]
fn read_prefixed(
    alloc: Global,
    bytes: &[u8],
    at: usize,
    room: usize,
    prefix: Prefix,
) -> Result<(Datum, usize), ReadFault>
    requires begins { BeginsPrefix bytes.now at prefix }
    requires few { room ≤ most_open }
    ensures { MatchResult result (Reads bytes.now room at) (Refuses bytes.now room at) }
{
    if room == 0 {
        return Err(ReadFault::TooDeep(at));
    }
    let start = skip_gaps(bytes, at + prefix.len)?;
    let (datum, after) = read_datum(alloc, bytes, start, room - 1)?;
    Ok((prefixed_by(alloc, prefix.operator, datum)?, after))
}

/// The offset after the closing parenthesis that has to stand after `from`, where no other datum may.
fn list_end(alloc: Global, bytes: &[u8], from: usize) -> Result<usize, ReadFault>
    requires { from ≤ length bytes.now }
    ensures { MatchResult result (Ends bytes.now from) (RefusesEnd bytes.now from) }
{
    let next = skip_gaps(bytes, from)?;
    if closes(bytes, next) {
        return Ok(next + 1);
    }
    Err(surplus(alloc, bytes, next))
}

/// The fault of what stands at `at`, where the list should close.
fn surplus(alloc: Global, bytes: &[u8], at: usize) -> ReadFault
    requires within { at ≤ length bytes.now }
    requires unclosed { closes (drop at bytes.now) ≡ false }
    ensures { (from : ℕ) → Gaps (drop from bytes.now) (drop at bytes.now) → RefusesEnd bytes.now from result }
{
    match front_at(bytes, at) {
        Front::Nothing(fault) => fault,
        Front::Token => match read_token(alloc, bytes, at) {
            Ok(_) => ReadFault::BadDot(at),
            Err(fault) => fault,
        },
        Front::String | Front::List | Front::Prefixed(_) => ReadFault::BadDot(at),
    }
}

/// Whether a closing parenthesis stands at `at`.
fn closes(bytes: &[u8], at: usize) -> bool
    requires { at ≤ length bytes.now }
    ensures value { result ≡ closes (drop at bytes.now) }
    ensures within { IsTrue result → at < length bytes.now }
{
    begins_with(bytes, at, b')')
}

/// Whether a dot stands at `at`, where there are elements before it.
fn dot_fits(items: &Vec<Datum>, bytes: &[u8], at: usize) -> bool
    requires { at ≤ length bytes.now }
    ensures value { result ≡ dot_fits (map datum_of items.now.items) (drop at bytes.now) }
    ensures within { IsTrue result → at < length bytes.now }
{
    !items.is_empty() && is_dot(bytes, at)
}

/// Whether the token that begins at `at` is a dot.
fn is_dot(bytes: &[u8], at: usize) -> bool
    requires { at ≤ length bytes.now }
    ensures value { result ≡ is_dot (drop at bytes.now) }
    ensures within { IsTrue result → at < length bytes.now }
{
    begins_with(bytes, at, b'.') && !goes_on(bytes, at + 1)
}
