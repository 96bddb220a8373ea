//! Where the elements of a datum stand in its text.
ghost use Rattle.std.specs.Prelude.{◌≤◌, length};

use lisp_reader::read_form;
use lisp_tokens::{Front, front_at, skip_gaps};
use std::alloc::Global;

/// Where the next datum begins, if one is left.
fn next_begin(text: &[u8], at: usize) -> Option<usize> {
    if at > text.len() {
        return None;
    }
    skip_gaps(text, at).ok()
}

/// Where a datum ends that begins here.
fn end(alloc: Global, text: &[u8], at: usize) -> Option<usize> {
    if at > text.len() {
        return None;
    }
    match read_form(alloc, text, at) {
        Ok(Some((_, next))) => Some(next),
        _ => None,
    }
}

/// Where the element at this place begins of a datum that begins here.
fn element_begin(alloc: Global, text: &[u8], at: usize, place: usize) -> Option<usize> {
    if at > text.len() {
        return None;
    }
    match front_at(text, at) {
        Front::List => {
            let mut next = at.saturating_add(1);
            for _ in 0..place {
                next = end(alloc, text, next)?;
            }
            next_begin(text, next)
        }
        Front::Prefixed(prefix) if place == 1 => next_begin(text, at.saturating_add(prefix.len)),
        _ => None,
    }
}

/// Where the datum begins to which this path leads from the one at the beginning of a text, or else that one: the place of an element
/// in it, the place of one in that, and so on.
pub(crate) fn locate(alloc: Global, text: &[u8], path: &[usize]) -> usize {
    let mut at = 0;
    for place in path {
        match element_begin(alloc, text, at, *place) {
            None => return 0,
            Some(begin) => at = begin,
        }
    }
    at
}
