//! Which names are served, and the limits of lists.
use crate::given::{DEEP, LONG, Sevens, large};
use lisp_data::{Name, Value};
use lisp_prims::{PrimFault, Primitive, apply, call, serves};
use std::alloc::Global;
use std::process::Abort;

/// Names, whether each is a keyword, and whether it is served.
const NAMES: &[(&str, bool, bool)] = &[
    ("+", false, true),
    ("1-", false, true),
    ("LIST*", false, true),
    ("LENGTH", false, true),
    ("EQ", false, true),
    ("", false, false),
    ("PRINC", false, false),
    ("LENGTHS", false, false),
    ("length", false, false),
    ("SETF", false, false),
    ("CAR", true, false),
];

fn is_served(alloc: Global, name: &str, keyword: bool) -> Option<bool> {
    Some(serves(&Name::new(alloc, name, keyword).ok()?))
}

#[test]
fn names_are_served(rt: HostRuntime) {
    for (name, keyword, served) in NAMES {
        assert!(rt;
            is_served(rt.alloc(), name, *keyword) == Some(*served),
            "{name}"
        );
    }
}

/// Calls at the limits of lists, each with the number of its condition, or 0.
const LIMITS: &[(&str, Sevens, Sevens, u8)] = &[
    ("CONS", Sevens::Deep(0), Sevens::Long(LONG - 1), 0),
    ("CONS", Sevens::Deep(0), Sevens::Long(LONG), 28),
    ("APPEND", Sevens::Long(LONG - 1), Sevens::Long(1), 0),
    ("APPEND", Sevens::Long(1), Sevens::Long(LONG), 28),
    ("APPEND", Sevens::Long(LONG), Sevens::Long(1), 28),
    ("CONS", Sevens::Deep(DEEP - 1), Sevens::Long(0), 0),
    ("CONS", Sevens::Deep(DEEP), Sevens::Long(0), 28),
];

/// What a call of two values gives.
fn call_of(
    alloc: Global,
    name: &Name,
    left: Sevens,
    right: Sevens,
) -> Option<Result<Value, PrimFault>> {
    if !serves(name) {
        return None;
    }
    let arguments = [large(alloc, left, 7).ok()?, large(alloc, right, 7).ok()?];
    Some(call(alloc, name, &arguments))
}

fn condition_of(answer: &Option<Result<Value, PrimFault>>) -> Option<u8> {
    match answer {
        Some(Ok(_)) => Some(0),
        Some(Err(fault)) => fault.number(),
        None => None,
    }
}

/// Whether the length of the longest list is this integer.
fn is_length(alloc: Global, number: i64) -> Option<bool> {
    let list = large(alloc, Sevens::Long(LONG), 7).ok()?;
    match &apply(Primitive::named(&Name::fixed(&"LENGTH"))?, alloc, &[list]) {
        Ok(Value::Int(length)) => Some(*length == number),
        _ => Some(false),
    }
}

#[test]
fn lists_keep_within_their_limits(rt: HostRuntime) {
    for (name, left, right, condition) in LIMITS {
        let found = call_of(rt.alloc(), &Name::fixed(name), *left, *right);
        assert!(rt; condition_of(&found) == Some(*condition), "{name}");
    }
    assert!(rt; is_length(rt.alloc(), 1_048_576) == Some(true));
}
