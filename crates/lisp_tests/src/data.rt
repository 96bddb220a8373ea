//! What no contract says: that memory suffices, that long lists take no stack, and how each kind prints.
use crate::given::{
    DEEP, LONG, Sevens, datum, deep, is_text, large, long, repeated, value, values,
};
use crate::told::{Told, chain, no_methods, three_methods};
use lisp_data::{
    Data, Datum, Dot, Items, ListFault, MethodId, Name, Unsupported, Value, eql, equal, prin1,
    princ,
};
use std::alloc::{AllocError, Global};
use std::collections::HashMap;
use std::hash::Hash;
use std::process::Abort;
use std::test::Fail;

/// Values, and what they print as: so that they can be read, and plainly.
const PRINTED: &[(&str, &str, &str)] = &[
    ("-120", "-120", "-120"),
    (
        "-9223372036854775808",
        "-9223372036854775808",
        "-9223372036854775808",
    ),
    ("foo-bar", "FOO-BAR", "FOO-BAR"),
    (":key", ":KEY", ":KEY"),
    ("\"\"", "\"\"", ""),
    (
        "\"say \\\"a\\\\b\\\" é\"",
        "\"say \\\"a\\\\b\\\" é\"",
        "say \"a\\b\" é",
    ),
    ("()", "NIL", "NIL"),
    ("(quote a)", "(QUOTE A)", "(QUOTE A)"),
    (
        "((\"a\\\"\" ()) (quote a))",
        "((\"a\\\"\" NIL) (QUOTE A))",
        "((a\" NIL) (QUOTE A))",
    ),
    ("class/1", "#<CLASS P>", "#<CLASS P>"),
    ("class/2", "#<CLASS ?>", "#<CLASS ?>"),
    (
        "generic/1",
        "#<GENERIC-FUNCTION G>",
        "#<GENERIC-FUNCTION G>",
    ),
    (
        "generic/2",
        "#<GENERIC-FUNCTION (SETF G)>",
        "#<GENERIC-FUNCTION (SETF G)>",
    ),
    (
        "generic/3",
        "#<GENERIC-FUNCTION ?>",
        "#<GENERIC-FUNCTION ?>",
    ),
    (
        "method/1",
        "#<METHOD (SETF G) NIL>",
        "#<METHOD (SETF G) NIL>",
    ),
    ("method/3", "#<METHOD ?>", "#<METHOD ?>"),
    ("instance/5", "#<P 5>", "#<P 5>"),
    ("instance/6", "#<? 6>", "#<? 6>"),
    (
        "(method/2 1)",
        "(#<METHOD (SETF G) ((EQL #<METHOD (SETF G) :AROUND \"q\" (P (EQL 3) (EQL :K))>))> 1)",
        "(#<METHOD (SETF G) ((EQL #<METHOD (SETF G) :AROUND q (P (EQL 3) (EQL :K))>))> 1)",
    ),
];

/// Whether a value prints as these texts.
fn prints(alloc: Global, value: &Value, told: &Told, readably: &str, plainly: &str) -> bool {
    is_text(prin1(alloc, value, told).ok(), readably)
        && is_text(princ(alloc, value, told).ok(), plainly)
}

#[test]
fn values_print(rt: HostRuntime) -> Result<(), Fail> {
    let told = three_methods(rt.alloc()).ok_or("three methods")?;
    for (text, readably, plainly) in PRINTED {
        let value = value(rt.alloc(), text).ok_or("a value")?;
        assert!(rt;
            prints(rt.alloc(), &value, &told, readably, plainly),
            "{text}"
        );
    }
    Ok(())
}

/// More methods, each on the one before it, than native calls would fit on the stack.
const METHODS: u64 = 200_000;

/// What the last of those methods prints as.
fn last_method(alloc: Global) -> Option<Vec<u8>> {
    match &chain(alloc, METHODS) {
        Some(told) => prin1(alloc, &Value::Method(MethodId(METHODS)), told).ok(),
        None => None,
    }
}

/// A text between so many others.
fn nested_text(
    alloc: Global,
    opening: &str,
    times: u64,
    inmost: &str,
    closing: &str,
) -> Result<String, AllocError> {
    let front = repeated(alloc, "", opening, times, inmost)?;
    repeated(alloc, &front, closing, times, "")
}

#[test]
fn methods_on_methods_take_no_stack(rt: HostRuntime) -> Result<(), Fail> {
    let text = nested_text(
        rt.alloc(),
        "#<METHOD (SETF G) ((EQL ",
        METHODS + 1,
        "7",
        "))>",
    )?;
    assert!(rt; is_text(last_method(rt.alloc()), &text));
    Ok(())
}

/// A copy of such a list that ends in 8, if it is equal to it.
fn copy_of(alloc: Global, sevens: Sevens) -> Option<Value> {
    let value = large(alloc, sevens, 8).ok()?;
    value.copy().ok().filter(|copy| equal(&value, copy))
}

/// Whether it is equal to such a list that ends in this number.
fn is_like(alloc: Global, copy: &Value, sevens: Sevens, last: i64) -> bool {
    match &large(alloc, sevens, last) {
        Ok(other) => equal(copy, other),
        Err(_) => false,
    }
}

/// Whether a copy of such a list is like it and no other, and prints as this.
fn is_copied(alloc: Global, sevens: Sevens, text: &str) -> bool {
    match &copy_of(alloc, sevens) {
        Some(copy) => is_like(alloc, copy, sevens, 8)
            && !is_like(alloc, copy, sevens, 9)
            && prints(alloc, copy, &no_methods(alloc), text, text),
        None => false,
    }
}

#[test]
fn long_lists_take_no_stack(rt: HostRuntime) -> Result<(), Fail> {
    let text = repeated(rt.alloc(), "(", "7 ", LONG - 1, "8)")?;
    assert!(rt; is_copied(rt.alloc(), Sevens::Long(LONG), &text));
    Ok(())
}

#[test]
fn deep_values_are_served(rt: HostRuntime) -> Result<(), Fail> {
    let text = nested_text(rt.alloc(), "(", DEEP, "8", ")")?;
    assert!(rt; is_copied(rt.alloc(), Sevens::Deep(DEEP), &text));
    Ok(())
}

fn is_refused<T: Drop>(made: Result<T, ListFault>) -> bool {
    matches!(made, Err(ListFault::Limit))
}

#[test]
fn lists_of_values_keep_within_limits(rt: HostRuntime) -> Result<(), Fail> {
    let alloc = rt.alloc();
    let long = long(alloc, LONG, 8)?;
    assert!(rt; long.len() == LONG && long.nesting() == 1);
    assert!(rt; is_refused(Items::cons(alloc, Value::Int(7), long)));
    let deep = deep(alloc, DEEP, 8)?;
    assert!(rt; deep.nesting() == DEEP);
    assert!(rt; eql(&Value::List(Items::new()), &deep) == Ok(false));
    assert!(rt; is_refused(Items::cons(alloc, deep, Items::new())));
    Ok(())
}

fn deep_data(alloc: Global) -> Result<Datum, ListFault> {
    let mut datum = Datum::Int(8);
    for _ in 0..DEEP {
        datum = Datum::List(Data::cons(alloc, datum, Data::new())?);
    }
    Ok(datum)
}

fn dot_is_refused(alloc: Global, last: Datum) -> Option<bool> {
    let front = Data::cons(alloc, Datum::Int(7), Data::new()).ok()?;
    Some(is_refused(Dot::new(alloc, front, last)))
}

#[test]
fn lists_of_data_keep_within_limits(rt: HostRuntime) -> Result<(), Fail> {
    let datum = deep_data(rt.alloc())?;
    assert!(rt; datum.nesting() == DEEP);
    assert!(rt; dot_is_refused(rt.alloc(), datum.copy()?) == Some(true));
    assert!(rt; is_refused(Data::cons(rt.alloc(), datum, Data::new())));
    Ok(())
}

/// The number of keys of a map of these, and the place of the last of them that is this one.
fn place_of<K: Eq + Hash + Drop>(
    alloc: Global,
    keys: Vec<K>,
    key: &K,
) -> Option<(usize, Option<u64>)> {
    let mut map = HashMap::new(alloc);
    for (place, key) in (1..9).zip(keys) {
        map.insert(key, place).ok()?;
    }
    Some((map.len(), map.get(key).copied()))
}

fn place_of_value(alloc: Global, keys: &str, key: &str) -> Option<(usize, Option<u64>)> {
    place_of(alloc, values(alloc, keys)?, &value(alloc, key)?)
}

fn name(alloc: Global, keyword: bool) -> Option<Name> {
    Name::new(alloc, "FOO", keyword).ok()
}

fn names(alloc: Global) -> Option<Vec<Name>> {
    vec![in alloc;
        Name::fixed(&"FOO"),
        name(alloc, true)?,
        name(alloc, false)?,
    ]
    .ok()
}

fn place_of_name(alloc: Global) -> Option<(usize, Option<u64>)> {
    place_of(alloc, names(alloc)?, &Name::fixed(&"FOO"))
}

fn data(alloc: Global) -> Option<Vec<Datum>> {
    let dotted = datum(alloc, "(a . 3)")?;
    vec![in alloc; dotted, datum(alloc, "(a)")?].ok()
}

fn place_of_datum(alloc: Global) -> Option<(usize, Option<u64>)> {
    place_of(alloc, data(alloc)?, &datum(alloc, "(a . 3)")?)
}

#[test]
fn keys_of_maps(rt: HostRuntime) {
    let alloc = rt.alloc();
    assert!(rt; place_of_name(alloc) == Some((2, Some(3))));
    let keys = "((1 \"a\") class/1 1)";
    assert!(rt; place_of_value(alloc, keys, "(1 \"a\")") == Some((3, Some(1))));
    assert!(rt; place_of_value(alloc, keys, "class/1") == Some((3, Some(2))));
    assert!(rt; place_of_value(alloc, keys, "instance/1") == Some((3, None)));
    assert!(rt; place_of_datum(alloc) == Some((2, Some(1))));
}

/// Values, and what EQL and EQUAL say of them.
const COMPARED: &[(&str, &str, Result<bool, Unsupported>, bool)] = &[
    ("-3", "-3", Ok(true), true),
    ("3", "()", Ok(false), false),
    ("()", "()", Ok(true), true),
    ("()", "(())", Ok(false), false),
    ("\"a\"", "\"a\"", Err(Unsupported), true),
    ("\"a\"", "\"A\"", Err(Unsupported), false),
    ("class/1", "generic/1", Ok(false), false),
];

fn compared(
    left: &Option<Value>,
    right: &Option<Value>,
) -> Option<(Result<bool, Unsupported>, bool)> {
    match (left, right) {
        (Some(left), Some(right)) => Some((eql(left, right), equal(left, right))),
        _ => None,
    }
}

#[test]
fn values_compare(rt: HostRuntime) -> Result<(), Fail> {
    for (left, right, same, alike) in COMPARED {
        let found = compared(&value(rt.alloc(), left), &value(rt.alloc(), right));
        assert!(rt; found == Some((*same, *alike)), "{left} {right}");
    }
    let text = value(rt.alloc(), "\"a\"").ok_or("a text")?;
    assert!(rt; eql(&text, &text) == Err(Unsupported) && equal(&text, &text.copy()?));
    Ok(())
}

/// Of the list of one dotted list, the number of elements before the dot and the integer after it.
fn dotted_parts(datum: &Datum) -> Option<(u64, i64)> {
    let Datum::List(items) = datum else {
        return None;
    };
    match items.split_first()?.0 {
        Datum::Dotted(dot) => match dot.last() {
            Datum::Int(last) => Some((dot.front().len(), *last)),
            _ => None,
        },
        _ => None,
    }
}

fn copied_parts(alloc: Global, text: &str) -> Option<(u64, i64)> {
    dotted_parts(&datum(alloc, text)?.copy().ok()?)
}

#[test]
fn data_copy(rt: HostRuntime) {
    assert!(rt; copied_parts(rt.alloc(), "((a . 3))") == Some((1, 3)));
}
