//! Texts and what is read of them.
ghost use Rattle.std.specs.Prelude.{◌≤◌, length};

use crate::given::{datum, is_text, repeated, value};
use crate::told::no_methods;
use lisp_data::{Datum, prin1};
use lisp_reader::{ReadFault, read_form};
use std::alloc::Global;
use std::process::Abort;
use std::test::Fail;

#[derive(Clone, Copy)]
enum Atom {
    Integer(i64),
    Symbol(&'static str),
    Keyword(&'static str),
    Characters(&'static str),
}

const ATOMS: &[(&str, Atom)] = &[
    ("+5", Atom::Integer(5)),
    ("12.", Atom::Integer(12)),
    ("-0012", Atom::Integer(-12)),
    ("9223372036854775807", Atom::Integer(i64::MAX)),
    ("-9223372036854775808", Atom::Integer(i64::MIN)),
    ("1+", Atom::Symbol("1+")),
    ("+", Atom::Symbol("+")),
    ("a#b", Atom::Symbol("A#B")),
    ("e5", Atom::Symbol("E5")),
    (".e5", Atom::Symbol(".E5")),
    ("1/", Atom::Symbol("1/")),
    ("nil", Atom::Symbol("NIL")),
    ("()", Atom::Symbol("NIL")),
    ("( ; nothing\n)", Atom::Symbol("NIL")),
    (":key", Atom::Keyword("KEY")),
    ("\"a \\\"b\\\" \\\\ \\ü\"", Atom::Characters("a \"b\" \\ ü")),
];

fn is_atom(datum: &Option<Datum>, atom: Atom) -> bool {
    match (datum, atom) {
        (Some(Datum::Int(found)), Atom::Integer(number)) => *found == number,
        (Some(Datum::Sym(found)), Atom::Symbol(name)) => {
            !found.is_keyword() && found.as_str() == name
        }
        (Some(Datum::Sym(found)), Atom::Keyword(name)) => {
            found.is_keyword() && found.as_str() == name
        }
        (Some(Datum::Str(found)), Atom::Characters(text)) => found.as_str() == text,
        _ => false,
    }
}

#[test]
fn atoms(rt: HostRuntime) {
    for (text, atom) in ATOMS {
        assert!(rt; is_atom(&datum(rt.alloc(), text), *atom), "{text}");
    }
}

/// Texts, and what is read of them: a dot stands only before an atom.
const READ: &[(&str, &str)] = &[
    // lists
    ("(a\"b\"'c)", "(A \"b\" (QUOTE C))"),
    ("(a (b) () 1)", "(A (B) NIL 1)"),
    ("( a\t;no\n b#c )", "(A B#C)"),
    // prefixes
    ("'a", "(QUOTE A)"),
    ("#'a", "(FUNCTION A)"),
    ("`a", "(QUASIQUOTE A)"),
    (",a", "(UNQUOTE A)"),
    (",@a", "(UNQUOTE-SPLICING A)"),
    ("' ;b\n a", "(QUOTE A)"),
    ("#'#|b|#(setf a)", "(FUNCTION (SETF A))"),
    (", .x", "(UNQUOTE .X)"),
    (", @x", "(UNQUOTE @X)"),
    (",@.x", "(UNQUOTE-SPLICING .X)"),
    (
        "`(,a ,@b)",
        "(QUASIQUOTE ((UNQUOTE A) (UNQUOTE-SPLICING B)))",
    ),
    ("''()", "(QUOTE (QUOTE NIL))"),
    ("#'\"s\"", "(FUNCTION \"s\")"),
    // dotted lists
    ("(a . b)", "(A . B)"),
    ("(a b . 1)", "(A B . 1)"),
    ("(a .\"s\")", "(A . \"s\")"),
    ("(a .;b\nc)", "(A . C)"),
    ("(a . b #|c|# ;d\n)", "(A . B)"),
    ("(a . (b))", "(A B)"),
    ("(a . nil)", "(A)"),
    ("(a . ())", "(A)"),
    ("(a . :nil)", "(A . :NIL)"),
    ("(a . (b . c))", "(A B . C)"),
    ("(a . (b . (c . nil)))", "(A B C)"),
    ("(a . 'b)", "(A QUOTE B)"),
    ("((a . b) . c)", "((A . B) . C)"),
    ("(a .b)", "(A .B)"),
    ("(a b. c)", "(A B. C)"),
    // comments
    ("#|a|#b", "B"),
    ("#||#b", "B"),
    ("#|#|a|#b|#c", "C"),
    ("#|#||#|#c", "C"),
    ("#|##|a|#|#c", "C"),
    ("#||||#c", "C"),
    ("#|\";(ü|#c", "C"),
    ("(a #|b|# c)", "(A C)"),
    (";#|\nc", "C"),
    ("#|;|#c", "C"),
    // all of them
    (
        TEXT,
        "(12 -3 1+ 1E5X 1/2X ..X :K (A . B) \"q\\\"ü\\\\\" (QUOTE Q) (FUNCTION F) (QUASIQUOTE T) (UNQUOTE U) (UNQUOTE-SPLICING S) (C D))",
    ),
];

fn printed(alloc: Global, text: &str) -> Option<Vec<u8>> {
    match &value(alloc, text) {
        Some(value) => prin1(alloc, value, &no_methods(alloc)).ok(),
        None => None,
    }
}

#[test]
fn lists(rt: HostRuntime) {
    for (text, wanted) in READ {
        assert!(rt; is_text(printed(rt.alloc(), text), wanted), "{text}");
    }
}

fn list_length(datum: &Option<Datum>) -> Option<u64> {
    match datum {
        Some(Datum::List(data)) => Some(data.len()),
        _ => None,
    }
}

#[test]
fn a_long_list(rt: HostRuntime) -> Result<(), Fail> {
    let text = repeated(rt.alloc(), "(", "\"\"", 100_000, ")")?;
    assert!(rt; list_length(&datum(rt.alloc(), &text)) == Some(100_000));
    Ok(())
}

/// The offset after what is read from an offset on, if anything, and the number of a fault with its own offset.
fn outcome(alloc: Global, text: &[u8], from: usize) -> (u8, Option<usize>)
    requires { from ≤ length text.now }
{
    end_of(&read_form(alloc, text, from))
}

fn end_of(read: &Result<Option<(Datum, usize)>, ReadFault>) -> (u8, Option<usize>) {
    match read {
        Ok(Some((_, end))) => (0, Some(*end)),
        Ok(None) => (0, None),
        Err(fault) => (fault.number(), fault.offset()),
    }
}

#[test]
fn one_after_another(rt: HostRuntime) {
    let text = b" a ; one\n(b) ";
    assert!(rt; outcome(rt.alloc(), text, 0) == (0, Some(2)));
    assert!(rt; outcome(rt.alloc(), text, 2) == (0, Some(12)));
    assert!(rt; outcome(rt.alloc(), text, 12) == (0, None));
}

/// Texts at fault, each with the number of the fault and its offset.
const FAULTS: &[(&[u8], u8, usize)] = &[
    (b" (a 'b", 1, 1),
    (b"'", 1, 0),
    (b"\"a\\", 1, 0),
    (b"#|a", 1, 0),
    (b" #|a#|b|#", 1, 1),
    (b" (a #|b", 1, 1),
    (b"#'#|", 1, 0),
    (b"(a .", 1, 0),
    (b"(a . ", 1, 0),
    (b"(a . b", 1, 0),
    (b"(a . b ;", 1, 0),
    (b"(a . #|", 1, 0),
    (b"(a . (b", 1, 0),
    (b")", 2, 0),
    (b"(a ' )", 2, 5),
    (b"#')", 2, 2),
    (b"(a . ')", 2, 6),
    (b"1/2", 3, 0),
    (b"(a 1.5", 3, 3),
    (b"1e5", 3, 0),
    (b"+.5d-3", 3, 0),
    (b"..", 3, 0),
    (b"a:b", 3, 0),
    (b":", 3, 0),
    (b"9223372036854775808", 3, 0),
    (b"12345678901234567890", 3, 0),
    (b"(a|b)", 3, 2),
    (b"(a#|b|#)", 3, 3),
    (b"(a .#||#)", 3, 5),
    (b"|#", 3, 0),
    (b",.x", 3, 0),
    (b"(a ,.5)", 3, 3),
    (b"(a . ,.x)", 3, 5),
    (b"(a . b ,.x)", 3, 7),
    (b"(a . b 1/2", 3, 7),
    (b"(a . b |", 3, 7),
    (b"(a . 1/2)", 3, 5),
    (b"(. a)", 4, 1),
    (b".", 4, 0),
    (b"'.", 4, 1),
    (b"(a '. b)", 4, 4),
    (b"(a . )", 4, 3),
    (b"(a . #||#)", 4, 3),
    (b"(a . ;b\n)", 4, 3),
    (b"(a . . b)", 4, 5),
    (b"(a . b . c)", 4, 7),
    (b"(a . b c)", 4, 7),
    (b"(a . b (", 4, 7),
    (b"(a . b \"\x80", 4, 7),
    (b"(a . b 'c)", 4, 7),
    (b"(a . b `c)", 4, 7),
    (b"(a . b ,c)", 4, 7),
    (b"(a . b ,@", 4, 7),
    (b"(a . b #'c)", 4, 7),
    (b"#\\a", 5, 0),
    (b"#", 5, 0),
    (b"(a #", 5, 3),
    (b"(a . b #x)", 5, 7),
    (b"\"a\x80\"", 7, 2),
    (b"; a\xe2\n", 7, 3),
    (b"#|a\x80|#", 7, 3),
    (b"#|a\x80", 7, 3),
    (b"#|#|\xe2\x82|#|#", 7, 4),
    (b"(a #|\xff|#", 7, 5),
    (b"(a . #|\xff", 7, 7),
    (b"(a . b #|\xff", 7, 9),
    (b"'#|\xff", 7, 3),
];

#[test]
fn faults(rt: HostRuntime) {
    for (text, number, offset) in FAULTS {
        let found = outcome(rt.alloc(), text, 0);
        assert!(rt; found == (*number, Some(*offset)), "{text:?}");
    }
}

/// Texts that open something so many times and then go on, each with the number of the fault and its offset: 200 may
/// be open at once.
const OPENED: &[(u64, &str, &str, u8, usize)] = &[
    (201, "(", "", 6, 200),
    (200, "(", "", 1, 0),
    (201, "'", "", 6, 200),
    (200, "'", "", 1, 0),
    (201, "`", "", 6, 200),
    (200, "`", "", 1, 0),
    (201, ",", "", 6, 200),
    (200, ",", "", 1, 0),
    (201, "#'", "", 6, 400),
    (200, "#'", "", 1, 0),
    (201, ",@", "", 6, 400),
    (200, ",@", "", 1, 0),
    (200, "'", ",.x", 3, 200),
    (200, "(", "a . b (", 4, 206),
    (200, "(", "a . (b", 6, 204),
    (1000, "#|", "", 1, 0),
];

#[test]
fn depth(rt: HostRuntime) -> Result<(), Fail> {
    for (times, opening, rest, number, offset) in OPENED {
        let text = repeated(rt.alloc(), "", opening, *times, rest)?;
        let found = outcome(rt.alloc(), text.as_bytes(), 0);
        assert!(rt;
            found == (*number, Some(*offset)),
            "{times} {opening} {rest}"
        );
    }
    Ok(())
}

/// A comment and a list, which begins at 12.
const TEXT: &str =
    "#|x#|é|#|# (12 -3. 1+ 1e5x 1/2x ..x :k (a . b) \"q\\\"ü\\\\\" 'q #'f `t ,u ,@s ;ö\n #|z|# (c . (d)))";

/// The prefixes of that text that are at fault before their end, by length, with the number of the fault and its offset.
/// These end with a # in first place (5), inside a character (7), or with the colon of a keyword or the first characters
/// of a symbol, where those are a float, a ratio or dots alone (3).
const CUT: &[(usize, u8, usize)] = &[
    (1, 5, 0),
    (6, 7, 5),
    (26, 3, 23),
    (31, 3, 28),
    (35, 3, 33),
    (38, 3, 37),
    (53, 7, 52),
    (62, 5, 61),
    (77, 7, 76),
    (81, 5, 80),
];

/// What is read of the prefix of that text of so many bytes.
fn cut_at(len: usize) -> (u8, Option<usize>) {
    for (at, number, offset) in CUT {
        if *at == len {
            return (*number, Some(*offset));
        }
    }
    match len {
        0 | 11 | 12 => (0, None),
        _ => (1, Some(if len < 11 { 0 } else { 12 })),
    }
}

#[test]
fn every_prefix(rt: HostRuntime) {
    let text = TEXT.as_bytes();
    for len in 0..text.len() {
        let found = outcome(rt.alloc(), &text[..len], 0);
        assert!(rt; found == cut_at(len), "{len}");
    }
}
