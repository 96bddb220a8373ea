//! What no text can state: readers and writers that fail, faults of reading, single data, and steps of one form.
use crate::data::{datum, deepest, list, list_of};
use clos_system::{Dependents, Limits, Natives, Reply, RunFault, Session, Summary, run};
use lisp_data::{Data, Datum, Dot, MAX_NESTING, MethodId, Value};
use lisp_reader::ReadFault;
use std::alloc::Global;
use std::io::{self, Read, Write};
use std::str;
use std::test::Fail;

/// A definition, the number of the condition that it ends with where no step is left for it, and where one is.
const WITHOUT_STEPS: [(&str, u64, u64); 13] = [
    ("(defclass c () ())", 29, 0),
    ("(defclass q () ())", 29, 0),
    ("(defclass c (a q) ())", 29, 0),
    ("(defclass c (c) ())", 10, 10),
    ("(defclass q (c p) ())", 10, 10),
    ("(defclass q (c symbol) ())", 8, 8),
    ("(defclass b () ())", 9, 9),
    ("(defclass c (b b) ())", 1, 1),
    ("(defclass c () ((x :initform (princ 1))))", 29, 0),
    ("(defclass c (c) (x))", 10, 10),
    ("(defclass c () ((x :accessor x)))", 29, 0),
    ("(defclass c () ((x :reader x :writer x)))", 12, 12),
    ("(defclass c (c) ((x :reader x :writer x)))", 10, 10),
];

#[test]
fn the_count_of_forms(rt: HostRuntime) -> Result<(), Fail> {
    let mut session = Session::new(
        rt.alloc(),
        Limits::default(),
        Vec::new(rt.alloc()),
        Vec::new(rt.alloc()),
    )?;
    let mut source = b"(princ 1) (f) (defclass a () ()) (f) (princ 2)".as_slice();
    let mut output = Vec::new(rt.alloc());
    let summary = run(rt.alloc(), &mut session, &mut source, &mut output, false)?;
    let all = Summary {
        forms: 5,
        conditions: 2,
        storages: 0,
    };
    assert_eq!(rt; summary, all);
    Ok(())
}

/// The fault with which a run of a text ends, which writes this before.
fn fault(alloc: Global, text: &[u8], output: &mut Vec<u8>) -> Result<Option<RunFault>, Fail> {
    let mut session = Session::new(alloc, Limits::default(), Vec::new(alloc), Vec::new(alloc))?;
    let mut source = text;
    Ok(run(alloc, &mut session, &mut source, output, false).err())
}

/// Whether a fault of the reader is this one.
fn is_fault(fault: &Option<RunFault>, wanted: ReadFault) -> bool {
    match fault {
        Some(RunFault::Reader(fault)) => *fault == wanted,
        _ => false,
    }
}

#[test]
fn texts_that_can_not_be_read(rt: HostRuntime) -> Result<(), Fail> {
    let cases = [
        (
            b"(princ 1) (defclass a".as_slice(),
            ReadFault::EndInside(10),
            b"1".as_slice(),
        ),
        (&[b'('; 201], ReadFault::TooDeep(200), b""),
    ];
    for (text, wanted, written) in cases {
        let mut output = Vec::new(rt.alloc());
        let ended = fault(rt.alloc(), text, &mut output)?;
        assert!(rt; is_fault(&ended, wanted));
        assert_eq!(rt; output.as_slice(), written);
    }
    Ok(())
}

#[test]
fn the_longest_source(rt: HostRuntime) -> Result<(), Fail> {
    let mut output = Vec::new(rt.alloc());
    for (length, is_served) in [(16_777_216, true), (16_777_217, false)] {
        let blanks = vec![in rt.alloc(); b' '; length]?;
        let ended = fault(rt.alloc(), blanks.as_slice(), &mut output)?;
        assert!(rt;
            if is_served {
                ended.is_none()
            } else {
                matches!(ended, Some(RunFault::TooLong))
            },
            "of {length} bytes"
        );
    }
    assert_eq!(rt; output.len(), 0);
    Ok(())
}

/// So many reads and writes succeed. A read gives a form.
#[derive(Drop)]
struct Failing {
    left: u64,
}

impl Read for Failing {
    fn read(&mut self, buf: &mut [u8]) -> io::Result<usize> {
        if self.left == 0 || buf.len() < 9 {
            return Err(io::Error::from(io::ErrorKind::Other));
        }
        self.left -= 1;
        buf[..9].copy_from_slice(b"(princ 1)");
        Ok(9)
    }
}

impl Write for Failing {
    fn write(&mut self, buf: &[u8]) -> io::Result<usize> {
        if self.left == 0 {
            return Err(io::Error::from(io::ErrorKind::Other));
        }
        self.left -= 1;
        Ok(buf.len())
    }

    fn flush(&mut self) -> io::Result<()> {
        Ok(())
    }
}

/// So many blanks, one at a read.
#[derive(Drop)]
struct OneByOne {
    left: u64,
}

impl Read for OneByOne {
    fn read(&mut self, buf: &mut [u8]) -> io::Result<usize> {
        if self.left == 0 || buf.is_empty() {
            return Ok(0);
        }
        self.left -= 1;
        buf[0] = b' ';
        Ok(1)
    }
}

#[test]
fn the_longest_source_byte_by_byte(rt: HostRuntime) -> Result<(), Fail> {
    let mut session = Session::new(
        rt.alloc(),
        Limits::default(),
        Vec::new(rt.alloc()),
        Vec::new(rt.alloc()),
    )?;
    let mut longest = OneByOne { left: 16_777_216 };
    let mut output = Vec::new(rt.alloc());
    let summary = run(rt.alloc(), &mut session, &mut longest, &mut output, false)?;
    assert_eq!(rt; summary.forms, 0);
    Ok(())
}

/// Whether a run with this reader fails to read, and writes nothing to this output.
fn fails_to_read<N: Natives, D: Dependents>(
    alloc: Global,
    session: &mut Session<N, D>,
    left: u64,
    output: &mut Vec<u8>,
) -> bool {
    let ended = run(alloc, session, &mut Failing { left }, output, false);
    matches!(ended, Err(RunFault::Read))
}

#[test]
fn readers_that_fail(rt: HostRuntime) -> Result<(), Fail> {
    for left in [0, 1, 2] {
        let mut session = Session::new(
            rt.alloc(),
            Limits::default(),
            Vec::new(rt.alloc()),
            Vec::new(rt.alloc()),
        )?;
        let mut output = Vec::new(rt.alloc());
        let fails = fails_to_read(rt.alloc(), &mut session, left, &mut output);
        assert!(rt; fails, "after {left} reads");
        assert_eq!(rt; output.len(), 0);
        assert_eq!(rt; session.written().len(), 0);
    }
    Ok(())
}

/// Whether a run with a writer that takes so many writes fails to write.
fn fails_to_write<N: Natives, D: Dependents>(
    alloc: Global,
    session: &mut Session<N, D>,
    left: u64,
) -> bool {
    let mut source = b"(princ 1) (defclass a () ()) (princ 2) (princ 3)".as_slice();
    let ended = run(alloc, session, &mut source, &mut Failing { left }, false);
    matches!(ended, Err(RunFault::Write))
}

#[test]
fn writers_that_fail(rt: HostRuntime) -> Result<(), Fail> {
    for (left, written) in [(0, "1"), (1, "12"), (2, "123")] {
        let mut session = Session::new(
            rt.alloc(),
            Limits::default(),
            Vec::new(rt.alloc()),
            Vec::new(rt.alloc()),
        )?;
        let fails = fails_to_write(rt.alloc(), &mut session, left);
        assert!(rt; fails, "after {left} writes");
        assert_eq!(rt; str::from_utf8(session.written())?, written);
    }
    Ok(())
}

/// The number of the condition that a reply tells, or 0.
fn number_in(reply: &Reply) -> u64 {
    match reply {
        Reply::Condition { number, .. } => *number,
        _ => 0,
    }
}

/// The integer that a reply tells.
fn integer_in(reply: &Reply) -> Option<i64> {
    match reply {
        Reply::Value(Value::Int(number)) => Some(*number),
        _ => None,
    }
}

/// The number of the condition that ends a form, or 0.
fn condition<N: Natives, D: Dependents>(session: &mut Session<N, D>, datum: &Datum) -> u64 {
    number_in(&session.submit(datum))
}

/// The number of the condition that ends a form that may take so many steps, or 0.
fn condition_within<N: Natives, D: Dependents>(
    session: &mut Session<N, D>,
    datum: &Datum,
    steps: u64,
) -> u64 {
    number_in(&session.submit_within(datum, steps))
}

/// The integer that a form gives.
fn integer<N: Natives, D: Dependents>(session: &mut Session<N, D>, datum: &Datum) -> Option<i64> {
    integer_in(&session.submit(datum))
}

fn is_list(reply: &Reply) -> bool {
    matches!(reply, Reply::Value(Value::List(_)))
}

/// A quoted method, in so many further quotations.
fn quoted_method(alloc: Global, times: u64) -> Result<Datum, Fail> {
    let mut datum = list_of(alloc, "QUOTE", Datum::Method(MethodId(0)), Data::new())?;
    for _ in 0..times {
        datum = list_of(alloc, "QUOTE", datum, Data::new())?;
    }
    Ok(datum)
}

/// A quoted list that begins with a method and ends in a dot and a number.
fn dotted_method(alloc: Global) -> Result<Datum, Fail> {
    let front = Data::cons(alloc, Datum::Method(MethodId(1)), Data::new())?;
    let dotted = Dot::new(alloc, front, Datum::Int(1))?;
    list_of(alloc, "QUOTE", Datum::Dotted(dotted), Data::new())
}

#[test]
fn submitted_data(rt: HostRuntime) -> Result<(), Fail> {
    let alloc = rt.alloc();
    let mut session = Session::new(alloc, Limits::default(), Vec::new(alloc), Vec::new(alloc))?;
    assert_eq!(rt; integer(&mut session, &datum(alloc, "(princ 1)")?), Some(1));
    assert_eq!(rt; session.written(), b"1".as_slice());
    for (text, number) in [("(1 . 2)", 1), ("'(1 . 2)", 28)] {
        assert_eq!(rt; condition(&mut session, &datum(alloc, text)?), number);
    }
    for times in [0, 1] {
        assert_eq!(rt; condition(&mut session, &quoted_method(alloc, times)?), 1);
    }
    assert_eq!(rt; condition(&mut session, &Datum::Method(MethodId(1))), 1);
    assert_eq!(rt; condition(&mut session, &dotted_method(alloc)?), 1);
    Ok(())
}

fn three_steps() -> Limits {
    Limits {
        steps: 3,
        ..Limits::default()
    }
}

/// Steps, and the number of the condition of `(princ 1)` within them, in a session that allows three.
#[test]
fn submitted_within_steps(rt: HostRuntime) -> Result<(), Fail> {
    let mut session = Session::new(
        rt.alloc(),
        three_steps(),
        Vec::new(rt.alloc()),
        Vec::new(rt.alloc()),
    )?;
    let form = datum(rt.alloc(), "(princ 1)")?;
    for (steps, number, written) in [(0, 29, 0), (2, 29, 0), (3, 0, 1), (u64::MAX, 0, 2)] {
        assert_eq!(rt; condition_within(&mut session, &form, steps), number);
        assert_eq!(rt; session.written().len(), written);
    }
    Ok(())
}

/// Forms, and how many effective methods were worked out after each.
const BUILT: [&[(&str, u64)]; 3] = [
    &[
        ("(defmethod g ((x integer)) 'i)", 0),
        ("(list (g 3) (g 4))", 1),
        ("(defmethod g ((x (eql 3))) 'three)", 1),
        ("(list (g 3) (g 4))", 3),
        ("(remove-method #'g (find-method #'g () '((eql 3))))", 3),
        ("(list (g 3) (g 4))", 4),
        ("(g)", 4),
        ("(g 'a)", 6),
        ("(g 'b)", 6),
    ],
    &[
        ("(defmethod g ((x (eql 3)) (y integer)) 'a)", 0),
        ("(defmethod g ((x integer) (y (eql 3))) 'b)", 0),
        ("(defmethod g ((x integer) (y integer)) 'c)", 0),
        ("(list (g 3 3) (g 4 3) (g 3 4) (g 4 4) (g 5 5))", 4),
    ],
    // What a definition is not of stays kept.
    &[
        ("(defclass a () ())", 0),
        ("(defclass b () ())", 0),
        ("(defclass c (a b) ())", 0),
        ("(defclass d (c) ())", 0),
        ("(defclass z () ())", 0),
        ("(defmethod m ((x a)) 'a)", 0),
        ("(defmethod m ((x b)) 'b)", 0),
        ("(defmethod k ((x z)) 'z)", 0),
        ("(defvar *d* (make-instance 'd))", 2),
        ("(defvar *z* (make-instance 'z))", 4),
        ("(list (m *d*) (k *z*))", 6),
        ("(defclass c (b a) ())", 6),
        ("(list (m *d*) (k *z*))", 7),
        ("(defclass w () ())", 7),
        ("(defclass z () (s))", 7),
        ("(define-method-combination other :operator progn)", 7),
        ("(defmethod far ((x w)) 1)", 7),
        ("(list (m *d*) (k *z*))", 7),
    ],
];

/// Up to which of these forms so many effective methods were worked out.
fn built_as_told(alloc: Global, forms: &[(&str, u64)]) -> Result<usize, Fail> {
    let mut session = Session::new(alloc, Limits::default(), Vec::new(alloc), Vec::new(alloc))?;
    for (place, (text, built)) in forms.iter().enumerate() {
        let _ = session.submit(&datum(alloc, text)?);
        if session.built() != *built {
            return Ok(place);
        }
    }
    Ok(forms.len())
}

#[test]
fn effective_methods_that_were_worked_out(rt: HostRuntime) -> Result<(), Fail> {
    for forms in BUILT {
        assert_eq!(rt; built_as_told(rt.alloc(), forms)?, forms.len());
    }
    Ok(())
}

#[test]
fn the_deepest_datum(rt: HostRuntime) -> Result<(), Fail> {
    let mut session = Session::new(
        rt.alloc(),
        Limits::default(),
        Vec::new(rt.alloc()),
        Vec::new(rt.alloc()),
    )?;
    let call = deepest(rt.alloc(), "F")?;
    assert_eq!(rt; call.nesting(), MAX_NESTING);
    assert_eq!(rt; condition(&mut session, &call), 30);
    Ok(())
}

#[test]
fn the_deepest_quoted_datum(rt: HostRuntime) -> Result<(), Fail> {
    let mut session = Session::new(
        rt.alloc(),
        Limits::default(),
        Vec::new(rt.alloc()),
        Vec::new(rt.alloc()),
    )?;
    let quoted = deepest(rt.alloc(), "QUOTE")?;
    assert_eq!(rt; quoted.nesting(), MAX_NESTING);
    assert!(rt; is_list(&session.submit(&quoted)));
    Ok(())
}

#[test]
fn the_deepest_and_the_longest_form(rt: HostRuntime) -> Result<(), Fail> {
    let mut session = Session::new(
        rt.alloc(),
        Limits::default(),
        Vec::new(rt.alloc()),
        Vec::new(rt.alloc()),
    )?;
    let deep = deepest(rt.alloc(), "PROGN")?;
    assert_eq!(rt; condition(&mut session, &deep), 30);
    let mut long = Data::new();
    for number in 0..200_000 {
        long = Data::cons(rt.alloc(), Datum::Int(number), long)?;
    }
    let long = list_of(rt.alloc(), "PROGN", Datum::Int(7), long)?;
    assert_eq!(rt; integer(&mut session, &long), Some(0));
    Ok(())
}

/// Texts spell a list of no elements as the symbol NIL.
#[test]
fn lists_of_no_elements(rt: HostRuntime) -> Result<(), Fail> {
    let alloc = rt.alloc();
    let mut session = Session::new(alloc, Limits::default(), Vec::new(alloc), Vec::new(alloc))?;
    let none = || Datum::List(Data::new());
    assert!(rt; is_list(&session.submit(&none())));
    let clause = list_of(alloc, "COND", none(), Data::new())?;
    assert_eq!(rt; condition(&mut session, &clause), 1);
    let bindings = list_of(alloc, "LET", none(), list(alloc, "(1 2)")?)?;
    assert_eq!(rt; integer(&mut session, &bindings), Some(2));
    Ok(())
}

/// Defines a class that can never have a precedence list, and one that waits for its superclass.
fn define_incomplete_classes<N: Natives, D: Dependents>(
    alloc: Global,
    session: &mut Session<N, D>,
) -> Result<(), Fail> {
    condition(
        session,
        &datum(alloc, "(defclass a (standard-object b) ())")?,
    );
    condition(session, &datum(alloc, "(defclass p (q) ())")?);
    Ok(())
}

#[test]
fn definitions_without_steps(rt: HostRuntime) -> Result<(), Fail> {
    let alloc = rt.alloc();
    let names = datum(
        alloc,
        "(prin1 (list (find-class 'b nil) (find-class 'c nil) (find-class 'q nil)))",
    )?;
    for (text, without, within) in WITHOUT_STEPS {
        let mut session = Session::new(alloc, Limits::default(), Vec::new(alloc), Vec::new(alloc))?;
        define_incomplete_classes(alloc, &mut session)?;
        let definition = datum(alloc, text)?;
        assert_eq!(rt;
            condition_within(&mut session, &definition, 0),
            without,
            "{text}"
        );
        assert_eq!(rt; condition(&mut session, &names), 0);
        assert_eq!(rt;
            session.written(),
            b"(NIL NIL NIL)".as_slice(),
            "after {text}"
        );
        assert_eq!(rt;
            condition_within(&mut session, &definition, 1),
            within,
            "{text}"
        );
    }
    Ok(())
}
