//! Sessions of drawn forms: that effective methods are kept makes no difference to what is answered and written.
use crate::data::datum;
use clos_system::{Limits, Reply, Session};
use lisp_data::{Datum, Value, equal};
use lisp_reader::read_form;
use rand_core::utils::NextWord;
use rand_pcg::Pcg32;
use std::alloc::Global;
use std::test::Fail;

/// How many sessions are drawn, and how many forms of each.
const SESSIONS: u64 = 150;

const LENGTH: usize = 80;

/// The forms with which each begins.
const FIRST: [&str; 8] = [
    "(defvar i 0)",
    "(defclass d () ())",
    "(defclass c (d) ())",
    "(defclass b (d) ())",
    "(defclass a (b c) ())",
    "(define-method-combination other :operator list)",
    "(defgeneric g (x) (:method-combination list))",
    "(defgeneric k (x) (:method-combination other))",
];

/// Forms with places for what is drawn: a class at `$`, a number at `%`, an operator at `!`, an argument at `~`.
const FORMS: [&str; 41] = [
    "(defclass $ () ((s :initform % :initarg :s :accessor s)))",
    "(defclass $ ($) ((s :initform % :initarg :s)))",
    "(defclass $ ($ $) ((r :initform % :initarg :r :reader s)))",
    "(defclass $ ($) ((s :initform % :allocation :class)))",
    "(defgeneric f (x))",
    "(defgeneric f (x) (:method ((x $)) '%))",
    "(defgeneric h (x y) (:argument-precedence-order y x))",
    "(defgeneric h (x y) (:argument-precedence-order x y))",
    "(defgeneric g (x) (:method-combination !))",
    "(defgeneric k (x) (:method-combination other))",
    "(define-method-combination other :operator !)",
    "(define-method-combination other () ((all (other))) `(list '% (call-method ,(first all))))",
    "(defmethod f ((x $)) (list '$ % (if (next-method-p) (call-next-method) 'last)))",
    "(defmethod f ((x (eql %))) (list % (if (next-method-p) (call-next-method) 'last)))",
    "(defmethod f :before ((x $)) (princ '$))",
    "(defmethod f :after ((x $)) (princ %))",
    "(defmethod f :around ((x $)) (list 'around (call-next-method)))",
    "(defmethod f :around ((x $)) (list 'around (call-next-method ~)))",
    "(defmethod h ((x $) (y $)) (list '$ '$ % (if (next-method-p) (call-next-method) 'last)))",
    "(defmethod h ((x $) (y (eql %))) (list '$ % (if (next-method-p) (call-next-method) 'last)))",
    "(defmethod g ! ((x $)) (list %))",
    "(defmethod k other ((x $)) (list '$))",
    "(defmethod k other ((x (eql %))) '(%))",
    "(defmethod g ! ((x (eql %))) (list 'eql))",
    "(defmethod initialize-instance :after ((x $) &key s) (princ %))",
    "(defmethod shared-initialize :after ((x $) names &key v) (princ 'v))",
    "(defmethod no-applicable-method ((f (eql #'f)) &rest all) 'none)",
    "(remove-method #'f (find-method #'f '() '($)))",
    "(remove-method #'h (find-method #'h '() '($ $)))",
    "(remove-method #'g (find-method #'g '(!) '($)))",
    "(setq i (make-instance '$ :s %))",
    "(setq i (make-instance '$ :v %))",
    "(change-class i '$)",
    "(reinitialize-instance i :s %)",
    "(princ (list (s i) (f i)))",
    "(princ (list (f ~) (f ~)))",
    "(princ (list (h ~ ~) (h ~ ~)))",
    "(princ (list (g ~) (g ~)))",
    "(princ (k ~))",
    "(princ (k 0))",
    "(princ (list (f i) (g i) (h i ~)))",
];

const CLASSES: [&str; 4] = ["a", "b", "c", "d"];

const NUMBERS: [&str; 3] = ["0", "1", "2"];

const OPERATORS: [&str; 3] = ["list", "progn", "append"];

const ARGUMENTS: [&str; 8] = [
    "(make-instance 'a)",
    "(make-instance 'b)",
    "(make-instance 'c)",
    "(make-instance 'd)",
    "i",
    "0",
    "1",
    "'s",
];

fn one_of(draw: &mut Pcg32, texts: &[&'static str]) -> &'static str {
    let place = draw.next_word() as usize % texts.len().max(1);
    match texts.get(place) {
        None => "nil",
        Some(text) => text,
    }
}

/// One of the forms, with what is drawn in its places.
fn form(alloc: Global, draw: &mut Pcg32) -> Result<Datum, Fail> {
    let mut text = Vec::new(alloc);
    for byte in one_of(draw, &FORMS).bytes() {
        match byte {
            b'$' => text.extend_from_slice(one_of(draw, &CLASSES).as_bytes())?,
            b'%' => text.extend_from_slice(one_of(draw, &NUMBERS).as_bytes())?,
            b'!' => text.extend_from_slice(one_of(draw, &OPERATORS).as_bytes())?,
            b'~' => text.extend_from_slice(one_of(draw, &ARGUMENTS).as_bytes())?,
            _ => text.push(byte)?,
        }
    }
    let (form, _) = read_form(alloc, text.as_slice(), 0)?.ok_or("a datum")?;
    Ok(form)
}

fn are_equal(ones: &[Value], others: &[Value]) -> bool {
    ones.len() == others.len()
        && ones
            .iter()
            .zip(others)
            .all(|(one, other)| equal(one, other))
}

fn is_same(one: &Reply, other: &Reply) -> bool {
    match (one, other) {
        (Reply::Value(one), Reply::Value(other)) => equal(one, other),
        (
            Reply::Condition { number, items },
            Reply::Condition {
                number: other,
                items: others,
            },
        ) => number == other && are_equal(items.as_slice(), others.as_slice()),
        _ => false,
    }
}

/// Whether a session answers and writes the same as one of the same forms that keeps nothing from one form to the next, and works
/// no more out.
fn sessions_agree(alloc: Global, number: u64) -> Result<bool, Fail> {
    let mut draw = Pcg32::new(number, 1);
    let mut keeping = Session::new(alloc, Limits::default(), Vec::new(alloc), Vec::new(alloc))?;
    let mut forgetting = Session::new(alloc, Limits::default(), Vec::new(alloc), Vec::new(alloc))?;
    for text in FIRST {
        let form = datum(alloc, text)?;
        let _ = keeping.submit(&form);
        let _ = forgetting.submit(&form);
    }
    for _ in 0..LENGTH {
        let form = form(alloc, &mut draw)?;
        forgetting.clear_cache();
        if !is_same(&keeping.submit(&form), &forgetting.submit(&form))
            || keeping.written() != forgetting.written()
            || keeping.built() > forgetting.built()
        {
            return Ok(false);
        }
    }
    Ok(true)
}

#[test]
fn what_is_kept_makes_no_difference(rt: HostRuntime) -> Result<(), Fail> {
    for number in 0..SESSIONS {
        assert!(rt; sessions_agree(rt.alloc(), number)?, "session {number}");
    }
    Ok(())
}
