//! Each variable that is read has the position of what binds it.
use clos_forms::{Form, Forms, Operator, Variable};
use clos_syntax::{LambdaList, Optional};
use clos_top::{Top, parse_top};
use lisp_data::Datum;
use lisp_reader::read_form;
use std::alloc::{AllocError, Global};
use std::test::Fail;

/// How deep the parts of a row's form nest at most.
const DEPTH: u64 = 20;

/// Top-level forms, each with the variables that are read in it, in order: a local one with its frame, its position there,
/// and its place among all names in scope.
const ROWS: &str = "(defun f () y) => Y
(defun g (z) z) => Z=0.0@0
(let ((i (make-instance 'a))) (with-slots (x) i (let ((x 5)) (princ x)) (setq x 2) (princ x)) (princ (slot-value i 'x))) => I=0.0@0 X=2.0@2 X=1.0@1 I=0.0@0
(defun f (a b) (list b a c)) => B=0.1@1 A=0.0@0 C
(defun f (a &optional (b a) (c b d)) (list a b c d)) => A=0.0@0 B=0.1@1 A=0.0@0 B=0.1@1 C=0.2@2 D=0.3@3
(defun f (&rest r &key (k r) ((:m n) k given) (o given)) (list r k n given o)) => R=0.0@0 K=0.1@1 GIVEN=0.3@3 R=0.0@0 K=0.1@1 N=0.2@2 GIVEN=0.3@3 O=0.4@4
(defun f (&optional (a a) (b (let ((c a)) c))) b) => A A=0.0@0 C=1.0@1 B=0.1@1
(defmethod m ((a integer) b) (let ((c a)) (+ c b))) => A=0.0@0 C=1.0@2 B=0.1@1
(let ((a 1) b (c a)) (list a b c)) => A A=0.0@0 B=0.1@1 C=0.2@2
(let* ((a 1) b (c a) (a (list a b))) (list a b c)) => A=0.0@0 A=0.0@0 B=0.1@1 A=0.3@3 B=0.1@1 C=0.2@2
(let ((a 1)) (let ((b a) (a 2)) (list a b)) a) => A=0.0@0 A=1.1@2 B=1.0@1 A=0.0@0
(let ((a (let ((b 1)) b)) (c b)) (let () (list a c b))) => B=0.0@0 B A=0.0@0 C=0.1@1 B
(let* ((a 1) (c (let ((b a)) (list a b))) (d b)) d) => A=0.0@0 A=0.0@0 B=1.0@1 B D=0.2@2
(dotimes (i (+ i 3) (list i)) (princ i) (let ((j i)) j)) => I I=0.0@0 I=0.0@0 I=0.0@0 J=1.0@1
(with-slots (x (y z) w) (list x y) (list x y z w)) => X Y X=0.0@2 Y=0.1@1 Z W=0.2@0
(let ((a 1)) (when a (setf (car a) a (slot-value a 'b) c) (incf a a))) => A=0.0@0 A=0.0@0 A=0.0@0 A=0.0@0 C A=0.0@0
(let ((a 1)) (cond (a) ((let ((b a)) b) a))) => A=0.0@0 A=0.0@0 B=1.0@1 A=0.0@0
(defvar v (let ((a w)) a)) => W A=0.0@0
(list t nil :k) =>
";

/// Adds a variable that is read, with where it stands.
fn tell(alloc: Global, line: &mut String, variable: &Variable) -> Result<(), AllocError> {
    line.push(' ')?;
    line.push_str(variable.name().as_str())?;
    let Some(stands) = variable.position() else {
        return Ok(());
    };
    let text = format!(in alloc; "={}.{}@{}", stands.frame, stands.position, stands.place)?;
    line.push_str(text.as_str())
}

/// Adds the variables of these forms and of their parts, which nest no deeper than this.
fn tell_forms(
    alloc: Global,
    line: &mut String,
    depth: u64,
    forms: &Forms,
) -> Result<(), AllocError> {
    let mut rest = forms;
    while let Some((first, others)) = rest.split_first() {
        tell_variable(alloc, line, first)?;
        if depth > 0 {
            tell_forms(alloc, line, depth - 1, first.parts())?;
        }
        rest = others;
    }
    Ok(())
}

/// Adds a form that is a variable.
fn tell_variable(alloc: Global, line: &mut String, form: &Form) -> Result<(), AllocError> {
    match form.operator() {
        Operator::Variable(variable) => tell(alloc, line, variable),
        _ => Ok(()),
    }
}

/// Adds the variables of a form and of its parts.
fn tell_form(alloc: Global, line: &mut String, form: &Form) -> Result<(), AllocError> {
    tell_variable(alloc, line, form)?;
    tell_forms(alloc, line, DEPTH, form.parts())
}

fn tell_init(alloc: Global, line: &mut String, entry: &Optional) -> Result<(), AllocError> {
    match &entry.init {
        None => Ok(()),
        Some(form) => tell_form(alloc, line, form),
    }
}

/// Adds those of the init forms of a lambda list, and of a body.
fn tell_body(
    alloc: Global,
    line: &mut String,
    list: &LambdaList,
    body: &Forms,
) -> Result<(), AllocError> {
    for entry in list.optional.as_slice() {
        tell_init(alloc, line, entry)?;
    }
    if let Some(keys) = &list.keys {
        for key in keys.entries.as_slice() {
            tell_init(alloc, line, &key.variable)?;
        }
    }
    tell_forms(alloc, line, DEPTH, body)
}

/// Adds those of a top-level form.
fn tell_top(alloc: Global, line: &mut String, top: &Top) -> Result<(), AllocError> {
    match top {
        Top::Defun(function) => tell_body(alloc, line, &function.lambda_list, &function.body),
        Top::DefMethod(_, method) => tell_body(alloc, line, &method.lambda_list, &method.body),
        Top::DefVar(variable) => match &variable.form {
            None => Ok(()),
            Some(form) => tell_form(alloc, line, form),
        },
        Top::Expr(form) => tell_form(alloc, line, form),
        _ => line.push_str(" another form"),
    }
}

/// Adds those of the top-level form that a datum is.
fn tell_datum(alloc: Global, line: &mut String, datum: &Datum) -> Result<(), AllocError> {
    match parse_top(alloc, datum) {
        Err(_) => line.push_str(" no form"),
        Ok(top) => tell_top(alloc, line, &top),
    }
}

/// The row of a top-level form.
fn told(alloc: Global, text: &str) -> Result<String, AllocError> {
    let mut line = String::from_str(alloc, text)?;
    line.push_str(" =>")?;
    let Ok(Some((datum, _))) = read_form(alloc, text.as_bytes(), 0) else {
        line.push_str(" no datum")?;
        return Ok(line);
    };
    tell_datum(alloc, &mut line, &datum)?;
    Ok(line)
}

#[test]
fn variables_stand_where_they_are_bound(rt: HostRuntime) -> Result<(), Fail> {
    for row in ROWS.lines() {
        let (text, _) = row.split_once(" =>").unwrap_or((row, ""));
        assert_eq!(rt; told(rt.alloc(), text)?.as_str(), row);
    }
    Ok(())
}
