//! How the forms of the language are written.
use clos_names::is_the;
use lisp_data::Name;

/// Operators, each with how its forms are written: `*` after what may stand any number of times, brackets around what may be left out.
#[rattlefmt::skip]
const SYNTAX: [(&str, &str); 30] = [
    ("QUOTE", "(QUOTE DATUM)"),
    ("FUNCTION", "(FUNCTION NAME)"),
    ("IF", "(IF TEST THEN [ELSE])"),
    ("COND", "(COND (TEST FORM*)*)"),
    ("WHEN", "(WHEN TEST FORM*)"),
    ("UNLESS", "(UNLESS TEST FORM*)"),
    ("PROG1", "(PROG1 FORM FORM*)"),
    ("MULTIPLE-VALUE-PROG1", "(MULTIPLE-VALUE-PROG1 FORM FORM*)"),
    ("LET", "(LET ((VARIABLE VALUE)*) FORM*)"),
    ("LET*", "(LET* ((VARIABLE VALUE)*) FORM*)"),
    ("SETQ", "(SETQ {VARIABLE VALUE}*)"),
    ("SETF", "(SETF {PLACE VALUE}*)"),
    ("INCF", "(INCF PLACE [DELTA])"),
    ("DECF", "(DECF PLACE [DELTA])"),
    ("DOTIMES", "(DOTIMES (VARIABLE COUNT [RESULT]) FORM*)"),
    ("WITH-SLOTS", "(WITH-SLOTS (SLOT*) INSTANCE FORM*)"),
    ("CALL-NEXT-METHOD", "(CALL-NEXT-METHOD ARGUMENT*), in the body of a method"),
    ("NEXT-METHOD-P", "(NEXT-METHOD-P), in the body of a method"),
    ("DEFCLASS", "(DEFCLASS NAME (SUPERCLASS*) (SLOT*) OPTION*)"),
    ("DEFGENERIC", "(DEFGENERIC NAME LAMBDA-LIST OPTION*)"),
    ("DEFMETHOD", "(DEFMETHOD NAME QUALIFIER* LAMBDA-LIST FORM*)"),
    ("DEFINE-METHOD-COMBINATION", "(DEFINE-METHOD-COMBINATION NAME LAMBDA-LIST (GROUP*) TEMPLATE), or with options alone after the name"),
    ("DEFUN", "(DEFUN NAME LAMBDA-LIST FORM*)"),
    ("DEFVAR", "(DEFVAR NAME [VALUE])"),
    ("DEFPARAMETER", "(DEFPARAMETER NAME VALUE)"),
    ("REMOVE-METHOD", "(REMOVE-METHOD FUNCTION METHOD)"),
    ("ADD-DEPENDENT", "(ADD-DEPENDENT OBJECT NAME)"),
    ("REMOVE-DEPENDENT", "(REMOVE-DEPENDENT OBJECT NAME)"),
    ("IN-PACKAGE", "(IN-PACKAGE NAME)"),
    ("AND", "(AND FORM*)"),
];

/// How forms are written that begin with this name.
pub fn syntax_of(name: &Name) -> Option<&'static str> {
    SYNTAX
        .iter()
        .find(|entry| is_the(name, entry.0))
        .map(|entry| entry.1)
}
