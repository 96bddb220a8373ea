//! How conditions are explained: the mistakes that newcomers make.
use crate::prompt::{status, status_within};
use clos_explained::Limits;
use clos_names::function_names;
use std::process::Abort;
use std::test::Fail;

/// Mistakes that are well-formed, and how each is explained.
const MISTAKES: [(&str, &str); 45] = [
    (
        "x\n",
        "1:1: UNBOUND-VARIABLE: no variable here is called X\n",
    ),
    (
        "(defvar *count* 0)\n(print *cuont*)\n",
        "2:8: UNBOUND-VARIABLE: no variable here is called *CUONT*; is it *COUNT*?\n",
    ),
    (
        "(defclass a () ())\n(make-instance a)\n",
        "2:16: UNBOUND-VARIABLE: no variable here is called A; the class is written 'A\n",
    ),
    (
        "(defmethod speak ((x integer)) 1)\n(print speak)\n",
        "2:8: UNBOUND-VARIABLE: no variable here is called SPEAK; the generic function is written #'SPEAK\n",
    ),
    (
        "(pritn 1)\n",
        "1:1: UNDEFINED-FUNCTION: no function is called PRITN; is it PRINT?\n",
    ),
    (
        "(defmethod area ((x integer)) x)\n(aera 2)\n",
        "2:1: UNDEFINED-FUNCTION: no function is called AERA; is it AREA?\n",
    ),
    (
        "(defun half (x) (floor x 2))\n(haf 4)\n",
        "2:1: UNDEFINED-FUNCTION: no function is called HAF; is it HALF?\n",
    ),
    (
        "(wehn 1)\n",
        "1:1: UNDEFINED-FUNCTION: no function is called WEHN; is it WHEN?\n",
    ),
    (
        "(setf (color 1) 2)\n",
        "1:1: UNDEFINED-FUNCTION: no function is called (SETF COLOR)\n",
    ),
    (
        "(format 5)\n",
        "1:1: UNDEFINED-FUNCTION: no function is called FORMAT\n",
    ),
    (
        "(+ 1 \"2\")\n",
        "1:1: TYPE-ERROR: \"2\", of class STRING, is of a wrong type here\n",
    ),
    (
        "(* 9223372036854775807 2)\n",
        "1:1: INTEGER-RANGE: integers are from -9223372036854775808 to 9223372036854775807\n",
    ),
    ("(floor 1 0)\n", "1:1: DIVISION-BY-ZERO: the divisor is 0\n"),
    (
        "(defclass account () ())\n(make-instance 'acount)\n",
        "2:1: UNDEFINED-CLASS: no class is called ACOUNT; is it ACCOUNT?\n",
    ),
    (
        "(defmethod area ((s sqare)) 1)\n",
        "1:1: UNDEFINED-CLASS: no class is called SQARE\n",
    ),
    (
        "(defclass num (integer) ())\n",
        "1:1: INVALID-SUPERCLASS: NUM can't be below INTEGER, which the system defines: superclasses are STANDARD-OBJECT and classes of defclass\n",
    ),
    (
        "(defclass a () ())\n(defclass b (a) ())\n(defclass c (a b) ())\n",
        "3:1: INCONSISTENT-PRECEDENCE: the classes above C can't stand in one order\n  the circle          A before B, by C\n                      B before A, by B\n",
    ),
    (
        "(defclass a () ())\n(defclass b (standard-object a) ())\n",
        "2:1: INCONSISTENT-PRECEDENCE: the classes above B can't stand in one order\n  the circle          STANDARD-OBJECT before A, by B\n                      A before STANDARD-OBJECT, by A\n",
    ),
    (
        "(defclass a (b) ())\n(defclass b (c) ())\n(defclass c (d a) ())\n",
        "3:1: SUPERCLASS-CYCLE: C would be above itself\n  the circle          C above B above A above C\n",
    ),
    (
        "(defclass dog (pet animal) ())\n(defclass pet (thing) ())\n(make-instance 'dog)\n",
        "3:1: INCOMPLETE-CLASS: a class above DOG is not defined\n  not defined         ANIMAL\n                      THING\n",
    ),
    (
        "(defgeneric g (a b))\n(defmethod g ((a integer)) a)\n",
        "2:1: LAMBDA-LIST-CONGRUENCE: the lambda lists of G and of a method of it are not congruent\n  arguments           2 required\n  of the method       1 required\n  methods             none\n",
    ),
    (
        "(defmethod g ((a integer) b &key c) a)\n(defgeneric g (a))\n",
        "2:1: LAMBDA-LIST-CONGRUENCE: the lambda lists of G and of a method of it are not congruent\n  arguments           2 required, &key\n  of its defgeneric   1 required\n  methods             #<METHOD G (INTEGER T)>\n",
    ),
    (
        "(defgeneric g (x) (:method-combination appned))\n",
        "1:1: UNDEFINED-COMBINATION: no method combination is called APPNED; is it APPEND?\n",
    ),
    (
        "(defclass dog () ())\n(defmethod speak ((d dog)) 1)\n(speak 'dog)\n",
        "3:1: NO-APPLICABLE-METHOD: no method of SPEAK fits (SYMBOL)\n  methods             #<METHOD SPEAK (DOG)>\n",
    ),
    (
        "(defmethod speak :around ((x integer)) (call-next-method))\n(speak 1)\n",
        "2:1: REQUIRED-GROUP-EMPTY: methods of SPEAK fit, but none of the group PRIMARY, which the method combination STANDARD requires\n  methods             #<METHOD SPEAK :AROUND (INTEGER)>\n",
    ),
    (
        "(defmethod speak :befor ((x integer)) 1)\n(speak 1)\n",
        "2:1: INVALID-METHOD: the method combination STANDARD has no group for the qualifiers of #<METHOD SPEAK :BEFOR (INTEGER)>\n",
    ),
    (
        "(define-method-combination all () ((all *)) `(call-method ,(first all)))\n(defgeneric h (x) (:method-combination all))\n(defmethod h :a ((x integer)) x)\n(defmethod h :b ((x integer)) x)\n(h 1)\n",
        "5:1: AMBIGUOUS-METHODS: neither comes before the other, of one group and with the same specializers: #<METHOD H :A (INTEGER)> and #<METHOD H :B (INTEGER)>\n",
    ),
    (
        "(define-method-combination wrong () ((all *)) `(list ,all))\n(defgeneric h (x) (:method-combination wrong))\n(defmethod h ((x integer)) x)\n(h 1)\n",
        "4:1: BAD-EXPANSION: the method combination WRONG makes no effective method of H: its arguments don't fit, its template goes wrong, or what it makes is no form\n",
    ),
    (
        "(define-method-combination big () ((all *)) (let* ((a (list 1 1 1 1 1 1 1 1)) (a (append a a)) (a (append a a)) (a (append a a)) (a (append a a)) (a (append a a)) (a (append a a)) (a (append a a)) (a (append a a)) (a (append a a)) (a (append a a)) (a (append a a)) (a (append a a)) (a (append a a)) (a (append a a))) 0))\n(defgeneric e (x) (:method-combination big))\n(defmethod e (x) x)\n(e 1)\n",
        "4:1: EXPANSION-LIMIT: the method combination BIG makes too large an effective method of E: more than 65536 conses, or lists that nest too deep\n",
    ),
    (
        "(defmethod f ((x integer)) (call-next-method))\n(f 1)\n",
        "2:1: NO-NEXT-METHOD: no method follows #<METHOD F (INTEGER)> in this call; next-method-p tells whether one does\n",
    ),
    (
        "(defmethod f ((x integer)) (call-next-method \"a\"))\n(defmethod f ((x string)) 2)\n(defmethod f (x) 3)\n(f 1)\n",
        "4:1: NEXT-ARGUMENTS: in #<METHOD F (INTEGER)> call-next-method has arguments that other methods fit, or in another order\n",
    ),
    (
        "(defmethod f ((x integer)) x)\n(find-method #'f '() '(string))\n",
        "2:1: NO-SUCH-METHOD: F has no method with these qualifiers and specializers\n  methods             #<METHOD F (INTEGER)>\n",
    ),
    (
        "(defclass p () ((x :initarg :x :accessor px)))\n(px (make-instance 'p))\n",
        "2:1: UNBOUND-SLOT: the slot X of #<P 1> has no value; it is filled by :X\n",
    ),
    (
        "(defclass p () ((name :initarg :name)))\n(slot-value (make-instance 'p) 'nmae)\n",
        "2:1: MISSING-SLOT: #<P 1> has no slot NMAE; is it NAME?\n  slots               NAME\n",
    ),
    (
        "(defclass p () ((balance :initarg :balance)))\n(make-instance 'p :balence 1)\n",
        "2:1: INVALID-INITARG: :BALENCE fills no slot of P, and no method takes it; is it :BALANCE?\n  initargs of slots   :BALANCE\n",
    ),
    (
        "(defclass p () ())\n(make-instance 'p :x 1)\n",
        "2:1: INVALID-INITARG: :X fills no slot of P, and no method takes it\n  initargs of slots   none\n",
    ),
    (
        "(native-call 'afine 1 2)\n",
        "1:1: UNKNOWN-NATIVE: the host has stored no function AFINE\n",
    ),
    (
        "(defclass c () ())\n(add-dependent (find-class 'c) 'audti)\n",
        "2:1: UNKNOWN-DEPENDENT: the session was handed no dependent AUDTI\n  dependents          none\n",
    ),
    (
        "(eq \"a\" \"a\")\n",
        "1:1: UNSUPPORTED: this is left out of the language, as docs/LANGUAGE.md tells under UNSUPPORTED\n",
    ),
    (
        "(defun again () (again))\n(again)\n",
        "2:1: DEPTH-LIMIT: a form stands deeper than the 1000 levels that forms may nest here; --depth N sets another limit, up to 4000\n",
    ),
    (
        "(dotimes (i 1000000) i)\n",
        "1:1: STEP-LIMIT: no step is left of the 1000000 that a form may take here; --steps N sets another limit\n",
    ),
    (
        "(defvar *e* \"\u{e9}\")\n(list *e*) (foo)\n",
        "2:12: UNDEFINED-FUNCTION: no function is called FOO\n",
    ),
    (
        "(progn\n  1\n  (foo))\n",
        "3:3: UNDEFINED-FUNCTION: no function is called FOO\n",
    ),
    (
        "(defmethod f ((x integer)) x)\n(list 1\n  (f \"a\"))\n",
        "3:3: NO-APPLICABLE-METHOD: no method of F fits (STRING)\n  methods             #<METHOD F (INTEGER)>\n",
    ),
    (
        "(list 'a ; 'b\n '(foo) (foo))\n",
        "2:9: UNDEFINED-FUNCTION: no function is called FOO\n",
    ),
];

/// Each of the inputs is explained so, and ends with status 1.
pub fn check_explanations<R: AllocGlobal + Abort>(
    rt: &R,
    mistakes: &[(&str, &str)],
) -> Result<(), Fail> {
    for (input, wanted) in mistakes.iter() {
        let mut output = Vec::new(rt.alloc());
        let mut errors = Vec::new(rt.alloc());
        let got = status(rt, &mut input.as_bytes(), &mut output, &mut errors)?;
        let text = str::from_utf8(errors.as_slice()).unwrap_or("?");
        assert_eq!(rt; text, *wanted, "the explanation of {input}");
        assert_eq!(rt; got, 1, "the status of {input}");
    }
    Ok(())
}

#[test]
fn explains_mistakes(rt: HostRuntime) -> Result<(), Fail> {
    check_explanations(&rt, MISTAKES.as_slice())
}

#[test]
fn tells_which_tables_are_full(rt: HostRuntime) -> Result<(), Fail> {
    let limits = Limits {
        globals: 0,
        ..Limits::default()
    };
    let mut output = Vec::new(rt.alloc());
    let mut errors = Vec::new(rt.alloc());
    let mut input: &[u8] = b"(defvar *x* 1)\n";
    let got = status_within(&rt, limits, &mut input, &mut output, &mut errors)?;
    let text = str::from_utf8(errors.as_slice()).unwrap_or("?");
    assert_eq!(rt; got, 1);
    assert!(rt;
        text.starts_with("1:1: TABLE-LIMIT: a table of the session is full\n"),
        "{text}"
    );
    assert!(rt;
        text.contains("\n                      0 global variables\n"),
        "{text}"
    );
    Ok(())
}

/// Each wrong number of arguments of a function of the language's is told as such, and no right one is.
#[test]
fn counts_arguments_as_calls_do(rt: HostRuntime) -> Result<(), Fail> {
    let alloc = rt.alloc();
    for name in function_names() {
        let mut call = format!(in alloc; "({name}")?;
        for count in 0..5 {
            let input = format!(in alloc; "{call})\n")?;
            let mut output = Vec::new(alloc);
            let mut errors = Vec::new(alloc);
            status(&rt, &mut input.as_bytes(), &mut output, &mut errors)?;
            let text = str::from_utf8(errors.as_slice()).unwrap_or("?");
            let is_refused = text.contains("PROGRAM-ERROR");
            let is_told = text.contains("and is called with") || text.contains(" takes pairs ");
            assert_eq!(rt; is_told, is_refused, "{name} with {count}: {text}");
            call.push_str(" :x")?;
        }
    }
    Ok(())
}
