//! How PROGRAM-ERROR is explained: the part of a form that is malformed, and what the form takes.
use crate::explanations::check_explanations;
use std::test::Fail;

/// Malformed forms, and how each is explained.
const MALFORMED: [(&str, &str); 36] = [
    (
        "(defun f (x) x)\n(f)\n",
        "2:1: PROGRAM-ERROR: F takes 1 argument, and is called with 0\n",
    ),
    (
        "(defun f (x &optional y) x)\n(f 1 2 3)\n",
        "2:1: PROGRAM-ERROR: F takes 1 to 2 arguments, and is called with 3\n",
    ),
    (
        "(defun f (x &rest y) x)\n(f)\n",
        "2:1: PROGRAM-ERROR: F takes 1 argument or more, and is called with 0\n",
    ),
    (
        "(defgeneric g (a b))\n(list 1 (g 1))\n",
        "2:9: PROGRAM-ERROR: G takes 2 arguments, and is called with 1\n",
    ),
    (
        "(let (x 1) x)\n",
        "1:9: PROGRAM-ERROR: the binding 1 of this LET is malformed\n",
    ),
    (
        "(progn 1 (when t (if)))\n",
        "1:18: PROGRAM-ERROR: the form (IF ..) is malformed; such a form is (IF TEST THEN [ELSE])\n",
    ),
    (
        "((1 2))\n",
        "1:1: PROGRAM-ERROR: the form is malformed: no name of a function or an operator stands first in it\n",
    ),
    (
        "(setq 5 1)\n",
        "1:1: PROGRAM-ERROR: the form (SETQ ..) is malformed; such a form is (SETQ {VARIABLE VALUE}*)\n",
    ),
    (
        "(defclass c)\n",
        "1:1: PROGRAM-ERROR: the form (DEFCLASS ..) is malformed; such a form is (DEFCLASS NAME (SUPERCLASS*) (SLOT*) OPTION*)\n",
    ),
    (
        "(defclass c () ((x :initfrom 1)))\n",
        "1:17: PROGRAM-ERROR: the slot (X :INITFROM 1) of this DEFCLASS is malformed\n",
    ),
    (
        "(defmethod m ((x integer string)) x)\n",
        "1:14: PROGRAM-ERROR: the lambda list ((X INTEGER STRING)) of this DEFMETHOD is malformed\n",
    ),
    (
        "(defun car (x) x)\n",
        "1:1: PROGRAM-ERROR: CAR is a name of the language's, and is not defined anew\n",
    ),
    (
        "(defgeneric g (x &key y))\n(defmethod g ((x integer) &key y) y)\n(g 1 :z 2)\n",
        "3:1: PROGRAM-ERROR: G does not take :Z; it takes :Y\n",
    ),
    (
        "(defclass c (a a) ())\n",
        "1:13: PROGRAM-ERROR: the list of superclasses (A A) of this DEFCLASS is malformed\n",
    ),
    (
        "(defclass c () () (:foo 1))\n",
        "1:19: PROGRAM-ERROR: the option (:FOO 1) of this DEFCLASS is malformed\n",
    ),
    (
        "(defclass c () (x x))\n",
        "1:1: PROGRAM-ERROR: the form (DEFCLASS ..) is malformed; such a form is (DEFCLASS NAME (SUPERCLASS*) (SLOT*) OPTION*)\n",
    ),
    (
        "(defclass c () ((x :initform (if))))\n",
        "1:30: PROGRAM-ERROR: the form (IF ..) is malformed; such a form is (IF TEST THEN [ELSE])\n",
    ),
    (
        "(defclass c () () (:default-initargs :x (when)))\n",
        "1:41: PROGRAM-ERROR: the form (WHEN ..) is malformed; such a form is (WHEN TEST FORM*)\n",
    ),
    (
        "(defclass integer () ())\n",
        "1:1: PROGRAM-ERROR: INTEGER is a name of the language's, and is not defined anew\n",
    ),
    (
        "(defmethod m ((x integer)) (if))\n",
        "1:28: PROGRAM-ERROR: the form (IF ..) is malformed; such a form is (IF TEST THEN [ELSE])\n",
    ),
    (
        "(defmethod m (x &optional (y (if))) y)\n",
        "1:30: PROGRAM-ERROR: the form (IF ..) is malformed; such a form is (IF TEST THEN [ELSE])\n",
    ),
    (
        "(defgeneric g (x) (:documentatio \"x\"))\n",
        "1:19: PROGRAM-ERROR: the option (:DOCUMENTATIO \"x\") of this DEFGENERIC is malformed\n",
    ),
    (
        "(defgeneric g (x) (:method ((x integer)) (if)))\n",
        "1:42: PROGRAM-ERROR: the form (IF ..) is malformed; such a form is (IF TEST THEN [ELSE])\n",
    ),
    (
        "(defun f (x x) x)\n",
        "1:10: PROGRAM-ERROR: the lambda list (X X) of this DEFUN is malformed\n",
    ),
    (
        "(defun f (x) x)\n(defmethod f (x) x)\n",
        "2:1: PROGRAM-ERROR: F is a function of a defun, and no generic function\n",
    ),
    (
        "(defgeneric h (x))\n(defun h (x) x)\n",
        "2:1: PROGRAM-ERROR: H is a generic function, and stays one\n",
    ),
    (
        "(defun n (x) x)\n(defclass q () ((n :initarg :n :reader n)))\n",
        "2:40: PROGRAM-ERROR: a reader, writer or accessor is a function of a defun, and no generic function\n",
    ),
    (
        "(defun initialize-instance (x) 1)\n",
        "1:1: PROGRAM-ERROR: INITIALIZE-INSTANCE is a name of the language's, and is not defined anew\n",
    ),
    (
        "(cond (1 2)\n      ((let ((x 1 2)) x)))\n",
        "2:14: PROGRAM-ERROR: the binding (X 1 2) of this LET is malformed\n",
    ),
    (
        "(dotimes (i (if)) 1)\n",
        "1:13: PROGRAM-ERROR: the form (IF ..) is malformed; such a form is (IF TEST THEN [ELSE])\n",
    ),
    (
        "(list '(if) (if))\n",
        "1:13: PROGRAM-ERROR: the form (IF ..) is malformed; such a form is (IF TEST THEN [ELSE])\n",
    ),
    (
        "(call-next-method)\n",
        "1:1: PROGRAM-ERROR: the form (CALL-NEXT-METHOD ..) is malformed; such a form is (CALL-NEXT-METHOD ARGUMENT*), in the body of a method\n",
    ),
    (
        "(defun k (&key a b) a)\n(k :a)\n",
        "2:1: PROGRAM-ERROR: K takes pairs of a keyword and a value, and the last keyword has no value; it takes :A :B\n",
    ),
    (
        "(defun k (a &key b) a)\n(list\n (k 1 :c 2))\n",
        "3:2: PROGRAM-ERROR: K does not take :C; it takes :B\n",
    ),
    (
        "(let ((x 1))\n  (car x x))\n",
        "2:3: PROGRAM-ERROR: CAR takes 1 argument, and is called with 2\n",
    ),
    (
        "(slot-value 1)\n",
        "1:1: PROGRAM-ERROR: SLOT-VALUE takes 2 arguments, and is called with 1\n",
    ),
];

#[test]
fn explains_malformed_forms(rt: HostRuntime) -> Result<(), Fail> {
    check_explanations(&rt, MALFORMED.as_slice())
}
