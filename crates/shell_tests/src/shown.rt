//! What the commands at a prompt show.
use crate::prompt::status;
use std::process::Abort;
use std::test::Fail;

/// What is defined before the commands.
const DEFINED: &str = "(defclass animal () ((name :initarg :name :reader name-of)))
(defclass pet () ((name :initform 'x) (owner :allocation :class :initform 1)))
(defclass dog (animal pet) () (:default-initargs :name 'rex))
(defmethod speak ((a animal) n &key loud) n)
(defmethod speak ((a dog) (n integer) &key) n)
(defmethod speak ((a dog) (n (eql 3)) &key) n)
(defmethod speak :around ((a dog) (n (eql 3)) &key) n)
(defmethod (setf tag) (new (a dog)) new)
(define-method-combination wrap () ((all *))
  `(progn (cond ((equal 'a :k) 1) (t 2)) (let ((x 1)) x) (call-method (make-method (list 7)) (,(first all) (make-method \"x\")))))
(defgeneric wrapped (x) (:method-combination wrap))
(defmethod wrapped (x) x)
(defvar *rex* (make-instance 'dog))
(wrapped 1)
(speak *rex* 3)
(speak *rex* 4)
";

/// Commands, and what each shows.
const SHOWN: [(&str, &str); 23] = [
    (
        ",methods (name-of *rex*)\n",
        "clos> #<GENERIC-FUNCTION NAME-OF>\n  classes             DOG\n  methods that fit    #<METHOD NAME-OF (ANIMAL)>\n  effective method    not built yet\nclos> \n",
    ),
    (
        ",methods (wrapped 1)\n",
        "clos> #<GENERIC-FUNCTION WRAPPED>\n  classes             INTEGER\n  methods that fit    #<METHOD WRAPPED (T)>\n  effective method    (PROGN (COND ((EQUAL 'A :K) 1) (T 2)) (LET ..) (CALL-METHOD (MAKE-METHOD (LIST 7)) (#<METHOD WRAPPED (T)> (MAKE-METHOD \"x\"))))\nclos> \n",
    ),
    (
        ",class dog\n",
        "clos> #<CLASS DOG>\n  direct superclasses ANIMAL\n                      PET\n  direct subclasses   none\n  precedence          DOG\n                      ANIMAL, since it is above DOG\n                      PET, since it is above DOG\n                      STANDARD-OBJECT, since it is above PET\n                      T, since it is above STANDARD-OBJECT\n  slots               NAME from ANIMAL, PET, with an initform, initargs :NAME\n                      OWNER from PET, shared, with an initform\n  default initargs    :NAME from DOG\n  accessor methods    #<METHOD NAME-OF (ANIMAL)>\nclos> \n",
    ),
    (
        ",class pet",
        "clos> #<CLASS PET>\n  direct superclasses STANDARD-OBJECT\n  direct subclasses   DOG\n  precedence          PET\n                      STANDARD-OBJECT, since it is above PET\n                      T, since it is above STANDARD-OBJECT\n  slots               NAME from PET, with an initform\n                      OWNER from PET, shared, with an initform\n  default initargs    none\n  accessor methods    none\nclos> \n",
    ),
    (
        "  ,class integer x\n",
        "clos> #<CLASS INTEGER>\n  direct superclasses RATIONAL\n                      REAL\n                      NUMBER\n                      T\n  direct subclasses   none\n  precedence          INTEGER\n                      RATIONAL, since it is above INTEGER\n                      REAL, since it is above RATIONAL\n                      NUMBER, since it is above REAL\n                      T, since it is above NUMBER\n  slots               none\n  default initargs    none\n  accessor methods    none\nclos> \n",
    ),
    (",class cat\n", "clos> ; no class is called CAT\nclos> \n"),
    (
        ",class 5\n",
        "clos> ; ,class takes the name of a class\nclos> \n",
    ),
    (
        ",class\n",
        "clos> ; ,class takes the name of a class\nclos> \n",
    ),
    (
        ",generic speak\n",
        "clos> #<GENERIC-FUNCTION SPEAK>\n  arguments           2 required, &key\n  argument precedence 1 2\n  combination         STANDARD\n  methods             #<METHOD SPEAK (ANIMAL T)>\n                      #<METHOD SPEAK (DOG INTEGER)>\n                      #<METHOD SPEAK (DOG (EQL 3))>\n                      #<METHOD SPEAK :AROUND (DOG (EQL 3))>\nclos> \n",
    ),
    (
        ",generic (setf tag)\n",
        "clos> #<GENERIC-FUNCTION (SETF TAG)>\n  arguments           2 required\n  argument precedence 1 2\n  combination         STANDARD\n  methods             #<METHOD (SETF TAG) (T DOG)>\nclos> \n",
    ),
    (
        ",generic name-of\n",
        "clos> #<GENERIC-FUNCTION NAME-OF>\n  arguments           1 required\n  argument precedence 1\n  combination         STANDARD\n  methods             #<METHOD NAME-OF (ANIMAL)>, of a slot of ANIMAL\nclos> \n",
    ),
    (
        ",generic car\n",
        "clos> ; ,generic takes the name of a generic function\nclos> \n",
    ),
    (
        ",generic (setf)\n",
        "clos> ; ,generic takes the name of a generic function\nclos> \n",
    ),
    (
        ",generic )\n",
        "clos> ; ,generic takes the name of a generic function\nclos> \n",
    ),
    (
        ",methods (speak *rex* 3)\n",
        "clos> #<GENERIC-FUNCTION SPEAK>\n  classes             DOG INTEGER\n  methods that fit    #<METHOD SPEAK (DOG (EQL 3))>\n                      #<METHOD SPEAK :AROUND (DOG (EQL 3))>, of the same specializers\n                      #<METHOD SPEAK (DOG INTEGER)>, since (EQL 3) comes before INTEGER for argument 2\n                      #<METHOD SPEAK (ANIMAL T)>, since DOG comes before ANIMAL for argument 1\n  effective method    (CALL-METHOD #<METHOD SPEAK :AROUND (DOG (EQL 3))> ((MAKE-METHOD (PROG1 (PROGN (CALL-METHOD #<METHOD SPEAK (DOG (EQL 3))> (#<METHOD SPEAK (DOG INTEGER)> #<METHOD SPEAK (ANIMAL T)>)))))))\nclos> \n",
    ),
    (
        ",methods (speak 'dog \"a\")\n",
        "clos> #<GENERIC-FUNCTION SPEAK>\n  classes             SYMBOL STRING\n  methods that fit    none\n  others              #<METHOD SPEAK (ANIMAL T)>\n                      #<METHOD SPEAK (DOG INTEGER)>\n                      #<METHOD SPEAK (DOG (EQL 3))>\n                      #<METHOD SPEAK :AROUND (DOG (EQL 3))>\n  effective method    not built yet\nclos> \n",
    ),
    (
        ",methods (speak *rex*)\n",
        "clos> #<GENERIC-FUNCTION SPEAK> takes 2 arguments or more\nclos> \n",
    ),
    (
        ",methods (speak (make-instance 'animal) (+ 1 2))\n",
        "clos> #<GENERIC-FUNCTION SPEAK>\n  classes             ANIMAL INTEGER\n  methods that fit    #<METHOD SPEAK (ANIMAL T)>\n  others              #<METHOD SPEAK (DOG INTEGER)>\n                      #<METHOD SPEAK (DOG (EQL 3))>\n                      #<METHOD SPEAK :AROUND (DOG (EQL 3))>\n  effective method    not built yet\nclos> \n",
    ),
    (
        ",methods (car 1)\n",
        "clos> ; ,methods takes a call of a generic function by a symbol\nclos> \n",
    ),
    (
        ",methods\n",
        "clos> ; ,methods takes a call of a generic function by a symbol\nclos> \n",
    ),
    (
        ",cache\n",
        "clos> 5 effective methods were built\n  kept                (INITIALIZE-INSTANCE DOG): 1 method\n                      (SHARED-INITIALIZE DOG SYMBOL): 1 method\n                      (WRAPPED INTEGER): 1 method\n                      (SPEAK DOG (EQL 3)): 4 methods\n                      (SPEAK DOG INTEGER): 2 methods\nclos> \n",
    ),
    (
        ",help\n",
        "clos> ,class NAME     shows a class\n,generic NAME   shows a generic function; NAME may be (SETF NAME)\n,methods CALL   evaluates the arguments of a call, as (SPEAK *DOG* 'LOUD), and shows the methods\n                that fit them; the function is not called\n,cache          shows the calls whose effective methods are kept\n,help           lists the commands\nCtrl-D          leaves\nclos> \n",
    ),
    (
        ",help me\n",
        "clos> ,class NAME     shows a class\n,generic NAME   shows a generic function; NAME may be (SETF NAME)\n,methods CALL   evaluates the arguments of a call, as (SPEAK *DOG* 'LOUD), and shows the methods\n                that fit them; the function is not called\n,cache          shows the calls whose effective methods are kept\n,help           lists the commands\nCtrl-D          leaves\nclos> \n",
    ),
];

#[test]
fn shows_what_is_asked_for(rt: HostRuntime) -> Result<(), Fail> {
    for (line, wanted) in SHOWN.iter() {
        let mut input = Vec::from_slice(rt.alloc(), DEFINED.as_bytes())?;
        input.extend_from_slice(line.as_bytes())?;
        let mut output = Vec::new(rt.alloc());
        let mut errors = Vec::new(rt.alloc());
        let mut reader = input.as_slice();
        let got = status(&rt, &mut reader, &mut output, &mut errors)?;
        let text = str::from_utf8(output.as_slice()).unwrap_or("?");
        let prompts = text.split_once("clos> 4\n");
        assert_eq!(rt;
            prompts.map(|(_, shown)| shown),
            Some(*wanted),
            "what {line} shows"
        );
        assert_eq!(rt; got, 0, "the status of {line}");
    }
    Ok(())
}
