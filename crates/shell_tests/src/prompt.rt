//! What a session at a prompt writes, and its status.
use clos_explained::{Limits, Session};
use clos_prompt::run_prompt;
use faulty_io::{Broken, Forgetful, Tiring};
use std::io::{BufRead, BufReader, Write};
use std::process::Abort;
use std::test::Fail;

/// Runs a prompt over these, in a session that begins with these limits, and gives its status.
pub fn status_within<R: AllocGlobal, I: BufRead, W: Write>(
    rt: &R,
    limits: Limits,
    input: &mut I,
    output: &mut W,
    errors: &mut Vec<u8>,
) -> Result<u8, Fail> {
    let alloc = rt.alloc();
    let mut session = Session::new(alloc, limits, Vec::new(alloc), Vec::new(alloc))?;
    Ok(run_prompt(alloc, &mut session, input, output, errors))
}

/// The same with the standard limits.
pub fn status<R: AllocGlobal, I: BufRead, W: Write>(
    rt: &R,
    input: &mut I,
    output: &mut W,
    errors: &mut Vec<u8>,
) -> Result<u8, Fail> {
    status_within(rt, Limits::default(), input, output, errors)
}

/// Inputs, what each writes, and its status.
const CASES: [(&str, &str, u8); 27] = [
    ("", "clos> \n", 0),
    ("\n; nothing\n", "clos> clos> clos> \n", 0),
    ("(+ 1 2)\n", "clos> 3\nclos> \n", 0),
    ("(+ 1 2)", "clos> 3\nclos> \n", 0),
    ("(+ 1 2)\r\n", "clos> 3\nclos> \n", 0),
    ("(princ 'a) \"b\"\n", "clos> A\nA\n\"b\"\nclos> \n", 0),
    (
        "(defvar *x* 1)\n(+ *x*\n\n 2)\n",
        "clos> *X*\nclos> ....> ....> 3\nclos> \n",
        0,
    ),
    (
        "1 (+ 1\n2) (list\n3)\n",
        "clos> 1\n....> 3\n....> (3)\nclos> \n",
        0,
    ),
    (
        "\"a\nb\" #| c\nd |# 'e\n",
        "clos> ....> \"a\nb\"\n....> E\nclos> \n",
        0,
    ),
    (
        "(f)\n1\n",
        "clos> ; 3 (UNDEFINED-FUNCTION F)\nclos> 1\nclos> \n",
        1,
    ),
    (
        "(f) (+ 1\n2)\n",
        "clos> ; 3 (UNDEFINED-FUNCTION F)\n....> 3\nclos> \n",
        1,
    ),
    (
        "(princ 1) (f)\n",
        "clos> 1\n1\n; 3 (UNDEFINED-FUNCTION F)\nclos> \n",
        1,
    ),
    (
        ")\n",
        "clos> ; 1:1: a closing parenthesis too many\nclos> \n",
        3,
    ),
    (
        "1 ) 2\n3\n",
        "clos> 1\n; 1:3: a closing parenthesis too many\nclos> 3\nclos> \n",
        3,
    ),
    (
        "\"\u{e9}\" \u{e9}\n",
        "clos> \"\u{e9}\"\n; 1:5: a token that can't be read\nclos> \n",
        3,
    ),
    (
        "(+\n . 1) 2\n",
        "clos> ....> ; 1 (PROGRAM-ERROR)\n2\nclos> \n",
        1,
    ),
    (
        "'(1 .\n )\n",
        "clos> ....> ; 1:5: a dot out of place\nclos> \n",
        3,
    ),
    (
        "\n  #q\n",
        "clos> clos> ; 2:3: a # that begins nothing\nclos> \n",
        3,
    ),
    (
        "(f) (list\n",
        "clos> ; 3 (UNDEFINED-FUNCTION F)\n....> \n; 1:5: the input ends inside of what begins here\n",
        3,
    ),
    (
        "\n1 #| c",
        "clos> clos> 1\n....> \n; 2:3: the input ends inside of what begins here\n",
        3,
    ),
    (
        ",helps\n",
        "clos> ; there is no such command: ,help lists them\nclos> \n",
        0,
    ),
    (
        ",\n)\n",
        "clos> ; there is no such command: ,help lists them\nclos> ; 2:1: a closing parenthesis too many\nclos> \n",
        3,
    ),
    (
        "`(1\n,help)\n",
        "clos> ....> ; 1 (PROGRAM-ERROR)\nclos> \n",
        1,
    ),
    (
        "1 ,help\n",
        "clos> 1\n; 2 (UNBOUND-VARIABLE HELP)\nclos> \n",
        1,
    ),
    (
        "(defmethod f (x) x)\n,methods (f *x*)\n,methods (f (g))\n",
        "clos> #<METHOD F (T)>\nclos> ; 2 (UNBOUND-VARIABLE *X*)\nclos> ; 3 (UNDEFINED-FUNCTION G)\nclos> \n",
        1,
    ),
    (
        "(defvar *n* 0)\n(defmethod f (x) x)\n,methods (f (princ (incf *n*)))\n*n*\n",
        "clos> *N*\nclos> #<METHOD F (T)>\nclos> 1\n#<GENERIC-FUNCTION F>\n  classes             INTEGER\n  methods that fit    #<METHOD F (T)>\n  effective method    not built yet\nclos> 1\nclos> \n",
        0,
    ),
    (
        "(defmethod f (x) x)\n,methods (f . x)\n,methods f\n,methods ((f) x)\n,methods (f\n",
        "clos> #<METHOD F (T)>\nclos> ; ,methods takes a call of a generic function by a symbol\nclos> ; ,methods takes a call of a generic function by a symbol\nclos> ; ,methods takes a call of a generic function by a symbol\nclos> ; ,methods takes a call of a generic function by a symbol\nclos> \n",
        0,
    ),
];

#[test]
fn answers_each_line(rt: HostRuntime) -> Result<(), Fail> {
    for (input, wanted, status_wanted) in CASES.iter() {
        let wanted_status = *status_wanted;
        let mut output = Vec::new(rt.alloc());
        let mut errors = Vec::new(rt.alloc());
        let got = status(&rt, &mut input.as_bytes(), &mut output, &mut errors)?;
        let text = str::from_utf8(output.as_slice()).unwrap_or("?");
        assert_eq!(rt; text, *wanted, "the output of {input}");
        assert_eq!(rt; got, wanted_status, "the status of {input}");
        assert!(rt;
            wanted_status > 0 || errors.is_empty(),
            "the errors of {input}"
        );
    }
    Ok(())
}

#[test]
fn tells_a_read_that_fails(rt: HostRuntime) -> Result<(), Fail> {
    let alloc = rt.alloc();
    let mut output = Vec::new(alloc);
    let mut errors = Vec::new(alloc);
    let mut input = BufReader::new(alloc, Broken)?;
    let got = status(&rt, &mut input, &mut output, &mut errors)?;
    assert_eq!(rt; got, 3);
    assert_eq!(rt; output.as_slice(), b"clos> ".as_slice());
    assert_eq!(rt; errors.as_slice(), b"clos: -: read fault\n".as_slice());
    Ok(())
}

/// A prompt, a value, a prompt, what can't be read, a prompt, and the end.
#[test]
fn tells_each_write_that_fails(rt: HostRuntime) -> Result<(), Fail> {
    for writes in 0..6 {
        let mut errors = Vec::new(rt.alloc());
        let mut input: &[u8] = b"1\n)\n";
        let mut output = Tiring { writes };
        let got = status(&rt, &mut input, &mut output, &mut errors)?;
        assert_eq!(rt; got, 3);
        assert_eq!(rt; errors.as_slice(), b"clos: write fault\n".as_slice());
    }
    Ok(())
}

#[test]
fn flushes_before_it_reads(rt: HostRuntime) -> Result<(), Fail> {
    let alloc = rt.alloc();
    let mut errors = Vec::new(alloc);
    let mut input = BufReader::new(alloc, Broken)?;
    let got = status(&rt, &mut input, &mut Forgetful, &mut errors)?;
    assert_eq!(rt; got, 3);
    assert_eq!(rt; errors.as_slice(), b"clos: write fault\n".as_slice());
    Ok(())
}
