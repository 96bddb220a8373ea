//! What no clause says: the texts and statuses of the program, and the examples of the repository.
use clos_command_line::settings;
use clos_program::{Output, Session, limits, program};
use faulty_io::{Broken, Forgetful, Tiring};
use std::alloc::Global;
use std::fs::{self, Files};
use std::io::{self, Read, Write};
use std::process::Abort;
use std::test::Fail;

/// Blanks without end.
#[derive(Drop)]
struct Blanks;

impl Read for Blanks {
    fn read(&mut self, buf: &mut [u8]) -> io::Result<usize> {
        buf.fill(b' ');
        Ok(buf.len())
    }
}

/// Runs the program over these words, this input and these writers, and gives its status.
fn status<R: Files + AllocGlobal, I: Read, O: Write>(
    rt: &R,
    words: &[&str],
    input: &mut I,
    output: &mut O,
    errors: &mut Vec<u8>,
) -> Result<u8, Fail> {
    let alloc = rt.alloc();
    let settings = settings(alloc, words)?;
    let mut session = Session::new(alloc, limits(&settings), Vec::new(alloc), Vec::new(alloc))?;
    let mut output = Output::new(output);
    Ok(program(
        rt,
        alloc,
        &mut session,
        &settings,
        input,
        &mut output,
        errors,
    ))
}

fn new_bytes(alloc: Global) -> Vec<u8> {
    Vec::new(alloc)
}

fn is_text(bytes: &Vec<u8>, text: &str) -> bool {
    bytes.as_slice() == text.as_bytes()
}

/// A text on standard input: what it writes, the status, and the line on standard error.
fn check<R: Files + AllocGlobal + Abort>(
    rt: &R,
    text: &str,
    output: &str,
    status_wanted: u8,
    errors: &str,
) -> Result<(), Fail> {
    let mut written = new_bytes(rt.alloc());
    let mut told = new_bytes(rt.alloc());
    let got = status(rt, &["clos"], &mut text.as_bytes(), &mut written, &mut told)?;
    assert_eq!(rt; got, status_wanted, "the status of {text}");
    assert!(rt; is_text(&written, output), "the output of {text}");
    assert!(rt; is_text(&told, errors), "the errors of {text}");
    Ok(())
}

const ANIMALS: &str = "(defclass animal () ()) (defclass dog (animal) ()) (defclass cat (animal) ())
(defmethod speak ((x animal)) 'noise) (defmethod speak ((x dog)) 'woof)
(princ (speak (make-instance 'dog))) (princ \" \") (princ (speak (make-instance 'cat))) (princ \"
\")";

const HANDS: &str = "(defclass hand () ()) (defclass rock (hand) ()) (defclass paper (hand) ())
(defclass scissors (hand) ())
(defmethod play ((x hand) (y hand)) \"nobody wins\")
(defmethod play ((x rock) (y scissors)) \"rock breaks scissors\")
(defmethod play ((x paper) (y rock)) \"paper wraps rock\")
(defmethod play ((x scissors) (y paper)) \"scissors cut paper\")
(defmethod show (x y) (princ (play x y)) (princ \"
\"))
(show (make-instance 'paper) (make-instance 'rock))
(show (make-instance 'rock) (make-instance 'scissors))
(show (make-instance 'rock) (make-instance 'paper))";

const MISTAKES: &str = "(greet 5) (make-instance 'person) (defclass person () ())
(defmethod greet ((x person)) \"hello\") (greet 5) (princ (greet (make-instance 'person))) (princ nobody)";

const MISTAKES_WRITTEN: &str = "; 3 (UNDEFINED-FUNCTION GREET)
; 7 (UNDEFINED-CLASS PERSON)
; 14 (NO-APPLICABLE-METHOD GREET 5)
hello
; 2 (UNBOUND-VARIABLE NOBODY)
";

#[test]
fn runs_the_examples(rt: HostRuntime) -> Result<(), Fail> {
    check(&rt, ANIMALS, "WOOF NOISE\n", 0, "")?;
    let hands = "paper wraps rock\nrock breaks scissors\nnobody wins\n";
    check(&rt, HANDS, hands, 0, "")?;
    check(&rt, MISTAKES, MISTAKES_WRITTEN, 1, "")
}

#[test]
fn tells_what_is_wrong_with_a_text(rt: HostRuntime) -> Result<(), Fail> {
    check(&rt, "", "", 0, "")?;
    let inside = "clos: -: reader fault 1 at 10\n";
    check(&rt, "(princ 1) (defclass a", "1", 3, inside)?;
    check(
        &rt,
        "(f) (princ 2) )",
        "; 3 (UNDEFINED-FUNCTION F)\n2",
        3,
        "clos: -: reader fault 2 at 14\n",
    )
}

#[test]
fn tells_what_can_not_be_read_or_written(rt: HostRuntime) -> Result<(), Fail> {
    let mut written = new_bytes(rt.alloc());
    let mut told = new_bytes(rt.alloc());
    let got = status(&rt, &["clos"], &mut Broken, &mut written, &mut told)?;
    assert!(rt; got == 3 && is_text(&told, "clos: -: read fault\n"));
    told.clear();
    let got = status(
        &rt,
        &["clos", "no/such/file"],
        &mut Broken,
        &mut written,
        &mut told,
    )?;
    assert!(rt; got == 3 && is_text(&told, "clos: no/such/file: read fault\n"));
    told.clear();
    let mut text: &[u8] = b"(princ 1)";
    let got = status(&rt, &["clos"], &mut text, &mut Broken, &mut told)?;
    assert!(rt; got == 3 && is_text(&told, "clos: write fault\n"));
    told.clear();
    let mut text: &[u8] = b"(princ 1)";
    let got = status(&rt, &["clos"], &mut text, &mut Forgetful, &mut told)?;
    assert!(rt; got == 3 && is_text(&told, "clos: write fault\n"));
    Ok(())
}

/// Files and options: what is written, the status, and the line on standard error.
fn check_words<R: Files + AllocGlobal + Abort>(
    rt: &R,
    words: &[&str],
    output: &str,
    status_wanted: u8,
    errors: &str,
) -> Result<(), Fail> {
    let mut written = new_bytes(rt.alloc());
    let mut told = new_bytes(rt.alloc());
    let mut text: &[u8] = b"(princ (list 1 2)) (f)";
    let got = status(rt, words, &mut text, &mut written, &mut told)?;
    assert_eq!(rt; got, status_wanted, "the status");
    assert!(rt; is_text(&written, output), "the output");
    assert!(rt; is_text(&told, errors), "the errors");
    Ok(())
}

#[test]
fn runs_files_in_one_session(rt: HostRuntime) -> Result<(), Fail> {
    fs::write(&rt, "first.lisp", "(defclass a () ()) (princ 1)")?;
    fs::write(&rt, "second.lisp", "(make-instance 'a)")?;
    check_words(&rt, &["clos", "first.lisp", "second.lisp"], "1", 0, "")?;
    let echoed = "#<CLASS A>\n1\n1\n#<A 1>\n";
    check_words(
        &rt,
        &["clos", "--echo", "first.lisp", "second.lisp"],
        echoed,
        0,
        "",
    )?;
    let missing = "clos: none.lisp: read fault\n";
    check_words(&rt, &["clos", "first.lisp", "none.lisp"], "1", 3, missing)?;
    let shown = "clos: n?ne?.lisp: read fault\n";
    check_words(
        &rt,
        &["clos", "first.lisp", "n\tne\u{85}.lisp"],
        "1",
        3,
        shown,
    )?;
    let told = "1(1 2)\n; 3 (UNDEFINED-FUNCTION F)\n";
    check_words(
        &rt,
        &["clos", "first.lisp", "-", "second.lisp", "-"],
        told,
        1,
        "",
    )?;
    check_words(
        &rt,
        &["clos", "-"],
        "(1 2)\n; 3 (UNDEFINED-FUNCTION F)\n",
        1,
        "",
    )?;
    check_words(
        &rt,
        &["clos", "second.lisp"],
        "; 7 (UNDEFINED-CLASS A)\n",
        1,
        "",
    )
}

#[test]
fn obeys_steps_and_depth(rt: HostRuntime) -> Result<(), Fail> {
    let undefined = "(1 2)\n; 3 (UNDEFINED-FUNCTION F)\n";
    check_words(
        &rt,
        &["clos", "--steps", "5", "--depth", "3"],
        undefined,
        1,
        "",
    )?;
    let stepless = "; 29 (STEP-LIMIT)\n; 3 (UNDEFINED-FUNCTION F)\n";
    check_words(
        &rt,
        &["clos", "--steps", "4", "--depth", "3"],
        stepless,
        1,
        "",
    )?;
    let shallow = "; 30 (DEPTH-LIMIT)\n; 3 (UNDEFINED-FUNCTION F)\n";
    check_words(
        &rt,
        &["clos", "--steps", "5", "--depth", "2"],
        shallow,
        1,
        "",
    )
}

#[test]
fn tells_each_write_that_fails(rt: HostRuntime) -> Result<(), Fail> {
    for writes in 0..3 {
        let mut told = new_bytes(rt.alloc());
        let mut text: &[u8] = b"(princ 1) (princ 2) (f)";
        let mut output = Tiring { writes };
        let got = status(&rt, &["clos"], &mut text, &mut output, &mut told)?;
        assert!(rt;
            got == 3 && is_text(&told, "clos: write fault\n"),
            "after {writes}"
        );
    }
    Ok(())
}

#[test]
fn refuses_a_text_without_end(rt: HostRuntime) -> Result<(), Fail> {
    let mut written = new_bytes(rt.alloc());
    let mut told = new_bytes(rt.alloc());
    let got = status(&rt, &["clos"], &mut Blanks, &mut written, &mut told)?;
    assert!(rt; got == 3 && is_text(&told, "clos: -: too long\n"));
    Ok(())
}

#[test]
fn flushes_after_each_file(rt: HostRuntime) -> Result<(), Fail> {
    fs::write(&rt, "one.lisp", "(princ 1)")?;
    let mut told = new_bytes(rt.alloc());
    let mut text: &[u8] = b"";
    let mut output = Forgetful;
    let words = ["clos", "one.lisp", "none.lisp"];
    let got = status(&rt, &words, &mut text, &mut output, &mut told)?;
    assert!(rt; got == 3 && is_text(&told, "clos: write fault\n"));
    Ok(())
}
