//! What the program's dependents answer, and what is written of what they heard.
use clos_command_line::settings;
use clos_program::{
    Callback, Dependent, KindNumber, Notice, Output, Recorder, Session, limits, program,
};
use lisp_data::{GenericId, MethodId, Name};
use std::fs::{self, Files};
use std::process::Abort;
use std::test::Fail;

/// A method takes the place of another: one notice of each.
#[test]
fn second_answers_the_kinds(rt: HostRuntime) -> Result<(), Fail> {
    let mut second = Callback::new(rt.alloc(), KindNumber);
    second.prepare(2)?;
    second.tell(&Notice::MethodRemoved(GenericId(0), MethodId(0)));
    second.tell(&Notice::MethodAdded(GenericId(0), MethodId(1)));
    assert_eq!(rt; second.answers(), [3, 2].as_slice());
    Ok(())
}

/// Runs the program with the dependents AUDIT and SECOND over these words and this input: what it writes, and its status.
fn check<R: Files + AllocGlobal + Abort>(
    rt: &R,
    words: &[&str],
    text: &str,
    output: &str,
    status: u8,
) -> Result<(), Fail> {
    let alloc = rt.alloc();
    let words = settings(alloc, words)?;
    let audit: Box<dyn Dependent> = Box::new(alloc, Recorder::new(alloc))?;
    let second: Box<dyn Dependent> = Box::new(alloc, Callback::new(alloc, KindNumber))?;
    let mut dependents = Vec::new(alloc);
    dependents.push((Name::fixed(&"AUDIT"), audit))?;
    dependents.push((Name::fixed(&"SECOND"), second))?;
    let mut session = Session::new(alloc, limits(&words), Vec::new(alloc), dependents)?;
    let mut written = Vec::new(alloc);
    let mut errors = Vec::new(alloc);
    let got = program(
        rt,
        alloc,
        &mut session,
        &words,
        &mut text.as_bytes(),
        &mut Output::new(&mut written),
        &mut errors,
    );
    assert_eq!(rt; got, status, "the status of {text}");
    assert!(rt;
        written.as_slice() == output.as_bytes(),
        "the output of {text}"
    );
    Ok(())
}

const CHANGES: &str = "(defclass a () ()) (add-dependent (find-class 'a) 'second)
(add-dependent (find-class 'a) 'audit) (defclass a () ()) (princ 1)";

const HEARD: &str = "; AUDIT (CLASS-REDEFINED A)\n; SECOND (CLASS-REDEFINED A)\n";

#[test]
fn notices_follow_on_a_fresh_line(rt: HostRuntime) -> Result<(), Fail> {
    let alloc = rt.alloc();
    let asked = ["clos", "--notices", "changes.lisp", "-"];
    fs::write(&rt, "changes.lisp", CHANGES)?;
    let told = format!(in alloc; "1\n{HEARD}")?;
    check(&rt, &["clos", "--notices"], CHANGES, told.as_str(), 0)?;
    check(&rt, &["clos"], CHANGES, "1", 0)?;
    check(&rt, &["clos", "--notices"], "(princ 1)", "1", 0)?;
    check(&rt, &asked, "", told.as_str(), 0)?;
    check(&rt, &asked, "(terpri)", told.as_str(), 0)?;
    let last = format!(in alloc; "12\n{HEARD}")?;
    check(&rt, &asked, "(princ 2)", last.as_str(), 0)?;
    check(&rt, &asked, "(princ 2", "1", 3)
}
