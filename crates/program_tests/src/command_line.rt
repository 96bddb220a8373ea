//! The words of the command line, and what help shows.
use clos_command_line::{VERSION, settings};
use clos_program::Limits;
use std::process::Abort;
use std::test::Fail;

#[test]
fn reads_the_command_line(rt: HostRuntime) -> Result<(), Fail> {
    let alloc = rt.alloc();
    let limits = Limits::default();
    let none = settings(alloc, &["clos"])?;
    assert!(rt; !none.echo && !none.notices && none.files.is_empty());
    assert!(rt; none.steps == limits.steps && none.depth == limits.depth);
    let words = [
        "clos",
        "--steps",
        "7",
        "a.lisp",
        "--echo",
        "--notices",
        "--depth=4000",
        "-",
    ];
    let all = settings(alloc, &words)?;
    assert!(rt; all.echo && all.notices && all.steps == 7 && all.depth == 4_000);
    assert!(rt; all.files.as_slice() == ["a.lisp", "-"].as_slice());
    Ok(())
}

#[test]
fn refuses_what_is_no_command_line(rt: HostRuntime) {
    let alloc = rt.alloc();
    let refused = [
        ["clos", "--nonsense"],
        ["clos", "--steps=0"],
        ["clos", "--steps=1000000001"],
        ["clos", "--depth=0"],
        ["clos", "--depth=4001"],
        ["clos", "--echo=x"],
        ["clos", "--notices=1"],
        ["clos", "--version=1"],
    ];
    for words in &refused {
        match settings(alloc, words) {
            Ok(_) => assert!(rt; false, "taken"),
            Err(error) => assert!(rt; error.exit_code() == 2 && error.use_stderr()),
        }
    }
}

const HELP: &str = "Runs programs of a small Common Lisp with its object system

Usage: clos [OPTIONS] [FILE]...

Arguments:
  [FILE]...  Files of Lisp, run in order in one session; - is standard input [default: -]

Options:
      --echo       Write the value of each top-level form on a line of its own [default: off]
      --notices    Write what the dependents AUDIT and SECOND heard, after the last file [default: off]
      --steps <N>  Steps that one top-level form may take, from 1 to 1000000000 [default: 1000000]
      --depth <N>  How deep forms may nest in evaluation, from 1 to 4000 [default: 1000]
  -h, --help       Print help
  -V, --version    Print version

Exit status:
  0  every form gave a value, or help or the version was shown
  1  a condition was written, or memory ran out inside of a form
  2  the command line is at fault
  3  a file could not be read, the output not written, or memory ran out

Example:
  clos --echo --steps 50000 animals.lisp
";

/// What a request shows on standard output, with status 0.
fn check_shown<R: AllocGlobal + Abort>(rt: &R, word: &str, text: &str) -> Result<(), Fail> {
    let alloc = rt.alloc();
    match settings(alloc, &["clos", word]) {
        Ok(_) => assert!(rt; false, "taken"),
        Err(error) => {
            assert!(rt; error.exit_code() == 0 && !error.use_stderr());
            assert_eq!(rt; format!(in alloc; "{error}")?.as_str(), text);
        }
    }
    Ok(())
}

#[test]
fn shows_help_and_version(rt: HostRuntime) -> Result<(), Fail> {
    let alloc = rt.alloc();
    let version = format!(in alloc; "clos {VERSION}\n")?;
    check_shown(&rt, "--help", HELP)?;
    check_shown(&rt, "-h", HELP)?;
    check_shown(&rt, "--version", version.as_str())?;
    check_shown(&rt, "-V", version.as_str())
}
