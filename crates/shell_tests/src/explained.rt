//! Runs whose conditions and faults of reading are explained.
use clos_explained::{Output, Session, limits, program, run_explained, settings};
use std::fs::Files;
use std::process::Abort;
use std::test::Fail;

/// Texts whose faults of reading are explained, and how.
const FAULTS: [(&str, &str); 4] = [
    (
        "(f)\n(g",
        "-:1:1: UNDEFINED-FUNCTION: no function is called F\n-:2:1: the input ends inside of what begins here\nclos: -: reader fault 1 at 4\n",
    ),
    (
        "1\n (list 2\n  #q)",
        "-:3:3: a # that begins nothing, in what begins at 2:2\nclos: -: reader fault 5 at 13\n",
    ),
    (
        ")",
        "-:1:1: a closing parenthesis too many\nclos: -: reader fault 2 at 0\n",
    ),
    (
        "\"\u{e9}\" \u{e9}",
        "-:1:5: a token that can't be read\nclos: -: reader fault 3 at 5\n",
    ),
];

/// What a run of a text came to.
#[derive(Drop)]
struct Ran {
    output: Vec<u8>,
    errors: Vec<u8>,
    status: u8,
}

/// Runs a text, as it is or with explanations.
fn run<R: Files + AllocGlobal>(rt: &R, text: &str, explains: bool) -> Result<Ran, Fail> {
    let alloc = rt.alloc();
    let words = settings(alloc, &["clos", "--echo", "--notices"])?;
    let mut session = Session::new(alloc, limits(&words), Vec::new(alloc), Vec::new(alloc))?;
    let mut output = Vec::new(alloc);
    let mut errors = Vec::new(alloc);
    let status = if explains {
        run_explained(
            rt,
            alloc,
            &mut session,
            &words,
            &mut text.as_bytes(),
            &mut Output::new(&mut output),
            &mut errors,
        )
    } else {
        program(
            rt,
            alloc,
            &mut session,
            &words,
            &mut text.as_bytes(),
            &mut Output::new(&mut output),
            &mut errors,
        )
    };
    Ok(Ran {
        output,
        errors,
        status,
    })
}

/// What is run with explanations has the output and the status of what is run without.
#[test]
fn explains_runs(rt: HostRuntime) -> Result<(), Fail> {
    for (text, wanted) in FAULTS.iter() {
        let plain = run(&rt, text, false)?;
        let explained = run(&rt, text, true)?;
        let told = str::from_utf8(explained.errors.as_slice()).unwrap_or("?");
        assert_eq!(rt; told, *wanted, "the explanations of {text}");
        assert_eq!(rt;
            explained.output.as_slice(),
            plain.output.as_slice(),
            "the output of {text}"
        );
        assert_eq!(rt; explained.status, plain.status, "the status of {text}");
    }
    Ok(())
}
