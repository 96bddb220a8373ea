//! The program `clos_shell`: a session at a prompt, or a run of files whose conditions are explained, over the process's own input and
//! outputs.
#![tactic(auto)]

use clos_explained::{run_explained, run_paged};
use clos_process::{
    Fault, Output, ProcessSession, Program, STATUS_DONE, STATUS_FAULT, STATUS_USAGE, Settings,
    fail, run_words, words,
};
use clos_prompt::run_prompt;
use std::io::{BufReader, IsTerminal, Write};
use std::process::ExitCode;

/// The word that asks for a run of files alone.
const EXPLAIN: &str = "--explain";

/// The word that asks for such a run and a page of what there is after it, in the file whose name follows.
const PAGE: &str = "--page";

/// Runs files of Lisp, and then a prompt.
struct Shell;

/// Runs files of Lisp, or the input where there are none.
struct Explain;

/// Runs files of Lisp, and writes a page to the file of this name.
#[derive(Clone, Copy, Drop)]
struct Paged<'a> {
    name: &'a str,
}

/// Says how to go on, to whoever sits at the terminal. Where this can't be written, the prompt can't either, which tells it.
fn greet<O: Write>(rt: &HostRuntime, output: &mut O) {
    if rt.stdin().is_terminal() {
        let _ = output.write_all(b"; ,help lists the commands, Ctrl-D leaves\n");
    }
}

impl Program for Shell {
    fn run<O: Write>(
        &self,
        rt: &HostRuntime,
        settings: &Settings<'_>,
        session: &mut ProcessSession,
        output: &mut O,
    ) -> u8 {
        let alloc = rt.alloc();
        let mut errors = rt.stderr();
        let Ok(mut input) = BufReader::new(alloc, rt.reader()) else {
            return fail(rt, Fault::Memory);
        };
        let mut status = STATUS_DONE;
        if !settings.files.is_empty() {
            let mut fresh = Output::new(&mut *output);
            status = run_explained(
                rt,
                alloc,
                session,
                settings,
                &mut input,
                &mut fresh,
                &mut errors,
            );
        }
        if status == STATUS_FAULT {
            return status;
        }
        greet(rt, output);
        status.max(run_prompt(alloc, session, &mut input, output, &mut errors))
    }
}

impl Program for Explain {
    fn run<O: Write>(
        &self,
        rt: &HostRuntime,
        settings: &Settings<'_>,
        session: &mut ProcessSession,
        output: &mut O,
    ) -> u8 {
        run_explained(
            rt,
            rt.alloc(),
            session,
            settings,
            &mut rt.reader(),
            &mut Output::new(output),
            &mut rt.stderr(),
        )
    }
}

impl Program for Paged<'_> {
    fn run<O: Write>(
        &self,
        rt: &HostRuntime,
        settings: &Settings<'_>,
        session: &mut ProcessSession,
        output: &mut O,
    ) -> u8 {
        run_paged(
            rt,
            rt.alloc(),
            session,
            settings,
            self.name,
            &mut rt.reader(),
            &mut Output::new(output),
            &mut rt.stderr(),
        )
    }
}

/// Says what has to follow the word that asks for a page.
fn refuse_page(rt: &HostRuntime) -> u8 {
    let _ = rt.eprintln("error: --page needs the name of the file to write, which ends in .html");
    STATUS_USAGE
}

/// Writes a page to the file that the first of these words names, and runs what the others ask for. A name that does not end as that of a
/// page is refused, for it may be a source's.
fn run_page(rt: &HostRuntime, words: &[String]) -> u8 {
    let [name, ..] = words else {
        return refuse_page(rt);
    };
    if !name.as_str().ends_with(".html") {
        return refuse_page(rt);
    }
    let paged = Paged {
        name: name.as_str(),
    };
    run_words(rt, &paged, words)
}

/// Runs what these words ask for, which come after the program's name in all the words.
fn run_own(rt: &HostRuntime, words: &[String], own: &[String]) -> u8 {
    match own {
        [first, ..] if first.as_str() == EXPLAIN => run_words(rt, &Explain, own),
        [first, rest @ ..] if first.as_str() == PAGE => run_page(rt, rest),
        _ => run_words(rt, &Shell, words),
    }
}

/// Runs what these words ask for, of which the first is the program's name.
fn run(rt: &HostRuntime, words: &[String]) -> u8 {
    match words {
        [_, own @ ..] => run_own(rt, words, own),
        [] => run_words(rt, &Shell, words),
    }
}

fn main(rt: HostRuntime) -> ExitCode {
    ExitCode::from(match words(&rt) {
        Ok(words) => run(&rt, words.as_slice()),
        Err(status) => status,
    })
}
