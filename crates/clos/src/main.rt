//! The program `clos`: runs files of Lisp over the process's own input and outputs.
#![tactic(auto)]

use clos_process::{
    Output, ProcessSession, Program, Settings, program, reads_input, run_words, words,
};
use std::io::{IsTerminal, Write};
use std::process::ExitCode;

/// Runs files of Lisp.
struct Clos;

/// Says that the terminal is read, to whoever would wait for a prompt.
fn tell_waiting(rt: &HostRuntime) {
    if rt.stdin().is_terminal() {
        let _ = rt.eprintln("clos: reading from the terminal until the end of input (Ctrl-D)");
    }
}

impl Program for Clos {
    fn run<O: Write>(
        &self,
        rt: &HostRuntime,
        settings: &Settings<'_>,
        session: &mut ProcessSession,
        output: &mut O,
    ) -> u8 {
        if reads_input(settings) {
            tell_waiting(rt);
        }
        program(
            rt,
            rt.alloc(),
            session,
            settings,
            &mut rt.reader(),
            &mut Output::new(output),
            &mut rt.stderr(),
        )
    }
}

fn main(rt: HostRuntime) -> ExitCode {
    ExitCode::from(match words(&rt) {
        Ok(words) => run_words(&rt, &Clos, words.as_slice()),
        Err(status) => status,
    })
}
