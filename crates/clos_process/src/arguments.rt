//! The words of the command line.
use crate::outputs::{fail, run};
use crate::session::Program;
use clap::error::ErrorKind;
use clos_program::{Fault, STATUS_DONE, STATUS_USAGE};
use std::io;

/// Shows help or the version on standard output, and a fault of the command line on standard error.
fn show(rt: &HostRuntime, error: &clap::Error) -> u8 {
    if error.kind() == ErrorKind::OutOfMemory {
        return fail(rt, Fault::Memory);
    }
    let shown = error.print(rt).is_ok();
    if error.use_stderr() {
        return STATUS_USAGE;
    }
    if shown {
        STATUS_DONE
    } else {
        fail(rt, Fault::Write)
    }
}

/// Tells why the words of the command line can't be had.
fn refuse_words(rt: &HostRuntime, error: &io::Error) -> u8 {
    if error.kind() == io::ErrorKind::OutOfMemory {
        return fail(rt, Fault::Memory);
    }
    let _ = rt.eprintln("error: a word of the command line is not UTF-8");
    STATUS_USAGE
}

/// The words of the command line, of which the first is the program's name, or else the exit status, where they can't be had.
pub fn words(rt: &HostRuntime) -> Result<Vec<String>, u8> {
    match words_of(rt) {
        Ok(words) => Ok(words),
        Err(error) => Err(refuse_words(rt, &error)),
    }
}

fn words_of(rt: &HostRuntime) -> io::Result<Vec<String>> {
    Ok(std::env::args(rt)?.collect(rt.alloc())?)
}

/// Runs a program by these words, and gives the exit status.
pub fn run_words<P: Program>(rt: &HostRuntime, program: &P, words: &[String]) -> u8 {
    match clos_command_line::settings(rt.alloc(), words) {
        Ok(settings) => run(rt, program, &settings),
        Err(error) => show(rt, &error),
    }
}
