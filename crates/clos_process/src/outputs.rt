//! The outputs of a process.
use crate::session::{Program, run_session};
use clos_program::{Fault, STATUS_FAULT, Settings, report};
use std::io::{self, BufWriter, IsTerminal, Write};

/// Tells of a fault on standard error, and gives its status.
pub fn fail(rt: &HostRuntime, fault: Fault<'_>) -> u8 {
    report(&mut rt.stderr(), fault);
    STATUS_FAULT
}

/// Runs the program, and writes to this output.
fn run_over<P: Program, O: Write>(
    rt: &HostRuntime,
    program: &P,
    settings: &Settings<'_>,
    output: &mut O,
) -> u8 {
    match run_session(rt, program, settings, output) {
        Ok(status) => status,
        Err(_) => fail(rt, Fault::Memory),
    }
}

/// Runs the program over standard output. What goes to a terminal is not held back.
pub(crate) fn run<P: Program>(rt: &HostRuntime, program: &P, settings: &Settings<'_>) -> u8 {
    let mut output = io::writer(rt);
    if rt.stdout().is_terminal() {
        return run_over(rt, program, settings, &mut output);
    }
    match BufWriter::new(rt.alloc(), output) {
        Ok(mut buffered) => run_over(rt, program, settings, &mut buffered),
        Err(_) => fail(rt, Fault::Memory),
    }
}
