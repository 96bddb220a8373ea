//! What the dependents of a session heard.
use clos_system::{Dependents, Natives, Session, print_notice};
use lisp_data::Name;
use std::alloc::{AllocError, Global};

/// Adds what the dependent of this name heard to the output, a line for each notice.
fn tell_heard_by<N: Natives, D: Dependents>(
    alloc: Global,
    session: &Session<N, D>,
    name: &'static &'static str,
    output: &mut Vec<u8>,
) -> Result<(), AllocError> {
    for notice in session.heard(&Name::fixed(name)).unwrap_or(&[]) {
        output.extend_from_slice(name.as_bytes())?;
        output.push(b' ')?;
        output.extend_from_slice(print_notice(alloc, session.world(), notice)?.as_slice())?;
        output.push(b'\n')?;
    }
    Ok(())
}

/// Adds what the dependents `audit` and `second` heard to the output.
pub fn tell_heard<N: Natives, D: Dependents>(
    alloc: Global,
    session: &Session<N, D>,
    output: &mut Vec<u8>,
) -> Result<(), AllocError> {
    tell_heard_by(alloc, session, &"AUDIT", output)?;
    tell_heard_by(alloc, session, &"SECOND", output)
}
