//! How the text of a file is run.
ghost use Rattle.std.specs.Prelude.{◌≡◌, IfOk, IfErr};
ghost use Rattle.clos_ending.specs.clos_system.clos_session.Session.{standing_of};
ghost use Rattle.clos_program.specs.Program.{Failed, Ran};

use clos_ending::{Dependents, Fault, Natives, Session, is_told, run};
use std::alloc::Global;
use std::io::{Read, Write};

/// How the text of a file is run. What the output holds grows by its transcript.
pub trait Way {
    /// Runs what a reader has, in the session, and says whether a condition or storage line was written.
    fn run_text<'a, N: Natives, D: Dependents, I: Read, O: Write, E: Write>(
        &self,
        alloc: Global,
        session: &mut Session<N, D>,
        name: &'a str,
        echo: bool,
        input: &mut I,
        output: &mut O,
        errors: &mut E,
    ) -> Result<bool, Fault<'a>>
        ensures finishes { IfOk result (Ran (N.host session.old.natives) echo (I.remaining input.old)
            (standing_of (D.told session.old.dependents) session.old) (standing_of (D.told session.new.dependents) session.new)
            (O.contents output.old) (O.contents output.new)) }
        ensures fails { IfErr result (λ _. Failed (N.host session.old.natives) echo (I.remaining input.old)
            (standing_of (D.told session.old.dependents) session.old) (standing_of (D.told session.new.dependents) session.new)
            (O.contents output.old) (O.contents output.new)) }
        ensures host { N.host session.new.natives ≡ N.host session.old.natives };
}

/// As it is: nothing else is told.
pub struct Plainly;

impl Way for Plainly {
    fn run_text<'a, N: Natives, D: Dependents, I: Read, O: Write, E: Write>(
        &self,
        alloc: Global,
        session: &mut Session<N, D>,
        name: &'a str,
        echo: bool,
        input: &mut I,
        output: &mut O,
        _errors: &mut E,
    ) -> Result<bool, Fault<'a>> {
        match run(alloc, session, input, output, echo) {
            Ok(summary) => Ok(is_told(summary)),
            Err(fault) => Err(Fault::of_run(name, &fault)),
        }
    }
}
