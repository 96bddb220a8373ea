//! The session of a process.
ghost use Rattle.std.specs.Prelude.{◌≡◌};
ghost use Rattle.clos_program.specs.clos_system.clos_session.Session.{state_of};
ghost use Rattle.clos_program.specs.clos_system.clos_world.Limits.{standard};

use clos_program::{
    Callback, Dependent, KindNumber, Native, Recorder, Relation, Session, Settings, affine, limits,
    low,
};
use lisp_data::Name;
use std::alloc::AllocError;
use std::io::Write;

/// A session for which functions are stored, and which is handed dependents by name.
pub type ProcessSession = Session<Vec<Native>, Vec<(Name, Box<dyn Dependent>)>>;

/// What a program does with its session.
pub trait Program {
    /// Does what the settings ask for in a session with their limits, writes to this output, and gives the exit status.
    fn run<O: Write>(
        &self,
        rt: &HostRuntime,
        settings: &Settings<'_>,
        session: &mut ProcessSession,
        output: &mut O,
    ) -> u8
        requires { (state_of session.old).limits ≡ record standard { steps = settings.now.steps; depth = settings.now.depth } };
}

/// Runs a program in a session that begins, with the limits that the settings ask for, for which the functions `affine` and `low`
/// are stored, and which is handed the dependents `audit` and `second`.
pub(crate) fn run_session<P: Program, O: Write>(
    rt: &HostRuntime,
    program: &P,
    settings: &Settings<'_>,
    output: &mut O,
) -> Result<u8, AllocError> {
    let alloc = rt.alloc();
    let mut coefficients = Vec::new(alloc);
    coefficients.push(3)?;
    coefficients.push(-2)?;
    let affine_relation = Relation::Clamped {
        coefficients,
        constant: 7,
        lo: -1_000,
        hi: 1_000,
    };
    let low_relation = Relation::Within { lo: 0, hi: 15 };
    let affine_name = Name::fixed(&"AFFINE");
    let affine = Native::new(affine_name, 2, affine_relation, Box::new(alloc, affine)?);
    let low = Native::new(Name::fixed(&"LOW"), 1, low_relation, Box::new(alloc, low)?);
    let mut natives = Vec::new(alloc);
    natives.push(affine)?;
    natives.push(low)?;
    let audit: Box<dyn Dependent> = Box::new(alloc, Recorder::new(alloc))?;
    let second: Box<dyn Dependent> = Box::new(alloc, Callback::new(alloc, KindNumber))?;
    let mut dependents = Vec::new(alloc);
    dependents.push((Name::fixed(&"AUDIT"), audit))?;
    dependents.push((Name::fixed(&"SECOND"), second))?;
    let mut session = Session::new(alloc, limits(settings), natives, dependents)?;
    Ok(program.run(rt, settings, &mut session, output))
}
