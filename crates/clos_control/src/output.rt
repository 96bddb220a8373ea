//! Output (HyperSpec 22.4).
ghost use Rattle.std.specs.Prelude.{◌≡◌, ◌++◌, ℕ, List, ◌≤◌, IfOk, codes};
ghost use Rattle.lisp_data.specs.Value.{Val};
ghost use Rattle.lisp_data.specs.ValueView.{value_of};
ghost use Rattle.clos_machine.specs.clos_world.Values.{only_value};
ghost use Rattle.clos_machine.specs.clos_world.Uses.{uses_of};
ghost use Rattle.clos_machine.specs.clos_world.World.{Local, seen, bound_as, names_of};
ghost use Rattle.clos_machine.specs.Machine.{Changes, Grows, Turns, inside, value_weight};
ghost use Rattle.clos_machine.specs.clos_meaning.Outcome.{step_then};
ghost use Rattle.clos_machine.specs.clos_meaning.Output.{written, text_by, output_of, line_ended};

use clos_machine::machine::{Doing, Machine};
use clos_machine::truth::nil;
use clos_machine::{ConditionKind, Output, Stop, Values, World, plain};
use lisp_data::{Value, prin1, princ};
use std::alloc::{AllocError, Global};

/// The text that an output function writes of a value.
fn text(alloc: Global, world: &World, output: Output, value: &Value) -> Result<Vec<u8>, AllocError>
    ensures { IfOk result (λ r. r.items ≡ text_by output (names_of (seen world.now)) (value_of value.now)) }
{
    match output {
        Output::Princ => princ(alloc, value, world),
        Output::Prin1 => prin1(alloc, value, world),
        Output::Print => line_of(alloc, prin1(alloc, value, world)?.as_slice()),
    }
}

/// What `print` writes: the text on a line of its own.
fn line_of(alloc: Global, text: &[u8]) -> Result<Vec<u8>, AllocError>
    ensures { IfOk result (λ r. r.items ≡ codes "\n" ++ (text.now ++ codes " ")) }
{
    let mut line = Vec::new(alloc);
    line.push(b'\n')?;
    line.extend_from_slice(text)?;
    line.push(b' ')?;
    Ok(line)
}

/// Writes bytes, which takes a step.
fn write(alloc: Global, world: &mut World, bytes: &[u8], steps: &mut u64) -> Result<(), Stop>
    ensures changes { (v : Val) (l : List Local) → Changes (written bytes.now v) v (bound_as l (seen world.old))
        steps.old result (bound_as l (seen world.new)) steps.new }
    ensures fewer { steps.new ≤ steps.old }
    ensures kept { uses_of world.new ≡ uses_of world.old }
{
    if *steps == 0 {
        return Err(Stop::Refused(plain(alloc, ConditionKind::StepLimit)));
    }
    world.written.extend_from_slice(bytes)?;
    *steps -= 1;
    Ok(())
}

/// Writes bytes, and gives a value.
fn write_giving(
    alloc: Global,
    machine: &Machine,
    world: &mut World,
    bytes: &[u8],
    value: Value,
    steps: &mut u64,
) -> Result<Doing, Stop>
    ensures turns { Turns (inside machine.now (step_then (written bytes.now (value_of value)))) (seen world.old)
        steps.old result machine.now (seen world.new) steps.new }
    ensures small { Grows value_weight machine.now.levels result machine.now }
    ensures fewer { steps.new ≤ steps.old }
    ensures kept { uses_of world.new ≡ uses_of world.old }
{
    let _ = machine;
    match write(alloc, world, bytes, steps) {
        Ok(()) => Ok(Doing::Give(value)),
        Err(stop) => Err(stop),
    }
}

/// A call of an output function.
pub fn print(
    alloc: Global,
    machine: &mut Machine,
    world: &mut World,
    output: Output,
    values: &Values,
    steps: &mut u64,
) -> Result<Doing, Stop>
    ensures turns { Turns (inside machine.old (output_of output (only_value values.now))) (seen world.old) steps.old
        result machine.new (seen world.new) steps.new }
    ensures small { Grows value_weight machine.old.levels result machine.new }
    ensures fewer { steps.new ≤ steps.old }
    ensures kept { uses_of world.new ≡ uses_of world.old }
{
    let Some(value) = values.only() else {
        return Err(Stop::Refused(plain(alloc, ConditionKind::ProgramError)));
    };
    let text = text(alloc, world, output, value)?;
    let value = value.copy()?;
    write_giving(alloc, machine, world, text.as_slice(), value, steps)
}

/// A call of `terpri`.
pub fn end_line(
    alloc: Global,
    machine: &mut Machine,
    world: &mut World,
    values: &Values,
    steps: &mut u64,
) -> Result<Doing, Stop>
    ensures turns { Turns (inside machine.old (line_ended values.now)) (seen world.old) steps.old result machine.new
        (seen world.new) steps.new }
    ensures small { Grows value_weight machine.old.levels result machine.new }
    ensures fewer { steps.new ≤ steps.old }
    ensures kept { uses_of world.new ≡ uses_of world.old }
{
    match values.as_slice() {
        [] => write_giving(alloc, machine, world, b"\n", nil(), steps),
        _ => Err(Stop::Refused(plain(alloc, ConditionKind::ProgramError))),
    }
}
