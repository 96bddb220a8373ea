//! What `defvar` and `defparameter` do (HyperSpec 5.3). Each takes one step for its effect, besides those of its form.
ghost use Rattle.std.specs.Prelude.{◌≡◌, ℕ, ◌+◌, ◌-◌, option_map, Some};
ghost use Rattle.lisp_data.specs.Value.{Val};
ghost use Rattle.lisp_data.specs.ValueView.{value_of};
ghost use Rattle.clos_forms.specs.Quotation.{name_value};
ghost use Rattle.clos_eval.specs.clos_machine.clos_world.Uses.{uses_of};
ghost use Rattle.clos_eval.specs.clos_machine.clos_world.World.{State, seen};
ghost use Rattle.clos_eval.specs.clos_machine.Machine.{Answers};
ghost use Rattle.clos_eval.specs.Evaluation.{Performs};
ghost use Rattle.clos_eval.specs.clos_machine.clos_meaning.Meaning.{evaluation};
ghost use Rattle.clos_eval.specs.clos_machine.clos_meaning.Outcome.{step_then};
ghost use Rattle.clos_definition_forms.specs.Variable.{admits, variable_defined, keeps_value, declared, given_value, named, value_given};

use clos_eval::{ConditionKind, Natives, Stop, World, evaluate, plain};
use clos_forms::{Form, value_named};
use clos_syntax::{Definer, VariableDefinition};
use lisp_data::{Name, Value};
use std::alloc::Global;

/// Defines a global variable.
#[tactic(auto, using(crate::proofs::Variables::keeps, crate::proofs::Variables::declares, crate::proofs::Variables::gives))]
pub fn define_variable<N: Natives>(
    alloc: Global,
    world: &mut World,
    natives: &N,
    answers: &mut Vec<i64>,
    definition: VariableDefinition,
    steps: &mut u64,
) -> Result<Value, Stop>
    ensures { Performs (N.host natives.now) (variable_defined definition) world.old steps.old answers.old.items result
        world.new steps.new answers.new.items }
{
    let VariableDefinition {
        definer,
        name,
        form,
    } = definition;
    if !admits(world, &name) {
        return Err(Stop::Refused(plain(alloc, ConditionKind::TableLimit)));
    }
    if keeps_value(world, definer, &name) {
        return keep_value(alloc, world, &name, steps);
    }
    match form {
        None => declare(alloc, world, name, steps),
        Some(form) => give_value(alloc, world, natives, answers, name, form, steps),
    }
}

/// Whether the variable is there, or the table has room for one more.
fn admits(world: &World, name: &Name) -> bool
    ensures { result ≡ admits (seen world.now) name.now }
{
    world.globals.has(name) || (world.globals.len() as u64) < world.limits.globals
}

/// Whether a `defvar` finds a value, which stays.
fn keeps_value(world: &World, definer: Definer, name: &Name) -> bool
    ensures { result ≡ keeps_value (seen world.now) definer name.now }
{
    match definer {
        Definer::DefVar => world.globals.value(name).is_some(),
        Definer::DefParameter => false,
    }
}

/// Nothing changes, but a step is taken.
fn keep_value(alloc: Global, world: &mut World, name: &Name, steps: &mut u64) -> Result<Value, Stop>
    ensures answers { Answers (step_then (named name.now)) (seen world.old) steps.old result (seen world.new) steps.new }
    ensures kept { uses_of world.new ≡ uses_of world.old }
{
    let _ = world;
    if *steps == 0 {
        return Err(Stop::Refused(plain(alloc, ConditionKind::StepLimit)));
    }
    let value = value_named(name)?;
    *steps -= 1;
    Ok(value)
}

/// A variable without a value, where there is none yet.
fn declare(alloc: Global, world: &mut World, name: Name, steps: &mut u64) -> Result<Value, Stop>
    ensures answers { Answers (step_then (declared name)) (seen world.old) steps.old result (seen world.new) steps.new }
    ensures kept { uses_of world.new ≡ uses_of world.old }
{
    if *steps == 0 {
        return Err(Stop::Refused(plain(alloc, ConditionKind::StepLimit)));
    }
    let value = value_named(&name)?;
    if !world.globals.has(&name) {
        let Ok(()) = world.globals.set(name, None) else {
            return Err(Stop::Storage);
        };
    }
    *steps -= 1;
    Ok(value)
}

/// The variable gets the value of the form.
fn give_value<N: Natives>(
    alloc: Global,
    world: &mut World,
    natives: &N,
    answers: &mut Vec<i64>,
    name: Name,
    form: Form,
    steps: &mut u64,
) -> Result<Value, Stop>
    ensures { Performs (N.host natives.now) (given_value name form) world.old steps.old answers.old.items result
        world.new steps.new answers.new.items }
{
    let room = world.limits.depth.min(4_000);
    let below = room.saturating_sub(1);
    match evaluate(alloc, world, natives, answers, form, below, steps) {
        Ok(value) => set_value(alloc, world, name, value, steps),
        Err(stop) => Err(stop),
    }
}

/// The variable gets this value, which takes a step.
fn set_value(
    alloc: Global,
    world: &mut World,
    name: Name,
    value: Value,
    steps: &mut u64,
) -> Result<Value, Stop>
    ensures answers { Answers (step_then (value_given name (value_of value))) (seen world.old) steps.old result
        (seen world.new) steps.new }
    ensures kept { uses_of world.new ≡ uses_of world.old }
{
    if *steps == 0 {
        return Err(Stop::Refused(plain(alloc, ConditionKind::StepLimit)));
    }
    let named = value_named(&name)?;
    let Ok(()) = world.globals.set(name, Some(value)) else {
        return Err(Stop::Storage);
    };
    *steps -= 1;
    Ok(named)
}
