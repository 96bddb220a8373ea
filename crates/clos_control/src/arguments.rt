//! The values that actions are done with, from left to right (HyperSpec 3.1.2.1.2.3).
ghost use Rattle.std.specs.Prelude.{◌≡◌, ◌∷◌, ◌++◌, [], ◌≤◌, IfOk, option_map};
ghost use Rattle.lisp_data.specs.ValueView.{value_of};
ghost use Rattle.clos_forms.specs.OperatorView.{operator_of};
ghost use Rattle.clos_machine.specs.clos_world.World.{seen};
ghost use Rattle.clos_machine.specs.Machine.{Turns, Took, Grows, at, at_once, acted, action_weight, collect_weight, here, Does};
ghost use Rattle.clos_machine.specs.clos_meaning.Meaning.{collect};

use clos_forms::{Forms, Operator};
use clos_machine::machine::{Action, Doing, Frame, Machine};
use clos_machine::moves::{begin, give_up, split};
use clos_machine::names::value_of_read;
use clos_machine::{Stop, Values, World};
use lisp_data::Value;
use std::alloc::AllocError;

/// The value of a form of this operator that is a constant, or a variable that has one.
fn value_at_once<'a>(
    machine: &'a Machine,
    world: &'a World,
    operator: &'a Operator,
) -> Option<&'a Value>
    ensures { option_map (λ v. value_of v.now) result ≡ at_once (at machine.now (seen world.now))
        (operator_of operator.now) }
{
    match operator {
        Operator::Constant(value) => Some(value),
        Operator::Variable(variable) => value_of_read(machine, world, variable),
        _ => None,
    }
}

/// Takes the values of the first forms, as long as they are constants and variables and steps are left: a step for each.
/// Gives the other forms.
fn take_values<'a>(
    machine: &Machine,
    world: &World,
    forms: &'a Forms,
    values: &mut Values,
    steps: &mut u64,
) -> Result<&'a Forms, AllocError>
    ensures { IfOk result (λ rest. Took machine.now.room machine.now.context (at machine.now (seen world.now)) forms.now
        values.old steps.old rest.now values.new steps.new) }
{
    let mut rest = forms;
    if machine.room == 0 {
        return Ok(rest);
    }
    while let Some((first, others)) = rest.split_first() {
        if *steps == 0 {
            return Ok(rest);
        }
        let Some(value) = value_at_once(machine, world, first.operator()) else {
            return Ok(rest);
        };
        values.push(value.copy()?)?;
        *steps -= 1;
        rest = others;
    }
    Ok(rest)
}

/// The next of the values that an action is done with, or the action itself.
fn begin_next(
    machine: &mut Machine,
    action: Action,
    forms: &Forms,
    values: Values,
) -> Result<Doing, Stop>
    ensures leads { Does (λ ev env. collect ev env forms.now values (acted ev env action)) machine.old result
        machine.new }
    ensures small { Grows (action_weight action) machine.old.levels result machine.new }
{
    let Ok(next) = split(forms) else {
        return Err(give_up(action, values));
    };
    match next {
        None => Ok(Doing::Act(action, values)),
        Some((first, rest)) => {
            let frame = Frame::Collect(action, rest, values);
            begin(machine, first, frame)
        }
    }
}

/// The values of these forms are collected up to the next that takes a level of its own, or all of them.
pub fn collect_values(
    machine: &mut Machine,
    world: &World,
    action: Action,
    forms: &Forms,
    mut values: Values,
    steps: &mut u64,
) -> Result<Doing, Stop>
    ensures turns { Turns (here machine.old (λ ev env. collect ev env forms.now values (acted ev env action)))
        (seen world.now) steps.old result machine.new (seen world.now) steps.new }
    ensures small { Grows (action_weight action) machine.old.levels result machine.new }
    ensures fewer { steps.new ≤ steps.old }
{
    let mut left = *steps;
    let Ok(rest) = take_values(machine, world, forms, &mut values, &mut left) else {
        return Err(give_up(action, values));
    };
    let Ok(doing) = begin_next(machine, action, rest, values) else {
        return Err(Stop::Storage);
    };
    *steps = left;
    Ok(doing)
}

/// The next value is there.
pub fn next_value(
    machine: &Machine,
    action: Action,
    rest: Forms,
    mut values: Values,
    value: Value,
) -> Result<Doing, Stop>
    ensures leads { Does (λ ev env. collect ev env rest (values ++ value_of value ∷ []) (acted ev env action))
        machine.now result machine.now }
    ensures small { Grows (collect_weight action) machine.now.levels result machine.now }
{
    let _ = machine;
    let Ok(()) = values.push(value) else {
        return Err(give_up(action, values));
    };
    Ok(Doing::Collect(action, rest, values))
}
