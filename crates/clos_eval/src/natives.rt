//! Calls of functions that the host stored.
ghost use Rattle.std.specs.Prelude.{◌≡◌, Some, Ok, IfOk, IfErr, length, map};
ghost use Rattle.lisp_data.specs.ValueView.{value_of};
ghost use Rattle.clos_machine.specs.Machine.{Asks, denote, native_weight, Shrinks};
ghost use Rattle.clos_machine.specs.Uses.{Notes};
ghost use Rattle.clos_machine.specs.clos_world.clos_cache.Uses.{Uses};
ghost use Rattle.clos_machine.specs.clos_meaning.Natives.{integers_given, integers_in, native_called, native_found, native_sought};
ghost use Rattle.clos_machine.specs.clos_world.World.{State};
ghost use Rattle.clos_machine.specs.clos_world.declared.condition.ConditionKind.TheVariants.{TypeError};
ghost use Rattle.clos_machine.specs.declared.machine.Doing.TheVariants as doing;
ghost use Rattle.clos_eval.specs.Host.{takes_in};
ghost use Rattle.clos_eval.specs.Natives.{Calls, NotIntegers, Tells};

use crate::host::Natives;
use clos_machine::machine::{Doing, Machine};
use clos_machine::{ConditionKind, Stop, Values, about, about_name, plain};
use lisp_data::{Name, Value};
use std::alloc::Global;

/// A function that the host stored is called: the first value names it, the others are its arguments. Its answer comes after
/// those of earlier calls.
#[tactic(auto, using(crate::proofs::Asking::asks_law, crate::proofs::Asking::stops_law, crate::proofs::Asking::notes_law, crate::proofs::Asking::notes_stop))]
pub fn call_native<N: Natives>(
    alloc: Global,
    machine: &Machine,
    natives: &N,
    answers: &mut Vec<i64>,
    values: &Values,
    steps: &mut u64,
) -> Result<Doing, Stop>
    ensures asks { (w : State) → Asks (N.host natives.now) (denote machine.now (doing.Native values.now)) w steps.old
        answers.old.items result machine.now w steps.new answers.new.items }
    ensures notes { (w : State) (u : Uses) → Notes (N.host natives.now) (denote machine.now (doing.Native values.now)) w
        steps.old answers.old.items u result machine.now w steps.new answers.new.items u }
    ensures small { Shrinks native_weight steps.old steps.new machine.now.levels result machine.now }
{
    let _ = machine;
    match answer_to(alloc, natives, answers, values.as_slice(), steps) {
        Ok(answer) => Ok(Doing::Give(Value::Int(answer))),
        Err(stop) => Err(stop),
    }
}

/// What the function that the first value names answers to the others.
#[tactic(auto, using(crate::proofs::Asking::refused_at_once))]
fn answer_to<N: Natives>(
    alloc: Global,
    natives: &N,
    answers: &mut Vec<i64>,
    values: &[Value],
    steps: &mut u64,
) -> Result<i64, Stop>
    ensures { Calls (N.host natives.now) (native_called (map value_of values.now)) steps.old answers.old.items result
        steps.new answers.new.items }
{
    match values.split_first() {
        None => Err(Stop::Refused(plain(alloc, ConditionKind::ProgramError))),
        Some((name, arguments)) => match name {
            Value::Sym(name) => answer_of(alloc, natives, answers, name, arguments, steps),
            Value::List(items) => match items.split_first() {
                None => {
                    let name = Name::fixed(&"NIL");
                    answer_of(alloc, natives, answers, &name, arguments, steps)
                }
                Some(_) => Err(wrong_type(alloc, name)),
            },
            _ => Err(wrong_type(alloc, name)),
        },
    }
}

/// That a value is of a type that is not taken.
fn wrong_type(alloc: Global, value: &Value) -> Stop
    ensures { Tells TypeError (value_of value.now) result }
{
    let Ok(value) = value.copy() else {
        return Stop::Storage;
    };
    match about(alloc, ConditionKind::TypeError, value) {
        Ok(condition) => Stop::Refused(condition),
        Err(_) => Stop::Storage,
    }
}

/// What the function of this name answers to these arguments, if there is one.
#[tactic(auto, using(crate::proofs::Asking::unknown, crate::proofs::Asking::is_known))]
fn answer_of<N: Natives>(
    alloc: Global,
    natives: &N,
    answers: &mut Vec<i64>,
    name: &Name,
    arguments: &[Value],
    steps: &mut u64,
) -> Result<i64, Stop>
    ensures { Calls (N.host natives.now) (native_sought name.now (map value_of arguments.now)) steps.old
        answers.old.items result steps.new answers.new.items }
{
    match natives.takes(name) {
        None => {
            let condition = about_name(alloc, ConditionKind::UnknownNative, name)?;
            Err(Stop::Refused(condition))
        }
        Some(count) => answer_to_values(alloc, natives, answers, name, count, arguments, steps),
    }
}

/// What the function of this name, which takes so many integers, answers to these arguments.
#[tactic(auto, using(crate::proofs::Asking::too_many_or_few, crate::proofs::Asking::not_integers, crate::proofs::Asking::with_integers))]
fn answer_to_values<N: Natives>(
    alloc: Global,
    natives: &N,
    answers: &mut Vec<i64>,
    name: &Name,
    count: usize,
    arguments: &[Value],
    steps: &mut u64,
) -> Result<i64, Stop>
    requires { takes_in (N.host natives.now) name.now ≡ Some count }
    ensures { Calls (N.host natives.now) (native_found name.now (map value_of arguments.now) (Some count)) steps.old
        answers.old.items result steps.new answers.new.items }
{
    if arguments.len() != count {
        return Err(Stop::Refused(plain(alloc, ConditionKind::ProgramError)));
    }
    match integers_in(alloc, arguments) {
        Ok(integers) => ask(alloc, natives, answers, name, integers.as_slice(), steps),
        Err(stop) => Err(stop),
    }
}

/// The integers that these values are.
#[tactic(auto, using(crate::proofs::Asking::one_more_integer))]
fn integers_in(alloc: Global, values: &[Value]) -> Result<Vec<i64>, Stop>
    ensures values { IfOk result (λ r. integers_in (map value_of values.now) ≡ Ok r.items) }
    ensures stop { IfErr result (NotIntegers (integers_in (map value_of values.now))) }
{
    let mut integers = Vec::new(alloc);
    let mut left = values;
    while let Some((value, others)) = left.split_first() {
        match value {
            Value::Int(integer) => integers.push(*integer)?,
            _ => return Err(wrong_type(alloc, value)),
        }
        left = others;
    }
    Ok(integers)
}

/// What the function of this name answers to these integers. It is asked once its step is counted, and there is room for its
/// answer.
#[tactic(auto, using(crate::proofs::Asking::no_step_left, crate::proofs::Asking::no_place, crate::proofs::Asking::is_asked))]
fn ask<N: Natives>(
    alloc: Global,
    natives: &N,
    answers: &mut Vec<i64>,
    name: &Name,
    integers: &[i64],
    steps: &mut u64,
) -> Result<i64, Stop>
    requires { takes_in (N.host natives.now) name.now ≡ Some (length integers.now) }
    ensures { Calls (N.host natives.now) (integers_given name.now (Ok integers.now)) steps.old answers.old.items result
        steps.new answers.new.items }
{
    if *steps == 0 {
        return Err(Stop::Refused(plain(alloc, ConditionKind::StepLimit)));
    }
    answers.reserve(1)?;
    *steps -= 1;
    let answer = natives.call(name, integers);
    let _ = answers.push(answer);
    Ok(answer)
}
