//! What a method does with its next methods (HyperSpec 7.6.6.2, 7.7 `call-next-method`, `next-method-p`).
ghost use Rattle.std.specs.Prelude.{◌≡◌, ◌∷◌, IfOk, map};
ghost use Rattle.lisp_data.specs.Numbers.{same_numbers};
ghost use Rattle.lisp_data.specs.Value.{generic, method};
ghost use Rattle.lisp_data.specs.ValueView.{value_of};
ghost use Rattle.clos_method.specs.MethodIds.{method_numbers};
ghost use Rattle.clos_machine.specs.clos_world.Uses.{uses_of};
ghost use Rattle.clos_machine.specs.clos_world.World.{seen};
ghost use Rattle.clos_machine.specs.clos_meaning.Calls.{made_run};
ghost use Rattle.clos_machine.specs.clos_meaning.Contexts.{with_arguments};
ghost use Rattle.clos_machine.specs.Uses.{KeptAfter, LeadsBy};
ghost use Rattle.clos_machine.specs.Machine.{Leads, Grows, call_growth, collect_weight, perform_weight, here};
ghost use Rattle.clos_machine.specs.clos_meaning.NextMethods.{has_next, next_called, next_given, none_next};
ghost use Rattle.clos_next_methods.specs.NextMethods.{Refuses, asked_for, asked_of, refusal_for, refusal_of};
ghost use Rattle.clos_machine.specs.clos_meaning.Meaning.{next_method};
ghost use Rattle.clos_machine.specs.declared.machine.Action.TheVariants.{CallNext};

use crate::methods::run_method;
use clos_calls::generic_calls::{enter_effect, takes};
use clos_forms::{CalledMethod, Forms};
use clos_machine::machine::{Action, Doing, Machine};
use clos_machine::moves::{collect_next, split};
use clos_machine::{Arguments, ConditionKind, Dispatch, Stop, Values, World, about, plain};
use clos_method::SystemFunction;
use lisp_data::{MethodId, Value};
use std::alloc::{AllocError, Global};

/// Whether the method that runs has a next method.
pub fn has_next(machine: &Machine) -> bool
    ensures { result ≡ has_next machine.now.context.running }
{
    match machine.context.running() {
        None => false,
        Some(running) => running.next.first().is_some(),
    }
}

/// A `call-next-method` form begins. Without forms the next method gets the arguments with which the method was called.
#[tactic(auto, using(clos_machine::proofs::Turns::grows_more))]
pub fn call_next_method(
    alloc: Global,
    machine: &mut Machine,
    world: &World,
    forms: &Forms,
) -> Result<Doing, Stop>
    ensures leads { Leads (here machine.old (λ ev env. next_method ev env forms.now)) (seen world.now) result
        machine.new }
    ensures small { Grows (collect_weight CallNext) machine.old.levels result machine.new }
{
    match forms.split_first() {
        Some(_) => collect_next(machine, Action::CallNext, forms, Values::new(alloc)),
        None => {
            let arguments = machine.context.arguments().copy()?;
            run_next(alloc, machine, world, arguments)
        }
    }
}

/// The next method is called with other arguments. They have to be as many as the function takes, and the applicable methods
/// and their order the same.
pub fn call_next_given(
    alloc: Global,
    machine: &mut Machine,
    world: &mut World,
    values: Values,
) -> Result<Doing, Stop>
    ensures leads { LeadsBy (here machine.old (λ ev env. next_given ev env env.running values)) (seen world.old)
        (uses_of world.old) result machine.new (uses_of world.new) }
    ensures same { seen world.new ≡ seen world.old }
    ensures small { Grows perform_weight machine.old.levels result machine.new }
{
    match permit(alloc, machine, world, values.as_slice()) {
        Err(stop) => Err(stop),
        Ok(()) => {
            let Ok(arguments) = Arguments::new(alloc, values) else {
                return Err(Stop::Storage);
            };
            run_next(alloc, machine, world, arguments)
        }
    }
}

/// Whether the next method may be called with these arguments.
fn permit(alloc: Global, machine: &Machine, world: &mut World, values: &[Value]) -> Result<(), Stop>
    ensures refuses { Refuses (refusal_of (seen world.old) machine.now.context.running machine.now.context.call
        (map value_of values.now)) result }
    ensures same { seen world.new ≡ seen world.old }
    ensures kept { KeptAfter (asked_of (seen world.old) machine.now.context.running machine.now.context.call
        (map value_of values.now)) result (uses_of world.old) (uses_of world.new) }
{
    match machine.context.running() {
        None => Err(Stop::Refused(plain(alloc, ConditionKind::ProgramError))),
        Some(running) => match machine.context.call() {
            None => Err(Stop::Refused(plain(alloc, ConditionKind::ProgramError))),
            Some(call) => permit_in(alloc, world, running.method, call, values),
        },
    }
}

/// Whether the next method of this one may be called with these arguments in a call.
#[tactic(auto, using(crate::proofs::Nexting::none_asked, crate::proofs::Nexting::one_asked, crate::proofs::Nexting::asking_refused))]
fn permit_in(
    alloc: Global,
    world: &mut World,
    id: MethodId,
    call: &Dispatch,
    values: &[Value],
) -> Result<(), Stop>
    ensures refuses { Refuses (refusal_for (seen world.old) id.0 call.now (map value_of values.now)) result }
    ensures same { seen world.new ≡ seen world.old }
    ensures kept { KeptAfter (asked_for (seen world.old) call.now (map value_of values.now)) result (uses_of world.old)
        (uses_of world.new) }
{
    if !takes(world, call.generic(), values.len()) {
        return Err(Stop::Refused(plain(alloc, ConditionKind::ProgramError)));
    }
    let found = world.effective_method(alloc, call.generic(), values)?;
    if !same_methods(found.methods.as_slice(), call.methods()) {
        let kind = ConditionKind::NextArguments;
        let Ok(condition) = about(alloc, kind, Value::Method(id)) else {
            return Err(Stop::Storage);
        };
        return Err(Stop::Refused(condition));
    }
    Ok(())
}

/// Whether both are the same methods in the same order.
fn same_methods(a: &[MethodId], b: &[MethodId]) -> bool
    ensures { result ≡ same_numbers (method_numbers a.now) (method_numbers b.now) }
{
    let mut left = a;
    let mut right = b;
    loop {
        match (left.split_first(), right.split_first()) {
            (None, None) => return true,
            (Some((x, xs)), Some((y, ys))) => {
                if x.0 != y.0 {
                    return false;
                }
                left = xs;
                right = ys;
            }
            _ => return false,
        }
    }
}

/// The next method runs on these arguments, or there is none.
#[tactic(auto, using(clos_machine::proofs::Turns::stopped_through, clos_machine::proofs::Turns::grows_more))]
fn run_next(
    alloc: Global,
    machine: &mut Machine,
    world: &World,
    arguments: Arguments,
) -> Result<Doing, Stop>
    ensures leads { Leads (here machine.old (λ ev env. next_called ev env env.running arguments)) (seen world.now)
        result machine.new }
    ensures small { Grows perform_weight machine.old.levels result machine.new }
{
    let Some(running) = machine.context.running() else {
        return Err(Stop::Refused(plain(alloc, ConditionKind::ProgramError)));
    };
    match running.next.first() {
        None => call_none(alloc, machine, world, running.method, &arguments),
        Some(CalledMethod::Method(id)) => {
            let next = running.next.rest()?;
            let forms = running.forms.copy()?;
            run_method(alloc, machine, world, arguments, id, &next, &forms)
        }
        Some(CalledMethod::Made) => {
            let forms = running.forms.copy()?;
            run_made_with(alloc, machine, world, arguments, &forms)
        }
    }
}

/// A method that is made of the first of these forms runs with these arguments.
#[tactic(auto, using(clos_machine::proofs::Turns::stopped_through))]
fn run_made_with(
    alloc: Global,
    machine: &mut Machine,
    world: &World,
    arguments: Arguments,
    forms: &Forms,
) -> Result<Doing, Stop>
    ensures leads { Leads (here machine.old (λ ev env. made_run ev (with_arguments arguments env) forms.now))
        (seen world.now) result machine.new }
    ensures small { Grows call_growth machine.old.levels result machine.new }
{
    let _ = world;
    match split(forms)? {
        None => Err(Stop::Refused(plain(alloc, ConditionKind::ProgramError))),
        Some((first, _)) => {
            let context = machine.context.with_arguments(alloc, arguments)?;
            enter_effect(alloc, machine, context, first)
        }
    }
}

/// The function no-next-method is called with the generic function, this method and the arguments.
#[tactic(auto, using(clos_machine::proofs::Turns::stopped_through))]
fn call_none(
    alloc: Global,
    machine: &Machine,
    world: &World,
    id: MethodId,
    arguments: &Arguments,
) -> Result<Doing, Stop>
    ensures leads { Leads (here machine.now (λ ev env. none_next ev env.call id.0 arguments.now)) (seen world.now)
        result machine.now }
    ensures small { Grows perform_weight machine.now.levels result machine.now }
{
    let _ = world;
    match machine.context.call() {
        None => Err(Stop::Refused(plain(alloc, ConditionKind::ProgramError))),
        Some(call) => {
            let values = none_arguments(alloc, call, id, arguments)?;
            Ok(Doing::Invoke(SystemFunction::NoNextMethod, values))
        }
    }
}

/// The arguments of no-next-method.
fn none_arguments(
    alloc: Global,
    call: &Dispatch,
    id: MethodId,
    arguments: &Arguments,
) -> Result<Values, AllocError>
    ensures { IfOk result (λ r. r ≡ generic call.now.generic ∷ method id.0 ∷ arguments.now) }
{
    let mut values = Values::new(alloc);
    values.push(Value::Generic(call.generic()))?;
    values.push(Value::Method(id))?;
    values.push_all(arguments.as_slice())?;
    Ok(values)
}
