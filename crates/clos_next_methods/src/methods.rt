//! Methods that run (HyperSpec 7.6.6).
ghost use Rattle.std.specs.Prelude.{◌≡◌, IfOk, slice_get};
ghost use Rattle.clos_forms.specs.CallMethodView.{callable};
ghost use Rattle.clos_machine.specs.clos_world.World.{seen};
ghost use Rattle.clos_machine.specs.clos_meaning.Calls.{made_run, method_body_run, method_called, method_run};
ghost use Rattle.clos_machine.specs.clos_meaning.Contexts.{running, with_arguments};
ghost use Rattle.clos_machine.specs.Machine.{Leads, Grows, perform_weight, value_weight, here};
ghost use Rattle.clos_next_methods.specs.Methods.{forms_run};

use clos_calls::bodies::run_body;
use clos_calls::generic_calls::enter_effect;
use clos_forms::{CalledMethod, Forms, NextMethods};
use clos_lambda::LambdaList;
use clos_machine::machine::{BuiltIn, Doing, Machine};
use clos_machine::moves::split;
use clos_machine::parameters::keys_are_even;
use clos_machine::{Arguments, ConditionKind, Context, Running, Stop, World, plain};
use clos_method::MethodBody;
use lisp_data::MethodId;
use std::alloc::{AllocError, Global};

/// A method of an effective form is called with the arguments of the form: one of the program's or the system's, or one that
/// is made of a form.
#[tactic(auto, using(clos_machine::proofs::Turns::stopped_through))]
pub fn call_method(
    alloc: Global,
    machine: &mut Machine,
    world: &World,
    method: &CalledMethod,
    next: &NextMethods,
    forms: &Forms,
) -> Result<Doing, Stop>
    ensures leads { Leads (here machine.old (λ ev env. method_called ev env (callable method.now) next.now forms.now))
        (seen world.now) result machine.new }
    ensures small { Grows perform_weight machine.old.levels result machine.new }
{
    match method {
        CalledMethod::Method(id) => {
            let arguments = machine.context.arguments().copy()?;
            run_method(alloc, machine, world, arguments, *id, next, forms)
        }
        CalledMethod::Made => run_made(alloc, machine, world, forms),
    }
}

/// A method that is made of the first of these forms runs.
#[tactic(auto, using(clos_machine::proofs::Turns::stopped_through, clos_machine::proofs::Turns::then_gave))]
fn run_made(
    alloc: Global,
    machine: &mut Machine,
    world: &World,
    forms: &Forms,
) -> Result<Doing, Stop>
    ensures leads { Leads (here machine.old (λ ev env. made_run ev env forms.now)) (seen world.now) result machine.new }
    ensures small { Grows perform_weight machine.old.levels result machine.new }
{
    let _ = world;
    match split(forms)? {
        None => Err(Stop::Refused(plain(alloc, ConditionKind::ProgramError))),
        Some((first, _)) => {
            let context = machine.context.copy()?;
            enter_effect(alloc, machine, context, first)
        }
    }
}

/// A method runs on these arguments, with these next methods, of which those that are made are made of these forms.
#[tactic(auto, using(clos_machine::proofs::Turns::stopped_through))]
pub fn run_method(
    alloc: Global,
    machine: &mut Machine,
    world: &World,
    arguments: Arguments,
    id: MethodId,
    next: &NextMethods,
    forms: &Forms,
) -> Result<Doing, Stop>
    ensures leads { Leads (here machine.old (λ ev env. method_run ev (running id.0 next.now forms.now
        (with_arguments arguments env)) (slice_get (seen world.now).generics.methods id.0))) (seen world.now) result
        machine.new }
    ensures small { Grows perform_weight machine.old.levels result machine.new }
{
    match world.generics.method(id) {
        None => Err(Stop::Refused(plain(alloc, ConditionKind::ProgramError))),
        Some(method) => run_method_body(
            alloc,
            machine,
            world,
            arguments,
            id,
            next,
            forms,
            &method.body,
        ),
    }
}

/// A method does what its body does with these arguments.
#[tactic(auto, using(clos_machine::proofs::Turns::grows_more))]
fn run_method_body(
    alloc: Global,
    machine: &mut Machine,
    world: &World,
    arguments: Arguments,
    id: MethodId,
    next: &NextMethods,
    forms: &Forms,
    body: &MethodBody,
) -> Result<Doing, Stop>
    ensures leads { Leads (here machine.old (λ ev env. method_body_run ev
        (running id.0 next.now forms.now (with_arguments arguments env)) body.now)) (seen world.now) result machine.new }
    ensures small { Grows perform_weight machine.old.levels result machine.new }
{
    match body {
        MethodBody::Forms(lambda_list, body) => {
            let context = body_context(alloc, machine, arguments, id, next, forms)?;
            run_forms(alloc, machine, world, context, lambda_list.list(), body)
        }
        MethodBody::Reader(slot) => { Ok(Doing::Perform(BuiltIn::Reader(slot.copy()?), arguments)) }
        MethodBody::Writer(slot) => { Ok(Doing::Perform(BuiltIn::Writer(slot.copy()?), arguments)) }
        MethodBody::System(function) => {
            Ok(Doing::Perform(BuiltIn::System(*function), arguments))
        }
    }
}

/// The context of the body of a method that runs for the machine's call.
fn body_context(
    alloc: Global,
    machine: &Machine,
    arguments: Arguments,
    id: MethodId,
    next: &NextMethods,
    forms: &Forms,
) -> Result<Context, AllocError>
    ensures { IfOk result (λ r. r ≡ running id.0 next.now forms.now (with_arguments arguments machine.now.context)) }
{
    let running = Running {
        method: id,
        next: next.copy()?,
        forms: forms.copy()?,
    };
    machine.context.with_running(alloc, arguments, running)
}

/// The forms of a method run in this context, unless its keyword parameters have an argument too few.
#[tactic(auto, using(clos_machine::proofs::Turns::stopped_through))]
fn run_forms(
    alloc: Global,
    machine: &mut Machine,
    world: &World,
    context: Context,
    lambda_list: &LambdaList,
    body: &Forms,
) -> Result<Doing, Stop>
    ensures leads { Leads (here machine.old (λ ev env. forms_run ev context lambda_list.now body.now)) (seen world.now)
        result machine.new }
    ensures small { Grows value_weight machine.old.levels result machine.new }
{
    if !keys_are_even(lambda_list, context.arguments().as_slice()) {
        return Err(Stop::Refused(plain(alloc, ConditionKind::ProgramError)));
    }
    run_body(alloc, machine, world, context, lambda_list, body)
}
