//! Bodies of functions and methods: parameters are bound, and the forms are evaluated (HyperSpec 3.4.1, 3.5.1).
ghost use Rattle.std.specs.Prelude.{◌≡◌, ℕ};
ghost use Rattle.lisp_data.specs.Value.{list, nil};
ghost use Rattle.lisp_data.specs.ValueView.{value_of};
ghost use Rattle.clos_machine.specs.clos_world.World.{State, seen, bound_as};
ghost use Rattle.clos_machine.specs.clos_meaning.Bodies.{restoring, scoped, parameters_run, body_run};
ghost use Rattle.clos_machine.specs.clos_meaning.Control.{sequence};
ghost use Rattle.clos_machine.specs.Machine.{Leads, Grows, at, inside, given_to, under, value_weight, here, Does};
ghost use Rattle.clos_machine.specs.clos_meaning.Meaning.{meaning};
ghost use Rattle.clos_machine.specs.clos_meaning.Outcome.{Run, then_do};
ghost use Rattle.clos_machine.specs.clos_meaning.Parameters.{required_sources, sources};
ghost use Rattle.clos_machine.specs.declared.machine.Frame.TheVariants.{Bind, Body};

use clos_forms::{Form, Forms};
use clos_lambda::LambdaList;
use clos_machine::locals::{Locals, bind, settle};
use clos_machine::machine::{Defaulted, Doing, Frame, Level, Machine, none_left};
use clos_machine::moves::{begin_body, done, enter, split};
use clos_machine::parameters::{ParameterPlan, plan_for, requires_only};
use clos_machine::truth::nil;
use clos_machine::{ConditionKind, Context, Stop, World, plain};
use lisp_data::{Name, Value};
use std::alloc::{AllocError, Global};
use std::mem;

/// A body runs in this context, and begins with the parameters of a lambda list, which are bound to the arguments.
pub fn run_body(
    alloc: Global,
    machine: &mut Machine,
    world: &World,
    context: Context,
    lambda_list: &LambdaList,
    body: &Forms,
) -> Result<Doing, Stop>
    ensures leads { Leads (here machine.old (λ ev env. body_run ev context (sources lambda_list.now context.arguments)
        body.now)) (seen world.now) result machine.new }
    ensures small { Grows value_weight machine.old.levels result machine.new }
{
    if requires_only(lambda_list) {
        let names = lambda_list.required.as_slice();
        return run_bound(alloc, machine, world, context, names, body);
    }
    let plan = plan_for(alloc, lambda_list, context.arguments().as_slice())?;
    run_planned(alloc, machine, world, context, plan, body)
}

/// A body runs in this context, with these parameters and no other variables.
fn run_planned(
    alloc: Global,
    machine: &mut Machine,
    world: &World,
    context: Context,
    plan: ParameterPlan,
    body: &Forms,
) -> Result<Doing, Stop>
    ensures leads { Leads (here machine.old (λ ev env. body_run ev context plan body.now)) (seen world.now) result
        machine.new }
    ensures small { Grows value_weight machine.old.levels result machine.new }
{
    let saved = mem::replace(&mut machine.context, context);
    let outer = mem::replace(&mut machine.locals, Locals::new(alloc));
    bind_parameters(alloc, machine, world, plan, body, saved, outer)
}

/// The parameters are bound up to the next that has an init form, or all of them, and the body begins.
fn bind_parameters(
    alloc: Global,
    machine: &mut Machine,
    world: &World,
    mut plan: ParameterPlan,
    body: &Forms,
    saved: Context,
    outer: Locals,
) -> Result<Doing, Stop>
    ensures leads { Leads (under machine.old saved outer (parameters_run (meaning machine.old.room) machine.old.context
        plan body.now)) (seen world.now) result machine.new }
    ensures small { Grows value_weight machine.old.levels result machine.new }
{
    match settle(alloc, world, &mut machine.locals, &mut plan) {
        Err(stop) => Err(stop),
        Ok(None) => next_of_body(machine, world, body, saved, outer, nil()),
        Ok(Some((name, form))) => {
            let room = machine.room;
            let body = body.copy()?;
            let Ok(defaulted) = Box::new(
                alloc,
                Defaulted {
                    name,
                    plan,
                    body,
                    saved,
                    outer,
                },
            ) else {
                return Err(Stop::Storage);
            };
            let frame = Frame::Bind(defaulted);
            machine.levels.push(Level { frame, room })?;
            Ok(Doing::Start(form))
        }
    }
}

/// The value of a parameter is there.
pub fn next_parameter(
    alloc: Global,
    machine: &mut Machine,
    world: &World,
    defaulted: Box<Defaulted>,
    value: Value,
) -> Result<Doing, Stop>
    ensures leads { Leads (given_to machine.old (Bind defaulted) (value_of value)) (seen world.now)
        result machine.new }
    ensures small { Grows value_weight machine.old.levels result machine.new }
{
    let Defaulted {
        name,
        plan,
        body,
        saved,
        outer,
    } = Box::into_inner(defaulted);
    if world.globals.has(&name) {
        return Err(Stop::Refused(plain(alloc, ConditionKind::Unsupported)));
    }
    machine.locals.push(name, value)?;
    bind_parameters(alloc, machine, world, plan, &body, saved, outer)
}

/// A body runs in this context, with required parameters of these names bound to the arguments and no other variables.
fn run_bound(
    alloc: Global,
    machine: &mut Machine,
    world: &World,
    context: Context,
    names: &[Name],
    body: &Forms,
) -> Result<Doing, Stop>
    ensures leads { Leads (here machine.old (λ ev env. body_run ev context
        (required_sources names.now context.arguments) body.now)) (seen world.now) result machine.new }
    ensures small { Grows value_weight machine.old.levels result machine.new }
{
    match bind(alloc, world, names, context.arguments().as_slice()) {
        Err(stop) => Err(stop),
        Ok(locals) => run_scoped(machine, context, locals, body),
    }
}

/// These forms are evaluated in a context of their own and with these variables.
fn run_scoped(
    machine: &mut Machine,
    context: Context,
    locals: Locals,
    forms: &Forms,
) -> Result<Doing, Stop>
    ensures leads { Does (λ ev env. scoped (sequence ev context forms.now (list nil)) locals) machine.old result
        machine.new }
    ensures small { Grows value_weight machine.old.levels result machine.new }
{
    match split(forms)? {
        None => Ok(done(machine, nil())),
        Some((first, rest)) => enter_body(machine, context, locals, first, rest),
    }
}

/// Evaluates the forms of a body, of which this is the first, in a context of their own and with these variables.
#[tactic(auto, using(clos_machine::proofs::Turns::grows_more))]
fn enter_body(
    machine: &mut Machine,
    context: Context,
    locals: Locals,
    first: Form,
    rest: Forms,
) -> Result<Doing, Stop>
    ensures leads { (run : Run) (w : State) → ((t : ℕ) → then_do (then_do
        (meaning machine.old.room context first (bound_as locals w) t)
        (λ v. sequence (meaning machine.old.room) context rest v)) (restoring machine.old.locals) ≡ run
        (at machine.old w) t) → Leads (inside machine.old run) w result machine.new }
    ensures small { Grows value_weight machine.old.levels result machine.new }
{
    if none_left(&rest) {
        return enter(machine, context, locals, first);
    }
    let saved = mem::replace(&mut machine.context, context);
    let outer = mem::replace(&mut machine.locals, locals);
    begin_body(machine, first, rest, saved, outer)
}

/// The rest of a body follows the value of one of its forms.
#[tactic(auto, using(clos_machine::proofs::Turns::grows_more))]
pub fn next_of_body(
    machine: &mut Machine,
    world: &World,
    rest: &Forms,
    saved: Context,
    outer: Locals,
    value: Value,
) -> Result<Doing, Stop>
    ensures leads { Leads (given_to machine.old (Body rest.now saved outer) (value_of value)) (seen world.now) result
        machine.new }
    ensures small { Grows value_weight machine.old.levels result machine.new }
{
    let _ = world;
    match split(rest)? {
        None => {
            machine.context = saved;
            machine.locals = outer;
            Ok(Doing::Give(value))
        }
        Some((first, rest)) => {
            drop(value);
            begin_body(machine, first, rest, saved, outer)
        }
    }
}
