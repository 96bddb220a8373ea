//! Variables, and what binds them (HyperSpec 5.3 `let`, `let*`, 6.2 `dotimes`).
ghost use Rattle.std.specs.Prelude.{◌≡◌, ◌∷◌, ◌++◌, [], ℕ, ◌≤◌, length, OnOk, pos};
ghost use Rattle.lisp_data.specs.Value.{Val, list, nil};
ghost use Rattle.lisp_data.specs.ValueView.{value_of};
ghost use Rattle.clos_forms.specs.Form.{Forms, cons};
ghost use Rattle.clos_machine.specs.clos_world.World.{State, seen, held, bound_as};
ghost use Rattle.clos_machine.specs.clos_meaning.Control.{sequence};
ghost use Rattle.clos_machine.specs.Machine.{Leads, Turns, Grows, Shrinks, at, with_next, inside, loop_of, turn_weight, value_weight, here, Does};
ghost use Rattle.clos_machine.specs.clos_meaning.Meaning.{meaning};
ghost use Rattle.clos_machine.specs.clos_meaning.Outcome.{Run, then_do};
ghost use Rattle.clos_machine.specs.clos_meaning.Variables.{in_order, binding, within, leaving, aside, together, dotimes, repeated, turns, result_value, body_of, counted, with_count};

use clos_forms::{Bindings, Form, Forms};
use clos_machine::counter::Counter;
use clos_machine::locals::{Locals, Plan, bind_unset, put_unset_aside};
use clos_machine::machine::{Beside, Doing, Frame, Machine, Repetition, none_left};
use clos_machine::moves::{begin, split};
use clos_machine::truth::nil;
use clos_machine::{ConditionKind, Stop, World, about, plain};
use lisp_data::{Name, Value};
use std::alloc::{AllocError, Global};

/// The forms of a body, within names that are gone after it.
fn run_within(machine: &mut Machine, outer: usize, forms: &Forms) -> Result<Doing, Stop>
    ensures leads { Does (λ ev env. within ev env outer forms.now (list nil)) machine.old result machine.new }
    ensures small { Grows value_weight machine.old.levels result machine.new }
{
    continue_within(machine, outer, forms, nil())
}

/// The rest of such a body follows the value of one of its forms.
#[tactic(auto, using(clos_machine::proofs::Turns::then_then))]
pub fn continue_within(
    machine: &mut Machine,
    outer: usize,
    forms: &Forms,
    value: Value,
) -> Result<Doing, Stop>
    ensures leads { Does (λ ev env. within ev env outer forms.now (value_of value)) machine.old result machine.new }
    ensures small { Grows value_weight machine.old.levels result machine.new }
{
    match split(forms)? {
        None => {
            machine.locals.leave(outer);
            Ok(Doing::Give(value))
        }
        Some((first, rest)) => {
            drop(value);
            begin_within(machine, outer, first, rest)
        }
    }
}

/// Evaluates a form of such a body next. In tail position its names need not go: the caller's come back.
#[tactic(auto, using(clos_machine::proofs::Tails::within_last, clos_machine::proofs::Turns::then_then))]
fn begin_within(
    machine: &mut Machine,
    outer: usize,
    first: Form,
    rest: Forms,
) -> Result<Doing, Stop>
    ensures leads { (fs : Forms) (v : Val) → fs ≡ cons first rest → Does (λ ev env. within ev env outer fs v) machine.old
        result machine.new }
    ensures small { Grows value_weight machine.old.levels result machine.new }
{
    if none_left(&rest) && machine.levels.ends_body() {
        return Ok(Doing::Start(first));
    }
    begin(machine, first, Frame::Scope(outer, rest))
}

/// A `let*` form begins.
pub fn start_let_in_order(
    alloc: Global,
    machine: &mut Machine,
    world: &World,
    bindings: &Bindings,
    forms: &Forms,
) -> Result<Doing, Stop>
    ensures leads { (run : Run) → ((t : ℕ) → in_order (meaning machine.old.room) machine.old.context
        (length machine.old.locals) bindings.now forms.now (at machine.old (seen world.now)) t ≡ run
        (at machine.old (seen world.now)) t) → Leads (inside machine.old run) (seen world.now) result machine.new }
    ensures small { Grows value_weight machine.old.levels result machine.new }
{
    let plan = Plan::new(alloc, bindings.as_slice())?;
    let outer = machine.locals.len();
    bind_in_order(alloc, machine, world, outer, plan, forms)
}

/// Variables are bound one by one; then the body.
fn bind_in_order(
    alloc: Global,
    machine: &mut Machine,
    world: &World,
    outer: usize,
    mut plan: Plan,
    forms: &Forms,
) -> Result<Doing, Stop>
    ensures leads { (run : Run)
        → ((t : ℕ) → in_order (meaning machine.old.room) machine.old.context outer plan forms.now (at machine.old (seen
        world.now)) t ≡ run (at machine.old (seen world.now)) t)
        → Leads (inside machine.old run) (seen world.now) result machine.new }
    ensures small { Grows value_weight machine.old.levels result machine.new }
{
    match bind_unset(alloc, world, &mut machine.locals, &mut plan) {
        Ok(next) => bind_next(alloc, machine, outer, next, plan, forms),
        Err(stop) => Err(stop),
    }
}

/// The init form of the variable of this name, or the body.
#[tactic(auto, using(clos_machine::proofs::Turns::stopped_through))]
fn bind_next(
    alloc: Global,
    machine: &mut Machine,
    outer: usize,
    next: Option<Name>,
    plan: Plan,
    forms: &Forms,
) -> Result<Doing, Stop>
    ensures leads { Does (λ ev env. in_order ev env outer (with_next next plan) forms.now) machine.old result
        machine.new }
    ensures small { Grows value_weight machine.old.levels result machine.new }
{
    match next {
        None => run_within(machine, outer, forms),
        Some(name) => match split(forms)? {
            None => Err(Stop::Refused(plain(alloc, ConditionKind::ProgramError))),
            Some((init, rest)) => {
                let frame = Frame::InOrder(outer, name, plan, rest);
                begin(machine, init, frame)
            }
        },
    }
}

/// The value of a variable is there.
#[tactic(auto, using(clos_machine::proofs::Turns::stopped_through))]
pub fn next_variable(
    alloc: Global,
    machine: &mut Machine,
    world: &World,
    outer: usize,
    name: Name,
    plan: Plan,
    forms: &Forms,
    value: Value,
) -> Result<Doing, Stop>
    ensures leads { (run : Run) → ((t : ℕ) → binding name (value_of value)
        (in_order (meaning machine.old.room) machine.old.context outer plan forms.now) (at machine.old (seen world.now))
        t ≡ run (at machine.old (seen world.now)) t) → Leads (inside machine.old run) (seen world.now) result
        machine.new }
    ensures small { Grows value_weight machine.old.levels result machine.new }
{
    if world.globals.has(&name) {
        return Err(Stop::Refused(plain(alloc, ConditionKind::Unsupported)));
    }
    bind_one(alloc, machine, world, outer, name, plan, forms, value)
}

/// A variable is bound, and then the others.
fn bind_one(
    alloc: Global,
    machine: &mut Machine,
    world: &World,
    outer: usize,
    name: Name,
    plan: Plan,
    forms: &Forms,
    value: Value,
) -> Result<Doing, Stop>
    ensures leads { (run : Run) → ((t : ℕ) → in_order (meaning machine.old.room) machine.old.context outer plan
        forms.now (bound_as ((name, held (value_of value)) ∷ machine.old.locals) (seen world.now)) t ≡ run
        (at machine.old (seen world.now)) t) → Leads (inside machine.old run) (seen world.now) result machine.new }
    ensures small { Grows value_weight machine.old.levels result machine.new }
{
    machine.locals.push(name, value)?;
    bind_in_order(alloc, machine, world, outer, plan, forms)
}

/// A `let` form begins.
pub fn start_let(
    alloc: Global,
    machine: &mut Machine,
    world: &World,
    bindings: &Bindings,
    forms: &Forms,
) -> Result<Doing, Stop>
    ensures leads { (run : Run) → ((t : ℕ) → aside (meaning machine.old.room) machine.old.context
        (length machine.old.locals) bindings.now forms.now [] (at machine.old (seen world.now)) t ≡ run
        (at machine.old (seen world.now)) t) → Leads (inside machine.old run) (seen world.now) result machine.new }
    ensures small { Grows value_weight machine.old.levels result machine.new }
{
    let plan = Plan::new(alloc, bindings.as_slice())?;
    let outer = machine.locals.len();
    let locals = Locals::new(alloc);
    set_aside(alloc, machine, world, outer, locals, plan, forms)
}

/// The variables of a `let` form get their values, and are then bound together.
fn set_aside(
    alloc: Global,
    machine: &mut Machine,
    world: &World,
    outer: usize,
    mut locals: Locals,
    mut plan: Plan,
    forms: &Forms,
) -> Result<Doing, Stop>
    ensures leads { (run : Run)
        → ((t : ℕ) → aside (meaning machine.old.room) machine.old.context outer plan forms.now locals (at machine.old
        (seen world.now)) t ≡ run (at machine.old (seen world.now)) t)
        → Leads (inside machine.old run) (seen world.now) result machine.new }
    ensures small { Grows value_weight machine.old.levels result machine.new }
{
    let next = put_unset_aside(&mut locals, &mut plan)?;
    aside_next(alloc, machine, world, outer, locals, next, plan, forms)
}

/// The init form of the variable of this name, or the body.
#[tactic(auto, using(clos_machine::proofs::Turns::stopped_through))]
fn aside_next(
    alloc: Global,
    machine: &mut Machine,
    world: &World,
    outer: usize,
    locals: Locals,
    next: Option<Name>,
    plan: Plan,
    forms: &Forms,
) -> Result<Doing, Stop>
    ensures leads { (run : Run) → ((t : ℕ) → aside (meaning machine.old.room) machine.old.context outer
        (with_next next plan) forms.now locals (at machine.old (seen world.now)) t ≡ run
        (at machine.old (seen world.now)) t) → Leads (inside machine.old run) (seen world.now) result machine.new }
    ensures small { Grows value_weight machine.old.levels result machine.new }
{
    match next {
        None => bind_together(alloc, machine, world, outer, locals, forms),
        Some(name) => match split(forms)? {
            None => Err(Stop::Refused(plain(alloc, ConditionKind::ProgramError))),
            Some((init, rest)) => {
                let Ok(beside) = Box::new(
                    alloc,
                    Beside {
                        outer,
                        locals,
                        name,
                        plan,
                        forms: rest,
                    },
                ) else {
                    return Err(Stop::Storage);
                };
                let frame = Frame::Aside(beside);
                begin(machine, init, frame)
            }
        },
    }
}

/// Variables are bound together, unless one has the name of a global one; then the body.
#[tactic(auto, using(clos_machine::proofs::Turns::stopped_through))]
fn bind_together(
    alloc: Global,
    machine: &mut Machine,
    world: &World,
    outer: usize,
    locals: Locals,
    forms: &Forms,
) -> Result<Doing, Stop>
    ensures leads { (run : Run)
        → ((t : ℕ) → together (meaning machine.old.room) machine.old.context outer locals forms.now (at machine.old
        (seen world.now)) t ≡ run (at machine.old (seen world.now)) t)
        → Leads (inside machine.old run) (seen world.now) result machine.new }
    ensures small { Grows value_weight machine.old.levels result machine.new }
{
    if locals.any_global(world) {
        return Err(Stop::Refused(plain(alloc, ConditionKind::Unsupported)));
    }
    run_beside(machine, outer, locals, forms)
}

/// A body with these names too.
pub fn run_beside(
    machine: &mut Machine,
    outer: usize,
    locals: Locals,
    forms: &Forms,
) -> Result<Doing, Stop>
    ensures leads { (run : Run) (w : State)
        → ((t : ℕ) → within (meaning machine.old.room) machine.old.context outer forms.now (list nil) (bound_as (locals
        ++ machine.old.locals) w) t ≡ run (at machine.old w) t) → Leads (inside machine.old run) w result machine.new }
    ensures small { Grows value_weight machine.old.levels result machine.new }
{
    machine.locals.append(locals)?;
    run_within(machine, outer, forms)
}

/// The value of a variable of a `let` form is there.
pub fn next_aside(
    alloc: Global,
    machine: &mut Machine,
    world: &World,
    beside: Box<Beside>,
    value: Value,
) -> Result<Doing, Stop>
    ensures leads { (run : Run) → ((t : ℕ) → aside (meaning machine.old.room) machine.old.context beside.value.outer
        beside.value.plan beside.value.forms ((beside.value.name, held (value_of value)) ∷ beside.value.locals)
        (at machine.old (seen world.now)) t ≡ run (at machine.old (seen world.now)) t) → Leads (inside machine.old run) (seen world.now) result machine.new }
    ensures small { Grows value_weight machine.old.levels result machine.new }
{
    let Beside {
        outer,
        mut locals,
        name,
        plan,
        forms,
    } = Box::into_inner(beside);
    locals.push(name, value)?;
    set_aside(alloc, machine, world, outer, locals, plan, &forms)
}

/// The form of the number of turns of a loop.
#[tactic(auto, using(clos_machine::proofs::Turns::stopped_through))]
pub fn start_loop(
    alloc: Global,
    machine: &mut Machine,
    name: &Name,
    has_result: bool,
    forms: &Forms,
) -> Result<Doing, Stop>
    ensures leads { Does (λ ev env. dotimes ev env (length machine.old.locals) name.now has_result forms.now)
        machine.old result machine.new }
    ensures small { Grows value_weight machine.old.levels result machine.new }
{
    match split(forms)? {
        None => Err(Stop::Refused(plain(alloc, ConditionKind::ProgramError))),
        Some((count, forms)) => {
            let repetition = Repetition {
                outer: machine.locals.len(),
                name: name.copy()?,
                has_result,
                forms,
            };
            let Ok(repetition) = Box::new(alloc, repetition) else {
                return Err(Stop::Storage);
            };
            begin(machine, count, Frame::Count(repetition))
        }
    }
}

/// The number of turns is there.
#[tactic(auto, using(clos_machine::proofs::Turns::stopped_through))]
pub fn repeat(
    alloc: Global,
    machine: &mut Machine,
    world: &World,
    repetition: Box<Repetition>,
    value: Value,
) -> Result<Doing, Stop>
    ensures leads { (run : Run) → ((t : ℕ) → repeated (meaning machine.old.room) machine.old.context
        (loop_of repetition.value) (value_of value) (at machine.old (seen world.now)) t ≡ run
        (at machine.old (seen world.now)) t) → Leads (inside machine.old run) (seen world.now) result machine.new }
    ensures small { Grows turn_weight machine.old.levels result machine.new }
{
    match &value {
        Value::Int(count) => {
            if world.globals.has(&repetition.name) {
                return Err(Stop::Refused(plain(alloc, ConditionKind::Unsupported)));
            }
            Ok(Doing::Turn(repetition, Counter::new(*count)))
        }
        _ => Err(Stop::Refused(about(alloc, ConditionKind::TypeError, value)?)),
    }
}

/// The variable of a loop is set to the number of turns done.
fn set_count(
    machine: &mut Machine,
    repetition: &Repetition,
    counter: &Counter,
) -> Result<(), AllocError>
    ensures { OnOk result (machine.new ≡ record machine.old {
      locals = with_count (loop_of repetition.now)
          (pos counter.now.1) machine.old.locals;
    }) }
{
    machine.locals.leave(repetition.outer);
    machine
        .locals
        .push(repetition.name.copy()?, Value::Int(counter.done()))?;
    Ok(())
}

/// The body of a loop.
fn body_of(repetition: &Repetition) -> &Forms
    ensures { result.now ≡ body_of repetition.now.has_result repetition.now.forms }
{
    if !repetition.has_result {
        return &repetition.forms;
    }
    match repetition.forms.split_first() {
        None => &repetition.forms,
        Some((_, body)) => body,
    }
}

/// The rest of the body of a loop follows the value of one of its forms; then comes the next turn.
#[tactic(auto, using(clos_machine::proofs::Turns::then_then))]
pub fn continue_turn(
    machine: &mut Machine,
    repetition: Box<Repetition>,
    counter: Counter,
    forms: &Forms,
    value: Value,
) -> Result<Doing, Stop>
    ensures leads { Does (λ ev env u k. then_do (sequence ev env forms.now (value_of value) u k)
        (λ v. turns ev env (loop_of repetition.value) counter.0 counter.1)) machine.old result machine.new }
    ensures small { Grows turn_weight machine.old.levels result machine.new }
{
    match split(forms)? {
        None => Ok(Doing::Turn(repetition, counter)),
        Some((first, rest)) => {
            let frame = Frame::Turn(repetition, counter, rest);
            begin(machine, first, frame)
        }
    }
}

/// The body of a loop, and then the next turn.
fn run_turn(
    machine: &mut Machine,
    repetition: Box<Repetition>,
    counter: Counter,
) -> Result<Doing, Stop>
    ensures leads { Does (λ ev env u k. then_do (sequence ev env (body_of repetition.value.has_result repetition.value.forms)
        (list nil) u k) (λ v. turns ev env (loop_of repetition.value) counter.0 counter.1)) machine.old result machine.new }
    ensures small { Grows turn_weight machine.old.levels result machine.new }
{
    let body = body_of(&repetition).copy()?;
    continue_turn(machine, repetition, counter, &body, nil())
}

/// A turn begins: the variable is set to the number of turns done.
fn begin_turn(
    machine: &mut Machine,
    repetition: Box<Repetition>,
    counter: &Counter,
    next: Counter,
) -> Result<Doing, Stop>
    ensures leads { (run : Run) (w : State) → ((t : ℕ) → then_do (sequence (meaning machine.old.room)
        machine.old.context (body_of repetition.value.has_result repetition.value.forms) (list nil)
        (counted (loop_of repetition.value) (pos counter.now.1) (at machine.old w)) t)
        (λ v. turns (meaning machine.old.room) machine.old.context (loop_of repetition.value) next.0 next.1) ≡ run
        (at machine.old w) t) → Leads (inside machine.old run) w result machine.new }
    ensures small { Grows turn_weight machine.old.levels result machine.new }
{
    set_count(machine, &repetition, counter)?;
    run_turn(machine, repetition, next)
}

/// The result form of a loop gives its value.
fn run_result(machine: &mut Machine, repetition: &Repetition) -> Result<Doing, Stop>
    ensures leads { Does (λ ev env u k. then_do (result_value ev env repetition.now.has_result repetition.now.forms u k)
        (leaving repetition.now.outer)) machine.old result machine.new }
    ensures small { Grows value_weight machine.old.levels result machine.new }
{
    if !repetition.has_result {
        machine.locals.leave(repetition.outer);
        return Ok(Doing::Give(nil()));
    }
    match repetition.forms.split_first() {
        None => {
            machine.locals.leave(repetition.outer);
            Ok(Doing::Give(nil()))
        }
        Some((form, _)) => {
            let next = form.copy()?;
            begin(machine, next, Frame::Scope(repetition.outer, Forms::new()))
        }
    }
}

/// A loop ends: the variable is set to the number of turns done.
fn end_loop(
    machine: &mut Machine,
    repetition: &Repetition,
    counter: &Counter,
) -> Result<Doing, Stop>
    ensures leads { (run : Run) (w : State) → ((t : ℕ) → then_do (result_value (meaning machine.old.room)
        machine.old.context repetition.now.has_result repetition.now.forms
        (counted (loop_of repetition.now) (pos counter.now.1) (at machine.old w)) t) (leaving repetition.now.outer) ≡
        run (at machine.old w) t) → Leads (inside machine.old run) w result machine.new }
    ensures small { Grows value_weight machine.old.levels result machine.new }
{
    set_count(machine, repetition, counter)?;
    run_result(machine, repetition)
}

/// The next turn of a loop, which takes a step, or its end.
pub fn turn(
    alloc: Global,
    machine: &mut Machine,
    world: &World,
    repetition: Box<Repetition>,
    counter: Counter,
    steps: &mut u64,
) -> Result<Doing, Stop>
    ensures turns { Turns (here machine.old (λ ev env. turns ev env (loop_of repetition.value) counter.0 counter.1))
        (seen world.now) steps.old result machine.new (seen world.now) steps.new }
    ensures small { Shrinks turn_weight steps.old steps.new machine.old.levels result machine.new }
    ensures fewer { steps.new ≤ steps.old }
{
    match counter.next() {
        None => end_loop(machine, &repetition, &counter),
        Some(next) => {
            if *steps == 0 {
                return Err(Stop::Refused(plain(alloc, ConditionKind::StepLimit)));
            }
            let Ok(doing) = begin_turn(machine, repetition, &counter, next) else {
                return Err(Stop::Storage);
            };
            *steps -= 1;
            Ok(doing)
        }
    }
}
