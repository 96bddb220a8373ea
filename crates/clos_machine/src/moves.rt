//! What many handlers do next: begin a form, act or call under a frame, give a value.
ghost use Rattle.std.specs.Prelude.{◌≡◌, ℕ, ◌+◌, ◌∷◌, IfOk, OnOk, Ok, MatchOption, true};
ghost use Rattle.lisp_data.specs.Value.{Val};
ghost use Rattle.lisp_data.specs.ValueView.{value_of};
ghost use Rattle.clos_forms.specs.Form.{cons, nil};
ghost use Rattle.clos_meaning.specs.Bodies.{scoped};
ghost use Rattle.clos_meaning.specs.clos_world.World.{State};
ghost use Rattle.clos_meaning.specs.clos_world.declared.condition.Stop.TheVariants.{Storage};
ghost use Rattle.clos_meaning.specs.GenericCalls.{invoked};
ghost use Rattle.clos_machine.specs.Machine.{apart, call_growth, Does, ends_body, given_to, Leads, Grows, at, inside, below, after, weight_of, acted, action_weight, collect_weight, invoke_weight, value_weight};
ghost use Rattle.clos_machine.specs.declared.machine.Frame.TheVariants.{Body};
ghost use Rattle.clos_meaning.specs.Meaning.{collect, meaning};
ghost use Rattle.clos_meaning.specs.Outcome.{Run, Gave, then_do};

use crate::locals::Locals;
use crate::machine::{Action, Doing, Frame, Level, Levels, Machine, none_left};
use clos_forms::{Form, Forms};
use clos_meaning::{Context, Stop, SystemFunction, Values};
use lisp_data::Value;
use std::alloc::{AllocError, Global};
use std::mem;

/// An action is not done, since memory was refused. A function of its own: each way out that drops an action is proved
/// variant by variant.
pub fn give_up(action: Action, values: Values) -> Stop
    ensures { result ≡ Storage }
{
    drop(action);
    drop(values);
    Stop::Storage
}

/// Copies of the first of these forms and of the others.
pub fn split(forms: &Forms) -> Result<Option<(Form, Forms)>, AllocError>
    ensures { IfOk result (λ r. MatchOption r (forms.now ≡ nil) (λ p. forms.now ≡ cons p.0 p.1)) }
{
    match forms.split_first() {
        None => Ok(None),
        Some((first, others)) => {
            let first = first.copy()?;
            Ok(Some((first, others.copy()?)))
        }
    }
}

/// What comes next is done in this context and with no variables; the machine's come back after it.
pub fn set_apart(alloc: Global, machine: &mut Machine, context: Context) -> Result<(), AllocError>
    ensures { IfOk result (λ u. machine.new ≡ apart machine.old context) }
{
    let saved = mem::replace(&mut machine.context, context);
    let outer = mem::replace(&mut machine.locals, Locals::new(alloc));
    let frame = Frame::Body(Forms::new(), saved, outer);
    let room = machine.room;
    machine.levels.push(Level { frame, room })
}

/// Evaluates this next in this context and with these variables; the machine's come back after it. In tail position they do
/// not: those of the caller of the body that ends there do.
pub fn enter(
    machine: &mut Machine,
    context: Context,
    locals: Locals,
    next: Form,
) -> Result<Doing, Stop>
    ensures leads { Does (λ ev env. scoped (meaning machine.old.room context next) locals) machine.old result machine.new }
    ensures small { Grows call_growth machine.old.levels result machine.new }
{
    if machine.levels.ends_body() {
        return Ok(enter_last(machine, context, locals, next));
    }
    let saved = mem::replace(&mut machine.context, context);
    let outer = mem::replace(&mut machine.locals, locals);
    begin_body(machine, next, Forms::new(), saved, outer)
}

/// The same in tail position.
#[tactic(auto, using(crate::proofs::Tails::entered_last))]
fn enter_last(machine: &mut Machine, context: Context, locals: Locals, last: Form) -> Doing
    requires { ends_body machine.old.levels ≡ true }
    ensures leads { Does (λ ev env. scoped (meaning machine.old.room context last) locals) machine.old (Ok result)
        machine.new }
    ensures small { Grows call_growth machine.old.levels (Ok result) machine.new }
{
    machine.context = context;
    machine.locals = locals;
    Doing::Start(last)
}

/// Evaluates a form of a body next, which these forms follow; then this context and these variables come back.
#[tactic(auto, using(crate::proofs::Tails::begun_last, crate::proofs::Turns::then_then))]
pub fn begin_body(
    machine: &mut Machine,
    next: Form,
    rest: Forms,
    saved: Context,
    outer: Locals,
) -> Result<Doing, Stop>
    ensures leads { (v : Val) (w : State) → Leads (given_to machine.old (Body (cons next rest) saved outer) v) w result
        machine.new }
    ensures small { Grows call_growth machine.old.levels result machine.new }
{
    if none_left(&rest) && machine.levels.ends_body() {
        return Ok(Doing::Start(next));
    }
    let room = machine.room;
    let frame = Frame::Body(rest, saved, outer);
    machine.levels.push(Level { frame, room })?;
    Ok(Doing::Start(next))
}

/// Evaluates this next, and then does what the frame does with its value.
pub fn begin(machine: &mut Machine, next: Form, frame: Frame) -> Result<Doing, Stop>
    ensures leads { (run : Run) (w : State) → below machine.old.context frame ≡ machine.old.context
        → ((t : ℕ) → then_do (meaning machine.old.room machine.old.context next (at machine.old w) t) (after (meaning
        machine.old.room) machine.old.context frame) ≡ run (at machine.old w) t)
        → Leads (inside machine.old run) w result machine.new }
    ensures small { Grows (weight_of frame) machine.old.levels result machine.new }
{
    let room = machine.room;
    machine.levels.push(Level { frame, room })?;
    Ok(Doing::Start(next))
}

/// Two levels of this room: the frame, and the outer one under it.
fn push_both(levels: &mut Levels, frame: Frame, outer: Frame, room: u64) -> Result<(), AllocError>
    ensures { OnOk result (levels.new ≡ record { frame = frame; room = room } ∷ record { frame = outer; room = room } ∷
        levels.old) }
{
    let Ok(()) = levels.push(Level { frame: outer, room }) else {
        drop(frame);
        return Err(AllocError);
    };
    levels.push(Level { frame, room })
}

/// The same, and after the frame what another does with its value.
pub fn begin_under(
    machine: &mut Machine,
    next: Form,
    frame: Frame,
    outer: Frame,
) -> Result<Doing, Stop>
    ensures leads { (run : Run) (w : State) → below machine.old.context frame ≡ machine.old.context
        → below machine.old.context outer ≡ machine.old.context
        → ((t : ℕ) → then_do (then_do (meaning machine.old.room machine.old.context next (at machine.old w) t) (after
        (meaning machine.old.room) machine.old.context frame)) (after (meaning machine.old.room) machine.old.context
        outer) ≡ run (at machine.old w) t) → Leads (inside machine.old run) w result machine.new }
    ensures small { Grows (weight_of frame + weight_of outer) machine.old.levels result machine.new }
{
    let room = machine.room;
    let Ok(()) = push_both(&mut machine.levels, frame, outer, room) else {
        drop(next);
        return Err(Stop::Storage);
    };
    Ok(Doing::Start(next))
}

/// Does this action with the values next, and then what the frame does with its value.
pub fn act_under(
    machine: &mut Machine,
    action: Action,
    values: Values,
    frame: Frame,
) -> Result<Doing, Stop>
    ensures leads { (run : Run) (w : State) → below machine.old.context frame ≡ machine.old.context
        → ((t : ℕ) → then_do (acted (meaning machine.old.room) machine.old.context action values (at machine.old w) t)
        (after (meaning machine.old.room) machine.old.context frame) ≡ run (at machine.old w) t)
        → Leads (inside machine.old run) w result machine.new }
    ensures small { Grows (weight_of frame + action_weight action) machine.old.levels result machine.new }
{
    let room = machine.room;
    let Ok(()) = machine.levels.push(Level { frame, room }) else {
        return Err(give_up(action, values));
    };
    Ok(Doing::Act(action, values))
}

/// Calls this generic function of the system next, and then does what the frame does with its value.
pub fn invoke_under(
    machine: &mut Machine,
    function: SystemFunction,
    arguments: Values,
    frame: Frame,
) -> Result<Doing, Stop>
    ensures leads { (run : Run) (w : State) → below machine.old.context frame ≡ machine.old.context
        → ((t : ℕ) → then_do (invoked (meaning machine.old.room) function arguments (at machine.old w) t) (after
        (meaning machine.old.room) machine.old.context frame) ≡ run (at machine.old w) t)
        → Leads (inside machine.old run) w result machine.new }
    ensures small { Grows (weight_of frame + invoke_weight) machine.old.levels result machine.new }
{
    let room = machine.room;
    machine.levels.push(Level { frame, room })?;
    Ok(Doing::Invoke(function, arguments))
}

/// Gives this value.
pub fn done(machine: &Machine, value: Value) -> Doing
    ensures leads { (run : Run) (w : State) → ((t : ℕ) → run (at machine.now w) t ≡ Gave (value_of value)
        (at machine.now w) t) → Leads (inside machine.now run) w (Ok result) machine.now }
    ensures small { Grows value_weight machine.now.levels (Ok result) machine.now }
{
    let _ = machine;
    Doing::Give(value)
}

/// Evaluates this next, whose value is the machine's.
pub fn turn_to(machine: &Machine, next: Form) -> Doing
    ensures leads { (run : Run) (w : State) → ((t : ℕ) → meaning machine.now.room machine.now.context next
        (at machine.now w) t ≡ run (at machine.now w) t) → Leads (inside machine.now run) w (Ok result) machine.now }
    ensures small { Grows value_weight machine.now.levels (Ok result) machine.now }
{
    let _ = machine;
    Doing::Start(next)
}

/// An action is done with these values and those of these forms.
pub fn collect_next(
    machine: &mut Machine,
    action: Action,
    forms: &Forms,
    values: Values,
) -> Result<Doing, Stop>
    ensures leads { (run : Run) (w : State) → ((t : ℕ) → collect (meaning machine.old.room) machine.old.context
        forms.now values (acted (meaning machine.old.room) machine.old.context action) (at machine.old w) t ≡ run
        (at machine.old w) t) → Leads (inside machine.old run) w result machine.new }
    ensures small { Grows (collect_weight action) machine.old.levels result machine.new }
{
    let _ = machine;
    let Ok(forms) = forms.copy() else {
        return Err(give_up(action, values));
    };
    Ok(Doing::Collect(action, forms, values))
}
