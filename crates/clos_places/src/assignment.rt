//! Assignment (HyperSpec 5.3 `setq`, `setf`, 12.2 `incf`, `decf`).
ghost use Rattle.std.specs.Prelude.{◌≡◌, ◌∷◌, [], ℕ, ◌+◌, ◌≤◌, drop, MatchOption, option_map, Some};
ghost use Rattle.lisp_data.specs.Value.{Val};
ghost use Rattle.lisp_data.specs.ValueView.{value_of};
ghost use Rattle.lisp_prims.specs.Primitive.{answer};
ghost use Rattle.clos_forms.specs.Form.{operator_in, parts_in, cons, nil};
ghost use Rattle.clos_forms.specs.OperatorView.{operator_of, place_of};
ghost use Rattle.clos_machine.specs.clos_world.Values.{only_value};
ghost use Rattle.clos_machine.specs.clos_world.Uses.{uses_of};
ghost use Rattle.clos_machine.specs.clos_world.World.{State, seen};
ghost use Rattle.clos_machine.specs.clos_meaning.Assignment.{stored, stored_globally, stored_only, made_of, changed, changed_only};
ghost use Rattle.clos_machine.specs.clos_meaning.Fault.{answered};
ghost use Rattle.clos_machine.specs.Machine.{access_of, Leads, Turns, Grows, Becomes, at, inside, targets, acted, collected, act_weight, collect_weight, form_growth, value_weight, waiting_weight, here, Does, follow_growth};
ghost use Rattle.clos_machine.specs.clos_meaning.Meaning.{meaning, alone, setq, setf, assigned, with_amount, changed_from, set_place, changing, changed_by, place_in, collect, place_changed_by};
ghost use Rattle.clos_machine.specs.clos_meaning.Outcome.{Run, then_do};
ghost use Rattle.clos_machine.specs.declared.machine.Action.TheVariants.{Amount, NewValue, Store};

use clos_forms::{Form, Forms, Operator, Place};
use clos_machine::fault::of_function;
use clos_machine::machine::{Action, Doing, Frame, Machine, Target};
use clos_machine::moves::{act_under, begin_under, collect_next, done, give_up};
use clos_machine::names::value_of_variable;
use clos_machine::{ConditionKind, Stop, Values, World, about_name, plain};
use lisp_data::{Name, Value};
use lisp_prims::{Primitive, apply};
use std::alloc::Global;

/// The variable of a `setq` form at this place, and the next place.
fn target(form: &Form, place: usize) -> Option<(&Name, usize)>
    ensures { MatchOption result (drop place (targets (operator_in form.now)) ≡ [])
        (λ p. drop place (targets (operator_in form.now)) ≡ p.0.now ∷ drop p.1 (targets (operator_in form.now))) }
{
    match form.operator() {
        Operator::Setq(names) => next_of(names.as_slice(), place),
        _ => None,
    }
}

fn next_of(names: &[Name], place: usize) -> Option<(&Name, usize)>
    ensures { MatchOption result (drop place names.now ≡ []) (λ p. drop place names.now ≡ p.0.now ∷ drop p.1 names.now) }
{
    if place >= names.len() {
        return None;
    }
    Some((&names[place], place + 1))
}

/// The next variable of a `setq` form gets its value.
#[tactic(auto, using(clos_machine::proofs::Turns::grows_more))]
pub fn set_next(
    alloc: Global,
    machine: &mut Machine,
    form: &Form,
    place: usize,
    forms: &Forms,
    value: Value,
) -> Result<Doing, Stop>
    ensures leads { Does (λ ev env. setq ev env (drop place (targets (operator_in form.now))) forms.now
        (value_of value)) machine.old result machine.new }
    ensures small { Grows (follow_growth + waiting_weight) machine.old.levels result machine.new }
{
    match target(form, place) {
        None => Ok(done(machine, value)),
        Some((name, next)) => set_target(alloc, machine, form, name, next, forms),
    }
}

/// This variable of a `setq` form gets its value.
#[tactic(auto, using(clos_machine::proofs::Turns::grows_more, clos_machine::proofs::Turns::stopped_through, clos_machine::proofs::Turns::then_then))]
fn set_target(
    alloc: Global,
    machine: &mut Machine,
    form: &Form,
    name: &Name,
    next: usize,
    forms: &Forms,
) -> Result<Doing, Stop>
    ensures leads { (run : Run) (w : State) (v : Val) → ((t : ℕ) → setq (meaning machine.old.room) machine.old.context
        (name.now ∷ drop next (targets (operator_in form.now))) forms.now v (at machine.old w) t ≡ run
        (at machine.old w) t) → Leads (inside machine.old run) w result machine.new }
    ensures small { Grows (follow_growth + waiting_weight) machine.old.levels result machine.new }
{
    match forms.split_first() {
        None => Err(Stop::Refused(plain(alloc, ConditionKind::ProgramError))),
        Some((first, others)) => {
            let value = first.copy()?;
            let name = name.copy()?;
            let form = form.copy()?;
            let others = others.copy()?;
            let action = Action::Store(name);
            let frame = Frame::Collect(action, Forms::new(), Values::new(alloc));
            let outer = Frame::Setq(form, next, others);
            begin_under(machine, value, frame, outer)
        }
    }
}

/// The next place of a `setf` form gets its value.
#[tactic(auto, using(clos_machine::proofs::Turns::grows_more))]
pub fn set_next_place(
    alloc: Global,
    machine: &mut Machine,
    forms: &Forms,
    value: Value,
) -> Result<Doing, Stop>
    ensures leads { Does (λ ev env. setf ev env forms.now (value_of value)) machine.old result machine.new }
    ensures small { Grows (follow_growth + waiting_weight) machine.old.levels result machine.new }
{
    match forms.split_first() {
        None => Ok(done(machine, value)),
        Some((place, rest)) => set_pair(alloc, machine, place, rest),
    }
}

/// A place gets the value of the first of these forms, and then the next place its own.
#[tactic(auto, using(clos_machine::proofs::Turns::stopped_through))]
fn set_pair(alloc: Global, machine: &mut Machine, place: &Form, rest: &Forms) -> Result<Doing, Stop>
    ensures leads { (run : Run) (w : State) (v : Val) → ((t : ℕ) → setf (meaning machine.old.room) machine.old.context
        (cons place.now rest.now) v (at machine.old w) t ≡ run (at machine.old w) t) → Leads (inside machine.old run) w
        result machine.new }
    ensures small { Grows (follow_growth + waiting_weight) machine.old.levels result machine.new }
{
    match rest.split_first() {
        None => Err(Stop::Refused(plain(alloc, ConditionKind::ProgramError))),
        Some((form, others)) => set_place(alloc, machine, place, form, others),
    }
}

/// The place that an operator stands for.
fn place_named(operator: &Operator) -> Option<&Place>
    ensures { option_map (λ p. place_of p.now) result ≡ place_in (operator_of operator.now) }
{
    match operator {
        Operator::Place(place) => Some(place),
        _ => None,
    }
}

/// A place gets the value of a form; then the next one of these.
#[tactic(auto, using(clos_machine::proofs::Turns::stopped_through))]
fn set_place(
    alloc: Global,
    machine: &mut Machine,
    place: &Form,
    form: &Form,
    others: &Forms,
) -> Result<Doing, Stop>
    ensures leads { Does (λ ev env u k. then_do (assigned ev env (place_in (operator_in place.now)) (parts_in place.now)
        form.now u k) (λ u. setf ev env others.now u)) machine.old result machine.new }
    ensures small { Grows (follow_growth + waiting_weight) machine.old.levels result machine.new }
{
    match place_named(place.operator()) {
        None => Err(Stop::Refused(plain(alloc, ConditionKind::ProgramError))),
        Some(named) => set_to(alloc, machine, named, place.parts(), form, others),
    }
}

#[tactic(auto, using(clos_machine::proofs::Turns::stopped_through))]
fn set_to(
    alloc: Global,
    machine: &mut Machine,
    place: &Place,
    parts: &Forms,
    form: &Form,
    others: &Forms,
) -> Result<Doing, Stop>
    ensures leads { Does (λ ev env u k. then_do (assigned ev env (Some (place_of place.now)) parts.now form.now u k)
        (λ u. setf ev env others.now u)) machine.old result machine.new }
    ensures small { Grows (follow_growth + waiting_weight) machine.old.levels result machine.new }
{
    match place {
        Place::Variable(name) => set_variable(alloc, machine, name, form, others),
        Place::SlotValue => set_through(alloc, machine, Target::SlotValue, parts, form, others),
        Place::Call(name) => {
            let target = Target::Call(name.copy()?);
            set_through(alloc, machine, target, parts, form, others)
        }
    }
}

/// A variable gets the value of a form; then the next one of these places its own.
#[tactic(auto, using(clos_machine::proofs::Turns::grows_more, clos_machine::proofs::Turns::then_then))]
fn set_variable(
    alloc: Global,
    machine: &mut Machine,
    name: &Name,
    form: &Form,
    others: &Forms,
) -> Result<Doing, Stop>
    ensures leads { Does (λ ev env u k. then_do (collected ev env (alone form.now) (Store name.now) u k)
        (λ u. setf ev env others.now u)) machine.old result machine.new }
    ensures small { Grows (follow_growth + waiting_weight) machine.old.levels result machine.new }
{
    let value = form.copy()?;
    let name = name.copy()?;
    let others = others.copy()?;
    let inner = Frame::Collect(Action::Store(name), Forms::new(), Values::new(alloc));
    begin_under(machine, value, inner, Frame::Setf(others))
}

/// A place with arguments gets the value of a form, which comes after them; then the next one of these places its own.
fn set_through(
    alloc: Global,
    machine: &mut Machine,
    target: Target,
    parts: &Forms,
    form: &Form,
    others: &Forms,
) -> Result<Doing, Stop>
    ensures leads { Does (λ ev env u k. then_do (collected ev env parts.now (NewValue target form.now) u k)
        (λ u. setf ev env others.now u)) machine.old result machine.new }
    ensures small { Grows (follow_growth + waiting_weight) machine.old.levels result machine.new }
{
    match parts.split_first() {
        None => set_alone(alloc, machine, target, form, others),
        Some((first, rest)) => set_after(alloc, machine, target, first, rest, form, others),
    }
}

#[tactic(auto, using(clos_machine::proofs::Turns::grows_more, clos_machine::proofs::Turns::then_then))]
fn set_alone(
    alloc: Global,
    machine: &mut Machine,
    target: Target,
    form: &Form,
    others: &Forms,
) -> Result<Doing, Stop>
    ensures leads { Does (λ ev env u k. then_do (collected ev env nil (NewValue target form.now) u k)
        (λ u. setf ev env others.now u)) machine.old result machine.new }
    ensures small { Grows (follow_growth + waiting_weight) machine.old.levels result machine.new }
{
    let value = form.copy()?;
    let others = others.copy()?;
    let inner = Frame::Collect(Action::Set(target), Forms::new(), Values::new(alloc));
    begin_under(machine, value, inner, Frame::Setf(others))
}

fn set_after(
    alloc: Global,
    machine: &mut Machine,
    target: Target,
    first: &Form,
    rest: &Forms,
    form: &Form,
    others: &Forms,
) -> Result<Doing, Stop>
    ensures leads { Does (λ ev env u k. then_do (collected ev env (cons first.now rest.now) (NewValue target form.now) u
        k) (λ u. setf ev env others.now u)) machine.old result machine.new }
    ensures small { Grows (follow_growth + waiting_weight) machine.old.levels result machine.new }
{
    let form = form.copy()?;
    set_by(alloc, machine, target, form, first, rest, others)
}

#[tactic(auto, using(clos_machine::proofs::Turns::grows_more))]
fn set_by(
    alloc: Global,
    machine: &mut Machine,
    target: Target,
    form: Form,
    first: &Form,
    rest: &Forms,
    others: &Forms,
) -> Result<Doing, Stop>
    ensures leads { Does (λ ev env u k. then_do (collected ev env (cons first.now rest.now) (NewValue target form) u k)
        (λ u. setf ev env others.now u)) machine.old result machine.new }
    ensures small { Grows (follow_growth + waiting_weight) machine.old.levels result machine.new }
{
    let next = first.copy()?;
    let others = others.copy()?;
    let rest = rest.copy()?;
    let inner = Frame::Collect(Action::NewValue(target, form), rest, Values::new(alloc));
    begin_under(machine, next, inner, Frame::Setf(others))
}

/// A place is changed by an amount.
#[tactic(auto, using(clos_machine::proofs::Turns::stopped_through))]
pub fn change(
    alloc: Global,
    machine: &mut Machine,
    primitive: Primitive,
    parts: &Forms,
) -> Result<Doing, Stop>
    ensures leads { Does (λ ev env. changing ev env primitive parts.now) machine.old result machine.new }
    ensures small { Grows form_growth machine.old.levels result machine.new }
{
    match parts.split_first() {
        None => Err(Stop::Refused(plain(alloc, ConditionKind::ProgramError))),
        Some((place, amount)) => {
            change_place(
                alloc,
                machine,
                primitive,
                place.operator(),
                place.parts(),
                amount,
            )
        }
    }
}

#[tactic(auto, using(clos_machine::proofs::Turns::stopped_through))]
fn change_place(
    alloc: Global,
    machine: &mut Machine,
    primitive: Primitive,
    operator: &Operator,
    parts: &Forms,
    amount: &Forms,
) -> Result<Doing, Stop>
    ensures leads { Does (λ ev env. changed_by ev env primitive (place_in (operator_of operator.now)) parts.now
        amount.now) machine.old result machine.new }
    ensures small { Grows form_growth machine.old.levels result machine.new }
{
    match place_named(operator) {
        None => Err(Stop::Refused(plain(alloc, ConditionKind::ProgramError))),
        Some(place) => change_named(alloc, machine, primitive, place, parts, amount),
    }
}

#[tactic(auto, using(clos_machine::proofs::Turns::stopped_through))]
fn change_named(
    alloc: Global,
    machine: &mut Machine,
    primitive: Primitive,
    place: &Place,
    parts: &Forms,
    amount: &Forms,
) -> Result<Doing, Stop>
    ensures leads { Does (λ ev env. changed_by ev env primitive (Some (place_of place.now)) parts.now amount.now)
        machine.old result machine.new }
    ensures small { Grows form_growth machine.old.levels result machine.new }
{
    match place {
        Place::Variable(name) => {
            let action = Action::Change(primitive, name.copy()?);
            with_amount(machine, action, amount, Values::new(alloc))
        }
        Place::SlotValue => {
            change_through(alloc, machine, primitive, Target::SlotValue, parts, amount)
        }
        Place::Call(name) => {
            let target = Target::Call(name.copy()?);
            change_through(alloc, machine, primitive, target, parts, amount)
        }
    }
}

/// A place with arguments is changed by an amount, which comes after them.
fn change_through(
    alloc: Global,
    machine: &mut Machine,
    primitive: Primitive,
    target: Target,
    parts: &Forms,
    amount: &Forms,
) -> Result<Doing, Stop>
    ensures leads { Does (λ ev env. collect ev env parts.now [] (place_changed_by ev env primitive (access_of target) amount.now)) machine.old result
        machine.new }
    ensures small { Grows form_growth machine.old.levels result machine.new }
{
    let Ok(target) = Box::new(alloc, target) else {
        return Err(Stop::Storage);
    };
    let action = Action::Amount(primitive, target, amount.copy()?);
    collect_next(machine, action, parts, Values::new(alloc))
}

/// An action is done with these values and the amount, which is 1 where none is written.
pub fn with_amount(
    machine: &mut Machine,
    action: Action,
    amount: &Forms,
    mut values: Values,
) -> Result<Doing, Stop>
    ensures leads { Does (λ ev env. with_amount ev env amount.now values (acted ev env action)) machine.old result
        machine.new }
    ensures small { Grows (collect_weight action) machine.old.levels result machine.new }
{
    match amount.split_first() {
        None => {
            let Ok(()) = values.push(Value::Int(1)) else {
                return Err(give_up(action, values));
            };
            Ok(Doing::Act(action, values))
        }
        Some(_) => collect_next(machine, action, amount, values),
    }
}

/// A place's value is there, which is changed by this amount.
pub fn change_from(
    alloc: Global,
    machine: &mut Machine,
    primitive: Primitive,
    target: Target,
    values: Values,
    amount: Value,
    old: Value,
) -> Result<Doing, Stop>
    ensures leads { (w : State) → Leads (here machine.old (λ ev env. changed_from ev env primitive (access_of target)
        values (value_of amount) (value_of old))) w result machine.new }
    ensures small { Grows (waiting_weight + act_weight) machine.old.levels result machine.new }
{
    let made = combine(alloc, primitive, &old, &amount);
    drop(old);
    drop(amount);
    match made {
        Ok(value) => set_changed(machine, target, values, value),
        Err(stop) => Err(stop),
    }
}

/// A place with these arguments is set to the new value, which is given in the end.
fn set_changed(
    machine: &mut Machine,
    target: Target,
    mut values: Values,
    value: Value,
) -> Result<Doing, Stop>
    ensures leads { (w : State) → Leads (here machine.old (λ ev env. set_place ev env (access_of target) values
        (value_of value))) w result machine.new }
    ensures small { Grows (waiting_weight + act_weight) machine.old.levels result machine.new }
{
    let given = value.copy()?;
    values.push(value)?;
    let frame = Frame::Keep(Forms::new(), given);
    act_under(machine, Action::Set(target), values, frame)
}

/// The value goes to the variable of this name.
fn store(
    alloc: Global,
    machine: &mut Machine,
    world: &mut World,
    name: &Name,
    value: Value,
    steps: &mut u64,
) -> Result<Doing, Stop>
    ensures turns { Turns (inside machine.old (stored name.now (value_of value))) (seen world.old) steps.old result
        machine.new (seen world.new) steps.new }
    ensures small { Grows value_weight machine.old.levels result machine.new }
    ensures fewer { steps.new ≤ steps.old }
    ensures kept { uses_of world.new ≡ uses_of world.old }
{
    let given = value.copy()?;
    match machine.locals.set(name, value) {
        None => Ok(Doing::Give(given)),
        Some(value) => store_globally(alloc, machine, world, name, value, given, steps),
    }
}

/// The value goes to the global variable of this name, which takes a step.
fn store_globally(
    alloc: Global,
    machine: &Machine,
    world: &mut World,
    name: &Name,
    value: Value,
    given: Value,
    steps: &mut u64,
) -> Result<Doing, Stop>
    requires { value_of given ≡ value_of value }
    ensures turns { Turns (inside machine.now (stored_globally name.now (value_of value))) (seen world.old) steps.old
        result machine.now (seen world.new) steps.new }
    ensures small { Grows value_weight machine.now.levels result machine.now }
    ensures fewer { steps.new ≤ steps.old }
    ensures kept { uses_of world.new ≡ uses_of world.old }
{
    let _ = machine;
    if !world.globals.has(name) {
        let condition = about_name(alloc, ConditionKind::UnboundVariable, name)?;
        return Err(Stop::Refused(condition));
    }
    if *steps == 0 {
        return Err(Stop::Refused(plain(alloc, ConditionKind::StepLimit)));
    }
    let name = name.copy()?;
    let Ok(()) = world.globals.set(name, Some(value)) else {
        return Err(Stop::Storage);
    };
    *steps -= 1;
    Ok(Doing::Give(given))
}

/// The one value goes to the variable of this name.
pub fn store_only(
    alloc: Global,
    machine: &mut Machine,
    world: &mut World,
    name: &Name,
    values: &Values,
    steps: &mut u64,
) -> Result<Doing, Stop>
    ensures turns { Turns (inside machine.old (stored_only name.now (only_value values.now))) (seen world.old) steps.old
        result machine.new (seen world.new) steps.new }
    ensures small { Grows value_weight machine.old.levels result machine.new }
    ensures fewer { steps.new ≤ steps.old }
    ensures kept { uses_of world.new ≡ uses_of world.old }
{
    match values.only() {
        None => Err(Stop::Refused(plain(alloc, ConditionKind::ProgramError))),
        Some(value) => store(alloc, machine, world, name, value.copy()?, steps),
    }
}

/// What the function makes of a variable's value and of this one goes to the variable.
pub fn change_only(
    alloc: Global,
    machine: &mut Machine,
    world: &mut World,
    primitive: Primitive,
    name: &Name,
    values: &Values,
    steps: &mut u64,
) -> Result<Doing, Stop>
    ensures turns { Turns (inside machine.old (changed_only primitive name.now (only_value values.now)))
        (seen world.old) steps.old result machine.new (seen world.new) steps.new }
    ensures small { Grows value_weight machine.old.levels result machine.new }
    ensures fewer { steps.new ≤ steps.old }
    ensures kept { uses_of world.new ≡ uses_of world.old }
{
    match values.only() {
        None => Err(Stop::Refused(plain(alloc, ConditionKind::ProgramError))),
        Some(amount) => change_by_value(alloc, machine, world, primitive, name, amount, steps),
    }
}

fn change_by_value(
    alloc: Global,
    machine: &mut Machine,
    world: &mut World,
    primitive: Primitive,
    name: &Name,
    amount: &Value,
    steps: &mut u64,
) -> Result<Doing, Stop>
    ensures turns { Turns (inside machine.old (changed primitive name.now (value_of amount.now))) (seen world.old)
        steps.old result machine.new (seen world.new) steps.new }
    ensures small { Grows value_weight machine.old.levels result machine.new }
    ensures fewer { steps.new ≤ steps.old }
    ensures kept { uses_of world.new ≡ uses_of world.old }
{
    match new_value_of(alloc, machine, world, primitive, name, amount) {
        Ok(value) => store(alloc, machine, world, name, value, steps),
        Err(stop) => Err(stop),
    }
}

/// What the function makes of a variable's value and of this one.
fn new_value_of(
    alloc: Global,
    machine: &Machine,
    world: &World,
    primitive: Primitive,
    name: &Name,
    amount: &Value,
) -> Result<Value, Stop>
    ensures { Becomes (made_of primitive name.now (value_of amount.now)) (at machine.now (seen world.now)) result }
{
    match value_of_variable(machine, world, name) {
        None => {
            let condition = about_name(alloc, ConditionKind::UnboundVariable, name)?;
            Err(Stop::Refused(condition))
        }
        Some(old) => combine(alloc, primitive, old, amount),
    }
}

/// What the function makes of these values.
fn combine(alloc: Global, primitive: Primitive, old: &Value, amount: &Value) -> Result<Value, Stop>
    ensures { (w : State) → Becomes (answered (answer primitive (value_of old.now ∷ value_of amount.now ∷ []))) w result }
{
    let mut values = Values::new(alloc);
    values.push(old.copy()?)?;
    values.push(amount.copy()?)?;
    match apply(primitive, alloc, values.as_slice()) {
        Ok(value) => Ok(value),
        Err(fault) => Err(of_function(alloc, fault)),
    }
}
