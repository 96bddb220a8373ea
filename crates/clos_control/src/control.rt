//! Forms one after another, and conditionals (HyperSpec 5.3).
ghost use Rattle.std.specs.Prelude.{◌≡◌};
ghost use Rattle.lisp_data.specs.Value.{Val};
ghost use Rattle.lisp_data.specs.ValueView.{value_of};
ghost use Rattle.clos_forms.specs.Form.{Forms, cons};
ghost use Rattle.clos_machine.specs.clos_meaning.Control.{branch, keeping, clauses, clause, tested};
ghost use Rattle.clos_machine.specs.Machine.{Grows, followed, going, value_weight, Does};

use clos_forms::{Form, Forms};
use clos_machine::Stop;
use clos_machine::machine::{Control, Doing, Frame, Machine, none_left};
use clos_machine::moves::{begin, done, split, turn_to};
use clos_machine::truth::{is_true, nil};
use lisp_data::Value;

/// The next of these forms, or this value where there is none.
pub fn go_on(
    machine: &mut Machine,
    control: Control,
    forms: &Forms,
    value: Value,
) -> Result<Doing, Stop>
    ensures leads { Does (λ ev env. going ev env control forms.now (value_of value)) machine.old result machine.new }
    ensures small { Grows value_weight machine.old.levels result machine.new }
{
    match split(forms)? {
        None => Ok(done(machine, value)),
        Some((first, rest)) => {
            drop(value);
            go_on_with(machine, control, first, rest)
        }
    }
}

/// Evaluates the next of some forms. The last of them needs no level where its value is given as it is.
#[tactic(auto, using(clos_machine::proofs::Tails::last_alone))]
fn go_on_with(
    machine: &mut Machine,
    control: Control,
    first: Form,
    rest: Forms,
) -> Result<Doing, Stop>
    ensures leads { (fs : Forms) (v : Val) → fs ≡ cons first rest → Does (λ ev env. going ev env control fs v) machine.old
        result machine.new }
    ensures small { Grows value_weight machine.old.levels result machine.new }
{
    if control.gives_last() && none_left(&rest) {
        return Ok(turn_to(machine, first));
    }
    begin(machine, first, Frame::Rest(control, rest))
}

/// What follows the value of a form, with these forms left.
#[tactic(auto, using(clos_machine::proofs::Turns::going_progn, clos_machine::proofs::Turns::going_and, clos_machine::proofs::Turns::going_or))]
pub fn follow(
    machine: &mut Machine,
    control: Control,
    rest: &Forms,
    value: Value,
) -> Result<Doing, Stop>
    ensures leads { Does (λ ev env. followed ev env control rest.now (value_of value)) machine.old result machine.new }
    ensures small { Grows value_weight machine.old.levels result machine.new }
{
    match control {
        Control::Progn => go_on(machine, Control::Progn, rest, value),
        Control::Prog1 => keep(machine, rest, value),
        Control::If => branch(machine, is_true(&value), rest),
        Control::When => {
            if is_true(&value) {
                return go_on(machine, Control::Progn, rest, nil());
            }
            Ok(done(machine, nil()))
        }
        Control::Unless => {
            if is_true(&value) {
                return Ok(done(machine, nil()));
            }
            go_on(machine, Control::Progn, rest, nil())
        }
        Control::And => {
            if is_true(&value) {
                return go_on(machine, Control::And, rest, value);
            }
            Ok(done(machine, value))
        }
        Control::Or => {
            if is_true(&value) {
                return Ok(done(machine, value));
            }
            go_on(machine, Control::Or, rest, value)
        }
    }
}

/// Of an if form, the form where its test holds, or the one where it does not.
#[tactic(auto, using(clos_machine::proofs::Turns::going_progn))]
fn branch(machine: &mut Machine, holds: bool, forms: &Forms) -> Result<Doing, Stop>
    ensures leads { Does (λ ev env. branch ev env holds forms.now) machine.old result machine.new }
    ensures small { Grows value_weight machine.old.levels result machine.new }
{
    match forms.split_first() {
        None => Ok(done(machine, nil())),
        Some((first, others)) => {
            if holds {
                return Ok(turn_to(machine, first.copy()?));
            }
            go_on(machine, Control::Progn, others, nil())
        }
    }
}

/// This value, after these forms.
pub fn keep(machine: &mut Machine, forms: &Forms, value: Value) -> Result<Doing, Stop>
    ensures leads { Does (λ ev env. keeping ev env forms.now (value_of value)) machine.old result machine.new }
    ensures small { Grows value_weight machine.old.levels result machine.new }
{
    match split(forms)? {
        None => Ok(done(machine, value)),
        Some((first, rest)) => begin(machine, first, Frame::Keep(rest, value)),
    }
}

/// The next clause of a cond form, or NIL.
pub fn next_clause(machine: &mut Machine, forms: &Forms) -> Result<Doing, Stop>
    ensures leads { Does (λ ev env. clauses ev env forms.now) machine.old result machine.new }
    ensures small { Grows value_weight machine.old.levels result machine.new }
{
    match forms.split_first() {
        None => Ok(done(machine, nil())),
        Some((first, others)) => test_clause(machine, first.parts(), others),
    }
}

/// The test of a clause, before these clauses.
fn test_clause(machine: &mut Machine, forms: &Forms, others: &Forms) -> Result<Doing, Stop>
    ensures leads { Does (λ ev env. clause ev env forms.now (clauses ev env others.now)) machine.old result machine.new }
    ensures small { Grows value_weight machine.old.levels result machine.new }
{
    match split(forms)? {
        None => Ok(done(machine, nil())),
        Some((test, body)) => {
            let others = others.copy()?;
            begin(machine, test, Frame::Clause(body, others))
        }
    }
}

/// A clause whose test has this value, or the next one.
#[tactic(auto, using(clos_machine::proofs::Turns::going_progn))]
pub fn clause_tested(
    machine: &mut Machine,
    forms: &Forms,
    others: &Forms,
    value: Value,
) -> Result<Doing, Stop>
    ensures leads { Does (λ ev env. tested ev env forms.now (clauses ev env others.now) (value_of value)) machine.old
        result machine.new }
    ensures small { Grows value_weight machine.old.levels result machine.new }
{
    if is_true(&value) {
        return go_on(machine, Control::Progn, forms, value);
    }
    next_clause(machine, others)
}
