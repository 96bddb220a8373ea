//! Forms begin: by their operators, with their parts.
ghost use Rattle.std.specs.Prelude.{◌≡◌, ◌<◌, OnOk};
ghost use Rattle.clos_forms.specs.Form.{operator_in};
ghost use Rattle.clos_forms.specs.OperatorView.{operator_of};
ghost use Rattle.clos_machine.specs.clos_world.World.{seen};
ghost use Rattle.clos_machine.specs.Machine.{denote, form_growth, Grows, Leads, Turns, here};
ghost use Rattle.clos_machine.specs.clos_meaning.Meaning.{body, operated};
ghost use Rattle.clos_machine.specs.declared.machine.Doing.TheVariants.{Start};

use clos_control::binding::{start_let, start_let_in_order, start_loop};
use clos_control::control::{go_on, next_clause};
use clos_control::slot_names::{read_name, start_slots};
use clos_forms::{Form, Forms, Operator};
use clos_machine::machine::{Control, Doing, Machine};
use clos_machine::truth::{nil, t};
use clos_machine::{ConditionKind, Stop, World, plain};
use clos_next_methods::functions::{function_named, start_call};
use clos_next_methods::methods::call_method;
use clos_next_methods::next_methods::{call_next_method, has_next};
use clos_objects_core::class_functions::truth;
use clos_places::assignment::{change, set_next, set_next_place};
use lisp_prims::{Arithmetic, Primitive};
use std::alloc::Global;

/// A form begins.
fn start_form(
    alloc: Global,
    machine: &mut Machine,
    world: &World,
    form: &Form,
) -> Result<Doing, Stop>
    ensures leads { Leads (here machine.old (λ ev env. body ev env form.now)) (seen world.now) result machine.new }
    ensures small { Grows form_growth machine.old.levels result machine.new }
{
    operate(alloc, machine, world, form, form.operator(), form.parts())
}

/// An operator begins with its parts.
#[tactic(auto, using(clos_machine::proofs::Turns::stopped_through, clos_machine::proofs::Turns::grows_more))]
fn operate(
    alloc: Global,
    machine: &mut Machine,
    world: &World,
    form: &Form,
    operator: &Operator,
    parts: &Forms,
) -> Result<Doing, Stop>
    requires { operator_of operator.now ≡ operator_in form.now }
    ensures leads { Leads (here machine.old (λ ev env. operated ev env (operator_of operator.now) parts.now))
        (seen world.now) result machine.new }
    ensures small { Grows form_growth machine.old.levels result machine.new }
{
    match operator {
        Operator::Constant(value) => Ok(Doing::Give(value.copy()?)),
        Operator::Variable(name) => read_name(alloc, machine, world, name),
        Operator::Function(name) => function_named(alloc, machine, world, name),
        Operator::If => go_on(machine, Control::If, parts, nil()),
        Operator::Cond => next_clause(machine, parts),
        Operator::When => go_on(machine, Control::When, parts, nil()),
        Operator::Unless => go_on(machine, Control::Unless, parts, nil()),
        Operator::And => go_on(machine, Control::And, parts, t()),
        Operator::Or => go_on(machine, Control::Or, parts, nil()),
        Operator::Progn => go_on(machine, Control::Progn, parts, nil()),
        Operator::Prog1 => go_on(machine, Control::Prog1, parts, nil()),
        Operator::Let(bindings) => start_let(alloc, machine, world, bindings, parts),
        Operator::LetInOrder(bindings) => start_let_in_order(
            alloc, machine, world, bindings, parts,
        ),
        Operator::Setq(_) => set_next(alloc, machine, form, 0, parts, nil()),
        Operator::Setf => set_next_place(alloc, machine, parts, nil()),
        Operator::Incf => change(alloc, machine, Primitive::Number(Arithmetic::Sum), parts),
        Operator::Decf => change(
            alloc,
            machine,
            Primitive::Number(Arithmetic::Difference),
            parts,
        ),
        Operator::Dotimes(name, has_result) => {
            start_loop(alloc, machine, name, *has_result, parts)
        }
        Operator::Call(name) => start_call(alloc, machine, name, parts),
        Operator::NoValue => Err(Stop::Refused(plain(alloc, ConditionKind::Unsupported))),
        Operator::Clause => Err(Stop::Refused(plain(alloc, ConditionKind::Unsupported))),
        Operator::Place(_) => Err(Stop::Refused(plain(alloc, ConditionKind::Unsupported))),
        Operator::WithSlots(_) => start_slots(alloc, machine, form, parts),
        Operator::CallNextMethod => call_next_method(alloc, machine, world, parts),
        Operator::NextMethodP => Ok(Doing::Give(truth(has_next(machine)))),
        Operator::CallMethod(method, next) => {
            call_method(alloc, machine, world, method, next, parts)
        }
    }
}

/// A form begins, which takes a step.
pub fn begin_form(
    alloc: Global,
    machine: &mut Machine,
    world: &World,
    form: Form,
    steps: &mut u64,
) -> Result<Doing, Stop>
    ensures turns { Turns (denote machine.old (Start form)) (seen world.now) steps.old result machine.new
        (seen world.now) steps.new }
    ensures small { Grows form_growth machine.old.levels result machine.new }
    ensures fewer { OnOk result (steps.new < steps.old) }
{
    if *steps == 0 {
        return Err(Stop::Refused(plain(alloc, ConditionKind::StepLimit)));
    }
    if machine.room == 0 {
        *steps -= 1;
        return Err(Stop::Refused(plain(alloc, ConditionKind::DepthLimit)));
    }
    machine.room -= 1;
    match start_form(alloc, machine, world, &form) {
        Ok(doing) => {
            *steps -= 1;
            Ok(doing)
        }
        Err(Stop::Refused(condition)) => {
            *steps -= 1;
            Err(Stop::Refused(condition))
        }
        Err(Stop::Storage) => Err(Stop::Storage),
    }
}
