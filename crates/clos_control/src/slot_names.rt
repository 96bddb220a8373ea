//! Names that stand for the slots of an object (HyperSpec 7.7 `with-slots`), and names in general.
ghost use Rattle.std.specs.Prelude.{◌≡◌, map, None};
ghost use Rattle.lisp_data.specs.ValueView.{value_of};
ghost use Rattle.clos_forms.specs.BoundView.{bound_slot};
ghost use Rattle.clos_forms.specs.Form.{operator_in};
ghost use Rattle.clos_machine.specs.clos_world.World.{State, seen};
ghost use Rattle.clos_machine.specs.Machine.{Grows, Leads, at, slot_names, act_weight, value_weight, here, Does};
ghost use Rattle.clos_machine.specs.clos_meaning.SlotNames.{name_read, place_denoted, with_slots, within_slots};
ghost use Rattle.clos_machine.specs.clos_meaning.Variables.{found_value};

use crate::binding::run_beside;
use clos_forms::{Form, Forms, Operator, SlotBinding, Variable};
use clos_machine::locals::slots_of;
use clos_machine::machine::{Action, Doing, Frame, Machine, Target};
use clos_machine::moves::{begin, split};
use clos_machine::names::{place_denoted, value_of_read};
use clos_machine::{ConditionKind, Stop, World, about_name, plain};
use lisp_data::{Name, Value};
use std::alloc::Global;

/// A name is read.
pub fn read_name(
    alloc: Global,
    machine: &mut Machine,
    world: &World,
    variable: &Variable,
) -> Result<Doing, Stop>
    ensures leads { Leads (here machine.old (λ ev env w. name_read ev env variable.now (place_denoted w variable.now) w))
        (seen world.now) result machine.new }
    ensures small { Grows act_weight machine.old.levels result machine.new }
{
    match value_of_read(machine, world, variable) {
        Some(value) => Ok(Doing::Give(value.copy()?)),
        None => read_place(alloc, machine, variable.name()),
    }
}

/// A name that is no variable with a value is read.
#[tactic(auto, using(clos_machine::proofs::Turns::stopped_through))]
fn read_place(alloc: Global, machine: &mut Machine, name: &Name) -> Result<Doing, Stop>
    ensures leads { (w : State) → None ≡ found_value (at machine.old w) name.now
        → Leads (here machine.old (λ ev env w. name_read ev env name.now (place_denoted w name.now) w)) w result
        machine.new }
    ensures small { Grows act_weight machine.old.levels result machine.new }
{
    match place_denoted(alloc, machine, name)? {
        Some(place) => Ok(Doing::Act(Action::Read(Target::SlotValue), place)),
        None => {
            let condition = about_name(alloc, ConditionKind::UnboundVariable, name)?;
            Err(Stop::Refused(condition))
        }
    }
}

/// A `with-slots` form begins with that of the object.
#[tactic(auto, using(clos_machine::proofs::Turns::stopped_through))]
pub fn start_slots(
    alloc: Global,
    machine: &mut Machine,
    form: &Form,
    parts: &Forms,
) -> Result<Doing, Stop>
    ensures leads { Does (λ ev env. with_slots ev env (slot_names (operator_in form.now)) parts.now) machine.old result
        machine.new }
    ensures small { Grows value_weight machine.old.levels result machine.new }
{
    match split(parts)? {
        None => Err(Stop::Refused(plain(alloc, ConditionKind::ProgramError))),
        Some((object, rest)) => {
            let frame = Frame::Slots(form.copy()?, rest);
            begin(machine, object, frame)
        }
    }
}

/// The names of a `with-slots` form.
fn slot_bindings(form: &Form) -> &[SlotBinding]
    ensures { map bound_slot result.now ≡ slot_names (operator_in form.now) }
{
    match form.operator() {
        Operator::WithSlots(bindings) => bindings.as_slice(),
        _ => &[],
    }
}

/// The object is there, for whose slots the names of this `with-slots` form stand in its body.
pub fn bind_slots(
    alloc: Global,
    machine: &mut Machine,
    form: &Form,
    body: &Forms,
    object: &Value,
) -> Result<Doing, Stop>
    ensures leads { Does (λ ev env. within_slots ev env (slot_names (operator_in form.now)) body.now
        (value_of object.now)) machine.old result machine.new }
    ensures small { Grows value_weight machine.old.levels result machine.new }
{
    let outer = machine.locals.len();
    let locals = slots_of(alloc, slot_bindings(form), object)?;
    run_beside(machine, outer, locals, body)
}
