//! Values go to the frames that wait for them.
ghost use Rattle.std.specs.Prelude.{◌+◌};
ghost use Rattle.lisp_data.specs.ValueView.{value_of};
ghost use Rattle.clos_machine.specs.clos_world.World.{seen};
ghost use Rattle.clos_machine.specs.Machine.{follow_growth, given_to, Grows, Leads, weight_of};

use clos_control::arguments::next_value;
use clos_control::binding::{continue_turn, continue_within, next_aside, next_variable, repeat};
use clos_control::control::{clause_tested, follow, keep};
use clos_control::slot_names::bind_slots;
use clos_machine::machine::{Doing, Frame, InstanceTask, Machine};
use clos_machine::truth::is_true;
use clos_machine::{Stop, Values, World};
use clos_next_methods::bodies::{next_of_body, next_parameter};
use clos_objects::creation::next_default;
use clos_objects_core::class_functions::truth;
use clos_places::assignment::{change_from, set_next, set_next_place};
use lisp_data::Value;
use std::alloc::Global;

/// A frame goes on with the value that it waited for.
pub fn give(
    alloc: Global,
    machine: &mut Machine,
    world: &World,
    frame: Frame,
    value: Value,
) -> Result<Doing, Stop>
    ensures leads { Leads (given_to machine.old frame (value_of value)) (seen world.now) result machine.new }
    ensures small { Grows (follow_growth + weight_of frame) machine.old.levels result machine.new }
{
    match frame {
        Frame::Rest(control, rest) => follow(machine, control, &rest, value),
        Frame::Keep(rest, kept) => keep(machine, &rest, kept),
        Frame::Clause(forms, others) => clause_tested(machine, &forms, &others, value),
        Frame::Collect(action, rest, values) => next_value(machine, action, rest, values, value),
        Frame::Body(rest, saved, outer) => {
            next_of_body(machine, world, &rest, saved, outer, value)
        }
        Frame::Bind(defaulted) => next_parameter(alloc, machine, world, defaulted, value),
        Frame::Scope(outer, rest) => continue_within(machine, outer, &rest, value),
        Frame::InOrder(outer, name, plan, rest) => {
            next_variable(alloc, machine, world, outer, name, plan, &rest, value)
        }
        Frame::Aside(beside) => next_aside(alloc, machine, world, beside, value),
        Frame::Count(repetition) => repeat(alloc, machine, world, repetition, value),
        Frame::Turn(repetition, counter, rest) => {
            continue_turn(machine, repetition, counter, &rest, value)
        }
        Frame::Setq(form, place, rest) => { set_next(alloc, machine, &form, place, &rest, value) }
        Frame::Setf(rest) => set_next_place(alloc, machine, &rest, value),
        Frame::Changed(primitive, target, values, amount) => {
            change_from(alloc, machine, primitive, target, values, amount, value)
        }
        Frame::Default(class, effective, place, initargs) => {
            next_default(alloc, machine, class, effective, place, initargs, value)
        }
        Frame::Filled(filling) => { Ok(Doing::Tend(InstanceTask::FillWith(filling, value))) },
        Frame::Updated(id, visit) => Ok(Doing::Tend(InstanceTask::Visit(id, visit))),
        Frame::Truth => Ok(Doing::Give(truth(is_true(&value)))),
        Frame::Slots(form, body) => bind_slots(alloc, machine, &form, &body, &value),
    }
}
