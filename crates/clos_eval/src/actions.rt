//! Actions: what is called, set, read and changed with values that are there; and what methods do that have no forms.
ghost use Rattle.std.specs.Prelude.{◌≤◌};
ghost use Rattle.clos_machine.specs.clos_world.Uses.{uses_of};
ghost use Rattle.clos_machine.specs.clos_world.World.{seen};
ghost use Rattle.clos_machine.specs.Uses.{TurnsBy};
ghost use Rattle.clos_machine.specs.clos_meaning.Functions.{called, place_read, place_set};
ghost use Rattle.clos_machine.specs.Machine.{access_of, acted, act_weight, action_weight, perform_weight, performed, Shrinks, here, task_weight, tended, visited};

use clos_control::output::{end_line, print};
use clos_forms::{CalledName, Callee, SlotFunction};
use clos_machine::machine::{Action, BuiltIn, Doing, InstanceTask, Machine, Target, Visit};
use clos_machine::{Arguments, Stop, Values, World};
use clos_next_methods::functions::{call, call_setter, compute};
use clos_next_methods::next_methods::call_next_given;
use clos_objects::class_change::{change_class, change_to};
use clos_objects::creation::{allocate, initialize, make_instance};
use clos_objects::filling::{fill, fill_with};
use clos_objects::system_methods::{fill_instance, reinitialize_instance, run_system_method};
use clos_objects_core::class_functions::call_class_function;
use clos_objects_core::find_method::call_find_method;
use clos_objects_core::slots::{
    call_reader, call_slot_function, call_writer, set_slot_value, visit_slot,
};
use clos_places::assignment::with_amount;
use clos_places::places::{change_name, change_place, new_value, set_name};
use lisp_data::InstanceId;
use std::alloc::Global;

/// A function is called.
#[tactic(auto, using(clos_machine::proofs::Uses::turns_none, clos_machine::proofs::Uses::turns_none_of, clos_machine::proofs::Uses::turns_by, clos_machine::proofs::Turns::shrinks_by))]
fn apply(
    alloc: Global,
    machine: &mut Machine,
    world: &mut World,
    name: &CalledName,
    values: Values,
    steps: &mut u64,
) -> Result<Doing, Stop>
    ensures turns { TurnsBy (here machine.old (λ ev env. called ev env name.now values)) (seen world.old) steps.old
        (uses_of world.old) result machine.new (seen world.new) steps.new (uses_of world.new) }
    ensures small { Shrinks act_weight steps.old steps.new machine.old.levels result machine.new }
    ensures fewer { steps.new ≤ steps.old }
{
    match name.callee() {
        Callee::Output(output) => print(alloc, machine, world, output, &values, steps),
        Callee::Terpri => end_line(alloc, machine, world, &values, steps),
        Callee::Primitive(primitive) => compute(alloc, machine, world, primitive, &values),
        Callee::MakeInstance => make_instance(alloc, machine, world, values, steps),
        Callee::ChangeClass => change_class(alloc, machine, world, values, steps),
        Callee::FindMethod => call_find_method(alloc, machine, world, &values),
        Callee::NativeCall => Ok(Doing::Native(values)),
        Callee::ClassFunction(function) => {
            call_class_function(alloc, machine, world, function, &values)
        }
        Callee::SlotFunction(function) => {
            call_slot_function(alloc, machine, world, function, &values, steps)
        }
        Callee::Defined => call(alloc, machine, world, name.name(), values),
    }
}

/// A place is set with its arguments and the new value.
#[tactic(auto, using(clos_machine::proofs::Uses::turns_none, clos_machine::proofs::Uses::turns_none_of, clos_machine::proofs::Uses::turns_by, clos_machine::proofs::Turns::shrinks_by))]
fn set_place(
    alloc: Global,
    machine: &mut Machine,
    world: &mut World,
    target: &Target,
    values: Values,
    steps: &mut u64,
) -> Result<Doing, Stop>
    ensures turns { TurnsBy (here machine.old (λ ev env. place_set ev env (access_of target.now) values))
        (seen world.old) steps.old (uses_of world.old) result machine.new (seen world.new) steps.new (uses_of world.new) }
    ensures small { Shrinks act_weight steps.old steps.new machine.old.levels result machine.new }
    ensures fewer { steps.new ≤ steps.old }
{
    match target {
        Target::Call(name) => call_setter(alloc, machine, world, name.name(), values),
        Target::SlotValue => set_slot_value(alloc, machine, world, &values, steps),
    }
}

/// A place is read with its arguments.
#[tactic(auto, using(clos_machine::proofs::Uses::turns_none, clos_machine::proofs::Uses::turns_none_of, clos_machine::proofs::Uses::turns_by, clos_machine::proofs::Turns::shrinks_by))]
fn read_place(
    alloc: Global,
    machine: &mut Machine,
    world: &mut World,
    target: &Target,
    values: Values,
    steps: &mut u64,
) -> Result<Doing, Stop>
    ensures turns { TurnsBy (here machine.old (λ ev env. place_read ev env (access_of target.now) values))
        (seen world.old) steps.old (uses_of world.old) result machine.new (seen world.new) steps.new (uses_of world.new) }
    ensures small { Shrinks act_weight steps.old steps.new machine.old.levels result machine.new }
    ensures fewer { steps.new ≤ steps.old }
{
    match target {
        Target::Call(name) => apply(alloc, machine, world, name, values, steps),
        Target::SlotValue => {
            call_slot_function(
                alloc,
                machine,
                world,
                SlotFunction::SlotValue,
                &values,
                steps,
            )
        }
    }
}

/// A method without forms runs on these arguments.
#[tactic(auto, using(clos_machine::proofs::Uses::turns_none, clos_machine::proofs::Uses::turns_none_of, clos_machine::proofs::Uses::turns_by, crate::proofs::Calling::shrinks_more))]
pub fn perform(
    alloc: Global,
    machine: &mut Machine,
    world: &mut World,
    method: BuiltIn,
    arguments: &Arguments,
    steps: &mut u64,
) -> Result<Doing, Stop>
    ensures turns { TurnsBy (here machine.old (λ ev env. performed ev env method arguments.now)) (seen world.old)
        steps.old (uses_of world.old) result machine.new (seen world.new) steps.new (uses_of world.new) }
    ensures small { Shrinks perform_weight steps.old steps.new machine.old.levels result machine.new }
    ensures fewer { steps.new ≤ steps.old }
{
    match method {
        BuiltIn::Reader(slot) => {
            call_reader(alloc, machine, world, slot, arguments.as_slice(), steps)
        }
        BuiltIn::Writer(slot) => {
            call_writer(alloc, machine, world, slot, arguments.as_slice(), steps)
        }
        BuiltIn::System(function) => {
            run_system_method(alloc, machine, world, function, arguments, steps)
        }
    }
}

/// This is done with an instance, which is up to date.
#[tactic(auto, using(clos_machine::proofs::Uses::turns_none, clos_machine::proofs::Uses::turns_none_of, clos_machine::proofs::Uses::turns_by, clos_machine::proofs::Turns::shrinks_by, crate::proofs::Calling::shrinks_more))]
fn visit(
    alloc: Global,
    machine: &mut Machine,
    world: &mut World,
    id: InstanceId,
    visit: Visit,
    steps: &mut u64,
) -> Result<Doing, Stop>
    ensures turns { TurnsBy (here machine.old (λ ev env. visited ev env id.0 visit)) (seen world.old) steps.old
        (uses_of world.old) result machine.new (seen world.new) steps.new (uses_of world.new) }
    ensures small { Shrinks perform_weight steps.old steps.new machine.old.levels result machine.new }
    ensures fewer { steps.new ≤ steps.old }
{
    match visit {
        Visit::Slot(visit) => visit_slot(alloc, machine, world, id, visit, steps),
        Visit::Reinitialize(initargs) => {
            reinitialize_instance(alloc, machine, world, id, initargs.as_slice())
        }
        Visit::Fill(arguments) => fill_instance(alloc, machine, world, id, &arguments),
        Visit::ChangeClass(class, initargs) => {
            change_to(alloc, machine, world, id, class, initargs, steps)
        }
    }
}

/// What is to be done with an instance.
#[tactic(auto, using(clos_machine::proofs::Uses::turns_none, clos_machine::proofs::Uses::turns_none_of, clos_machine::proofs::Uses::turns_by, clos_machine::proofs::Turns::shrinks_by, crate::proofs::Calling::shrinks_more))]
pub fn tend(
    alloc: Global,
    machine: &mut Machine,
    world: &mut World,
    task: InstanceTask,
    steps: &mut u64,
) -> Result<Doing, Stop>
    ensures turns { TurnsBy (here machine.old (λ ev env. tended ev env task)) (seen world.old) steps.old
        (uses_of world.old) result machine.new (seen world.new) steps.new (uses_of world.new) }
    ensures small { Shrinks (task_weight task) steps.old steps.new machine.old.levels result machine.new }
    ensures fewer { steps.new ≤ steps.old }
{
    match task {
        InstanceTask::Fill(filling) => fill(alloc, machine, world, filling, steps),
        InstanceTask::FillWith(filling, value) => {
            fill_with(alloc, machine, world, filling, value, steps)
        }
        InstanceTask::Visit(id, purpose) => {
            visit(alloc, machine, world, id, Box::into_inner(purpose), steps)
        }
    }
}

/// An action is done with its values.
#[tactic(auto, using(clos_machine::proofs::Uses::turns_none, clos_machine::proofs::Uses::turns_none_of, clos_machine::proofs::Uses::turns_by, clos_machine::proofs::Turns::shrinks_by, crate::proofs::Calling::shrinks_more))]
pub fn act(
    alloc: Global,
    machine: &mut Machine,
    world: &mut World,
    action: Action,
    values: Values,
    steps: &mut u64,
) -> Result<Doing, Stop>
    ensures turns { TurnsBy (here machine.old (λ ev env. acted ev env action values)) (seen world.old) steps.old
        (uses_of world.old) result machine.new (seen world.new) steps.new (uses_of world.new) }
    ensures small { Shrinks (action_weight action) steps.old steps.new machine.old.levels result machine.new }
    ensures fewer { steps.new ≤ steps.old }
{
    match action {
        Action::Call(name) => apply(alloc, machine, world, &name, values, steps),
        Action::Set(target) => set_place(alloc, machine, world, &target, values, steps),
        Action::Store(name) => set_name(alloc, machine, world, &name, values, steps),
        Action::Change(primitive, name) => {
            change_name(alloc, machine, world, primitive, &name, values, steps)
        }
        Action::NewValue(target, form) => new_value(machine, target, &form, values),
        Action::Amount(primitive, target, form) => {
            with_amount(
                machine,
                Action::ChangePlace(primitive, Box::into_inner(target)),
                &form,
                values,
            )
        }
        Action::ChangePlace(primitive, target) => {
            change_place(alloc, machine, primitive, target, values)
        }
        Action::Allocate(class, effective) => {
            allocate(alloc, machine, world, class, effective, values, steps)
        }
        Action::Initialize(class, effective, id) => {
            initialize(alloc, machine, world, class, &effective, id, values)
        }
        Action::Read(target) => read_place(alloc, machine, world, &target, values, steps),
        Action::CallNext => call_next_given(alloc, machine, world, values),
    }
}
