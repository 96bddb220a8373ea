//! The slots of instances by their names (HyperSpec 7.5.2, 7.7 `slot-value`, `slot-boundp`, `slot-makunbound`,
//! `slot-exists-p`).
ghost use Rattle.std.specs.Prelude.{◌≡◌, ◌≤◌, ◌∷◌, [], IfOk, None, Option, option_map, map};
ghost use Rattle.lisp_data.specs.Value.{instance};
ghost use Rattle.lisp_data.specs.ValueView.{value_of};
ghost use Rattle.lisp_prims.specs.Primitive.{truth};
ghost use Rattle.clos_forms.specs.Quotation.{name_value};
ghost use Rattle.clos_machine.specs.clos_world.clos_store.Store.{slot_found};
ghost use Rattle.clos_machine.specs.clos_world.Values.{only_value};
ghost use Rattle.clos_machine.specs.clos_world.Uses.{uses_of};
ghost use Rattle.clos_machine.specs.clos_world.World.{class_of_instance, seen};
ghost use Rattle.clos_machine.specs.clos_meaning.Accessors.{read_by, written_by};
ghost use Rattle.clos_machine.specs.Machine.{Grows, Leads, Shrinks, Turns, act_weight, inside, slot_visited, value_weight, here};
ghost use Rattle.clos_machine.specs.clos_meaning.Outcome.{Gave};
ghost use Rattle.clos_machine.specs.clos_meaning.Slots.{class_value, operation_name, has_slot, instance_in, slot_asked, slot_called, slot_changed, slot_designated, slot_read, slot_set, slot_tested};
ghost use Rattle.clos_machine.specs.clos_meaning.Updating.{updated};
ghost use Rattle.clos_objects_core.specs.Slots.{DesignatesSlot, changed_arguments, three_of, two_of};

use crate::class_functions::{symbol_in, truth};
use clos_forms::{Forms, value_named};
use clos_machine::fault::{instance_in, wrong_type};
use clos_machine::machine::{Doing, Frame, Machine, SlotVisit, Visit};
use clos_machine::moves::invoke_under;
use clos_machine::updating::{due, update};
use clos_machine::{ConditionKind, SlotFunction, Stop, Values, World, plain};
use clos_method::SystemFunction;
use lisp_data::{InstanceId, Name, Value};
use std::alloc::{AllocError, Global};

/// The value, where there is one.
fn only(values: &[Value]) -> Option<&Value>
    ensures { option_map (λ v. value_of v.now) result ≡ only_value (map value_of values.now) }
{
    match values {
        [value] => Some(value),
        _ => None,
    }
}

/// The values, where they are two.
fn two(values: &[Value]) -> Option<(&Value, &Value)>
    ensures { option_map (λ p. (value_of p.0.now, value_of p.1.now)) result ≡ two_of (map value_of values.now) }
{
    match values {
        [first, second] => Some((first, second)),
        _ => None,
    }
}

/// The values, where they are three.
fn three(values: &[Value]) -> Option<(&Value, &Value, &Value)>
    ensures { option_map (λ p. (value_of p.0.now, (value_of p.1.now, value_of p.2.now))) result ≡ three_of
        (map value_of values.now) }
{
    match values {
        [first, second, third] => Some((first, second, third)),
        _ => None,
    }
}

/// The instance and the name of a slot that two values are.
fn designate(alloc: Global, object: &Value, name: &Value) -> Result<(InstanceId, Name), Stop>
    ensures { DesignatesSlot (slot_designated (value_of object.now) (value_of name.now)) result }
{
    match instance_in(alloc, object) {
        Err(stop) => Err(stop),
        Ok(id) => match symbol_in(name)? {
            None => Err(Stop::Refused(wrong_type(alloc, name)?)),
            Some(symbol) => Ok((id, symbol)),
        },
    }
}

/// The class of an instance, and the instance.
fn instance_arguments(alloc: Global, world: &World, id: InstanceId) -> Result<Values, AllocError>
    ensures { IfOk result (λ r. r ≡ class_value (seen world.now) id.0 ∷ instance id.0 ∷ []) }
{
    let mut arguments = Values::new(alloc);
    let class = world.class_of_value(&Value::Instance(id));
    arguments.push(Value::Class(class))?;
    arguments.push(Value::Instance(id))?;
    Ok(arguments)
}

/// The arguments of slot-unbound.
fn unbound_arguments(
    alloc: Global,
    world: &World,
    id: InstanceId,
    name: &Name,
) -> Result<Values, AllocError>
    ensures { IfOk result (λ r. r ≡ class_value (seen world.now) id.0 ∷ instance id.0 ∷ name_value name.now ∷ []) }
{
    let mut arguments = instance_arguments(alloc, world, id)?;
    arguments.push(value_named(name)?)?;
    Ok(arguments)
}

/// The arguments of slot-missing where this is done with the slot, without a new value.
fn missing_arguments(
    alloc: Global,
    world: &World,
    id: InstanceId,
    name: &Name,
    operation: &'static &'static str,
) -> Result<Values, AllocError>
    ensures { IfOk result (λ r. r ≡ class_value (seen world.now) id.0 ∷ instance id.0 ∷ name_value name.now ∷
        operation_name operation.now.now ∷ []) }
{
    let mut arguments = unbound_arguments(alloc, world, id, name)?;
    arguments.push(Value::Sym(Name::fixed(operation)))?;
    Ok(arguments)
}

/// A reader of the slot of this name is called.
pub fn call_reader(
    alloc: Global,
    machine: &mut Machine,
    world: &mut World,
    slot: Name,
    values: &[Value],
    steps: &mut u64,
) -> Result<Doing, Stop>
    ensures turns { Turns (here machine.old (λ ev env. read_by ev env slot (map value_of values.now))) (seen world.old)
        steps.old result machine.new (seen world.new) steps.new }
    ensures small { Shrinks act_weight steps.old steps.new machine.old.levels result machine.new }
    ensures fewer { steps.new ≤ steps.old }
    ensures kept { uses_of world.new ≡ uses_of world.old }
{
    match only(values) {
        None => Err(Stop::Refused(plain(alloc, ConditionKind::ProgramError))),
        Some(object) => match instance_in(alloc, object) {
            Ok(id) => visit(alloc, machine, world, id, SlotVisit::Read(slot), steps),
            Err(stop) => Err(stop),
        },
    }
}

/// A writer of the slot of this name is called.
pub fn call_writer(
    alloc: Global,
    machine: &mut Machine,
    world: &mut World,
    slot: Name,
    values: &[Value],
    steps: &mut u64,
) -> Result<Doing, Stop>
    ensures turns { Turns (here machine.old (λ ev env. written_by ev env slot (map value_of values.now)))
        (seen world.old) steps.old result machine.new (seen world.new) steps.new }
    ensures small { Shrinks act_weight steps.old steps.new machine.old.levels result machine.new }
    ensures fewer { steps.new ≤ steps.old }
    ensures kept { uses_of world.new ≡ uses_of world.old }
{
    match two(values) {
        None => Err(Stop::Refused(plain(alloc, ConditionKind::ProgramError))),
        Some((new, object)) => match instance_in(alloc, object) {
            Ok(id) => {
                let stored = new.copy()?;
                let given = new.copy()?;
                let change = SlotVisit::Change(slot, Some(stored), given);
                visit(alloc, machine, world, id, change, steps)
            }
            Err(stop) => Err(stop),
        },
    }
}

/// A call of a function of slots.
pub fn call_slot_function(
    alloc: Global,
    machine: &mut Machine,
    world: &mut World,
    function: SlotFunction,
    values: &Values,
    steps: &mut u64,
) -> Result<Doing, Stop>
    ensures turns { Turns (here machine.old (λ ev env. slot_called ev env function values.now)) (seen world.old)
        steps.old result machine.new (seen world.new) steps.new }
    ensures small { Shrinks act_weight steps.old steps.new machine.old.levels result machine.new }
    ensures fewer { steps.new ≤ steps.old }
    ensures kept { uses_of world.new ≡ uses_of world.old }
{
    match two(values.as_slice()) {
        None => Err(Stop::Refused(plain(alloc, ConditionKind::ProgramError))),
        Some((object, name)) => match designate(alloc, object, name) {
            Ok((id, name)) => answer(alloc, machine, world, function, id, name, steps),
            Err(stop) => Err(stop),
        },
    }
}

fn answer(
    alloc: Global,
    machine: &mut Machine,
    world: &mut World,
    function: SlotFunction,
    id: InstanceId,
    name: Name,
    steps: &mut u64,
) -> Result<Doing, Stop>
    ensures turns { Turns (here machine.old (λ ev env. slot_asked ev env function id.0 name)) (seen world.old) steps.old
        result machine.new (seen world.new) steps.new }
    ensures small { Shrinks act_weight steps.old steps.new machine.old.levels result machine.new }
    ensures fewer { steps.new ≤ steps.old }
    ensures kept { uses_of world.new ≡ uses_of world.old }
{
    match function {
        SlotFunction::SlotValue => visit(alloc, machine, world, id, SlotVisit::Read(name), steps),
        SlotFunction::SlotBoundp => visit(alloc, machine, world, id, SlotVisit::Test(name), steps),
        SlotFunction::SlotMakunbound => {
            let change = SlotVisit::Change(name, None, Value::Instance(id));
            visit(alloc, machine, world, id, change, steps)
        }
        SlotFunction::SlotExistsP => Ok(exists(machine, world, id, &name)),
    }
}

/// This is done with a slot of an instance, which is updated first where it is stale.
fn visit(
    alloc: Global,
    machine: &mut Machine,
    world: &mut World,
    id: InstanceId,
    visit: SlotVisit,
    steps: &mut u64,
) -> Result<Doing, Stop>
    ensures turns { Turns (here machine.old (λ ev env. updated ev id.0 (slot_visited ev env id.0 visit)))
        (seen world.old) steps.old result machine.new (seen world.new) steps.new }
    ensures small { Shrinks act_weight steps.old steps.new machine.old.levels result machine.new }
    ensures fewer { steps.new ≤ steps.old }
    ensures kept { uses_of world.new ≡ uses_of world.old }
{
    let Ok(due) = due(world, id) else {
        drop(visit);
        return Err(Stop::Storage);
    };
    match due {
        None => visit_slot(alloc, machine, world, id, visit, steps),
        Some(layout) => {
            update(
                alloc,
                machine,
                world,
                id,
                &layout,
                Visit::Slot(visit),
                steps,
            )
        }
    }
}

/// This is done with a slot of an instance, which is up to date.
#[tactic(auto, using(clos_machine::proofs::Runs::turns_of_leads, clos_machine::proofs::Turns::shrinks_by))]
pub fn visit_slot(
    alloc: Global,
    machine: &mut Machine,
    world: &mut World,
    id: InstanceId,
    visit: SlotVisit,
    steps: &mut u64,
) -> Result<Doing, Stop>
    ensures turns { Turns (here machine.old (λ ev env. slot_visited ev env id.0 visit)) (seen world.old) steps.old
        result machine.new (seen world.new) steps.new }
    ensures small { Shrinks act_weight steps.old steps.new machine.old.levels result machine.new }
    ensures fewer { steps.new ≤ steps.old }
    ensures kept { uses_of world.new ≡ uses_of world.old }
{
    match visit {
        SlotVisit::Read(name) => read(alloc, machine, world, id, &name),
        SlotVisit::Test(name) => test(alloc, machine, world, id, &name),
        SlotVisit::Change(name, value, given) => {
            change(alloc, machine, world, id, name, value, given, steps)
        }
    }
}

/// The value of a slot, or what is called in its place.
fn read(
    alloc: Global,
    machine: &Machine,
    world: &World,
    id: InstanceId,
    name: &Name,
) -> Result<Doing, Stop>
    ensures leads { Leads (here machine.now (λ ev env w. slot_read ev env id.0 name.now
        (slot_found w.store id.0 name.now) w)) (seen world.now) result machine.now }
    ensures small { Grows value_weight machine.now.levels result machine.now }
{
    let _ = machine;
    match world.store().slot(id, name) {
        None => {
            let arguments = missing_arguments(alloc, world, id, name, &"SLOT-VALUE")?;
            Ok(Doing::Invoke(SystemFunction::SlotMissing, arguments))
        }
        Some(slot) => match slot.value() {
            None => {
                let arguments = unbound_arguments(alloc, world, id, name)?;
                Ok(Doing::Invoke(SystemFunction::SlotUnbound, arguments))
            }
            Some(value) => Ok(Doing::Give(value.copy()?)),
        },
    }
}

/// Whether a slot has a value.
#[tactic(auto, using(clos_machine::proofs::Turns::grows_more))]
fn test(
    alloc: Global,
    machine: &mut Machine,
    world: &World,
    id: InstanceId,
    name: &Name,
) -> Result<Doing, Stop>
    ensures leads { Leads (here machine.old (λ ev env w. slot_tested ev env id.0 name.now
        (slot_found w.store id.0 name.now) w)) (seen world.now) result machine.new }
    ensures small { Grows value_weight machine.old.levels result machine.new }
{
    match world.store().slot(id, name) {
        None => {
            let arguments = missing_arguments(alloc, world, id, name, &"SLOT-BOUNDP")?;
            invoke_under(
                machine,
                SystemFunction::SlotMissing,
                arguments,
                Frame::Truth,
            )
        }
        Some(slot) => Ok(Doing::Give(truth(slot.value().is_some()))),
    }
}

/// Whether the class of an instance has such a slot.
fn exists(machine: &Machine, world: &World, id: InstanceId, name: &Name) -> Doing
    ensures leads { Leads (inside machine.now (λ w s. Gave (truth (has_slot w.classes (class_of_instance w id.0)
        name.now)) w s)) (seen world.now) (Ok result) machine.now }
    ensures small { Grows value_weight machine.now.levels (Ok result) machine.now }
{
    let _ = machine;
    Doing::Give(truth(has_slot(world, id, name)))
}

fn has_slot(world: &World, id: InstanceId, name: &Name) -> bool
    ensures { result ≡ has_slot (seen world.now).classes (class_of_instance (seen world.now) id.0) name.now }
{
    match world.store().class_of(id) {
        None => false,
        Some(class) => world.classes().slot(class, name).is_some(),
    }
}

/// A slot gets this value, or none, which takes a step; then this other one is given.
fn change(
    alloc: Global,
    machine: &mut Machine,
    world: &mut World,
    id: InstanceId,
    name: Name,
    value: Option<Value>,
    given: Value,
    steps: &mut u64,
) -> Result<Doing, Stop>
    ensures turns { Turns (here machine.old (λ ev env w. slot_changed ev env id.0 name (option_map value_of value)
        (value_of given) (slot_found w.store id.0 name) w)) (seen world.old) steps.old result machine.new
        (seen world.new) steps.new }
    ensures small { Grows value_weight machine.old.levels result machine.new }
    ensures fewer { steps.new ≤ steps.old }
    ensures kept { uses_of world.new ≡ uses_of world.old }
{
    if world.store().slot(id, &name).is_none() {
        return change_missing(alloc, machine, world, id, &name, value, given);
    }
    if *steps == 0 {
        return Err(Stop::Refused(plain(alloc, ConditionKind::StepLimit)));
    }
    world.objects.set_slot(id, &name, value);
    *steps -= 1;
    Ok(Doing::Give(given))
}

/// Slot-missing is called in place of the change of a slot, and then this value is given.
#[tactic(auto, using(clos_machine::proofs::Turns::grows_more, clos_machine::proofs::Turns::then_then))]
fn change_missing(
    alloc: Global,
    machine: &mut Machine,
    world: &World,
    id: InstanceId,
    name: &Name,
    value: Option<Value>,
    given: Value,
) -> Result<Doing, Stop>
    ensures leads { Leads (here machine.old (λ ev env. slot_changed ev env id.0 name.now (option_map value_of value)
        (value_of given) None)) (seen world.now) result machine.new }
    ensures small { Grows value_weight machine.old.levels result machine.new }
{
    match changed_arguments(alloc, world, id, name, value) {
        Err(_) => {
            drop(given);
            Err(Stop::Storage)
        }
        Ok(arguments) => {
            let frame = Frame::Keep(Forms::new(), given);
            invoke_under(machine, SystemFunction::SlotMissing, arguments, frame)
        }
    }
}

/// The arguments of slot-missing where a slot was to get this value, or none.
fn changed_arguments(
    alloc: Global,
    world: &World,
    id: InstanceId,
    name: &Name,
    value: Option<Value>,
) -> Result<Values, AllocError>
    ensures { IfOk result (λ r. r ≡ changed_arguments (seen world.now) id.0 name.now (option_map value_of value)) }
{
    match value {
        None => missing_arguments(alloc, world, id, name, &"SLOT-MAKUNBOUND"),
        Some(new) => {
            let Ok(mut arguments) = missing_arguments(alloc, world, id, name, &"SETF") else {
                drop(new);
                return Err(AllocError);
            };
            arguments.push(new)?;
            Ok(arguments)
        }
    }
}

/// A slot as a place gets a value: an instance, a name and the value are there.
pub fn set_slot_value(
    alloc: Global,
    machine: &mut Machine,
    world: &mut World,
    values: &Values,
    steps: &mut u64,
) -> Result<Doing, Stop>
    ensures turns { Turns (here machine.old (λ ev env. slot_set ev env values.now)) (seen world.old) steps.old result
        machine.new (seen world.new) steps.new }
    ensures small { Shrinks act_weight steps.old steps.new machine.old.levels result machine.new }
    ensures fewer { steps.new ≤ steps.old }
    ensures kept { uses_of world.new ≡ uses_of world.old }
{
    match three(values.as_slice()) {
        None => Err(Stop::Refused(plain(alloc, ConditionKind::ProgramError))),
        Some((object, name, value)) => match designate(alloc, object, name) {
            Ok((id, name)) => {
                let stored = value.copy()?;
                let given = value.copy()?;
                let change = SlotVisit::Change(name, Some(stored), given);
                visit(alloc, machine, world, id, change, steps)
            }
            Err(stop) => Err(stop),
        },
    }
}
