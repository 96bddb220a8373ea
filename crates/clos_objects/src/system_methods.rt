//! What the system's methods do with the arguments of their calls (HyperSpec 7.1.4, 7.3, 7.7).
ghost use Rattle.std.specs.Prelude.{◌≡◌, ◌≤◌, ◌∷◌, [], IfOk, MatchOption, map};
ghost use Rattle.lisp_data.specs.ValueView.{value_of};
ghost use Rattle.clos_machine.specs.clos_world.Uses.{uses_of};
ghost use Rattle.clos_machine.specs.clos_world.World.{seen};
ghost use Rattle.clos_machine.specs.Uses.{LeadsBy, TurnsBy};
ghost use Rattle.clos_machine.specs.Machine.{Grows, Leads, Shrinks, Turns, initargs_in, names_in, built_in_growth, perform_weight, value_weight, here};
ghost use Rattle.clos_machine.specs.clos_meaning.Slots.{instance_in};
ghost use Rattle.clos_machine.specs.clos_meaning.SystemMethods.{initialize, reinitialize, reinitialize_instance, slot_condition, slots_filled, system_method_run, told};
ghost use Rattle.clos_machine.specs.Fault.{TellsCondition};
ghost use Rattle.clos_machine.specs.clos_meaning.Updating.{updated};
ghost use Rattle.clos_objects.specs.Objects.{next_condition};
ghost use Rattle.clos_machine.specs.clos_world.declared.condition.ConditionKind.TheVariants.{NoApplicableMethod};
ghost use Rattle.clos_method.specs.declared.system.SystemFunction.TheVariants.{SharedInitialize};

use crate::creation::enter;
use crate::shared::{check_shared, class_in, initialize_shared};
use crate::updates::{update_different, update_redefined};
use clos_filling::slot_names::are_slot_names;
use clos_machine::fault::{instance_in, wrong_type};
use clos_machine::machine::{Doing, Filling, InstanceTask, Machine, Visit};
use clos_machine::parameters::are_even;
use clos_machine::truth::{nil, t};
use clos_machine::updating::{due, update};
use clos_machine::{
    Arguments, Condition, ConditionKind, Stop, Values, World, about, about_both, called_value,
    plain,
};
use clos_method::SystemFunction;
use lisp_data::{InstanceId, Value};
use std::alloc::{AllocError, Global};

/// The system's method of this function runs.
pub fn run_system_method(
    alloc: Global,
    machine: &mut Machine,
    world: &mut World,
    function: SystemFunction,
    arguments: &Arguments,
    steps: &mut u64,
) -> Result<Doing, Stop>
    ensures turns { TurnsBy (here machine.old (λ ev env. system_method_run ev function arguments.now)) (seen world.old)
        steps.old (uses_of world.old) result machine.new (seen world.new) steps.new (uses_of world.new) }
    ensures small { Shrinks perform_weight steps.old steps.new machine.old.levels result machine.new }
    ensures fewer { steps.new ≤ steps.old }
{
    match split(arguments.as_slice()) {
        None => Err(Stop::Refused(plain(alloc, ConditionKind::ProgramError))),
        Some((first, rest)) => {
            run_with(
                alloc, machine, world, function, first, rest, arguments, steps,
            )
        }
    }
}

/// The same with arguments that begin with this one.
#[tactic(auto, using(clos_machine::proofs::Uses::turns_none, clos_machine::proofs::Uses::turns_none_of, clos_machine::proofs::Uses::turns_by, clos_machine::proofs::Runs::turns_of_leads, clos_machine::proofs::Turns::shrinks_by, clos_machine::proofs::Turns::stopped_through))]
fn run_with(
    alloc: Global,
    machine: &mut Machine,
    world: &mut World,
    function: SystemFunction,
    first: &Value,
    rest: &[Value],
    arguments: &Arguments,
    steps: &mut u64,
) -> Result<Doing, Stop>
    requires { arguments.now ≡ value_of first.now ∷ map value_of rest.now }
    ensures turns { TurnsBy (here machine.old (λ ev env. system_method_run ev function arguments.now)) (seen world.old)
        steps.old (uses_of world.old) result machine.new (seen world.new) steps.new (uses_of world.new) }
    ensures small { Shrinks perform_weight steps.old steps.new machine.old.levels result machine.new }
    ensures fewer { steps.new ≤ steps.old }
{
    match function {
        SystemFunction::InitializeInstance => initialize(alloc, machine, world, first, rest),
        SystemFunction::ReinitializeInstance => {
            reinitialize(alloc, machine, world, first, rest, steps)
        }
        SystemFunction::SharedInitialize => {
            initialize_slots(alloc, machine, world, first, rest, arguments, steps)
        }
        SystemFunction::UpdateInstanceForRedefinedClass => {
            update_redefined(alloc, machine, world, first, rest, arguments)
        }
        SystemFunction::UpdateInstanceForDifferentClass => {
            update_different(alloc, machine, world, first, rest, arguments)
        }
        SystemFunction::SlotUnbound => {
            Err(signal_slot(alloc, ConditionKind::UnboundSlot, arguments.as_slice()))
        }
        SystemFunction::SlotMissing => {
            Err(signal_slot(alloc, ConditionKind::MissingSlot, arguments.as_slice()))
        }
        SystemFunction::NoApplicableMethod => Err(signal_unmatched(alloc, world, first, rest)),
        SystemFunction::NoNextMethod => Err(signal_no_next(alloc, rest)),
    }
}

/// The first of these values, and the others.
fn split(values: &[Value]) -> Option<(&Value, &[Value])>
    ensures { MatchOption result (map value_of values.now ≡ []) (λ p. map value_of values.now ≡ value_of p.0.now ∷ map
        value_of p.1.now) }
{
    values.split_first()
}

/// The method of initialize-instance.
fn initialize(
    alloc: Global,
    machine: &mut Machine,
    world: &World,
    object: &Value,
    initargs: &[Value],
) -> Result<Doing, Stop>
    ensures leads { Leads (here machine.old (λ ev env. initialize ev (map value_of initargs.now)
        (instance_in (value_of object.now)))) (seen world.now) result machine.new }
    ensures small { Grows value_weight machine.old.levels result machine.new }
{
    match instance_in(alloc, object) {
        Err(stop) => Err(stop),
        Ok(id) => initialize_shared(alloc, machine, world, id, t(), initargs),
    }
}

/// The method of reinitialize-instance.
fn reinitialize(
    alloc: Global,
    machine: &mut Machine,
    world: &mut World,
    object: &Value,
    initargs: &[Value],
    steps: &mut u64,
) -> Result<Doing, Stop>
    ensures turns { TurnsBy (here machine.old (λ ev env. reinitialize ev (map value_of initargs.now)
        (instance_in (value_of object.now)))) (seen world.old) steps.old (uses_of world.old) result machine.new
        (seen world.new) steps.new (uses_of world.new) }
    ensures small { Shrinks perform_weight steps.old steps.new machine.old.levels result machine.new }
    ensures fewer { steps.new ≤ steps.old }
{
    match instance_in(alloc, object) {
        Err(stop) => Err(stop),
        Ok(id) => update_and_reinitialize(alloc, machine, world, id, initargs, steps),
    }
}

/// An instance is initialized again, and updated before where it is stale.
#[tactic(auto, using(clos_machine::proofs::Uses::turns_storage))]
fn update_and_reinitialize(
    alloc: Global,
    machine: &mut Machine,
    world: &mut World,
    id: InstanceId,
    initargs: &[Value],
    steps: &mut u64,
) -> Result<Doing, Stop>
    ensures turns { TurnsBy (here machine.old (λ ev env. updated ev id.0
        (reinitialize_instance ev (map value_of initargs.now) id.0))) (seen world.old) steps.old (uses_of world.old)
        result machine.new (seen world.new) steps.new (uses_of world.new) }
    ensures small { Shrinks perform_weight steps.old steps.new machine.old.levels result machine.new }
    ensures fewer { steps.new ≤ steps.old }
{
    match due(world, id)? {
        None => reinitialize_instance(alloc, machine, world, id, initargs),
        Some(layout) => {
            let mut values = Values::new(alloc);
            values.push_all(initargs)?;
            let visit = Visit::Reinitialize(values);
            update(alloc, machine, world, id, &layout, visit, steps)
        }
    }
}

/// An instance, which is up to date, is initialized again.
pub fn reinitialize_instance(
    alloc: Global,
    machine: &mut Machine,
    world: &mut World,
    id: InstanceId,
    initargs: &[Value],
) -> Result<Doing, Stop>
    ensures leads { LeadsBy (here machine.old (λ ev env. reinitialize_instance ev (map value_of initargs.now) id.0))
        (seen world.old) (uses_of world.old) result machine.new (uses_of world.new) }
    ensures same { seen world.new ≡ seen world.old }
    ensures small { Grows value_weight machine.old.levels result machine.new }
{
    let function = SystemFunction::ReinitializeInstance;
    let object = [Value::Instance(id)];
    check_shared(
        alloc,
        machine,
        world,
        function,
        &object,
        &nil(),
        id,
        initargs,
    )
}

/// The method of shared-initialize.
fn initialize_slots(
    alloc: Global,
    machine: &mut Machine,
    world: &mut World,
    object: &Value,
    rest: &[Value],
    arguments: &Arguments,
    steps: &mut u64,
) -> Result<Doing, Stop>
    requires { arguments.now ≡ value_of object.now ∷ map value_of rest.now }
    ensures turns { Turns (here machine.old (λ ev env. system_method_run ev SharedInitialize arguments.now))
        (seen world.old) steps.old result machine.new (seen world.new) steps.new }
    ensures small { Shrinks perform_weight steps.old steps.new machine.old.levels result machine.new }
    ensures fewer { steps.new ≤ steps.old }
    ensures kept { uses_of world.new ≡ uses_of world.old }
{
    match split(rest) {
        None => Err(Stop::Refused(plain(alloc, ConditionKind::ProgramError))),
        Some((names, initargs)) => {
            if !are_even(initargs) {
                return Err(Stop::Refused(plain(alloc, ConditionKind::ProgramError)));
            }
            match instance_in(alloc, object) {
                Err(stop) => Err(stop),
                Ok(id) => {
                    if !are_slot_names(names) {
                        return Err(Stop::Refused(wrong_type(alloc, names)?));
                    }
                    update_and_fill(alloc, machine, world, id, arguments, steps)
                }
            }
        }
    }
}

/// The slots of an instance are filled, which is updated before where it is stale.
fn update_and_fill(
    alloc: Global,
    machine: &mut Machine,
    world: &mut World,
    id: InstanceId,
    arguments: &Arguments,
    steps: &mut u64,
) -> Result<Doing, Stop>
    ensures turns { Turns (here machine.old (λ ev env. updated ev id.0
        (slots_filled ev id.0 (names_in arguments.now) (initargs_in arguments.now)))) (seen world.old) steps.old result
        machine.new (seen world.new) steps.new }
    ensures small { Shrinks perform_weight steps.old steps.new machine.old.levels result machine.new }
    ensures fewer { steps.new ≤ steps.old }
    ensures kept { uses_of world.new ≡ uses_of world.old }
{
    match due(world, id)? {
        None => fill_instance(alloc, machine, world, id, arguments),
        Some(layout) => {
            let visit = Visit::Fill(arguments.copy()?);
            update(alloc, machine, world, id, &layout, visit, steps)
        }
    }
}

/// The slots of an instance, which is up to date, are filled, where initforms see no variables.
pub fn fill_instance(
    alloc: Global,
    machine: &mut Machine,
    world: &World,
    id: InstanceId,
    arguments: &Arguments,
) -> Result<Doing, Stop>
    ensures leads { Leads (here machine.old (λ ev env. slots_filled ev id.0 (names_in arguments.now)
        (initargs_in arguments.now))) (seen world.now) result machine.new }
    ensures small { Grows built_in_growth machine.old.levels result machine.new }
{
    match class_in(world, id)? {
        None => Err(Stop::Refused(plain(alloc, ConditionKind::ProgramError))),
        Some((class, effective)) => {
            let filling = Filling {
                instance: id,
                class,
                arguments: arguments.copy()?,
                effective,
                place: 0,
            };
            enter(alloc, machine)?;
            let Ok(filling) = Box::new(alloc, filling) else {
                return Err(Stop::Storage);
            };
            Ok(Doing::Tend(InstanceTask::Fill(filling)))
        }
    }
}

/// The condition of a slot: its name and an instance, which follow a class.
fn signal_slot(alloc: Global, kind: ConditionKind, arguments: &[Value]) -> Stop
    ensures { TellsCondition (slot_condition kind (map value_of arguments.now)) result }
{
    match about_slot(alloc, kind, arguments) {
        Ok(condition) => Stop::Refused(condition),
        Err(_) => Stop::Storage,
    }
}

fn about_slot(
    alloc: Global,
    kind: ConditionKind,
    arguments: &[Value],
) -> Result<Condition, AllocError>
    ensures { IfOk result (λ c. c ≡ slot_condition kind (map value_of arguments.now)) }
{
    match arguments {
        [_, instance, name, ..] => about_both(alloc, kind, name.copy()?, instance.copy()?),
        _ => Ok(plain(alloc, ConditionKind::ProgramError)),
    }
}

/// The condition that a method, the first of these, has no next method.
fn signal_no_next(alloc: Global, arguments: &[Value]) -> Stop
    ensures { TellsCondition (next_condition (map value_of arguments.now)) result }
{
    match about_no_next(alloc, arguments) {
        Ok(condition) => Stop::Refused(condition),
        Err(_) => Stop::Storage,
    }
}

fn about_no_next(alloc: Global, arguments: &[Value]) -> Result<Condition, AllocError>
    ensures { IfOk result (λ c. c ≡ next_condition (map value_of arguments.now)) }
{
    match arguments.split_first() {
        Some((method, _)) => about(alloc, ConditionKind::NoNextMethod, method.copy()?),
        None => Ok(plain(alloc, ConditionKind::ProgramError)),
    }
}

/// The condition that a generic function has no applicable method.
fn signal_unmatched(alloc: Global, world: &World, function: &Value, arguments: &[Value]) -> Stop
    ensures { TellsCondition (record {
      kind = NoApplicableMethod;
      items = told (seen world.now) (value_of function.now)
          ∷ map value_of arguments.now;
    }) result }
{
    match about_unmatched(alloc, world, function, arguments) {
        Ok(condition) => Stop::Refused(condition),
        Err(_) => Stop::Storage,
    }
}

fn about_unmatched(
    alloc: Global,
    world: &World,
    function: &Value,
    arguments: &[Value],
) -> Result<Condition, AllocError>
    ensures { IfOk result (λ c. c ≡ record {
      kind = NoApplicableMethod;
      items = told (seen world.now)
          (value_of function.now) ∷ map value_of arguments.now;
    }) }
{
    let mut items = Values::new(alloc);
    items.push(told(alloc, world, function)?)?;
    items.push_all(arguments)?;
    Ok(Condition {
        kind: ConditionKind::NoApplicableMethod,
        items,
    })
}

/// A generic function is told by its name.
fn told(alloc: Global, world: &World, value: &Value) -> Result<Value, AllocError>
    ensures { IfOk result (λ r. value_of r ≡ told (seen world.now) (value_of value.now)) }
{
    match value {
        Value::Generic(id) => match world.generics.function(*id) {
            Some(function) => called_value(alloc, function.name()),
            None => value.copy(),
        },
        _ => value.copy(),
    }
}
