//! The system's methods of the functions that update instances (HyperSpec 4.3.6.2, 7.2.2).
ghost use Rattle.std.specs.Prelude.{◌≡◌, ◌∷◌, not, IfOk, map, option_map};
ghost use Rattle.std.specs.List.{filter};
ghost use Rattle.lisp_data.specs.ValueView.{value_of};
ghost use Rattle.clos_machine.specs.clos_world.Uses.{uses_of};
ghost use Rattle.clos_machine.specs.clos_world.World.{seen};
ghost use Rattle.clos_machine.specs.Uses.{LeadsBy};
ghost use Rattle.clos_machine.specs.Machine.{Grows, value_weight, here};
ghost use Rattle.clos_machine.specs.clos_meaning.SystemMethods.{different_from, different_with, new_slots, system_method_run};
ghost use Rattle.clos_machine.specs.clos_meaning.Slots.{has_slot, instance_in};
ghost use Rattle.clos_machine.specs.clos_meaning.Updating.{names_listed};
ghost use Rattle.clos_method.specs.declared.system.SystemFunction.TheVariants.{UpdateInstanceForDifferentClass, UpdateInstanceForRedefinedClass};
ghost use Rattle.clos_objects.specs.Objects.{current_and_initargs, names_and_initargs};

use crate::shared::check_shared;
use clos_machine::fault::instance_in;
use clos_machine::machine::{Doing, Machine};
use clos_machine::updating::{layout_of, names_listed};
use clos_machine::{Arguments, ConditionKind, Stop, World, plain};
use clos_method::SystemFunction;
use lisp_data::{ClassId, InstanceId, Name, Value};
use std::alloc::{AllocError, Global};

/// The names of the new slots and the initargs, after the instance.
fn names_and_initargs(rest: &[Value]) -> Option<(&Value, &[Value])>
    ensures { option_map (λ p. (value_of p.0.now, map value_of p.1.now)) result ≡ names_and_initargs
        (map value_of rest.now) }
{
    match rest {
        [names, _, _, initargs @ ..] => Some((names, initargs)),
        _ => None,
    }
}

/// The instance and the initargs, after the copy.
fn current_and_initargs(rest: &[Value]) -> Option<(&Value, &[Value])>
    ensures { option_map (λ p. (value_of p.0.now, map value_of p.1.now)) result ≡ current_and_initargs
        (map value_of rest.now) }
{
    match rest {
        [current, initargs @ ..] => Some((current, initargs)),
        _ => None,
    }
}

/// The method of update-instance-for-redefined-class.
pub fn update_redefined(
    alloc: Global,
    machine: &mut Machine,
    world: &mut World,
    object: &Value,
    rest: &[Value],
    arguments: &Arguments,
) -> Result<Doing, Stop>
    requires { arguments.now ≡ value_of object.now ∷ map value_of rest.now }
    ensures leads { LeadsBy (here machine.old (λ ev env. system_method_run ev UpdateInstanceForRedefinedClass
        arguments.now)) (seen world.old) (uses_of world.old) result machine.new (uses_of world.new) }
    ensures same { seen world.new ≡ seen world.old }
    ensures small { Grows value_weight machine.old.levels result machine.new }
{
    let Some((names, initargs)) = names_and_initargs(rest) else {
        return Err(Stop::Refused(plain(alloc, ConditionKind::ProgramError)));
    };
    match instance_in(alloc, object) {
        Err(stop) => Err(stop),
        Ok(id) => {
            let function = SystemFunction::UpdateInstanceForRedefinedClass;
            let given = arguments.as_slice();
            check_shared(alloc, machine, world, function, given, names, id, initargs)
        }
    }
}

/// The method of update-instance-for-different-class.
pub fn update_different(
    alloc: Global,
    machine: &mut Machine,
    world: &mut World,
    previous: &Value,
    rest: &[Value],
    arguments: &Arguments,
) -> Result<Doing, Stop>
    requires { arguments.now ≡ value_of previous.now ∷ map value_of rest.now }
    ensures leads { LeadsBy (here machine.old (λ ev env. system_method_run ev UpdateInstanceForDifferentClass
        arguments.now)) (seen world.old) (uses_of world.old) result machine.new (uses_of world.new) }
    ensures same { seen world.new ≡ seen world.old }
    ensures small { Grows value_weight machine.old.levels result machine.new }
{
    let Some((current, initargs)) = current_and_initargs(rest) else {
        return Err(Stop::Refused(plain(alloc, ConditionKind::ProgramError)));
    };
    match instance_in(alloc, previous) {
        Err(stop) => Err(stop),
        Ok(copy) => {
            let given = arguments.as_slice();
            update_from(alloc, machine, world, given, copy, current, initargs)
        }
    }
}

/// The same with this copy.
fn update_from(
    alloc: Global,
    machine: &mut Machine,
    world: &mut World,
    arguments: &[Value],
    copy: InstanceId,
    current: &Value,
    initargs: &[Value],
) -> Result<Doing, Stop>
    ensures leads { LeadsBy (here machine.old (λ ev env. different_from ev (map value_of arguments.now)
        (map value_of initargs.now) copy.0 (instance_in (value_of current.now)))) (seen world.old) (uses_of world.old)
        result machine.new (uses_of world.new) }
    ensures same { seen world.new ≡ seen world.old }
    ensures small { Grows value_weight machine.old.levels result machine.new }
{
    match instance_in(alloc, current) {
        Err(stop) => Err(stop),
        Ok(id) => update_to(alloc, machine, world, arguments, copy, id, initargs),
    }
}

/// The same with this instance.
#[tactic(auto, using(clos_machine::proofs::Uses::leads_storage))]
fn update_to(
    alloc: Global,
    machine: &mut Machine,
    world: &mut World,
    arguments: &[Value],
    copy: InstanceId,
    id: InstanceId,
    initargs: &[Value],
) -> Result<Doing, Stop>
    ensures leads { LeadsBy (here machine.old (λ ev env w. different_with ev (map value_of arguments.now)
        (map value_of initargs.now) id.0 (names_listed (new_slots w copy.0 id.0)) w)) (seen world.old)
        (uses_of world.old) result machine.new (uses_of world.new) }
    ensures same { seen world.new ≡ seen world.old }
    ensures small { Grows value_weight machine.old.levels result machine.new }
{
    let names = new_slots(alloc, world, copy, id)?;
    match names_listed(alloc, names.as_slice()) {
        Err(stop) => Err(stop),
        Ok(names) => {
            let function = SystemFunction::UpdateInstanceForDifferentClass;
            check_shared(
                alloc, machine, world, function, arguments, &names, id, initargs,
            )
        }
    }
}

/// The local slots of the class of an instance that the class of its copy has no slots of.
fn new_slots(
    alloc: Global,
    world: &World,
    copy: InstanceId,
    id: InstanceId,
) -> Result<Vec<Name>, AllocError>
    ensures { IfOk result (λ r. r.items ≡ new_slots (seen world.now) copy.0 id.0) }
{
    let before = world.store().class_of(copy);
    match layout_of(world, id) {
        None => Ok(Vec::new(alloc)),
        Some(layout) => lacking(alloc, world, before, layout.locals().as_slice()),
    }
}

/// Those of these names that a class has no slots of.
fn lacking(
    alloc: Global,
    world: &World,
    class: Option<ClassId>,
    names: &[Name],
) -> Result<Vec<Name>, AllocError>
    ensures { IfOk result (λ r. r.items ≡ filter (λ n. not (has_slot (seen world.now).classes
        (option_map (λ c. c.0) class) n)) names.now) }
{
    let mut found = Vec::new(alloc);
    let mut left = names;
    while let Some((name, others)) = left.split_first() {
        if !has_slot(world, class, name) {
            found.push(name.copy()?)?;
        }
        left = others;
    }
    Ok(found)
}

fn has_slot(world: &World, class: Option<ClassId>, name: &Name) -> bool
    ensures { result ≡ has_slot (seen world.now).classes (option_map (λ c. c.0) class) name.now }
{
    match class {
        None => false,
        Some(class) => world.classes().slot(class, name).is_some(),
    }
}
