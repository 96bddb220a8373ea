//! Instances that change their class (HyperSpec 7.2, 7.7 `change-class`).
ghost use Rattle.std.specs.Prelude.{◌≡◌, ◌≤◌, ◌∷◌, IfOk, IfSome, Some};
ghost use Rattle.lisp_data.specs.Value.{instance};
ghost use Rattle.lisp_data.specs.ValueView.{value_of};
ghost use Rattle.clos_machine.specs.clos_world.Class.{layout};
ghost use Rattle.clos_machine.specs.clos_world.clos_store.Store.{next_instance};
ghost use Rattle.clos_machine.specs.clos_world.Uses.{uses_of};
ghost use Rattle.clos_machine.specs.clos_world.World.{class_of_instance, seen};
ghost use Rattle.clos_machine.specs.Machine.{Shrinks, Turns, act_weight, here};
ghost use Rattle.clos_machine.specs.Updating.{IsThere};
ghost use Rattle.clos_machine.specs.clos_meaning.ChangeClass.{change_called, changed_of, changed_to, class_changed, if_there};
ghost use Rattle.clos_machine.specs.clos_meaning.Slots.{instance_in};
ghost use Rattle.clos_machine.specs.clos_meaning.Updating.{updated};

use crate::classes::designate;
use clos_class::Layout;
use clos_forms::Forms;
use clos_machine::fault::instance_in;
use clos_machine::machine::{Doing, Frame, Level, Machine, Visit};
use clos_machine::updating::{due, update};
use clos_machine::{ConditionKind, Stop, Values, World, plain};
use clos_method::SystemFunction;
use lisp_data::{ClassId, InstanceId, Value};
use std::alloc::{AllocError, Global};

/// A call of `change-class`.
pub fn change_class(
    alloc: Global,
    machine: &mut Machine,
    world: &mut World,
    mut values: Values,
    steps: &mut u64,
) -> Result<Doing, Stop>
    ensures turns { Turns (here machine.old (λ ev env. change_called ev values)) (seen world.old) steps.old result
        machine.new (seen world.new) steps.new }
    ensures small { Shrinks act_weight steps.old steps.new machine.old.levels result machine.new }
    ensures fewer { steps.new ≤ steps.old }
    ensures kept { uses_of world.new ≡ uses_of world.old }
{
    let Some(object) = values.take_first() else {
        return Err(Stop::Refused(plain(alloc, ConditionKind::ProgramError)));
    };
    match values.take_first() {
        None => {
            drop(object);
            Err(Stop::Refused(plain(alloc, ConditionKind::ProgramError)))
        }
        Some(class) => change_object(alloc, machine, world, object, class, values, steps),
    }
}

/// The instance that a value is changes its class to the one that another designates.
fn change_object(
    alloc: Global,
    machine: &mut Machine,
    world: &mut World,
    object: Value,
    class: Value,
    initargs: Values,
    steps: &mut u64,
) -> Result<Doing, Stop>
    ensures turns { Turns (here machine.old (λ ev env. changed_of ev (value_of class) initargs
        (instance_in (value_of object)))) (seen world.old) steps.old result machine.new (seen world.new) steps.new }
    ensures small { Shrinks act_weight steps.old steps.new machine.old.levels result machine.new }
    ensures fewer { steps.new ≤ steps.old }
    ensures kept { uses_of world.new ≡ uses_of world.old }
{
    match instance_in(alloc, &object) {
        Err(stop) => {
            drop(class);
            Err(stop)
        }
        Ok(id) => match designate(alloc, world, class) {
            Err(stop) => Err(stop),
            Ok(class) => update_and_change(alloc, machine, world, id, class, initargs, steps),
        },
    }
}

/// An instance changes its class, and is updated before where it is stale.
fn update_and_change(
    alloc: Global,
    machine: &mut Machine,
    world: &mut World,
    id: InstanceId,
    class: ClassId,
    initargs: Values,
    steps: &mut u64,
) -> Result<Doing, Stop>
    ensures turns { Turns (here machine.old (λ ev env. updated ev id.0 (changed_to ev id.0 class.0 initargs)))
        (seen world.old) steps.old result machine.new (seen world.new) steps.new }
    ensures small { Shrinks act_weight steps.old steps.new machine.old.levels result machine.new }
    ensures fewer { steps.new ≤ steps.old }
    ensures kept { uses_of world.new ≡ uses_of world.old }
{
    match due(world, id)? {
        None => change_to(alloc, machine, world, id, class, initargs, steps),
        Some(layout) => {
            let visit = Visit::ChangeClass(class, initargs);
            update(alloc, machine, world, id, &layout, visit, steps)
        }
    }
}

/// The layout of a class, for an instance that there is.
fn layout_for(world: &World, id: InstanceId, class: ClassId) -> Result<Option<Layout>, AllocError>
    ensures layout { IfOk result (λ r. r ≡ if_there (class_of_instance (seen world.now) id.0)
        (layout (seen world.now).classes class.0)) }
    ensures there { IfOk result (λ r. IfSome r (λ l. IsThere (seen world.now) id.0)) }
{
    match world.store().class_of(id) {
        None => Ok(None),
        Some(_) => match world.classes().layout(class) {
            None => Ok(None),
            Some(layout) => Ok(Some(layout.copy()?)),
        },
    }
}

/// An instance, which is up to date, changes its class, where a copy of it may be made.
pub fn change_to(
    alloc: Global,
    machine: &mut Machine,
    world: &mut World,
    id: InstanceId,
    class: ClassId,
    initargs: Values,
    steps: &mut u64,
) -> Result<Doing, Stop>
    ensures turns { Turns (here machine.old (λ ev env. changed_to ev id.0 class.0 initargs)) (seen world.old) steps.old
        result machine.new (seen world.new) steps.new }
    ensures small { Shrinks act_weight steps.old steps.new machine.old.levels result machine.new }
    ensures fewer { steps.new ≤ steps.old }
    ensures kept { uses_of world.new ≡ uses_of world.old }
{
    let Some(copy) = world.store().next_instance() else {
        return Err(Stop::Refused(plain(alloc, ConditionKind::TableLimit)));
    };
    match layout_for(world, id, class)? {
        None => Err(Stop::Refused(plain(alloc, ConditionKind::ProgramError))),
        Some(layout) => change(
            alloc, machine, world, copy, id, class, &layout, initargs, steps,
        ),
    }
}

/// The instance becomes one of this class with this layout, and its copy is made, in one step; then
/// update-instance-for-different-class is called with both, and the instance is given.
fn change(
    alloc: Global,
    machine: &mut Machine,
    world: &mut World,
    copy: InstanceId,
    id: InstanceId,
    class: ClassId,
    layout: &Layout,
    initargs: Values,
    steps: &mut u64,
) -> Result<Doing, Stop>
    requires there { IsThere (seen world.old) id.0 }
    requires next { Some copy.0 ≡ next_instance (seen world.old).store }
    ensures turns { Turns (here machine.old (λ ev env. class_changed ev id.0 class.0 layout.now initargs))
        (seen world.old) steps.old result machine.new (seen world.new) steps.new }
    ensures small { Shrinks act_weight steps.old steps.new machine.old.levels result machine.new }
    ensures fewer { steps.new ≤ steps.old }
    ensures kept { uses_of world.new ≡ uses_of world.old }
{
    if *steps == 0 {
        return Err(Stop::Refused(plain(alloc, ConditionKind::StepLimit)));
    }
    let arguments = arguments(copy, id, initargs)?;
    let room = machine.room;
    let frame = Frame::Keep(Forms::new(), Value::Instance(id));
    machine.levels.push(Level { frame, room })?;
    let Ok(_) = world.objects.change(alloc, id, class, layout) else {
        return Err(Stop::Storage);
    };
    *steps -= 1;
    Ok(Doing::Invoke(SystemFunction::UpdateInstanceForDifferentClass, arguments))
}

/// The copy and the instance, before the initargs.
fn arguments(copy: InstanceId, id: InstanceId, mut initargs: Values) -> Result<Values, AllocError>
    ensures { IfOk result (λ r. r ≡ instance copy.0 ∷ instance id.0 ∷ initargs) }
{
    initargs.push_first(Value::Instance(id))?;
    initargs.push_first(Value::Instance(copy))?;
    Ok(initargs)
}
