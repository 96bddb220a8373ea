//! Instances whose class was defined again (HyperSpec 4.3.6): each is updated before its slots are looked at.
ghost use Rattle.std.specs.Prelude.{◌≡◌, ◌≤◌, ◌∷◌, [], IfOk, Some, map, option_copied};
ghost use Rattle.lisp_data.specs.Value.{instance};
ghost use Rattle.lisp_data.specs.ValueView.{value_of};
ghost use Rattle.clos_forms.specs.Quotation.{name_value};
ghost use Rattle.clos_meaning.specs.clos_world.clos_store.UpdateView.{values_of};
ghost use Rattle.clos_meaning.specs.clos_world.Uses.{uses_of};
ghost use Rattle.clos_meaning.specs.clos_world.World.{class_of_instance, seen};
ghost use Rattle.clos_meaning.specs.ClassFunctions.{Tells};
ghost use Rattle.clos_meaning.specs.Updating.{due, layout_if, listed, names_listed, properties, restructured, told, updated};
ghost use Rattle.clos_machine.specs.Machine.{Shrinks, Turns, act_weight, here, visited};
ghost use Rattle.clos_machine.specs.Updating.{IsThere, TellsArguments, TellsValues};

use crate::fault::of_function;
use crate::machine::{Doing, Frame, Level, Machine, Visit};
use clos_forms::value_named;
use clos_meaning::{
    ConditionKind, Discarded, Layout, Lost, Stop, SystemFunction, Values, World, plain,
};
use lisp_data::{InstanceId, Name, Value};
use lisp_prims::{ListFunction, Primitive, apply};
use std::alloc::{AllocError, Global};

/// The layout of the class of an instance.
pub fn layout_of(world: &World, id: InstanceId) -> Option<&Layout>
    ensures { option_copied result ≡ layout_if (seen world.now) (class_of_instance (seen world.now) id.0) }
{
    match world.store().class_of(id) {
        None => None,
        Some(class) => world.classes().layout(class),
    }
}

/// The layout that the class of an instance has now, where the instance keeps another.
pub fn due(world: &mut World, id: InstanceId) -> Result<Option<Layout>, AllocError>
    ensures value { IfOk result (λ r. r ≡ due (seen world.old) id.0) }
    ensures same { seen world.new ≡ seen world.old }
    ensures kept { uses_of world.new ≡ uses_of world.old }
{
    world.objects.due(id)
}

/// The list of these values, unless it is past the limits on lists.
pub fn listed(alloc: Global, values: &[Value]) -> Result<Value, Stop>
    ensures { Tells (listed (map value_of values.now)) result }
{
    match apply(Primitive::Listed(ListFunction::List), alloc, values) {
        Ok(list) => Ok(list),
        Err(fault) => Err(of_function(alloc, fault)),
    }
}

fn name_values(alloc: Global, names: &[Name]) -> Result<Values, AllocError>
    ensures { IfOk result (λ r. r ≡ map name_value names.now) }
{
    let mut values = Values::new(alloc);
    let mut left = names;
    while let Some((name, others)) = left.split_first() {
        values.push(value_named(name)?)?;
        left = others;
    }
    Ok(values)
}

/// The list of these names.
pub fn names_listed(alloc: Global, names: &[Name]) -> Result<Value, Stop>
    ensures { Tells (names_listed names.now) result }
{
    let values = name_values(alloc, names)?;
    listed(alloc, values.as_slice())
}

/// Each name with its value after it.
fn properties(alloc: Global, lost: &[Lost]) -> Result<Values, AllocError>
    ensures { IfOk result (λ r. r ≡ properties (values_of lost.now)) }
{
    let mut values = Values::new(alloc);
    let mut left = lost;
    while let Some((first, others)) = left.split_first() {
        values.push(value_named(&first.slot)?)?;
        values.push(first.value.copy()?)?;
        left = others;
    }
    Ok(values)
}

fn properties_listed(alloc: Global, lost: &[Lost]) -> Result<Value, Stop>
    ensures { Tells (listed (properties (values_of lost.now))) result }
{
    let values = properties(alloc, lost)?;
    listed(alloc, values.as_slice())
}

/// An instance and these three lists.
fn arguments(
    alloc: Global,
    id: InstanceId,
    added: Value,
    discarded: Value,
    properties: Value,
) -> Result<Values, AllocError>
    ensures { IfOk result (λ r. r ≡ instance id.0 ∷ value_of added ∷ value_of discarded ∷ value_of properties ∷ []) }
{
    let mut values = Values::new(alloc);
    values.push(Value::Instance(id))?;
    values.push(added)?;
    values.push(discarded)?;
    values.push(properties)?;
    Ok(values)
}

/// The arguments of update-instance-for-redefined-class where this is told of an instance.
fn arguments_for(alloc: Global, id: InstanceId, told: &Discarded) -> Result<Values, Stop>
    ensures { TellsArguments id.0 told.now result }
{
    let added = names_listed(alloc, told.added.as_slice())?;
    let discarded = names_listed(alloc, told.discarded.as_slice())?;
    let properties = properties_listed(alloc, told.values.as_slice())?;
    Ok(arguments(alloc, id, added, discarded, properties)?)
}

/// The same where an instance is given this layout.
fn told(alloc: Global, world: &World, id: InstanceId, layout: &Layout) -> Result<Values, Stop>
    requires { IsThere (seen world.now) id.0 }
    ensures { TellsValues (told (seen world.now) id.0 layout.now) result }
{
    let discarded = world.store().discarded(alloc, id, layout)?;
    arguments_for(alloc, id, &discarded)
}

/// An instance gets this layout, in one step, and update-instance-for-redefined-class is called; then the instance is up to
/// date, and this is done with it.
pub fn update(
    alloc: Global,
    machine: &mut Machine,
    world: &mut World,
    id: InstanceId,
    layout: &Layout,
    visit: Visit,
    steps: &mut u64,
) -> Result<Doing, Stop>
    requires { due (seen world.old) id.0 ≡ Some layout.now }
    ensures turns { Turns (here machine.old (λ ev env. updated ev id.0 (visited ev env id.0 visit))) (seen world.old)
        steps.old result machine.new (seen world.new) steps.new }
    ensures small { Shrinks act_weight steps.old steps.new machine.old.levels result machine.new }
    ensures fewer { steps.new ≤ steps.old }
    ensures kept { uses_of world.new ≡ uses_of world.old }
{
    match told(alloc, world, id, layout) {
        Err(stop) => {
            drop(visit);
            Err(stop)
        }
        Ok(arguments) => restructure(alloc, machine, world, id, layout, arguments, visit, steps),
    }
}

/// The same with these arguments of update-instance-for-redefined-class.
fn restructure(
    alloc: Global,
    machine: &mut Machine,
    world: &mut World,
    id: InstanceId,
    layout: &Layout,
    arguments: Values,
    visit: Visit,
    steps: &mut u64,
) -> Result<Doing, Stop>
    requires { IsThere (seen world.old) id.0 }
    ensures turns { Turns (here machine.old (λ ev env. restructured ev id.0 layout.now arguments
        (visited ev env id.0 visit))) (seen world.old) steps.old result machine.new (seen world.new) steps.new }
    ensures small { Shrinks act_weight steps.old steps.new machine.old.levels result machine.new }
    ensures fewer { steps.new ≤ steps.old }
    ensures kept { uses_of world.new ≡ uses_of world.old }
{
    if *steps == 0 {
        drop(visit);
        return Err(Stop::Refused(plain(alloc, ConditionKind::StepLimit)));
    }
    let room = machine.room;
    let Ok(visit) = Box::new(alloc, visit) else {
        return Err(Stop::Storage);
    };
    let frame = Frame::Updated(id, visit);
    machine.levels.push(Level { frame, room })?;
    let Ok(()) = world.objects.restructure(alloc, id, layout) else {
        return Err(Stop::Storage);
    };
    *steps -= 1;
    Ok(Doing::Invoke(SystemFunction::UpdateInstanceForRedefinedClass, arguments))
}
