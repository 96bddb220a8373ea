//! The classes of which instances can be made (HyperSpec 7.1.1).
ghost use Rattle.std.specs.Prelude.{◌≡◌};
ghost use Rattle.lisp_data.specs.Value.{list};
ghost use Rattle.lisp_data.specs.ValueView.{value_of};
ghost use Rattle.clos_machine.specs.clos_world.Class.{named};
ghost use Rattle.clos_machine.specs.clos_world.World.{seen};
ghost use Rattle.clos_machine.specs.Machine.{Designates};
ghost use Rattle.clos_machine.specs.clos_meaning.Objects.{class_found, designated, instantiable};

use clos_machine::fault::incomplete_class;
use clos_machine::{ConditionKind, Stop, World, about, about_name, plain};
use lisp_data::{ClassId, Items, Name, Value};
use std::alloc::Global;

/// The class that a value designates, if there can be instances of it.
pub fn designate(alloc: Global, world: &World, value: Value) -> Result<ClassId, Stop>
    ensures { Designates (designated (seen world.now).classes (value_of value)) result }
{
    match &value {
        Value::Sym(name) => found(alloc, world, name),
        Value::List(items) => designate_list(alloc, world, items),
        Value::Class(id) => instantiate(alloc, world, *id),
        _ => Err(Stop::Refused(about(alloc, ConditionKind::TypeError, value)?)),
    }
}

/// Of the lists only NIL, a symbol, may name a class.
fn designate_list(alloc: Global, world: &World, items: &Items) -> Result<ClassId, Stop>
    ensures { Designates (designated (seen world.now).classes (list items.now)) result }
{
    match items.split_first() {
        None => found(alloc, world, &Name::fixed(&"NIL")),
        Some(_) => {
            let list = Value::List(items.copy()?);
            Err(Stop::Refused(about(alloc, ConditionKind::TypeError, list)?))
        }
    }
}

fn found(alloc: Global, world: &World, name: &Name) -> Result<ClassId, Stop>
    ensures { Designates (class_found (seen world.now).classes name.now (named (seen world.now).classes name.now))
        result }
{
    match world.classes().hierarchy().named(name) {
        None => Err(Stop::Refused(about_name(alloc, ConditionKind::UndefinedClass, name)?)),
        Some(id) => instantiate(alloc, world, id),
    }
}

/// The class itself, if there can be instances of it.
fn instantiate(alloc: Global, world: &World, id: ClassId) -> Result<ClassId, Stop>
    ensures { Designates (instantiable (seen world.now).classes id.0) result }
{
    if !world.classes().hierarchy().is_standard(id) {
        return Err(Stop::Refused(plain(alloc, ConditionKind::Unsupported)));
    }
    match world.classes().hierarchy().precedence(id) {
        None => Err(Stop::Refused(incomplete_class(alloc, world, id)?)),
        Some(_) => Ok(id),
    }
}
