//! Notices as they are printed.
ghost use Rattle.std.specs.Prelude.{◌≡◌, IfOk};
ghost use Rattle.lisp_data.specs.Name.{Name};
ghost use Rattle.lisp_data.specs.ValueView.{value_of};
ghost use Rattle.clos_perform.specs.clos_world.World.{seen};
ghost use Rattle.clos_session.specs.Notices.{class_told, function_told, notice_text, notice_value, told_of};

use clos_forms::value_named;
use clos_perform::{Notice, World, called_value};
use lisp_data::{ClassId, GenericId, Items, Name, Naming, Value, prin1};
use std::alloc::{AllocError, Global};

/// The list of a word and a value.
fn told_of(alloc: Global, word: &Name, value: Value) -> Result<Value, AllocError>
    ensures { IfOk result (λ r. value_of r ≡ told_of word.now (value_of value)) }
{
    let Ok(items) = Items::cons(alloc, value, Items::new()) else {
        return Err(AllocError);
    };
    let Ok(items) = Items::cons(alloc, value_named(word)?, items) else {
        return Err(AllocError);
    };
    Ok(Value::List(items))
}

/// The name of a class.
fn class_told(world: &World, id: ClassId) -> Result<Value, AllocError>
    ensures { IfOk result (λ r. value_of r ≡ class_told (seen world.now) id.0) }
{
    match world.class_name(id) {
        Some(name) => value_named(name),
        None => Ok(Value::Class(id)),
    }
}

/// The name of a generic function.
fn function_told(alloc: Global, world: &World, id: GenericId) -> Result<Value, AllocError>
    ensures { IfOk result (λ r. value_of r ≡ function_told (seen world.now) id.0) }
{
    match world.generics.function(id) {
        Some(function) => called_value(alloc, function.name()),
        None => Ok(Value::Generic(id)),
    }
}

/// What a notice is, and of what.
fn notice_value(alloc: Global, world: &World, notice: &Notice) -> Result<Value, AllocError>
    ensures { IfOk result (λ r. value_of r ≡ notice_value (seen world.now) notice.now) }
{
    match notice {
        Notice::ClassRedefined(id) => {
            told_of(
                alloc,
                &Name::fixed(&"CLASS-REDEFINED"),
                class_told(world, *id)?,
            )
        }
        Notice::MethodAdded(_, id) => {
            told_of(alloc, &Name::fixed(&"METHOD-ADDED"), Value::Method(*id))
        }
        Notice::MethodRemoved(_, id) => {
            told_of(alloc, &Name::fixed(&"METHOD-REMOVED"), Value::Method(*id))
        }
        Notice::GenericRedefined(id) => {
            let name = function_told(alloc, world, *id)?;
            told_of(alloc, &Name::fixed(&"GENERIC-REDEFINED"), name)
        }
    }
}

/// The bytes that a notice prints as: a list of its kind and of what it is about, a method, or the name of a class or function.
pub fn print_notice(alloc: Global, world: &World, notice: &Notice) -> Result<Vec<u8>, AllocError>
    ensures { IfOk result (λ r. r.items ≡ notice_text (seen world.now) notice.now) }
{
    let value = notice_value(alloc, world, notice)?;
    prin1(alloc, &value, world)
}
