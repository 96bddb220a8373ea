//! What the items of a condition stand for.
use clos_look::World;
use lisp_data::{ClassId, GenericId, Name, Value};

/// The name that a value is, if it is a symbol.
pub fn symbol(value: &Value) -> Option<&Name> {
    match value {
        Value::Sym(name) => Some(name),
        _ => None,
    }
}

/// The class that a value is or names.
pub fn class(world: &World, value: &Value) -> Option<ClassId> {
    match value {
        Value::Class(id) => Some(*id),
        Value::Sym(name) => world.classes().hierarchy().named(name),
        _ => None,
    }
}

/// The symbol that follows the first element of a list.
fn second_symbol(value: &Value) -> Option<&Name> {
    let Value::List(items) = value else {
        return None;
    };
    let (_, rest) = items.split_first()?;
    let (second, _) = rest.split_first()?;
    symbol(second)
}

/// The generic function that a value is, or that is called so: by a symbol, or by the list of SETF and one.
pub fn generic(world: &World, value: &Value) -> Option<GenericId> {
    match value {
        Value::Generic(id) => Some(*id),
        Value::Sym(name) => world.generics.named_by_symbol(name),
        _ => world.generics.named_by_setf(second_symbol(value)?),
    }
}
