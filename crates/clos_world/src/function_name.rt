//! The names of functions as values (HyperSpec glossary, "function name").
ghost use Rattle.std.specs.Prelude.{◌≡◌, IfOk};
ghost use Rattle.lisp_data.specs.ValueView.{value_of};
ghost use Rattle.clos_world.specs.FunctionName.{called_value, setter_value};

use clos_forms::{FunctionName, value_named};
use lisp_data::{Items, Name, Value};
use std::alloc::{AllocError, Global};

/// The list of SETF and this name.
pub fn setter_value(alloc: Global, name: &Name) -> Result<Value, AllocError>
    ensures { IfOk result (λ r. value_of r ≡ setter_value name.now) }
{
    let Ok(names) = Items::cons(alloc, value_named(name)?, Items::new()) else {
        return Err(AllocError);
    };
    let Ok(names) = Items::cons(alloc, value_named(&Name::fixed(&"SETF"))?, names) else {
        return Err(AllocError);
    };
    Ok(Value::List(names))
}

/// The name of a function: a symbol, or the list of SETF and one.
pub fn called_value(alloc: Global, name: &FunctionName) -> Result<Value, AllocError>
    ensures { IfOk result (λ r. value_of r ≡ called_value name.now) }
{
    match name {
        FunctionName::Symbol(name) => value_named(name),
        FunctionName::Setf(name) => setter_value(alloc, name),
    }
}
