//! Calls of generic functions whose arguments are evaluated by themselves, to see the methods that fit them.
ghost use Rattle.std.specs.Prelude.{◌≡◌, IfNone, IfOk, IfSome};
ghost use Rattle.lisp_data.specs.Datum.{Dats};
ghost use Rattle.lisp_data.specs.DatumView.{datum_of};
ghost use Rattle.clos_ending.specs.clos_system.clos_world.World.{seen};
ghost use Rattle.clos_commentary.specs.Call.{IsCall, form_of_arguments};

use clos_explain::{World, methods_page};
use lisp_data::{Data, Datum, GenericId, Items, Name, Value};
use std::alloc::{AllocError, Global};

/// The generic function of a call, and what follows its name.
pub fn call_of<'a>(world: &World, call: &'a Datum) -> Option<(GenericId, &'a Data)>
    ensures some { IfSome result (λ r. IsCall (seen world.now) (datum_of call.now) r.1.now) }
    ensures none { IfNone result ((arguments : Dats) → ¬ (IsCall (seen world.now) (datum_of call.now) arguments)) }
{
    let Datum::List(items) = call else {
        return None;
    };
    match items.split_first() {
        Some((Datum::Sym(name), rest)) => match world.generics.named_by_symbol(name) {
            Some(id) => Some((id, rest)),
            None => None,
        },
        _ => None,
    }
}

/// The form whose value are the values of these arguments.
pub fn form_of_arguments(alloc: Global, arguments: &Data) -> Result<Datum, AllocError>
    ensures { IfOk result (λ r. datum_of r ≡ form_of_arguments arguments.now) }
{
    match Data::cons(alloc, Datum::Sym(Name::fixed(&"LIST")), arguments.copy()?) {
        Ok(items) => Ok(Datum::List(items)),
        Err(_) => Err(AllocError),
    }
}

/// The elements of a list.
fn elements(alloc: Global, list: &Value) -> Result<Vec<Value>, AllocError> {
    let mut found = Vec::new(alloc);
    let Value::List(items) = list else {
        return Ok(found);
    };
    let mut rest: &Items = items;
    for _ in 0..items.len() {
        let Some((first, others)) = rest.split_first() else {
            break;
        };
        found.push(first.copy()?)?;
        rest = others;
    }
    Ok(found)
}

/// What is shown of the methods that fit the elements of a list.
pub fn fitting_page(
    alloc: Global,
    world: &World,
    id: GenericId,
    list: &Value,
) -> Result<Vec<u8>, AllocError> {
    let arguments = elements(alloc, list)?;
    methods_page(alloc, world, id, arguments.as_slice())
}
