//! What a quote form quotes (HyperSpec 3.8 `quote`).
ghost use Rattle.std.specs.Prelude.{◌≡◌, IfOk, map, option_map, Some};
ghost use Rattle.lisp_data.specs.DatumView.{datum_of};
ghost use Rattle.lisp_data.specs.Value.{nil};
ghost use Rattle.lisp_data.specs.ValueView.{value_of};
ghost use Rattle.clos_forms.specs.Quotation.{name_value, prepended, quotation, quotations, with_front};

use clos_names::is_the;
use lisp_data::{Data, Datum, Items, ListFault, Name, Value};
use std::alloc::{AllocError, Global};

/// The symbol of this name as a value: NIL is the empty list.
pub fn value_named(name: &Name) -> Result<Value, AllocError>
    ensures { IfOk result (λ v. value_of v ≡ name_value name.now) }
{
    if is_the(name, "NIL") {
        return Ok(Value::List(Items::new()));
    }
    Ok(Value::Sym(name.copy()?))
}

/// The value of a quoted datum, or None: a dotted list, one past the limits of lists, and a method have none.
#[cycle(quote)]
pub fn quoted_value(alloc: Global, datum: &Datum) -> Result<Option<Value>, AllocError>
    ensures { IfOk result (λ r. option_map value_of r ≡ quotation (datum_of datum.now)) }
{
    match datum {
        Datum::Int(number) => Ok(Some(Value::Int(*number))),
        Datum::Sym(name) => Ok(Some(value_named(name)?)),
        Datum::Str(text) => Ok(Some(Value::Str(text.copy()?))),
        Datum::List(elements) => match quoted_values(alloc, elements)? {
            None => Ok(None),
            Some(items) => Ok(Some(Value::List(items))),
        },
        Datum::Dotted(_) => Ok(None),
        Datum::Method(_) => Ok(None),
    }
}

#[tactic(auto, using(crate::proofs::Quoting::prepended_one, crate::proofs::Quoting::prepended_none))]
#[cycle(quote)]
fn quoted_values(alloc: Global, elements: &Data) -> Result<Option<Items>, AllocError>
    ensures { IfOk result (λ r. r ≡ quotations elements.now) }
{
    let mut values = Vec::new(alloc);
    let mut rest = elements;
    while let Some((first, others)) = rest.split_first() {
        match quoted_value(alloc, first)? {
            None => return Ok(None),
            Some(value) => values.push(value)?,
        }
        rest = others;
    }
    items_from(alloc, values)
}

/// The list of these values, or None where it would be too long or too deep.
#[tactic(auto, using(crate::proofs::Quoting::prepended_push, crate::proofs::Quoting::prepended_none))]
fn items_from(alloc: Global, mut values: Vec<Value>) -> Result<Option<Items>, AllocError>
    ensures { IfOk result (λ r. r ≡ prepended (map value_of values.items) (Some nil)) }
{
    let mut items = Items::new();
    while let Some(value) = values.pop() {
        match with_front(alloc, value, items)? {
            None => return Ok(None),
            Some(list) => items = list,
        }
    }
    Ok(Some(items))
}

/// The list of this value and these, or None where it would be too long or too deep.
fn with_front(alloc: Global, value: Value, items: Items) -> Result<Option<Items>, AllocError>
    ensures { IfOk result (λ r. r ≡ with_front (Some (value_of value)) (Some items)) }
{
    match Items::cons(alloc, value, items) {
        Ok(list) => Ok(Some(list)),
        Err(ListFault::Limit) => Ok(None),
        Err(ListFault::Memory) => Err(AllocError),
    }
}
