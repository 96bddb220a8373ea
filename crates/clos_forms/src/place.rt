//! Places and what stores into them (HyperSpec 5.1, 5.3 `setf`, 12.2 `incf`).
ghost use Rattle.std.specs.Prelude.{◌≡◌, ◌++◌, IfOk, map};
ghost use Rattle.lisp_data.specs.DatumView.{datum_of};
ghost use Rattle.clos_forms.specs.Fault.{Gives};
ghost use Rattle.clos_forms.specs.OperatorView.{operator_of};
ghost use Rattle.clos_forms.specs.PartView.{part_of, shape_told};
ghost use Rattle.clos_forms.specs.Place.{change_shape, listed_place, named_place, place_shape, setf_parts, setf_shape};

use crate::fault::SyntaxFault;
use crate::function_name::{symbol_name, unless_constant};
use crate::operator::{Operator, Place};
use crate::part::{Part, Role, Shape, atom, operation, push_part, push_parts};
use clos_names::{CalledName, is_definition, is_special_operator, is_the};
use lisp_data::{Data, Datum, Name};
use std::alloc::Global;

pub(crate) fn place_shape(alloc: Global, datum: &Datum) -> Result<Shape<'_>, SyntaxFault>
    ensures { Gives shape_told result (place_shape (datum_of datum.now)) }
{
    match datum {
        Datum::Sym(name) => match unless_constant(name) {
            None => Err(SyntaxFault::Program),
            Some(name) => {
                let place = Place::Variable(name.copy()?);
                Ok(atom(alloc, Operator::Place(place)))
            }
        },
        Datum::List(elements) => listed_place(alloc, elements),
        Datum::Int(_) => Err(SyntaxFault::Program),
        Datum::Str(_) => Err(SyntaxFault::Program),
        Datum::Dotted(_) => Err(SyntaxFault::Program),
        Datum::Method(_) => Err(SyntaxFault::Program),
    }
}

fn listed_place(alloc: Global, elements: &Data) -> Result<Shape<'_>, SyntaxFault>
    ensures { Gives shape_told result (listed_place elements.now) }
{
    match elements.split_first() {
        None => Err(SyntaxFault::Program),
        Some((head, rest)) => match symbol_name(head) {
            None => Err(SyntaxFault::Program),
            Some(name) => named_place(alloc, name, rest),
        },
    }
}

/// A call of an operator that is no form's own.
fn named_place<'a>(alloc: Global, name: &Name, rest: &'a Data) -> Result<Shape<'a>, SyntaxFault>
    ensures { Gives shape_told result (named_place name.now rest.now) }
{
    if is_the(name, "SLOT-VALUE") {
        if rest.len() != 2 {
            return Err(SyntaxFault::Program);
        }
        return Ok(operation(alloc, Operator::Place(Place::SlotValue), rest)?);
    }
    if is_special_operator(name) || is_definition(name) {
        return Err(SyntaxFault::Program);
    }
    let place = Place::Call(CalledName::new(alloc, name.copy()?)?);
    Ok(operation(alloc, Operator::Place(place), rest)?)
}

pub(crate) fn setf_shape<'a>(alloc: Global, rest: &'a Data) -> Result<Shape<'a>, SyntaxFault>
    ensures { Gives shape_told result (setf_shape rest.now) }
{
    let parts = setf_parts(alloc, rest)?;
    Ok(Shape {
        operator: Operator::Setf,
        parts,
    })
}

/// Places, each with its new value.
fn setf_parts<'a>(alloc: Global, elements: &'a Data) -> Result<Vec<Part<'a>>, SyntaxFault>
    ensures { Gives (λ ps. map part_of ps.items) result (setf_parts elements.now) }
{
    let mut parts: Vec<Part<'a>> = Vec::new(alloc);
    let mut rest = elements;
    while let Some((place, others)) = rest.split_first() {
        match others.split_first() {
            None => return Err(SyntaxFault::Program),
            Some((value, others)) => {
                push_part(&mut parts, Role::Place, place)?;
                push_part(&mut parts, Role::Expression, value)?;
                rest = others;
            }
        }
    }
    Ok(parts)
}

/// `incf` and `decf`: a place, and at most one amount.
pub(crate) fn change_shape<'a>(
    alloc: Global,
    operator: Operator,
    rest: &'a Data,
) -> Result<Shape<'a>, SyntaxFault>
    ensures { Gives shape_told result (change_shape (operator_of operator) rest.now) }
{
    match rest.split_first() {
        None => Err(SyntaxFault::Program),
        Some((place, amount)) => {
            if amount.len() > 1 {
                return Err(SyntaxFault::Program);
            }
            let mut parts: Vec<Part<'a>> = Vec::new(alloc);
            push_part(&mut parts, Role::Place, place)?;
            push_parts(&mut parts, Role::Expression, amount)?;
            Ok(Shape { operator, parts })
        }
    }
}
