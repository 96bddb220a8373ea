//! The variables of `with-slots` (HyperSpec 7.7).
ghost use Rattle.std.specs.Prelude.{◌≡◌, IfOk, map};
ghost use Rattle.lisp_data.specs.DatumView.{datum_of};
ghost use Rattle.clos_forms.specs.Binding.{each, each_in};
ghost use Rattle.clos_forms.specs.BoundView.{bound_slot};
ghost use Rattle.clos_forms.specs.Fault.{Gives};
ghost use Rattle.clos_forms.specs.PartView.{shape_told};
ghost use Rattle.clos_forms.specs.Slots.{listed_slot, slot_entry, slot_in, slots_with, variables_of, with_slots_shape};

use crate::body::push_body;
use crate::bound::{SlotBinding, SlotBindings};
use crate::distinct::are_distinct;
use crate::fault::SyntaxFault;
use crate::function_name::{only_symbol, unless_constant, variable_name};
use crate::operator::Operator;
use crate::part::{Part, Role, Shape, push_part};
use clos_names::is_the;
use lisp_data::{Data, Datum, Name};
use std::alloc::{AllocError, Global};

pub(crate) fn with_slots_shape<'a>(alloc: Global, rest: &'a Data) -> Result<Shape<'a>, SyntaxFault>
    ensures { Gives shape_told result (with_slots_shape rest.now) }
{
    match rest.split_first() {
        None => Err(SyntaxFault::Program),
        Some((entries, rest)) => match rest.split_first() {
            None => Err(SyntaxFault::Program),
            Some((instance, body)) => {
                let slots = parse_slots(alloc, entries)?;
                slots_with(alloc, slots, instance, body)
            }
        },
    }
}

fn slots_with<'a>(
    alloc: Global,
    slots: Vec<SlotBinding>,
    instance: &'a Datum,
    body: &'a Data,
) -> Result<Shape<'a>, SyntaxFault>
    ensures { Gives shape_told result (slots_with (map bound_slot slots.items) (datum_of instance.now) body.now) }
{
    let variables = variables_of(alloc, &slots)?;
    if !are_distinct(alloc, &variables)? {
        return Err(SyntaxFault::Program);
    }
    let mut parts: Vec<Part<'a>> = Vec::new(alloc);
    push_part(&mut parts, Role::Expression, instance)?;
    push_body(&mut parts, body)?;
    Ok(Shape {
        operator: Operator::WithSlots(SlotBindings::new(slots)),
        parts,
    })
}

fn variables_of(alloc: Global, slots: &[SlotBinding]) -> Result<Vec<Name>, AllocError>
    ensures { IfOk result (λ ns. ns.items ≡ variables_of (map bound_slot slots.now)) }
{
    let mut names = Vec::new(alloc);
    for slot in slots {
        names.push(slot.variable.copy()?)?;
    }
    Ok(names)
}

/// The variables of a list of entries, which may be written NIL.
fn parse_slots(alloc: Global, entries: &Datum) -> Result<Vec<SlotBinding>, SyntaxFault>
    ensures { Gives (λ ss. map bound_slot ss.items) result (each_in slot_in (datum_of entries.now)) }
{
    match entries {
        Datum::List(elements) => parse_entries(alloc, elements),
        Datum::Sym(name) => {
            if is_the(name, "NIL") {
                return Ok(Vec::new(alloc));
            }
            Err(SyntaxFault::Program)
        }
        Datum::Int(_) => Err(SyntaxFault::Program),
        Datum::Str(_) => Err(SyntaxFault::Program),
        Datum::Dotted(_) => Err(SyntaxFault::Program),
        Datum::Method(_) => Err(SyntaxFault::Program),
    }
}

fn parse_entries(alloc: Global, elements: &Data) -> Result<Vec<SlotBinding>, SyntaxFault>
    ensures { Gives (λ ss. map bound_slot ss.items) result (each slot_in elements.now) }
{
    let mut slots = Vec::new(alloc);
    let mut rest = elements;
    while let Some((first, others)) = rest.split_first() {
        match parse_slot(first) {
            Err(fault) => return Err(fault),
            Ok(slot) => slots.push(slot)?,
        }
        rest = others;
    }
    Ok(slots)
}

/// A symbol that is variable and slot, or `(variable slot)`.
fn parse_slot(datum: &Datum) -> Result<SlotBinding, SyntaxFault>
    ensures { Gives bound_slot result (slot_in (datum_of datum.now)) }
{
    match datum {
        Datum::Sym(name) => match unless_constant(name) {
            None => Err(SyntaxFault::Program),
            Some(name) => Ok(slot_entry(name, name)?),
        },
        Datum::List(elements) => parse_listed_slot(elements),
        Datum::Int(_) => Err(SyntaxFault::Program),
        Datum::Str(_) => Err(SyntaxFault::Program),
        Datum::Dotted(_) => Err(SyntaxFault::Program),
        Datum::Method(_) => Err(SyntaxFault::Program),
    }
}

fn parse_listed_slot(elements: &Data) -> Result<SlotBinding, SyntaxFault>
    ensures { Gives bound_slot result (listed_slot elements.now) }
{
    match elements.split_first() {
        None => Err(SyntaxFault::Program),
        Some((variable, rest)) => match variable_name(variable) {
            None => Err(SyntaxFault::Program),
            Some(variable) => match only_symbol(rest) {
                None => Err(SyntaxFault::Program),
                Some(slot) => Ok(slot_entry(variable, slot)?),
            },
        },
    }
}

fn slot_entry(variable: &Name, slot: &Name) -> Result<SlotBinding, AllocError>
    ensures { IfOk result (λ s. bound_slot s ≡ slot_entry variable.now slot.now) }
{
    Ok(SlotBinding {
        variable: variable.copy()?,
        slot: slot.copy()?,
    })
}
