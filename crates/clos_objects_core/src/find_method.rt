//! The method of a generic function that has some qualifiers and specializers (HyperSpec 7.7 `find-method`).
ghost use Rattle.std.specs.Prelude.{◌≡◌, ◌++◌, ◌∷◌, [], IfOk, map, option_map, slice_get};
ghost use Rattle.lisp_data.specs.Value.{generic};
ghost use Rattle.lisp_data.specs.ValueView.{value_of};
ghost use Rattle.clos_method.specs.Specializer.{specializer_of};
ghost use Rattle.clos_machine.specs.clos_world.World.{seen};
ghost use Rattle.clos_machine.specs.clos_meaning.ClassFunctions.{Tells, comes_to};
ghost use Rattle.clos_machine.specs.clos_meaning.FindMethod.{designator, designators, eql_designator, found_method, is_eql_symbol, method_answer, method_designated, method_with, no_such_method, qualifiers_given, specializer_for, specializers_for, specializers_given, values_of};
ghost use Rattle.clos_machine.specs.Machine.{Grows, Leads, inside, value_weight};
ghost use Rattle.clos_objects_core.specs.Designators.{Specializes, SpecializesAll, designator_of, designators_of};

use crate::class_functions::{symbol_in, undefined_class, wrong_number};
use clos_forms::is_the;
use clos_machine::fault::wrong_type;
use clos_machine::machine::{Doing, Machine};
use clos_machine::truth::{is_true, nil};
use clos_machine::{Condition, ConditionKind, Stop, Values, World, about, called_value};
use clos_method::{Qualifiers, Specializer, Specializers};
use lisp_data::{ClassId, GenericId, Items, Name, Value};
use std::alloc::{AllocError, Global};

/// What stands for a specializer.
#[derive(Drop)]
pub enum Designator {
    /// The class itself.
    Class(ClassId),
    /// The name of a class.
    Named(Name),
    /// The list of EQL and an object.
    Eql(Value),
}

/// A call of `find-method`.
pub fn call_find_method(
    alloc: Global,
    machine: &mut Machine,
    world: &World,
    values: &Values,
) -> Result<Doing, Stop>
    ensures leads { Leads (inside machine.old (λ w. comes_to (method_answer w.classes w.generics values.now) w))
        (seen world.now) result machine.new }
    ensures small { Grows value_weight machine.old.levels result machine.new }
{
    let _ = machine;
    match answer(alloc, world, values.as_slice()) {
        Ok(value) => Ok(Doing::Give(value)),
        Err(stop) => Err(stop),
    }
}

fn answer(alloc: Global, world: &World, values: &[Value]) -> Result<Value, Stop>
    ensures { Tells (method_answer (seen world.now).classes (seen world.now).generics (map value_of values.now)) result }
{
    match values {
        [function, qualifiers, specializers] => {
            find(alloc, world, function, qualifiers, specializers, true)
        }
        [function, qualifiers, specializers, errorp] => {
            find(
                alloc,
                world,
                function,
                qualifiers,
                specializers,
                is_true(errorp),
            )
        }
        _ => wrong_number(alloc),
    }
}

// ---- the types of the arguments

fn find(
    alloc: Global,
    world: &World,
    function: &Value,
    qualifiers: &Value,
    specializers: &Value,
    errorp: bool,
) -> Result<Value, Stop>
    ensures { Tells (found_method (seen world.now).classes (seen world.now).generics (value_of function.now)
        (value_of qualifiers.now) (value_of specializers.now) errorp) result }
{
    match function {
        Value::Generic(id) => find_in(alloc, world, *id, qualifiers, specializers, errorp),
        _ => Err(Stop::Refused(wrong_type(alloc, function)?)),
    }
}

fn find_in(
    alloc: Global,
    world: &World,
    id: GenericId,
    qualifiers: &Value,
    specializers: &Value,
    errorp: bool,
) -> Result<Value, Stop>
    ensures { Tells (qualifiers_given (seen world.now).classes (seen world.now).generics id.0 (value_of qualifiers.now)
        (value_of specializers.now) errorp) result }
{
    match qualifiers {
        Value::List(items) => find_with(alloc, world, id, items, specializers, errorp),
        _ => Err(Stop::Refused(wrong_type(alloc, qualifiers)?)),
    }
}

fn find_with(
    alloc: Global,
    world: &World,
    id: GenericId,
    qualifiers: &Items,
    specializers: &Value,
    errorp: bool,
) -> Result<Value, Stop>
    ensures { Tells (specializers_given (seen world.now).classes (seen world.now).generics id.0 qualifiers.now
        (value_of specializers.now) errorp) result }
{
    match specializers {
        Value::List(items) => match designators(alloc, items)? {
            None => Err(Stop::Refused(wrong_type(alloc, specializers)?)),
            Some(list) => find_designated(alloc, world, id, qualifiers, list.as_slice(), errorp),
        },
        _ => Err(Stop::Refused(wrong_type(alloc, specializers)?)),
    }
}

// ---- what stands for specializers

/// What these stand for, if each stands for a specializer.
fn designators(alloc: Global, items: &Items) -> Result<Option<Vec<Designator>>, AllocError>
    ensures { IfOk result (λ r. option_map (λ v. designators_of v.items) r ≡ designators items.now) }
{
    let mut list = Vec::new(alloc);
    let mut rest = items;
    while let Some((first, more)) = rest.split_first() {
        match designate(first)? {
            None => return Ok(None),
            Some(found) => list.push(found)?,
        }
        rest = more;
    }
    Ok(Some(list))
}

fn designate(value: &Value) -> Result<Option<Designator>, AllocError>
    ensures { IfOk result (λ r. option_map designator_of r ≡ designator (value_of value.now)) }
{
    match value {
        Value::Class(id) => Ok(Some(Designator::Class(*id))),
        Value::List(items) if items.split_first().is_some() => eql_designator(items),
        _ => match symbol_in(value)? {
            None => Ok(None),
            Some(name) => Ok(Some(Designator::Named(name))),
        },
    }
}

/// The list of EQL and an object.
fn eql_designator(items: &Items) -> Result<Option<Designator>, AllocError>
    ensures { IfOk result (λ r. option_map designator_of r ≡ eql_designator items.now) }
{
    let Some((head, rest)) = items.split_first() else {
        return Ok(None);
    };
    let Some((object, others)) = rest.split_first() else {
        return Ok(None);
    };
    if others.split_first().is_some() || !is_eql_symbol(head) {
        return Ok(None);
    }
    Ok(Some(Designator::Eql(object.copy()?)))
}

fn is_eql_symbol(value: &Value) -> bool
    ensures { result ≡ is_eql_symbol (value_of value.now) }
{
    match value {
        Value::Sym(name) => is_the(name, "EQL"),
        _ => false,
    }
}

// ---- the specializers, where each class is defined

fn specializer(alloc: Global, world: &World, designator: &Designator) -> Result<Specializer, Stop>
    ensures { Specializes (specializer_for (seen world.now).classes (designator_of designator.now)) result }
{
    match designator {
        Designator::Class(id) => Ok(Specializer::Class(*id)),
        Designator::Eql(object) => Ok(Specializer::Eql(object.copy()?)),
        Designator::Named(name) => match world.classes().hierarchy().named(name) {
            None => Err(Stop::Refused(undefined_class(alloc, name)?)),
            Some(id) => Ok(Specializer::Class(id)),
        },
    }
}

fn specializers_for(
    alloc: Global,
    world: &World,
    designators: &[Designator],
) -> Result<Specializers, Stop>
    ensures { SpecializesAll (specializers_for (seen world.now).classes (designators_of designators.now)) result }
{
    let mut specializers = Specializers::new(alloc);
    let mut left = designators;
    while let Some((first, others)) = left.split_first() {
        match specializer(alloc, world, first) {
            Err(stop) => return Err(stop),
            Ok(found) => specializers.push(found)?,
        }
        left = others;
    }
    Ok(specializers)
}

// ---- the method

fn find_designated(
    alloc: Global,
    world: &World,
    id: GenericId,
    qualifiers: &Items,
    designators: &[Designator],
    errorp: bool,
) -> Result<Value, Stop>
    ensures { Tells (method_with (seen world.now).generics id.0 qualifiers.now errorp
        (specializers_for (seen world.now).classes (designators_of designators.now))) result }
{
    match specializers_for(alloc, world, designators) {
        Err(stop) => Err(stop),
        Ok(specializers) => {
            let qualifiers = qualifiers_in(alloc, qualifiers)?;
            match world.generics.find(id, &qualifiers, &specializers) {
                Some(method) => Ok(Value::Method(method)),
                None => {
                    if errorp {
                        return Err(Stop::Refused(no_such_method(alloc, world, id)?));
                    }
                    Ok(nil())
                }
            }
        }
    }
}

/// These values as qualifiers.
fn qualifiers_in(alloc: Global, items: &Items) -> Result<Qualifiers, AllocError>
    ensures { IfOk result (λ r. r ≡ values_of items.now) }
{
    let mut qualifiers = Qualifiers::new(alloc);
    let mut rest = items;
    while let Some((first, more)) = rest.split_first() {
        qualifiers.push(first.copy()?)?;
        rest = more;
    }
    Ok(qualifiers)
}

/// The condition that a generic function, which is told by its name, has no such method.
fn no_such_method(alloc: Global, world: &World, id: GenericId) -> Result<Condition, AllocError>
    ensures { IfOk result (λ c. c ≡ no_such_method (generic id.0) (slice_get (seen world.now).generics.functions id.0)) }
{
    match world.generics.function(id) {
        None => about(alloc, ConditionKind::NoSuchMethod, Value::Generic(id)),
        Some(function) => {
            let name = called_value(alloc, function.name())?;
            about(alloc, ConditionKind::NoSuchMethod, name)
        }
    }
}
