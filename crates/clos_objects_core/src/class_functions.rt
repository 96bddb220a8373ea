//! Functions of classes (HyperSpec 4.3.7, the entries class-of, class-name, find-class and typep; AMOP 6 class-precedence-list).
ghost use Rattle.std.specs.Prelude.{◌≡◌, IfOk, map};
ghost use Rattle.lisp_data.specs.Value.{class};
ghost use Rattle.lisp_data.specs.ValueView.{value_of};
ghost use Rattle.lisp_prims.specs.Primitive.{truth};
ghost use Rattle.clos_machine.specs.clos_world.clos_precedence.PrecedenceView.{numbers};
ghost use Rattle.clos_machine.specs.clos_world.Class.{named, class_name, precedence};
ghost use Rattle.clos_machine.specs.clos_world.World.{class_of, seen};
ghost use Rattle.clos_machine.specs.clos_meaning.ClassFunctions.{Tells, class_answer, class_by_symbol, class_designated, class_name_of, class_of_value, classes_listed, comes_to, found_class, incomplete_class, is_subclass, listed_if_complete, missing, name_of_class, named_by, of_class, of_type, precedence_list_of, precedence_of_class, symbol_in, undefined_class, wrong_number, wrong_type};
ghost use Rattle.clos_machine.specs.Machine.{Designates, Grows, Leads, inside, value_weight};

use clos_forms::value_named;
use clos_machine::fault::{incomplete_class, wrong_type};
use clos_machine::machine::{Doing, Machine};
use clos_machine::truth::{is_true, nil, t};
use clos_machine::updating::listed;
use clos_machine::{
    ClassFunction, Condition, ConditionKind, Stop, Values, World, about, about_name, plain,
};
use lisp_data::{ClassId, Name, Naming, Value};
use std::alloc::{AllocError, Global};

/// A call of a function of classes.
pub fn call_class_function(
    alloc: Global,
    machine: &mut Machine,
    world: &World,
    function: ClassFunction,
    values: &Values,
) -> Result<Doing, Stop>
    ensures leads { Leads (inside machine.old (λ w. comes_to (class_answer function w.classes (class_of w) values.now)
        w)) (seen world.now) result machine.new }
    ensures small { Grows value_weight machine.old.levels result machine.new }
{
    let _ = machine;
    match answer(alloc, world, function, values.as_slice()) {
        Ok(value) => Ok(Doing::Give(value)),
        Err(stop) => Err(stop),
    }
}

/// What a function of classes answers to its arguments.
fn answer(
    alloc: Global,
    world: &World,
    function: ClassFunction,
    values: &[Value],
) -> Result<Value, Stop>
    ensures { Tells (class_answer function (seen world.now).classes (class_of (seen world.now))
        (map value_of values.now)) result }
{
    match function {
        ClassFunction::ClassOf => class_of(alloc, world, values),
        ClassFunction::ClassName => class_name(alloc, world, values),
        ClassFunction::ClassPrecedenceList => class_precedence_list(alloc, world, values),
        ClassFunction::FindClass => find_class(alloc, world, values),
        ClassFunction::Typep => typep(alloc, world, values),
    }
}

// ---- each function with its arguments

fn class_of(alloc: Global, world: &World, values: &[Value]) -> Result<Value, Stop>
    ensures { Tells (class_of_value (class_of (seen world.now)) (map value_of values.now)) result }
{
    match values {
        [value] => Ok(Value::Class(world.class_of_value(value))),
        _ => wrong_number(alloc),
    }
}

fn class_name(alloc: Global, world: &World, values: &[Value]) -> Result<Value, Stop>
    ensures { Tells (class_name_of (seen world.now).classes (map value_of values.now)) result }
{
    match values {
        [value] => name_of_class(alloc, world, value),
        _ => wrong_number(alloc),
    }
}

fn class_precedence_list(alloc: Global, world: &World, values: &[Value]) -> Result<Value, Stop>
    ensures { Tells (precedence_list_of (seen world.now).classes (map value_of values.now)) result }
{
    match values {
        [value] => precedence_of_class(alloc, world, value),
        _ => wrong_number(alloc),
    }
}

fn find_class(alloc: Global, world: &World, values: &[Value]) -> Result<Value, Stop>
    ensures { Tells (found_class (seen world.now).classes (map value_of values.now)) result }
{
    match values {
        [name] => class_by_symbol(alloc, world, true, name),
        [name, errorp] => class_by_symbol(alloc, world, is_true(errorp), name),
        _ => wrong_number(alloc),
    }
}

fn typep(alloc: Global, world: &World, values: &[Value]) -> Result<Value, Stop>
    ensures { Tells (of_type (seen world.now).classes (class_of (seen world.now)) (map value_of values.now)) result }
{
    match values {
        [value, class] => of_class(alloc, world, world.class_of_value(value), class),
        _ => wrong_number(alloc),
    }
}

// ---- classes and their names

fn name_of_class(alloc: Global, world: &World, value: &Value) -> Result<Value, Stop>
    ensures { Tells (name_of_class (seen world.now).classes (value_of value.now)) result }
{
    match value {
        Value::Class(id) => match world.class_name(*id) {
            Some(name) => Ok(value_named(name)?),
            None => Err(Stop::Refused(wrong_type(alloc, value)?)),
        },
        _ => Err(Stop::Refused(wrong_type(alloc, value)?)),
    }
}

fn precedence_of_class(alloc: Global, world: &World, value: &Value) -> Result<Value, Stop>
    ensures { Tells (precedence_of_class (seen world.now).classes (value_of value.now)) result }
{
    match value {
        Value::Class(id) => listed_if_complete(alloc, world, *id),
        _ => Err(Stop::Refused(wrong_type(alloc, value)?)),
    }
}

/// The class precedence list of a class, if it is complete.
fn listed_if_complete(alloc: Global, world: &World, id: ClassId) -> Result<Value, Stop>
    ensures { Tells (listed_if_complete (class_name (seen world.now).classes id.0)
        (precedence (seen world.now).classes id.0)) result }
{
    match world.classes().hierarchy().precedence(id) {
        None => Err(Stop::Refused(incomplete_class(alloc, world, id)?)),
        Some(list) => classes_listed(alloc, list),
    }
}

/// These classes, as a list of values.
fn classes_listed(alloc: Global, classes: &[ClassId]) -> Result<Value, Stop>
    ensures { Tells (classes_listed (numbers classes.now)) result }
{
    let values = class_values(alloc, classes)?;
    listed(alloc, values.as_slice())
}

fn class_values(alloc: Global, ids: &[ClassId]) -> Result<Vec<Value>, AllocError>
    ensures { IfOk result (λ r. map value_of r.items ≡ map class (map (λ c. c.0) ids.now)) }
{
    let mut values = Vec::new(alloc);
    for id in ids {
        values.push(Value::Class(*id))?;
    }
    Ok(values)
}

/// The class of a name; where there is none a condition, or NIL.
fn class_by_symbol(alloc: Global, world: &World, errorp: bool, value: &Value) -> Result<Value, Stop>
    ensures { Tells (class_by_symbol (seen world.now).classes errorp (value_of value.now)
        (symbol_in (value_of value.now))) result }
{
    match symbol_in(value)? {
        None => Err(Stop::Refused(wrong_type(alloc, value)?)),
        Some(name) => match world.classes().hierarchy().named(&name) {
            None => missing(alloc, &name, errorp),
            Some(id) => Ok(Value::Class(id)),
        },
    }
}

fn missing(alloc: Global, name: &Name, errorp: bool) -> Result<Value, Stop>
    ensures { Tells (missing name.now errorp) result }
{
    if errorp {
        return Err(Stop::Refused(undefined_class(alloc, name)?));
    }
    Ok(nil())
}

/// Whether the class of a value is the one that a designator names, or has it as a superclass.
fn of_class(alloc: Global, world: &World, class: ClassId, designator: &Value) -> Result<Value, Stop>
    ensures { Tells (of_class (seen world.now).classes class.0 (class_designated (seen world.now).classes
        (value_of designator.now))) result }
{
    match class_designated(alloc, world, designator) {
        Err(stop) => Err(stop),
        Ok(id) => Ok(truth(world.classes().hierarchy().is_sub(class, id))),
    }
}

/// T or NIL.
pub fn truth(holds: bool) -> Value
    ensures { value_of result ≡ truth holds }
{
    if holds { t() } else { nil() }
}

/// The class that a value is or names.
fn class_designated(alloc: Global, world: &World, value: &Value) -> Result<ClassId, Stop>
    ensures { Designates (class_designated (seen world.now).classes (value_of value.now)) result }
{
    match value {
        Value::Class(id) => Ok(*id),
        _ => named_by(alloc, world, value),
    }
}

/// The class that a symbol names.
pub fn named_by(alloc: Global, world: &World, value: &Value) -> Result<ClassId, Stop>
    ensures { Designates (named_by (seen world.now).classes (value_of value.now) (symbol_in (value_of value.now)))
        result }
{
    match symbol_in(value)? {
        None => Err(Stop::Refused(wrong_type(alloc, value)?)),
        Some(name) => match world.classes().hierarchy().named(&name) {
            None => Err(Stop::Refused(undefined_class(alloc, &name)?)),
            Some(id) => Ok(id),
        },
    }
}

/// The symbol that a value is; NIL, the empty list, is one.
pub fn symbol_in(value: &Value) -> Result<Option<Name>, AllocError>
    ensures { IfOk result (λ r. r ≡ symbol_in (value_of value.now)) }
{
    match value {
        Value::Sym(name) => Ok(Some(name.copy()?)),
        Value::List(items) => match items.split_first() {
            None => Ok(Some(Name::fixed(&"NIL"))),
            Some(_) => Ok(None),
        },
        _ => Ok(None),
    }
}

// ---- conditions

/// The condition that a function was called with a wrong number of arguments.
pub fn wrong_number(alloc: Global) -> Result<Value, Stop>
    ensures { Tells wrong_number result }
{
    Err(Stop::Refused(plain(alloc, ConditionKind::ProgramError)))
}

/// The condition that there is no class of this name.
pub fn undefined_class(alloc: Global, name: &Name) -> Result<Condition, AllocError>
    ensures { IfOk result (λ c. c ≡ undefined_class name.now) }
{
    about_name(alloc, ConditionKind::UndefinedClass, name)
}
