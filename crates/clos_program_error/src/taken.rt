//! Names that can't be defined: those of the language, and those that something else of the program has.
use crate::part::{called_name, elements, is_keyword};
use clos_look::{Page, World};
use clos_names::{
    is_closed_function, is_function, is_special_operator, is_system_function, is_the,
};
use lisp_data::{Datum, Name, Value};
use std::alloc::{AllocError, Global};

/// Whether this is the name of a class that the language has, which is no instance of STANDARD-CLASS, or STANDARD-OBJECT.
fn is_class_of_language(world: &World, name: &Name) -> bool {
    let Some(class) = world.classes().hierarchy().named(name) else {
        return false;
    };
    let metaclass = world.class_of_value(&Value::Class(class));
    match world.classes().hierarchy().name(metaclass) {
        None => false,
        Some(other) => is_the(name, "STANDARD-OBJECT") || !is_the(other, "STANDARD-CLASS"),
    }
}

/// What defines functions, generic functions and methods.
const DEFINERS: [&str; 3] = ["DEFUN", "DEFGENERIC", "DEFMETHOD"];

/// The symbol by which a function is defined: it, or the second of a list.
fn function_symbol(called: &Datum) -> Option<&Name> {
    match called {
        Datum::Sym(name) => Some(name),
        Datum::List(items) => match items.split_first()?.1.split_first()?.0 {
            Datum::Sym(name) => Some(name),
            _ => None,
        },
        _ => None,
    }
}

/// What a definition of a function names, where it is one: by what it defines, and the symbol alone.
fn defined<'a, 'b>(
    first: Option<&'b Datum>,
    second: Option<&'a Datum>,
) -> Option<(&'b Name, &'a Name)> {
    let Datum::Sym(definer) = first? else {
        return None;
    };
    if !DEFINERS.iter().any(|text| is_the(definer, text)) {
        return None;
    }
    Some((definer, function_symbol(second?)?))
}

/// Whether the language has this function, and lets nobody define it so.
fn is_reserved(definer: &Name, name: &Name) -> bool {
    if is_system_function(name) {
        return !is_the(definer, "DEFMETHOD");
    }
    is_special_operator(name) || is_function(name) || is_closed_function(name)
}

/// The name that a definition would define, where the language has it.
fn reserved<'a>(world: &World, first: &Datum, second: &'a Datum) -> Option<&'a Name> {
    if let (Datum::Sym(definer), Datum::Sym(name)) = (first, second) {
        if is_the(definer, "DEFCLASS") && is_class_of_language(world, name) {
            return Some(name);
        }
    }
    match defined(Some(first), Some(second)) {
        Some((definer, name)) if is_reserved(definer, name) => Some(name),
        _ => None,
    }
}

/// Tells that the name of a definition is the language's. Answers whether it is.
pub fn tell_reserved(page: &mut Page, world: &World, form: &Datum) -> bool {
    let Datum::List(items) = form else {
        return false;
    };
    let Some((first, rest)) = items.split_first() else {
        return false;
    };
    let Some((second, _)) = rest.split_first() else {
        return false;
    };
    match reserved(world, first, second) {
        None => false,
        Some(name) => {
            page.name(world, name);
            page.text(" is a name of the language's, and is not defined anew");
            true
        }
    }
}

/// Whether an option of a slot names a function.
fn names_accessor(option: &Datum) -> bool {
    is_keyword(option, "READER") || is_keyword(option, "WRITER") || is_keyword(option, "ACCESSOR")
}

/// Where a function of a defun is named in the options of a slot as what a method is added to.
fn in_slot(alloc: Global, world: &World, slot: &Datum) -> Result<Option<usize>, AllocError> {
    let mut is_next = false;
    for (place, item) in elements(alloc, slot)?.iter().enumerate() {
        if let Datum::Sym(name) = item {
            if is_next && world.functions.get(name).is_some() {
                return Ok(Some(place));
            }
        }
        is_next = place % 2 == 1 && names_accessor(item);
    }
    Ok(None)
}

/// The same in the slots of a class.
fn in_slots(alloc: Global, world: &World, form: &Datum) -> Result<Option<Vec<usize>>, AllocError> {
    let items = elements(alloc, form)?;
    let Some(slots) = items.get(3) else {
        return Ok(None);
    };
    for (slot, options) in elements(alloc, slots)?.iter().enumerate() {
        if let Some(place) = in_slot(alloc, world, options)? {
            return Ok(Some(Vec::from_slice(alloc, &[3, slot, place])?));
        }
    }
    Ok(None)
}

/// Tells that what a definition of a function names has another meaning in the program. Answers whether it has.
fn tell_taken(page: &mut Page, world: &World, definer: &Name, name: &Name) -> bool {
    if is_the(definer, "DEFUN") {
        if world.generics.named_by_symbol(name).is_none() {
            return false;
        }
        page.name(world, name);
        page.text(" is a generic function, and stays one");
        return true;
    }
    if world.functions.get(name).is_none() {
        return false;
    }
    page.name(world, name);
    page.text(" is a function of a defun, and no generic function");
    true
}

/// Tells that a name that a definition gives a meaning has another one, in the language or in the program. Answers where it stands.
pub fn taken_name(
    alloc: Global,
    page: &mut Page,
    world: &World,
    form: &Datum,
) -> Result<Option<Vec<usize>>, AllocError> {
    if tell_reserved(page, world, form) {
        return Ok(Some(Vec::new(alloc)));
    }
    let items = elements(alloc, form)?;
    if let Some((definer, name)) = defined(items.first(), items.get(1)) {
        return Ok(if tell_taken(page, world, definer, name) {
            Some(Vec::new(alloc))
        } else {
            None
        });
    }
    if !called_name(form).is_some_and(|name| is_the(name, "DEFCLASS")) {
        return Ok(None);
    }
    let found = in_slots(alloc, world, form)?;
    if found.is_some() {
        page.text("a reader, writer or accessor is a function of a defun, and no generic function");
    }
    Ok(found)
}
