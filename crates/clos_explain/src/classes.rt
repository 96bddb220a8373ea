//! Why there is no such class, or can't be.
use crate::circle;
use crate::nearest::Nearest;
use crate::subject::{class, symbol};
use clos_look::{Page, World};
use lisp_data::{ClassId, Datum, Name, Value};
use std::alloc::{AllocError, Global};

/// Asks for the class that was meant.
pub fn undefined(alloc: Global, page: &mut Page, world: &World, value: &Value) {
    page.text("no class is called ");
    page.value(world, value);
    let Some(name) = symbol(value) else {
        return;
    };
    let mut nearest = Nearest::new(alloc, name.as_str());
    for number in 0..u64::MAX {
        let Some(other) = world.classes().hierarchy().name(ClassId(number)) else {
            break;
        };
        nearest.offer(other.as_str());
    }
    nearest.ask(page);
}

/// Tells which superclass can't be one.
pub fn invalid_superclass(page: &mut Page, world: &World, below: &Value, above: &Value) {
    page.value(world, below);
    page.text(" can't be below ");
    page.value(world, above);
    page.text(
        ", which the system defines: superclasses are STANDARD-OBJECT and classes of defclass",
    );
}

/// Tells which classes would have to come before each other.
pub fn inconsistent_precedence(
    alloc: Global,
    page: &mut Page,
    world: &World,
    form: &Datum,
    value: &Value,
) {
    page.text("the classes above ");
    page.value(world, value);
    page.text(" can't stand in one order");
    if let Some(name) = symbol(value) {
        circle::inconsistent_precedence(alloc, page, world, form, name);
    }
}

/// Tells how a class would be above itself.
pub fn superclass_cycle(
    alloc: Global,
    page: &mut Page,
    world: &World,
    form: &Datum,
    value: &Value,
) {
    page.value(world, value);
    page.text(" would be above itself");
    circle::superclass_cycle(alloc, page, world, form);
}

/// Whether this class is among them.
fn is_among(classes: &[ClassId], class: ClassId) -> bool {
    classes.iter().any(|other| other.0 == class.0)
}

/// Tells which of these names no class has, and adds the classes that the others name, each once.
fn missing_rows(
    page: &mut Page,
    world: &World,
    names: &[Name],
    seen: &mut Vec<ClassId>,
    count: &mut usize,
) -> Result<(), AllocError> {
    for name in names {
        match world.classes().hierarchy().named(name) {
            None => {
                page.entry("  not defined         ", *count);
                page.name(world, name);
                *count = count.saturating_add(1);
            }
            Some(above) => {
                if !is_among(seen.as_slice(), above) {
                    seen.push(above)?;
                }
            }
        }
    }
    Ok(())
}

/// Tells which classes above this one are not defined.
fn missing(
    alloc: Global,
    page: &mut Page,
    world: &World,
    class: ClassId,
) -> Result<(), AllocError> {
    let mut seen = Vec::new(alloc);
    seen.push(class)?;
    let mut count = 0;
    for place in 0..usize::MAX {
        let Some(next) = seen.get(place).copied() else {
            break;
        };
        let names = world.classes().hierarchy().superclasses(next);
        missing_rows(page, world, names, &mut seen, &mut count)?;
    }
    Ok(())
}

/// Tells why a class is not complete.
pub fn incomplete_class(alloc: Global, page: &mut Page, world: &World, value: &Value) {
    page.text("a class above ");
    page.value(world, value);
    page.text(" is not defined");
    if let Some(found) = class(world, value) {
        if missing(alloc, page, world, found).is_err() {
            page.fail();
        }
    }
}
