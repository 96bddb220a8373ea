//! Circles of classes: of those that would be above each other, and of those that would have to come before each other.
use clos_circle::{Definition, precedence_circle, superclass_circle};
use clos_defclass::ClassDefinition;
use clos_look::{Page, World};
use clos_top::{Top, parse_top};
use lisp_data::{Datum, Name};
use std::alloc::Global;

/// A definition of a class among the session's classes. A class that names no superclass is below these.
fn put<'a>(
    world: &'a World,
    definition: &'a ClassDefinition,
    standard: &'a [Name],
) -> Definition<'a> {
    let named = definition.superclasses.as_slice();
    Definition {
        hierarchy: world.classes().hierarchy(),
        name: &definition.name,
        above: if named.is_empty() { standard } else { named },
    }
}

/// Tells how a class would be above itself by the definition that was refused.
pub fn superclass_cycle(alloc: Global, page: &mut Page, world: &World, form: &Datum) {
    let Ok(Top::DefClass(definition)) = parse_top(alloc, form) else {
        return;
    };
    let standard = [Name::fixed(&"STANDARD-OBJECT")];
    let Ok(circle) = superclass_circle(alloc, put(&*world, &definition, &standard)) else {
        return page.fail();
    };
    if circle.is_empty() {
        return;
    }
    page.entry("  the circle          ", 0);
    let mut word = "";
    for name in circle.iter() {
        page.text(word);
        page.name(world, name);
        word = " above ";
    }
}

/// Tells which classes would have to come before each other in the class precedence list of a class by the definition that was refused.
pub fn inconsistent_precedence(
    alloc: Global,
    page: &mut Page,
    world: &World,
    form: &Datum,
    name: &Name,
) {
    let Ok(Top::DefClass(definition)) = parse_top(alloc, form) else {
        return;
    };
    let standard = [Name::fixed(&"STANDARD-OBJECT")];
    let Ok(circle) = precedence_circle(alloc, put(&*world, &definition, &standard), name) else {
        return page.fail();
    };
    for (place, edge) in circle.iter().enumerate() {
        page.entry("  the circle          ", place);
        page.name(world, &edge.before);
        page.text(" before ");
        page.name(world, &edge.after);
        page.text(", by ");
        page.name(world, &edge.by);
    }
}
