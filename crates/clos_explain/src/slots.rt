//! Why slots have no value, are not there, or are not filled by an initarg.
use crate::nearest::Nearest;
use crate::subject::{class, symbol};
use clos_look::{Page, World};
use lisp_data::{ClassId, Name, Value};
use std::alloc::Global;

/// Tells which initargs fill a slot.
pub fn unbound(page: &mut Page, world: &World, slot: &Value, instance: &Value) {
    page.text("the slot ");
    page.value(world, slot);
    page.text(" of ");
    page.value(world, instance);
    page.text(" has no value");
    let Some(name) = symbol(slot) else {
        return;
    };
    let mut word = "; it is filled by ";
    for initarg in world
        .classes()
        .initargs(world.class_of_value(instance), name)
    {
        page.text(word);
        page.name(world, initarg);
        word = " or ";
    }
}

/// Asks for the slot that was meant, and tells which there are.
pub fn missing(alloc: Global, page: &mut Page, world: &World, slot: &Value, instance: &Value) {
    page.value(world, instance);
    page.text(" has no slot ");
    page.value(world, slot);
    let Some(effective) = world.classes().effective(world.class_of_value(instance)) else {
        return;
    };
    if let Some(name) = symbol(slot) {
        let mut nearest = Nearest::new(alloc, name.as_str());
        for other in effective.slots() {
            nearest.offer(other.name.as_str());
        }
        nearest.ask(page);
    }
    for (place, other) in effective.slots().iter().enumerate() {
        page.entry("  slots               ", place);
        page.name(world, &other.name);
    }
}

/// The initargs of all slots of a class.
fn initarg_rows(page: &mut Page, world: &World, found: ClassId) {
    const LABEL: &str = "  initargs of slots   ";
    let mut count = 0;
    if let Some(effective) = world.classes().effective(found) {
        for slot in effective.slots() {
            for initarg in slot.initargs.as_slice() {
                page.entry(LABEL, count);
                page.name(world, initarg);
                count = count.saturating_add(1);
            }
        }
    }
    page.none(LABEL, count);
}

/// Offers the initargs of all slots of a class.
fn with_initargs<'a>(world: &'a World, found: ClassId, mut nearest: Nearest<'a>) -> Nearest<'a> {
    let Some(effective) = world.classes().effective(found) else {
        return nearest;
    };
    for slot in effective.slots() {
        for initarg in slot.initargs.as_slice() {
            nearest.offer(initarg.as_str());
        }
    }
    nearest
}

/// Asks for the initarg that was meant.
fn ask_initarg(alloc: Global, page: &mut Page, world: &World, found: ClassId, name: &Name) {
    let nearest = with_initargs(world, found, Nearest::new(alloc, name.as_str()));
    nearest.ask_after(page, if name.is_keyword() { ":" } else { "" });
}

/// Tells which initargs fill slots.
pub fn invalid_initarg(
    alloc: Global,
    page: &mut Page,
    world: &World,
    initarg: &Value,
    value: &Value,
) {
    page.value(world, initarg);
    page.text(" fills no slot of ");
    page.value(world, value);
    page.text(", and no method takes it");
    let Some(found) = class(world, value) else {
        return;
    };
    if let Some(name) = symbol(initarg) {
        ask_initarg(alloc, page, world, found, name);
    }
    initarg_rows(page, world, found);
}
