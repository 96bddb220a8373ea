//! What is shown of a class.
use crate::page::Page;
use clos_method::Origin;
use clos_world::World;
use lisp_data::{ClassId, GenericId, MethodId, Name, Value};
use std::alloc::{AllocError, Global};

/// Whether this name is among them.
fn has_name(names: &[Name], name: &Name) -> bool {
    names.iter().any(|other| other.is(name))
}

/// Whether a class names the other one as a direct superclass.
fn is_direct_subclass(world: &World, class: ClassId, above: ClassId) -> bool {
    let hierarchy = world.classes().hierarchy();
    match hierarchy.name(above) {
        None => false,
        Some(name) => has_name(hierarchy.superclasses(class), name),
    }
}

/// The class precedence list of a class, or no classes where it has none.
fn precedence(world: &World, class: ClassId) -> &[ClassId] {
    world.classes().hierarchy().precedence_or_none(class)
}

fn superclass_rows(page: &mut Page, world: &World, class: ClassId) {
    const LABEL: &str = "  direct superclasses ";
    let hierarchy = world.classes().hierarchy();
    let names = hierarchy.superclasses(class);
    for (place, name) in names.iter().enumerate() {
        page.entry(LABEL, place);
        page.name(world, name);
        if hierarchy.named(name).is_none() {
            page.text(", which is not defined");
        }
    }
    page.none(LABEL, names.len());
}

fn subclass_rows(page: &mut Page, world: &World, class: ClassId) {
    const LABEL: &str = "  direct subclasses   ";
    let mut count = 0;
    for number in 0..u64::MAX {
        let below = ClassId(number);
        if world.classes().hierarchy().name(below).is_none() {
            break;
        }
        if is_direct_subclass(world, below, class) {
            page.entry(LABEL, count);
            page.class(world, below);
            count = count.saturating_add(1);
        }
    }
    page.none(LABEL, count);
}

/// The last of these classes that names the other one as a direct superclass. By HyperSpec 4.3.5.1 it is the reason that this one
/// comes next: of the classes that no other has to precede, it is the one with a direct subclass rightmost in the list.
fn last_below(world: &World, list: &[ClassId], class: ClassId) -> Option<ClassId> {
    let mut last = None;
    for below in list {
        if is_direct_subclass(world, *below, class) {
            last = Some(*below);
        }
    }
    last
}

fn precedence_rows(page: &mut Page, world: &World, class: ClassId) {
    const LABEL: &str = "  precedence          ";
    let list = precedence(world, class);
    for (place, above) in list.iter().enumerate() {
        page.entry(LABEL, place);
        page.class(world, *above);
        let earlier = list.get(..place).unwrap_or(&[]);
        if let Some(below) = last_below(world, earlier, *above) {
            page.text(", since it is above ");
            page.class(world, below);
        }
    }
    if list.is_empty() {
        page.entry(LABEL, 0);
        page.text("none, since a class above it is not defined");
    }
}

/// The classes of the list that say something of a slot.
fn slot_sources(page: &mut Page, world: &World, list: &[ClassId], slot: &Name) {
    let mut word = " from ";
    for class in list {
        for direct in world.classes().direct_slots(*class) {
            if direct.name.is(slot) {
                page.text(word);
                page.class(world, *class);
                word = ", ";
            }
        }
    }
}

fn slot_rows(page: &mut Page, world: &World, class: ClassId) {
    const LABEL: &str = "  slots               ";
    let mut count = 0;
    if let Some(effective) = world.classes().effective(class) {
        for slot in effective.slots() {
            page.entry(LABEL, count);
            page.name(world, &slot.name);
            slot_sources(page, world, precedence(world, class), &slot.name);
            if slot.cell.is_some() {
                page.text(", shared");
            }
            if slot.initform.is_some() {
                page.text(", with an initform");
            }
            let mut word = ", initargs ";
            for initarg in slot.initargs.as_slice() {
                page.text(word);
                page.name(world, initarg);
                word = " ";
            }
            count = count.saturating_add(1);
        }
    }
    page.none(LABEL, count);
}

/// The class of the list that gives this default initarg.
fn default_source(world: &World, list: &[ClassId], initarg: &Name) -> Option<ClassId> {
    for class in list {
        for default in world.classes().direct_defaults(*class) {
            if default.name.is(initarg) {
                return Some(*class);
            }
        }
    }
    None
}

fn default_rows(page: &mut Page, world: &World, class: ClassId) {
    const LABEL: &str = "  default initargs    ";
    let defaults = world.classes().defaults(class);
    for (place, default) in defaults.iter().enumerate() {
        page.entry(LABEL, place);
        page.name(world, &default.name);
        if let Some(source) = default_source(world, precedence(world, class), &default.name) {
            page.text(" from ");
            page.class(world, source);
        }
    }
    page.none(LABEL, defaults.len());
}

/// Whether an option of a slot of one of these classes made a method.
fn is_accessor_of(world: &World, list: &[ClassId], method: MethodId) -> bool {
    match world.generics.method(method) {
        None => false,
        Some(found) => match found.origin {
            Origin::Accessor(class) => list.iter().any(|above| above.0 == class.0),
            _ => false,
        },
    }
}

fn accessor_rows(page: &mut Page, world: &World, class: ClassId) {
    const LABEL: &str = "  accessor methods    ";
    let mut count = 0;
    for number in 0..world.generics.function_count() {
        if let Some(function) = world.generics.function(GenericId(number)) {
            for method in function.methods() {
                if is_accessor_of(world, precedence(world, class), *method) {
                    page.entry(LABEL, count);
                    page.value(world, &Value::Method(*method));
                    count = count.saturating_add(1);
                }
            }
        }
    }
    page.none(LABEL, count);
}

/// What is shown of a class: its direct superclasses and subclasses, its class precedence list with the reason for each place
/// (HyperSpec 4.3.5), its slots with the classes that say something of each (HyperSpec 7.5.3), its default initargs with the class
/// that gives each (HyperSpec 7.1.3), and the methods that options of all these slots made.
pub fn class_page(alloc: Global, world: &World, class: ClassId) -> Result<Vec<u8>, AllocError> {
    let mut page = Page::new(alloc);
    page.value(world, &Value::Class(class));
    superclass_rows(&mut page, world, class);
    subclass_rows(&mut page, world, class);
    precedence_rows(&mut page, world, class);
    slot_rows(&mut page, world, class);
    default_rows(&mut page, world, class);
    accessor_rows(&mut page, world, class);
    page.end()
}
