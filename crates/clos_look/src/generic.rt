//! What is shown of a generic function.
use crate::page::Page;
use clos_method::{Origin, Shape};
use clos_world::World;
use lisp_data::{GenericId, MethodId, Value};
use std::alloc::{AllocError, Global};

/// Adds what arguments there are (HyperSpec 7.6.4).
pub fn shape_row(page: &mut Page, world: &World, label: &str, shape: &Shape) {
    page.entry(label, 0);
    page.number(shape.required);
    page.text(" required");
    if shape.optional > 0 {
        page.text(", &optional ");
        page.number(shape.optional);
    }
    if shape.rest {
        page.text(", &rest");
    }
    let Some(keys) = &shape.keys else {
        return;
    };
    page.text(", &key");
    for name in keys.names.as_slice() {
        page.text(" ");
        page.name(world, name);
    }
    if keys.allow_other_keys {
        page.text(" &allow-other-keys");
    }
}

/// Which required argument decides first, which next, and so on, counted from 1.
fn order_row(page: &mut Page, precedence: &[usize]) {
    page.entry("  argument precedence ", 0);
    let mut word = "";
    for place in precedence {
        page.text(word);
        page.number((*place as u64).saturating_add(1));
        word = " ";
    }
}

/// What made a method, where that is no `defmethod`.
fn origin(page: &mut Page, world: &World, method: MethodId) {
    let Some(found) = world.generics.method(method) else {
        return;
    };
    match found.origin {
        Origin::System => page.text(", of the system"),
        Origin::Defmethod => {}
        Origin::MethodOption => page.text(", of its defgeneric"),
        Origin::Accessor(class) => {
            page.text(", of a slot of ");
            page.class(world, class);
        }
    }
}

/// Adds the methods of a generic function, in order of addition.
pub fn method_rows(page: &mut Page, world: &World, id: GenericId) {
    const LABEL: &str = "  methods             ";
    let Some(function) = world.generics.function(id) else {
        return;
    };
    let methods = function.methods();
    for (place, method) in methods.iter().enumerate() {
        page.entry(LABEL, place);
        page.value(world, &Value::Method(*method));
        origin(page, world, *method);
    }
    page.none(LABEL, methods.len());
}

/// Adds what arguments a generic function takes.
pub fn lambda_list_row(page: &mut Page, world: &World, id: GenericId) {
    match world.generics.function(id) {
        None => {}
        Some(function) => shape_row(page, world, "  arguments           ", function.shape()),
    }
}

/// What is shown of a generic function: what arguments it takes, in which order they decide (HyperSpec 7.6.6.1.2), its method
/// combination with its arguments (HyperSpec 7.6.6.4), and its methods in order of addition.
pub fn generic_page(alloc: Global, world: &World, id: GenericId) -> Result<Vec<u8>, AllocError> {
    let mut page = Page::new(alloc);
    page.value(world, &Value::Generic(id));
    if let Some(function) = world.generics.function(id) {
        lambda_list_row(&mut page, world, id);
        order_row(&mut page, function.precedence());
        page.entry("  combination         ", 0);
        page.name(world, &function.combination().name);
        method_rows(&mut page, world, id);
    }
    page.end()
}
