//! What is shown of the methods that fit arguments.
use crate::effective::push_form;
use crate::page::Page;
use clos_world::{Outcome, World};
use lisp_data::{GenericId, MethodId, Specializer, Value};
use std::alloc::{AllocError, Global};

/// Whether both ask the same of an argument that fits both.
fn is_same(first: Specializer<'_>, second: Specializer<'_>) -> bool {
    match (first, second) {
        (Specializer::Class(class), Specializer::Class(other)) => class.0 == other.0,
        (Specializer::Eql(_), Specializer::Eql(_)) => true,
        _ => false,
    }
}

fn specializer(page: &mut Page, world: &World, specializer: Specializer<'_>) {
    match specializer {
        Specializer::Class(class) => page.class(world, class),
        Specializer::Eql(object) => {
            page.text("(EQL ");
            page.value(world, object);
            page.text(")");
        }
    }
}

/// Tells why a method comes after another one: by the first argument, in the order in which they decide, of which they ask something
/// else (HyperSpec 7.6.6.1.2).
fn reason(
    page: &mut Page,
    world: &World,
    precedence: &[usize],
    earlier: MethodId,
    later: MethodId,
) {
    let (Some(first), Some(second)) = (world.generics.method(earlier), world.generics.method(later))
    else {
        return;
    };
    for place in precedence {
        let told = (
            first.specializers.told(*place),
            second.specializers.told(*place),
        );
        if let (Some(one), Some(other)) = told {
            if !is_same(one, other) {
                page.text(", since ");
                specializer(page, world, one);
                page.text(" comes before ");
                specializer(page, world, other);
                page.text(" for argument ");
                return page.number((*place as u64).saturating_add(1));
            }
        }
    }
    page.text(", of the same specializers");
}

fn fitting_rows(page: &mut Page, world: &World, precedence: &[usize], methods: &[MethodId]) {
    const LABEL: &str = "  methods that fit    ";
    let mut before: Option<MethodId> = None;
    for (place, method) in methods.iter().enumerate() {
        page.entry(LABEL, place);
        page.value(world, &Value::Method(*method));
        if let Some(earlier) = before {
            reason(page, world, precedence, earlier, *method);
        }
        before = Some(*method);
    }
    page.none(LABEL, methods.len());
}

fn other_rows(page: &mut Page, world: &World, all: &[MethodId], fitting: &[MethodId]) {
    let mut count = 0;
    for method in all {
        if !fitting.iter().any(|other| other.0 == method.0) {
            page.entry("  others              ", count);
            page.value(world, &Value::Method(*method));
            count = count.saturating_add(1);
        }
    }
}

fn class_row(page: &mut Page, world: &World, values: &[Value]) {
    page.entry("  classes             ", 0);
    let mut word = "";
    for value in values {
        page.text(word);
        page.class(world, world.class_of_value(value));
        word = " ";
    }
}

/// The form into which the methods are combined, where it is kept.
fn effective_row(alloc: Global, page: &mut Page, world: &World, id: GenericId, values: &[Value]) {
    page.entry("  effective method    ", 0);
    let Ok(key) = world.key_of(alloc, id, values) else {
        return page.fail();
    };
    match world.cache.find(&key) {
        None => page.text("not built yet"),
        Some(found) => match &found.outcome {
            Outcome::Effective(form) => push_form(alloc, page, world, form),
            _ => page.text("none"),
        },
    }
}

/// What is shown of a call of a generic function with these arguments: the class of each, the methods that fit, the most specific
/// first, each with the reason that it comes after the one before (HyperSpec 7.6.6.1), the other methods of the function, and the
/// effective method, where it is kept.
pub fn methods_page(
    alloc: Global,
    world: &World,
    id: GenericId,
    values: &[Value],
) -> Result<Vec<u8>, AllocError> {
    let mut page = Page::new(alloc);
    page.value(world, &Value::Generic(id));
    let Some(function) = world.generics.function(id) else {
        return page.end();
    };
    if (values.len() as u64) < function.shape().required {
        page.text(" takes ");
        page.count(function.shape().required, "argument", "arguments");
        page.text(" or more");
        return page.end();
    }
    class_row(&mut page, world, values);
    let fitting = world.ordered(alloc, id, values)?;
    fitting_rows(&mut page, world, function.precedence(), fitting.as_slice());
    other_rows(&mut page, world, function.methods(), fitting.as_slice());
    effective_row(alloc, &mut page, world, id, values);
    page.end()
}
