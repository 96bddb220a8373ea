//! Why methods can't be combined.
use crate::functions::its_methods;
use crate::nearest::Nearest;
use crate::subject::{generic, symbol};
use clos_look::{Page, World};
use lisp_data::Value;
use std::alloc::Global;

/// The method combinations of the system (HyperSpec 7.6.6.4).
const SYSTEM: [&str; 10] = [
    "STANDARD", "+", "AND", "APPEND", "LIST", "MAX", "MIN", "NCONC", "OR", "PROGN",
];

/// Asks for the method combination that was meant.
pub fn undefined(alloc: Global, page: &mut Page, world: &World, combination: &Value) {
    page.text("no method combination is called ");
    page.value(world, combination);
    let Some(name) = symbol(combination) else {
        return;
    };
    let mut nearest = Nearest::new(alloc, name.as_str());
    for other in SYSTEM.iter() {
        nearest.offer(other);
    }
    for place in 0..usize::MAX {
        let Some(other) = world.combinations.name(place) else {
            break;
        };
        nearest.offer(other.as_str());
    }
    nearest.ask(page);
}

/// The combination of a function.
fn its_combination(page: &mut Page, world: &World, function: &Value) {
    page.text("the method combination");
    let Some(id) = generic(world, function) else {
        return;
    };
    let Some(found) = world.generics.function(id) else {
        return;
    };
    page.text(" ");
    page.name(world, &found.combination().name);
}

/// Tells which group lacks a method.
pub fn required_group_empty(page: &mut Page, world: &World, function: &Value, group: &Value) {
    page.text("methods of ");
    page.value(world, function);
    page.text(" fit, but none of the group ");
    page.value(world, group);
    page.text(", which ");
    its_combination(page, world, function);
    page.text(" requires");
    its_methods(page, world, function);
}

/// The generic function of a method.
fn function_of(world: &World, method: &Value) -> Option<Value> {
    match method {
        Value::Method(id) => Some(Value::Generic(world.generics.method(*id)?.generic)),
        _ => None,
    }
}

/// Tells that no group takes a method.
pub fn invalid_method(page: &mut Page, world: &World, method: &Value) {
    if let Some(function) = function_of(world, method) {
        its_combination(page, world, &function);
    }
    page.text(" has no group for the qualifiers of ");
    page.value(world, method);
}

/// Tells of which two methods neither comes first.
pub fn ambiguous_methods(page: &mut Page, world: &World, first: &Value, second: &Value) {
    page.text("neither comes before the other, of one group and with the same specializers: ");
    page.value(world, first);
    page.text(" and ");
    page.value(world, second);
}

/// Tells that a combination's template makes no form.
pub fn bad_expansion(page: &mut Page, world: &World, function: &Value) {
    its_combination(page, world, function);
    page.text(" makes no effective method of ");
    page.value(world, function);
    page.text(": its arguments don't fit, its template goes wrong, or what it makes is no form");
}

/// Tells that a combination's template makes too much.
pub fn expansion_limit(page: &mut Page, world: &World, function: &Value) {
    its_combination(page, world, function);
    page.text(" makes too large an effective method of ");
    page.value(world, function);
    page.text(": more than 65536 conses, or lists that nest too deep");
}
