//! Why functions and variables are not found, and calls of generic functions not answered.
use crate::nearest::Nearest;
use crate::subject::{generic, symbol};
use clos_forms::FunctionName;
use clos_look::{Page, World, method_rows};
use clos_names::{definition_names, function_names, special_operator_name, system_function_names};
use lisp_data::{GenericId, Value};
use std::alloc::Global;

/// Asks for the global variable that was meant.
pub fn unbound_variable(alloc: Global, page: &mut Page, world: &World, variable: &Value) {
    page.text("no variable here is called ");
    page.value(world, variable);
    let Some(name) = symbol(variable) else {
        return;
    };
    if world.classes().hierarchy().named(name).is_some() {
        page.text("; the class is written '");
        return page.name(world, name);
    }
    if world.generics.named_by_symbol(name).is_some() {
        page.text("; the generic function is written #'");
        return page.name(world, name);
    }
    let mut nearest = Nearest::new(alloc, name.as_str());
    for place in 0..world.globals.len() {
        if let Some(other) = world.globals.name(place) {
            nearest.offer(other.as_str());
        }
    }
    nearest.ask(page);
}

/// Offers the functions of the program, and the generic functions.
fn with_defined<'a>(world: &'a World, mut nearest: Nearest<'a>) -> Nearest<'a> {
    for place in 0..world.functions.len() {
        if let Some(other) = world.functions.name(place) {
            nearest.offer(other.as_str());
        }
    }
    for number in 0..world.generics.function_count() {
        if let Some(function) = world.generics.function(GenericId(number)) {
            if let FunctionName::Symbol(other) = function.name() {
                nearest.offer(other.as_str());
            }
        }
    }
    nearest
}

/// Offers the names that the language gives a meaning.
fn with_known(mut nearest: Nearest<'_>) -> Nearest<'_> {
    for other in function_names() {
        nearest.offer(other);
    }
    for other in system_function_names() {
        nearest.offer(other);
    }
    for other in definition_names() {
        nearest.offer(other);
    }
    for place in 0..usize::MAX {
        let Some(other) = special_operator_name(place) else {
            break;
        };
        nearest.offer(other);
    }
    nearest
}

/// Asks for the function that was meant.
pub fn undefined_function(alloc: Global, page: &mut Page, world: &World, function: &Value) {
    page.text("no function is called ");
    page.value(world, function);
    let Some(name) = symbol(function) else {
        return;
    };
    let defined = with_defined(world, Nearest::new(alloc, name.as_str()));
    with_known(defined).ask(page);
}

/// The methods of a function, in order of addition.
pub fn its_methods(page: &mut Page, world: &World, function: &Value) {
    if let Some(id) = generic(world, function) {
        method_rows(page, world, id);
    }
}

/// Tells of which classes the arguments are, and which methods there are.
pub fn no_applicable_method(page: &mut Page, world: &World, function: &Value, arguments: &[Value]) {
    page.text("no method of ");
    page.value(world, function);
    page.text(" fits (");
    let mut word = "";
    for argument in arguments {
        page.text(word);
        page.class(world, world.class_of_value(argument));
        word = " ";
    }
    page.text(")");
    its_methods(page, world, function);
}

/// Tells which methods there are.
pub fn no_such_method(page: &mut Page, world: &World, function: &Value) {
    page.value(world, function);
    page.text(" has no method with these qualifiers and specializers");
    its_methods(page, world, function);
}

/// Tells that there is no further method, of which.
pub fn no_next_method(page: &mut Page, world: &World, method: &Value) {
    page.text("no method follows ");
    page.value(world, method);
    page.text(" in this call; next-method-p tells whether one does");
}

/// Tells that other arguments would have another effective method.
pub fn next_arguments(page: &mut Page, world: &World, method: &Value) {
    page.text("in ");
    page.value(world, method);
    page.text(" call-next-method has arguments that other methods fit, or in another order");
}
