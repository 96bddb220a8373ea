//! Which lambda lists are not congruent (HyperSpec 7.6.4).
use crate::functions::its_methods;
use crate::subject::generic;
use clos_look::{Page, World, lambda_list_row, shape_row};
use clos_method::Shape;
use clos_top::{Top, parse_top};
use lisp_data::{Datum, Value};
use std::alloc::{AllocError, Global};

/// What arguments the lambda list of a definition takes, after the label of its row.
fn defined_shape(alloc: Global, form: &Datum) -> Result<Option<(&'static str, Shape)>, AllocError> {
    match parse_top(alloc, form) {
        Ok(Top::DefMethod(_, method)) => Ok(Some((
            "  of the method       ",
            Shape::of(alloc, &method.lambda_list)?,
        ))),
        Ok(Top::DefGeneric(function)) => Ok(Some((
            "  of its defgeneric   ",
            Shape::of(alloc, &function.lambda_list)?,
        ))),
        _ => Ok(None),
    }
}

/// Tells what arguments a function takes, and what arguments by the definition that was refused.
pub fn not_congruent(
    alloc: Global,
    page: &mut Page,
    world: &World,
    form: &Datum,
    function: &Value,
) {
    page.text("the lambda lists of ");
    page.value(world, function);
    page.text(" and of a method of it are not congruent");
    if let Some(id) = generic(world, function) {
        lambda_list_row(page, world, id);
    }
    match defined_shape(alloc, form) {
        Ok(Some((label, shape))) => shape_row(page, world, label, &shape),
        Ok(None) => {}
        Err(_) => page.fail(),
    }
    its_methods(page, world, function);
}
