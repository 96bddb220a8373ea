//! Which call has arguments that its function does not take.
use crate::arity::arity_of;
use crate::keywords::taken_by;
use crate::part::{all_parts, called_name, elements};
use clos_look::{Page, World};
use clos_names::{is_definition, is_special_operator};
use lisp_data::{Datum, Name};
use std::alloc::{AllocError, Global};

/// Tells how many arguments a function is called with, where it takes more or less. Answers whether it does.
fn tell_wrong_count(
    alloc: Global,
    page: &mut Page,
    world: &World,
    name: &Name,
    count: u64,
) -> Result<bool, AllocError> {
    match arity_of(alloc, world, name)? {
        Some(taken) if !taken.has(count) => {
            page.name(world, name);
            page.text(" takes ");
            taken.tell(page);
            page.text(", and is called with ");
            page.number(count);
            Ok(true)
        }
        _ => Ok(false),
    }
}

/// Tells what is wrong with the arguments of a call. Answers whether something is.
fn tell_wrong(
    alloc: Global,
    page: &mut Page,
    world: &World,
    form: &Datum,
) -> Result<bool, AllocError> {
    let Some(name) = called_name(form) else {
        return Ok(false);
    };
    if is_special_operator(name) || is_definition(name) {
        return Ok(false);
    }
    let items = elements(alloc, form)?;
    let [_, arguments @ ..] = items.as_slice() else {
        return Ok(false);
    };
    if tell_wrong_count(alloc, page, world, name, arguments.len() as u64)? {
        return Ok(true);
    }
    match taken_by(alloc, world, name)? {
        None => Ok(false),
        Some(taken) => Ok(taken.tell_wrong(page, world, name, arguments)),
    }
}

/// Tells which call in a form has arguments that its function does not take, the first one that is seen. Answers where it stands.
pub fn wrong_call(
    alloc: Global,
    page: &mut Page,
    world: &World,
    form: &Datum,
) -> Result<Option<Vec<usize>>, AllocError> {
    for part in all_parts(alloc, form)? {
        if tell_wrong(alloc, page, world, &part.form)? {
            return Ok(Some(Vec::from_slice(alloc, part.path.as_slice())?));
        }
    }
    Ok(None)
}
