//! Which form is malformed.
use crate::broken::{Broken, find_broken};
use crate::part::{Part, called_name};
use crate::syntax::syntax_of;
use crate::taken::tell_reserved;
use clos_forms::{SyntaxFault, parse_form, quoted_value};
use clos_look::{Page, World};
use lisp_data::Datum;
use std::alloc::{AllocError, Global};

/// No form that is read nests deeper.
const MAX_NESTING: usize = 200;

/// The first form in this one that is malformed by itself.
fn malformed_part(alloc: Global, whole: &Part) -> Result<Option<Part>, AllocError> {
    for part in whole.parts(alloc)? {
        if let Err(SyntaxFault::Program) = parse_form(alloc, part.context, &part.form) {
            return Ok(Some(part));
        }
    }
    Ok(None)
}

/// Tells that a form is malformed, by what is called in it.
fn tell_malformed(page: &mut Page, world: &World, form: &Datum) {
    let Some(name) = called_name(form) else {
        return page.text(
            "the form is malformed: no name of a function or an operator stands first in it",
        );
    };
    page.text("the form (");
    page.name(world, name);
    page.text(" ..) is malformed");
    if let Some(syntax) = syntax_of(name) {
        page.text("; such a form is ");
        page.text(syntax);
    }
}

/// Tells that an element of a form is malformed.
fn tell_broken(alloc: Global, page: &mut Page, world: &World, form: &Datum, found: &Broken) {
    page.text(found.what);
    match quoted_value(alloc, &found.datum) {
        Ok(Some(value)) => page.value(world, &value),
        Ok(None) => {}
        Err(_) => page.fail(),
    }
    if let Some(name) = called_name(form) {
        page.text(" of this ");
        page.name(world, name);
    }
    page.text(" is malformed");
}

/// Tells what is malformed in a form that has no malformed form in it. Answers where it stands.
fn tell_innermost(
    alloc: Global,
    page: &mut Page,
    world: &World,
    last: &Part,
) -> Result<Vec<usize>, AllocError> {
    let mut path = Vec::from_slice(alloc, last.path.as_slice())?;
    if tell_reserved(page, world, &last.form) {
        return Ok(path);
    }
    match find_broken(alloc, last)? {
        None => tell_malformed(page, world, &last.form),
        Some(found) => {
            path.extend_from_slice(found.path.as_slice())?;
            tell_broken(alloc, page, world, &last.form, &found);
        }
    }
    Ok(path)
}

/// Tells which form in a malformed one is malformed, and has none in it that is. Answers where it stands.
pub fn explain_malformed(
    alloc: Global,
    page: &mut Page,
    world: &World,
    form: &Datum,
) -> Result<Vec<usize>, AllocError> {
    let mut last = Part::whole(alloc, form)?;
    for _ in 0..MAX_NESTING {
        match malformed_part(alloc, &last)? {
            None => break,
            Some(part) => last = part,
        }
    }
    tell_innermost(alloc, page, world, &last)
}
