//! Where in a form what a condition is about stands.
use crate::subject::symbol;
use clos_look::ConditionKind;
use clos_program_error::{Part, all_parts, called_name};
use lisp_data::{Datum, Name, Value};
use std::alloc::{AllocError, Global};

/// Whether a form calls this name.
fn calls(form: &Datum, name: &Name) -> bool {
    called_name(form).is_some_and(|called| called.is(name))
}

/// Whether a form is this variable.
fn is_variable(form: &Datum, name: &Name) -> bool {
    match form {
        Datum::Sym(variable) => variable.is(name),
        _ => false,
    }
}

/// Whether a condition of this kind about this name can come where the form is evaluated.
fn is_met(kind: ConditionKind, form: &Datum, name: &Name) -> bool {
    match kind {
        ConditionKind::UnboundVariable => is_variable(form, name),
        ConditionKind::UndefinedFunction => calls(form, name),
        ConditionKind::NoApplicableMethod => calls(form, name),
        ConditionKind::RequiredGroupEmpty => calls(form, name),
        _ => false,
    }
}

/// The only place in a form where a condition of this kind, which is about this first, can have come from, or else the form itself.
pub fn pointed(
    alloc: Global,
    kind: ConditionKind,
    form: &Datum,
    first: &Value,
) -> Result<Vec<usize>, AllocError> {
    let mut path = Vec::new(alloc);
    let Some(name) = symbol(first) else {
        return Ok(path);
    };
    let parts: Vec<Part> = all_parts(alloc, form)?;
    let mut count: u64 = 0;
    for part in parts.iter() {
        if is_met(kind, &part.form, name) {
            count = count.saturating_add(1);
            path = Vec::from_slice(alloc, part.path.as_slice())?;
        }
    }
    if count == 1 {
        return Ok(path);
    }
    Ok(Vec::new(alloc))
}
