//! Runs of files after which a page of what there is then is written.
use crate::explained::run_explained;
use clos_commentary::{Stop, World, call_of, explanation, fitting_page, form_of_arguments};
use clos_forms::{is_definition, quoted_value};
use clos_page::{Call, html_page};
use clos_program::{
    Dependents, Fault, FileName, Natives, Output, STATUS_FAULT, Session, Settings, is_input,
    read_source, report,
};
use clos_program_error::{all_parts, called_name};
use lisp_data::{Datum, prin1};
use lisp_reader::read_form;
use std::alloc::{AllocError, Global};
use std::fs::{self, File, Files};
use std::io::{Read, Write};

/// So many calls are shown at most.
const MAX_CALLS: usize = 200;

/// Whether a form defines something, or changes what is defined.
fn is_definition_form(form: &Datum) -> bool {
    match called_name(form) {
        None => false,
        Some(name) => is_definition(name),
    }
}

/// The forms at the end of a text that define nothing.
fn last_forms(alloc: Global, text: &[u8]) -> Result<Vec<Datum>, AllocError> {
    let mut forms = Vec::new(alloc);
    let mut at = 0;
    for _ in 0..=text.len() {
        if at > text.len() {
            break;
        }
        let Ok(Some((form, next))) = read_form(alloc, text, at) else {
            break;
        };
        if is_definition_form(&form) {
            forms = Vec::new(alloc);
        } else {
            forms.push(form)?;
        }
        at = next;
    }
    Ok(forms)
}

/// A form as it is printed.
fn printed(alloc: Global, world: &World, form: &Datum) -> Result<Vec<u8>, AllocError> {
    match quoted_value(alloc, form)? {
        None => Ok(Vec::new(alloc)),
        Some(value) => prin1(alloc, &value, world),
    }
}

/// A call of a generic function, with the methods that fit its arguments, which are evaluated once more.
fn call_shown<N: Natives, D: Dependents>(
    alloc: Global,
    session: &mut Session<N, D>,
    form: &Datum,
) -> Result<Option<Call>, AllocError> {
    let Some((id, arguments)) = call_of(session.world(), form) else {
        return Ok(None);
    };
    let evaluated = form_of_arguments(alloc, arguments)?;
    let mut steps = session.world().limits.steps;
    let shown = match session.perform(&evaluated, &mut steps) {
        Ok(list) => fitting_page(alloc, session.world(), id, &list)?,
        Err(Stop::Refused(condition)) => {
            explanation(alloc, session.world(), &evaluated, &condition)?.text
        }
        Err(Stop::Storage) => return Err(AllocError),
    };
    let form = printed(alloc, session.world(), form)?;
    Ok(Some(Call { form, shown }))
}

/// The calls of generic functions that stand in these forms.
fn calls_shown<N: Natives, D: Dependents>(
    alloc: Global,
    session: &mut Session<N, D>,
    forms: &[Datum],
) -> Result<Vec<Call>, AllocError> {
    let mut calls = Vec::new(alloc);
    for form in forms {
        for part in all_parts(alloc, form)?.iter() {
            if calls.len() < MAX_CALLS {
                if let Some(call) = call_shown(alloc, session, &part.form)? {
                    calls.push(call)?;
                }
            }
        }
    }
    Ok(calls)
}

/// The text of the last file, or none where that can't be had once more.
fn last_text<R: Files>(rt: &R, alloc: Global, settings: &Settings<'_>) -> Vec<u8> {
    let none = Vec::new(alloc);
    let Some(name) = settings.files.last() else {
        return none;
    };
    if is_input(*name) {
        return none;
    }
    match File::open(rt, *name) {
        Ok(mut file) => read_source(alloc, &mut file).unwrap_or(none),
        Err(_) => none,
    }
}

/// The names of the files.
fn title(alloc: Global, settings: &Settings<'_>) -> Result<Vec<u8>, AllocError> {
    let mut text = Vec::new(alloc);
    for name in settings.files.iter() {
        if !text.is_empty() {
            text.push(b' ')?;
        }
        let shown = format!(in alloc; "{}", FileName(name))?;
        text.extend_from_slice(shown.as_bytes())?;
    }
    if text.is_empty() {
        return Vec::from_slice(alloc, b"-");
    }
    Ok(text)
}

/// The page of what there is in a session after these files.
fn page<N: Natives, D: Dependents, R: Files>(
    rt: &R,
    alloc: Global,
    session: &mut Session<N, D>,
    settings: &Settings<'_>,
) -> Result<Vec<u8>, AllocError> {
    let text = last_text(rt, alloc, settings);
    let forms = last_forms(alloc, text.as_slice())?;
    let calls = calls_shown(alloc, session, forms.as_slice())?;
    let title = title(alloc, settings)?;
    html_page(alloc, session.world(), title.as_slice(), calls.as_slice())
}

/// Runs the files of the settings with explanations, and then writes a page in HTML to the file of this name: the graph of the classes,
/// the generic functions, and for each call that the forms at the end of the last file name, those after its last definition, the methods
/// that fit. The arguments of these calls are evaluated once more; what they write is lost. The answer is the exit status.
pub fn run_paged<N: Natives, D: Dependents, R: Files, I: Read, W: Write, E: Write>(
    rt: &R,
    alloc: Global,
    session: &mut Session<N, D>,
    settings: &Settings<'_>,
    name: &str,
    input: &mut I,
    output: &mut Output<W>,
    errors: &mut E,
) -> u8 {
    let status = run_explained(rt, alloc, session, settings, input, output, errors);
    if status == STATUS_FAULT {
        return status;
    }
    let Ok(text) = page(rt, alloc, session, settings) else {
        report(errors, Fault::Memory);
        return STATUS_FAULT;
    };
    if fs::write(rt, name, text.as_slice()).is_err() {
        let _ = writeln!(errors, "clos: {}: write fault", FileName(name));
        return STATUS_FAULT;
    }
    status
}
