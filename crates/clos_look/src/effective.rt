//! Effective methods, written as forms (HyperSpec 7.6.6).
use crate::page::Page;
use clos_forms::{CalledMethod, Form, Forms, NextMethods, Operator};
use clos_world::World;
use lisp_data::{MethodId, Name, Value};
use std::alloc::{AllocError, Global};

/// So many pieces of a form are written.
const MAX_PIECES: usize = 10_000;

/// A piece of a form's text that is still to be written.
#[derive(Drop)]
enum Piece {
    Form(Form),
    Method(MethodId),
    /// `(MAKE-METHOD `.
    MakeMethod,
    Open,
    Close,
    Space,
}

/// The name of an operator whose parts alone follow it in a form.
fn plain_name(operator: &Operator) -> Option<&'static str> {
    match operator {
        Operator::If => Some("IF"),
        Operator::When => Some("WHEN"),
        Operator::Unless => Some("UNLESS"),
        Operator::And => Some("AND"),
        Operator::Or => Some("OR"),
        Operator::Progn => Some("PROGN"),
        Operator::Prog1 => Some("PROG1"),
        Operator::Cond => Some("COND"),
        _ => None,
    }
}

/// The name of any other operator, of whose form no more is written.
fn other_name(operator: &Operator) -> &'static str {
    match operator {
        Operator::Let(_) => "LET",
        Operator::LetInOrder(_) => "LET*",
        Operator::Setq(_) => "SETQ",
        Operator::Setf => "SETF",
        Operator::Incf => "INCF",
        Operator::Decf => "DECF",
        Operator::Dotimes(_, _) => "DOTIMES",
        Operator::WithSlots(_) => "WITH-SLOTS",
        Operator::Function(_) => "FUNCTION",
        _ => "QUOTE",
    }
}

/// Writes a constant, quoted where it would be evaluated.
fn write_constant(page: &mut Page, world: &World, value: &Value) {
    let is_quoted = match value {
        Value::Sym(name) => !name.is_keyword() && name.as_str() != "T",
        Value::List(items) => items.split_first().is_some(),
        _ => false,
    };
    if is_quoted {
        page.text("'");
    }
    page.value(world, value);
}

/// Adds the parts of a form, each after a space, and its end.
fn push_parts(pieces: &mut Vec<Piece>, parts: &Forms) -> Result<(), AllocError> {
    let mut rest = parts;
    for _ in 0..MAX_PIECES {
        let Some((part, others)) = rest.split_first() else {
            break;
        };
        pieces.push(Piece::Space)?;
        pieces.push(Piece::Form(part.copy()?))?;
        rest = others;
    }
    pieces.push(Piece::Close)?;
    Ok(())
}

/// Adds the parts of a clause, which has no operator of its own, and its end.
fn push_clause(pieces: &mut Vec<Piece>, parts: &Forms) -> Result<(), AllocError> {
    match parts.split_first() {
        None => {
            pieces.push(Piece::Close)?;
            Ok(())
        }
        Some((test, others)) => {
            pieces.push(Piece::Form(test.copy()?))?;
            push_parts(pieces, others)
        }
    }
}

/// Adds a method that is called or comes next, for one that is made the next of these forms, and gives the others.
fn push_called<'a>(
    pieces: &mut Vec<Piece>,
    called: CalledMethod,
    made: &'a Forms,
) -> Result<&'a Forms, AllocError> {
    match called {
        CalledMethod::Method(id) => {
            pieces.push(Piece::Method(id))?;
            Ok(made)
        }
        CalledMethod::Made => {
            let Some((form, others)) = made.split_first() else {
                return Ok(made);
            };
            pieces.push(Piece::MakeMethod)?;
            pieces.push(Piece::Form(form.copy()?))?;
            pieces.push(Piece::Close)?;
            Ok(others)
        }
    }
}

/// Adds what is called, the list of the next methods, and the end of the form.
fn push_call_method(
    pieces: &mut Vec<Piece>,
    called: CalledMethod,
    next: &NextMethods,
    made: &Forms,
) -> Result<(), AllocError> {
    pieces.push(Piece::Space)?;
    let mut made = push_called(pieces, called, made)?;
    pieces.push(Piece::Space)?;
    pieces.push(Piece::Open)?;
    for (place, method) in next.as_slice().iter().enumerate() {
        if place > 0 {
            pieces.push(Piece::Space)?;
        }
        made = push_called(pieces, *method, made)?;
    }
    pieces.push(Piece::Close)?;
    pieces.push(Piece::Close)?;
    Ok(())
}

/// Writes the beginning of a form, and adds the pieces that follow.
fn begin(
    page: &mut Page,
    world: &World,
    form: &Form,
    pieces: &mut Vec<Piece>,
) -> Result<(), AllocError> {
    match form.operator() {
        Operator::Constant(value) => write_constant(page, world, value),
        Operator::Variable(variable) => page.name(world, variable.name()),
        Operator::Call(called) => {
            page.text("(");
            page.name(world, called.name());
            push_parts(pieces, form.parts())?;
        }
        Operator::CallMethod(called, next) => {
            page.text("(CALL-METHOD");
            push_call_method(pieces, *called, next, form.parts())?;
        }
        Operator::Clause => {
            page.text("(");
            push_clause(pieces, form.parts())?;
        }
        operator => begin_other(page, operator, form.parts(), pieces)?,
    }
    Ok(())
}

/// Writes the beginning of a form of an operator by its name, where its parts alone follow it, and else the whole form.
fn begin_other(
    page: &mut Page,
    operator: &Operator,
    parts: &Forms,
    pieces: &mut Vec<Piece>,
) -> Result<(), AllocError> {
    page.text("(");
    match plain_name(operator) {
        Some(name) => {
            page.text(name);
            push_parts(pieces, parts)
        }
        None => {
            page.text(other_name(operator));
            page.text(" ..)");
            Ok(())
        }
    }
}

/// Writes a piece, and gives those that follow from it, in order.
fn write(
    alloc: Global,
    page: &mut Page,
    world: &World,
    piece: &Piece,
) -> Result<Vec<Piece>, AllocError> {
    let mut pieces = Vec::new(alloc);
    match piece {
        Piece::Form(form) => begin(page, world, form, &mut pieces)?,
        Piece::Method(id) => page.value(world, &Value::Method(*id)),
        Piece::MakeMethod => page.text("(MAKE-METHOD "),
        Piece::Open => page.text("("),
        Piece::Close => page.text(")"),
        Piece::Space => page.text(" "),
    }
    Ok(pieces)
}

/// Writes the form of an effective method. Of a form that binds or sets variables the operator alone is written.
fn write_form(
    alloc: Global,
    page: &mut Page,
    world: &World,
    form: &Form,
) -> Result<(), AllocError> {
    // The next piece is the last one.
    let mut left = Vec::new(alloc);
    left.push(Piece::Form(form.copy()?))?;
    for _ in 0..MAX_PIECES {
        let Some(piece) = left.pop() else {
            return Ok(());
        };
        let mut pieces = write(alloc, page, world, &piece)?;
        pieces.reverse();
        left.append(&mut pieces)?;
    }
    page.text(" ..");
    Ok(())
}

/// Adds the form of an effective method.
pub fn push_form(alloc: Global, page: &mut Page, world: &World, form: &Form) {
    if write_form(alloc, page, world, form).is_err() {
        page.fail();
    }
}
