//! What a datum is as a template, by its operator (HyperSpec 7.7 `define-method-combination`).
ghost use Rattle.std.specs.Prelude.{◌≡◌, IfOk};
ghost use Rattle.lisp_data.specs.DatumView.{datum_of};
ghost use Rattle.clos_forms.specs.Fault.{Gives};
ghost use Rattle.clos_template.specs.OperatorView.{operator_of};
ghost use Rattle.clos_template.specs.PartView.{shape_told};
ghost use Rattle.clos_template.specs.Shape.{body_shape, call_shape, headed_shape, if_shape, listed_shape, quasiquote_shape, quote_shape, shape_of, symbol_operator, template_shape, worded_shape};

use crate::backquote::quoted_shape;
use crate::binding::{cond_shape, let_in_order_shape, let_shape, mapcar_shape};
use crate::operator::{Function, Operator};
use crate::part::{Part, Role, Shape, as_it_is, atom, operation};
use crate::word::Word;
use clos_forms::{Bindings, SyntaxFault, names_constant, only, symbol_name};
use lisp_data::{Data, Datum, Name};
use std::alloc::{AllocError, Global};

/// What a datum is in its role.
pub(crate) fn shape_of<'a>(alloc: Global, part: Part<'a>) -> Result<Shape<'a>, SyntaxFault>
    ensures { Gives shape_told result (shape_of part.entry.role (datum_of part.entry.datum.now)) }
{
    match part.role {
        Role::Template => template_shape(alloc, part.datum),
        Role::Quoted => quoted_shape(alloc, part.datum),
        Role::Body => body_shape(alloc, part.datum),
    }
}

fn template_shape(alloc: Global, datum: &Datum) -> Result<Shape<'_>, SyntaxFault>
    ensures { Gives shape_told result (template_shape (datum_of datum.now)) }
{
    match datum {
        Datum::Int(_) => Ok(atom(alloc, Operator::Constant(datum.copy()?))),
        Datum::Sym(name) => Ok(atom(alloc, symbol_operator(name)?)),
        Datum::Str(_) => Ok(atom(alloc, Operator::Constant(datum.copy()?))),
        Datum::List(elements) => listed_shape(alloc, elements),
        Datum::Dotted(_) => Err(SyntaxFault::Program),
        Datum::Method(_) => Err(SyntaxFault::Program),
    }
}

/// What follows the test of a clause.
fn body_shape(alloc: Global, datum: &Datum) -> Result<Shape<'_>, SyntaxFault>
    ensures { Gives shape_told result (body_shape (datum_of datum.now)) }
{
    match datum {
        Datum::List(elements) => match elements.split_first() {
            None => Err(SyntaxFault::Program),
            Some((_, body)) => {
                let operator = Operator::Let(Bindings::new(Vec::new(alloc)));
                Ok(operation(alloc, operator, body)?)
            }
        },
        Datum::Int(_) => Err(SyntaxFault::Program),
        Datum::Sym(_) => Err(SyntaxFault::Program),
        Datum::Str(_) => Err(SyntaxFault::Program),
        Datum::Dotted(_) => Err(SyntaxFault::Program),
        Datum::Method(_) => Err(SyntaxFault::Program),
    }
}

fn symbol_operator(name: &Name) -> Result<Operator, AllocError>
    ensures { IfOk result (λ o. operator_of o ≡ symbol_operator name.now) }
{
    if names_constant(name) {
        return Ok(Operator::Constant(Datum::Sym(name.copy()?)));
    }
    Ok(Operator::Variable(name.copy()?))
}

/// The empty list is NIL, any other a template of the operator at its head.
fn listed_shape(alloc: Global, elements: &Data) -> Result<Shape<'_>, SyntaxFault>
    ensures { Gives shape_told result (listed_shape elements.now) }
{
    match elements.split_first() {
        None => Ok(atom(alloc, Operator::Constant(Datum::List(Data::new())))),
        Some((head, rest)) => headed_shape(alloc, head, rest),
    }
}

fn headed_shape<'a>(alloc: Global, head: &Datum, rest: &'a Data) -> Result<Shape<'a>, SyntaxFault>
    ensures { Gives shape_told result (headed_shape (datum_of head.now) rest.now) }
{
    let Some(name) = symbol_name(head) else {
        return Err(SyntaxFault::Program);
    };
    match Word::named(name) {
        None => Err(SyntaxFault::Program),
        Some(word) => worded_shape(alloc, word, rest),
    }
}

fn worded_shape<'a>(alloc: Global, word: Word, rest: &'a Data) -> Result<Shape<'a>, SyntaxFault>
    ensures { Gives shape_told result (worded_shape word rest.now) }
{
    match word {
        Word::Quote => quote_shape(alloc, rest),
        Word::Quasiquote => quasiquote_shape(alloc, rest),
        Word::If => if_shape(alloc, rest),
        Word::Cond => cond_shape(alloc, rest),
        Word::And => Ok(operation(alloc, Operator::And, rest)?),
        Word::Or => Ok(operation(alloc, Operator::Or, rest)?),
        Word::Let => let_shape(alloc, rest),
        Word::LetInOrder => let_in_order_shape(alloc, rest),
        Word::MapCar => mapcar_shape(alloc, rest),
        Word::Function(function) => call_shape(alloc, function, rest),
    }
}

/// Exactly one datum.
fn quote_shape<'a>(alloc: Global, rest: &'a Data) -> Result<Shape<'a>, SyntaxFault>
    ensures { Gives shape_told result (quote_shape rest.now) }
{
    match only(rest) {
        None => Err(SyntaxFault::Program),
        Some(datum) => Ok(atom(alloc, Operator::Constant(datum.copy()?))),
    }
}

/// Exactly one datum.
fn quasiquote_shape<'a>(alloc: Global, rest: &'a Data) -> Result<Shape<'a>, SyntaxFault>
    ensures { Gives shape_told result (quasiquote_shape rest.now) }
{
    match only(rest) {
        None => Err(SyntaxFault::Program),
        Some(datum) => Ok(as_it_is(alloc, Role::Quoted, datum)?),
    }
}

/// A test, and one template or two.
fn if_shape<'a>(alloc: Global, rest: &'a Data) -> Result<Shape<'a>, SyntaxFault>
    ensures { Gives shape_told result (if_shape rest.now) }
{
    if rest.len() < 2 || rest.len() > 3 {
        return Err(SyntaxFault::Program);
    }
    Ok(operation(alloc, Operator::If, rest)?)
}

/// As many arguments as the function takes.
fn call_shape<'a>(
    alloc: Global,
    function: Function,
    rest: &'a Data,
) -> Result<Shape<'a>, SyntaxFault>
    ensures { Gives shape_told result (call_shape function rest.now) }
{
    if !function.takes(rest.len()) {
        return Err(SyntaxFault::Program);
    }
    Ok(operation(alloc, Operator::Call(function), rest)?)
}
