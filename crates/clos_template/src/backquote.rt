//! What stands in a backquote (HyperSpec 2.4.6).
ghost use Rattle.std.specs.Prelude.{◌≡◌, IfOk, Option, Some, map, option_map};
ghost use Rattle.lisp_data.specs.Datum.{Dat};
ghost use Rattle.lisp_data.specs.DatumView.{datum_of};
ghost use Rattle.clos_forms.specs.Binding.{each};
ghost use Rattle.clos_forms.specs.Fault.{Gives};
ghost use Rattle.clos_template.specs.Backquote.{element_in, flags_of, listed_element, parts_of, quoted_list, quoted_shape, standing, written_shape};
ghost use Rattle.clos_template.specs.BackquoteView.{element_of};
ghost use Rattle.clos_template.specs.PartView.{part_of, shape_told};

use crate::operator::Operator;
use crate::part::{Part, Role, Shape, as_it_is, atom};
use clos_forms::{Sequence, SyntaxFault, only};
use clos_lambda::is_symbol_called;
use lisp_data::{Data, Datum};
use std::alloc::{AllocError, Global};

/// An element of a backquoted list, and whether the elements of what it gives stand in its place.
#[derive(Clone, Copy)]
struct Element<'a> {
    spliced: bool,
    part: Part<'a>,
}

pub(crate) fn quoted_shape(alloc: Global, datum: &Datum) -> Result<Shape<'_>, SyntaxFault>
    ensures { Gives shape_told result (quoted_shape (datum_of datum.now)) }
{
    match datum {
        Datum::Int(_) => Ok(atom(alloc, Operator::Constant(datum.copy()?))),
        Datum::Sym(_) => Ok(atom(alloc, Operator::Constant(datum.copy()?))),
        Datum::Str(_) => Ok(atom(alloc, Operator::Constant(datum.copy()?))),
        Datum::List(elements) => quoted_list(alloc, elements),
        Datum::Dotted(dot) => written_shape(alloc, dot.front(), Some(dot.last().copy()?)),
        Datum::Method(_) => Err(SyntaxFault::Program),
    }
}

/// A template stands after UNQUOTE. No backquote stands directly in another, and only an element of a list is spliced.
fn quoted_list(alloc: Global, elements: &Data) -> Result<Shape<'_>, SyntaxFault>
    ensures { Gives shape_told result (quoted_list elements.now) }
{
    match elements.split_first() {
        None => Ok(atom(alloc, Operator::Constant(Datum::List(Data::new())))),
        Some((head, rest)) => {
            if is_symbol_called("UNQUOTE", head) {
                return match only(rest) {
                    None => Err(SyntaxFault::Program),
                    Some(datum) => Ok(as_it_is(alloc, Role::Template, datum)?),
                };
            }
            if is_symbol_called("QUASIQUOTE", head) || is_symbol_called("UNQUOTE-SPLICING", head) {
                return Err(SyntaxFault::Program);
            }
            written_shape(alloc, elements, None)
        }
    }
}

/// A list of these elements, with this atom after its dot.
fn written_shape<'a>(
    alloc: Global,
    elements: &'a Data,
    last: Option<Datum>,
) -> Result<Shape<'a>, SyntaxFault>
    ensures { Gives shape_told result (written_shape elements.now (option_map datum_of last)) }
{
    let elements = parse_elements(alloc, elements)?;
    let spliced = flags_of(alloc, &elements)?;
    let parts = parts_of(alloc, &elements)?;
    Ok(Shape {
        operator: Operator::Written(spliced, last),
        parts,
    })
}

fn parse_elements<'a>(alloc: Global, elements: &'a Data) -> Result<Vec<Element<'a>>, SyntaxFault>
    ensures { Gives (λ es. map element_of es.items) result (each element_in elements.now) }
{
    let mut parsed = Vec::new(alloc);
    let mut rest = elements;
    while let Some((first, others)) = rest.split_first() {
        match parse_element(first) {
            None => return Err(SyntaxFault::Program),
            Some(element) => parsed.push(element)?,
        }
        rest = others;
    }
    Ok(parsed)
}

/// Exactly one template after UNQUOTE-SPLICING; else what stands there.
fn parse_element(datum: &Datum) -> Option<Element<'_>>
    ensures { option_map element_of result ≡ element_in (datum_of datum.now) }
{
    match datum {
        Datum::List(elements) => match elements.split_first() {
            None => Some(quoted(datum)),
            Some((head, rest)) => {
                if !is_symbol_called("UNQUOTE-SPLICING", head) {
                    return Some(quoted(datum));
                }
                let datum = only(rest)?;
                let role = Role::Template;
                Some(Element {
                    spliced: true,
                    part: Part { role, datum },
                })
            }
        },
        _ => Some(quoted(datum)),
    }
}

/// An element that stands as it is.
fn quoted(datum: &Datum) -> Element<'_>
    ensures { element_of result ≡ standing (datum_of datum.now) }
{
    let role = Role::Quoted;
    Element {
        spliced: false,
        part: Part { role, datum },
    }
}

fn flags_of(alloc: Global, elements: &[Element<'_>]) -> Result<Sequence<bool>, AllocError>
    ensures { IfOk result (λ bs. bs ≡ flags_of (map element_of elements.now)) }
{
    let mut flags = Sequence::new(alloc);
    for element in elements {
        flags.push(element.spliced)?;
    }
    Ok(flags)
}

fn parts_of<'a>(alloc: Global, elements: &[Element<'a>]) -> Result<Vec<Part<'a>>, AllocError>
    ensures { IfOk result (λ ps. map part_of ps.items ≡ parts_of (map element_of elements.now)) }
{
    let mut parts: Vec<Part<'a>> = Vec::new(alloc);
    for element in elements {
        parts.push(element.part)?;
    }
    Ok(parts)
}
