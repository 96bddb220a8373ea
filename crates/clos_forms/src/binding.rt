//! The variables of `let`, `let*`, `setq` and `dotimes` (HyperSpec 5.3, 6.2).
ghost use Rattle.std.specs.Prelude.{◌≡◌, ◌++◌, OnOk, IfOk, map, option_map};
ghost use Rattle.lisp_data.specs.DatumView.{datum_of};
ghost use Rattle.clos_forms.specs.Binding.{assignments_in, binding_in, bound_by, bounds_of, counted, counter_in, dotimes_shape, dotimes_with, each, each_in, inits_of, let_in_order_shape, let_shape, let_with, listed_binding, listed_counter, names_of, setq_shape};
ghost use Rattle.clos_forms.specs.BindingView.{counter_of, entry_of};
ghost use Rattle.clos_forms.specs.Body.{body_parts};
ghost use Rattle.clos_forms.specs.BoundView.{bound};
ghost use Rattle.clos_forms.specs.Fault.{Gives};
ghost use Rattle.clos_forms.specs.PartView.{part_of, shape_told};

use crate::body::push_body;
use crate::bound::{Binding, Bindings, Names};
use crate::distinct::are_distinct;
use crate::fault::SyntaxFault;
use crate::function_name::{unless_constant, variable_name};
use crate::operator::Operator;
use crate::part::{Part, Role, Shape, at_most_one, push_optional, push_part};
use clos_names::is_the;
use lisp_data::{Data, Datum, Name};
use std::alloc::{AllocError, Global};

/// A variable, and the datum of its value, where there is one.
#[derive(Clone, Copy)]
pub struct Entry<'a> {
    pub name: &'a Name,
    pub init: Option<&'a Datum>,
}

/// The variable of a `dotimes`, the count, and the result form.
#[derive(Clone, Copy)]
struct Counter<'a> {
    name: &'a Name,
    count: &'a Datum,
    result: Option<&'a Datum>,
}

pub(crate) fn let_shape<'a>(alloc: Global, rest: &'a Data) -> Result<Shape<'a>, SyntaxFault>
    ensures { Gives shape_told result (let_shape rest.now) }
{
    match rest.split_first() {
        None => Err(SyntaxFault::Program),
        Some((bindings, body)) => {
            let entries = parse_bindings(alloc, bindings)?;
            let_with(alloc, &entries, body)
        }
    }
}

fn let_with<'a>(
    alloc: Global,
    entries: &[Entry<'a>],
    body: &'a Data,
) -> Result<Shape<'a>, SyntaxFault>
    ensures { Gives shape_told result (let_with (map entry_of entries.now) body.now) }
{
    let names = names_of(alloc, entries)?;
    if !are_distinct(alloc, &names)? {
        return Err(SyntaxFault::Program);
    }
    let operator = Operator::Let(bindings_of(alloc, entries)?);
    let parts = bound_parts(alloc, entries, body)?;
    Ok(Shape { operator, parts })
}

pub(crate) fn let_in_order_shape<'a>(
    alloc: Global,
    rest: &'a Data,
) -> Result<Shape<'a>, SyntaxFault>
    ensures { Gives shape_told result (let_in_order_shape rest.now) }
{
    match rest.split_first() {
        None => Err(SyntaxFault::Program),
        Some((bindings, body)) => {
            let entries = parse_bindings(alloc, bindings)?;
            let operator = Operator::LetInOrder(bindings_of(alloc, &entries)?);
            let parts = bound_parts(alloc, &entries, body)?;
            Ok(Shape { operator, parts })
        }
    }
}

/// The variables of a list of bindings, which may be written NIL.
pub fn parse_bindings<'a>(alloc: Global, bindings: &'a Datum) -> Result<Vec<Entry<'a>>, SyntaxFault>
    ensures { Gives (λ es. map entry_of es.items) result (each_in binding_in (datum_of bindings.now)) }
{
    match bindings {
        Datum::List(elements) => parse_entries(alloc, elements),
        Datum::Sym(name) => {
            if is_the(name, "NIL") {
                return Ok(Vec::new(alloc));
            }
            Err(SyntaxFault::Program)
        }
        Datum::Int(_) => Err(SyntaxFault::Program),
        Datum::Str(_) => Err(SyntaxFault::Program),
        Datum::Dotted(_) => Err(SyntaxFault::Program),
        Datum::Method(_) => Err(SyntaxFault::Program),
    }
}

fn parse_entries<'a>(alloc: Global, elements: &'a Data) -> Result<Vec<Entry<'a>>, SyntaxFault>
    ensures { Gives (λ es. map entry_of es.items) result (each binding_in elements.now) }
{
    let mut entries = Vec::new(alloc);
    let mut rest = elements;
    while let Some((first, others)) = rest.split_first() {
        match parse_binding(first) {
            None => return Err(SyntaxFault::Program),
            Some(entry) => entries.push(entry)?,
        }
        rest = others;
    }
    Ok(entries)
}

/// `v`, `(v)` or `(v init)`.
fn parse_binding(datum: &Datum) -> Option<Entry<'_>>
    ensures { option_map entry_of result ≡ binding_in (datum_of datum.now) }
{
    match datum {
        Datum::Sym(name) => {
            let name = unless_constant(name)?;
            Some(Entry { name, init: None })
        }
        Datum::List(elements) => parse_listed_binding(elements),
        Datum::Int(_) => None,
        Datum::Str(_) => None,
        Datum::Dotted(_) => None,
        Datum::Method(_) => None,
    }
}

fn parse_listed_binding(elements: &Data) -> Option<Entry<'_>>
    ensures { option_map entry_of result ≡ listed_binding elements.now }
{
    let (variable, rest) = elements.split_first()?;
    let name = variable_name(variable)?;
    let init = at_most_one(rest)?;
    Some(Entry { name, init })
}

/// The names of these variables.
pub fn names_of(alloc: Global, entries: &[Entry<'_>]) -> Result<Vec<Name>, AllocError>
    ensures { IfOk result (λ ns. ns.items ≡ names_of (map entry_of entries.now)) }
{
    let mut names = Vec::new(alloc);
    for entry in entries {
        names.push(entry.name.copy()?)?;
    }
    Ok(names)
}

/// These variables, each with whether it has an init form.
pub fn bindings_of(alloc: Global, entries: &[Entry<'_>]) -> Result<Bindings, AllocError>
    ensures { IfOk result (λ bs. bs ≡ bounds_of (map entry_of entries.now)) }
{
    let mut bindings = Vec::new(alloc);
    for entry in entries {
        bindings.push(binding_of(*entry)?)?;
    }
    Ok(Bindings::new(bindings))
}

fn binding_of(entry: Entry<'_>) -> Result<Binding, AllocError>
    ensures { IfOk result (λ b. bound b ≡ bound_by (entry_of entry.entry)) }
{
    Ok(Binding {
        name: entry.name.copy()?,
        has_init: entry.init.is_some(),
    })
}

/// The values of these variables, and then a body.
fn bound_parts<'a>(
    alloc: Global,
    entries: &[Entry<'a>],
    body: &'a Data,
) -> Result<Vec<Part<'a>>, AllocError>
    ensures { IfOk result (λ ps. map part_of ps.items ≡ inits_of (map entry_of entries.now) ++ body_parts body.now) }
{
    let mut parts: Vec<Part<'a>> = Vec::new(alloc);
    push_inits(&mut parts, entries)?;
    push_body(&mut parts, body)?;
    Ok(parts)
}

fn push_inits<'a>(parts: &mut Vec<Part<'a>>, entries: &[Entry<'a>]) -> Result<(), AllocError>
    ensures { OnOk result (map part_of parts.new.items ≡ map part_of parts.old.items ++ inits_of (map entry_of entries.now)) }
{
    for entry in entries {
        push_optional(parts, entry.init)?;
    }
    Ok(())
}

pub(crate) fn setq_shape<'a>(alloc: Global, rest: &'a Data) -> Result<Shape<'a>, SyntaxFault>
    ensures { Gives shape_told result (setq_shape rest.now) }
{
    let entries = parse_assignments(alloc, rest)?;
    let names = names_of(alloc, &entries)?;
    let mut parts: Vec<Part<'a>> = Vec::new(alloc);
    push_inits(&mut parts, &entries)?;
    Ok(Shape {
        operator: Operator::Setq(Names::new(names)),
        parts,
    })
}

/// Names, each with the datum of its new value.
fn parse_assignments<'a>(alloc: Global, elements: &'a Data) -> Result<Vec<Entry<'a>>, SyntaxFault>
    ensures { Gives (λ es. map entry_of es.items) result (assignments_in elements.now) }
{
    let mut entries = Vec::new(alloc);
    let mut rest = elements;
    while let Some((variable, others)) = rest.split_first() {
        match others.split_first() {
            None => return Err(SyntaxFault::Program),
            Some((value, others)) => {
                match variable_name(variable) {
                    None => return Err(SyntaxFault::Program),
                    Some(name) => entries.push(Entry {
                        name,
                        init: Some(value),
                    })?,
                }
                rest = others;
            }
        }
    }
    Ok(entries)
}

pub(crate) fn dotimes_shape<'a>(alloc: Global, rest: &'a Data) -> Result<Shape<'a>, SyntaxFault>
    ensures { Gives shape_told result (dotimes_shape rest.now) }
{
    match rest.split_first() {
        None => Err(SyntaxFault::Program),
        Some((head, body)) => match parse_counter(head) {
            None => Err(SyntaxFault::Program),
            Some(counter) => Ok(dotimes_with(alloc, counter, body)?),
        },
    }
}

fn dotimes_with<'a>(
    alloc: Global,
    counter: Counter<'a>,
    body: &'a Data,
) -> Result<Shape<'a>, AllocError>
    ensures { IfOk result (λ s. shape_told s ≡ dotimes_with (counter_of counter.entry) body.now) }
{
    let mut parts: Vec<Part<'a>> = Vec::new(alloc);
    push_part(&mut parts, Role::Expression, counter.count)?;
    push_optional(&mut parts, counter.result)?;
    push_body(&mut parts, body)?;
    let name = counter.name.copy()?;
    Ok(Shape {
        operator: Operator::Dotimes(name, counter.result.is_some()),
        parts,
    })
}

/// `(v count)` or `(v count result)`.
fn parse_counter(datum: &Datum) -> Option<Counter<'_>>
    ensures { option_map counter_of result ≡ counter_in (datum_of datum.now) }
{
    match datum {
        Datum::List(elements) => parse_listed_counter(elements),
        _ => None,
    }
}

fn parse_listed_counter(elements: &Data) -> Option<Counter<'_>>
    ensures { option_map counter_of result ≡ listed_counter elements.now }
{
    let (variable, rest) = elements.split_first()?;
    let name = variable_name(variable)?;
    let (count, rest) = rest.split_first()?;
    let result = at_most_one(rest)?;
    Some(Counter {
        name,
        count,
        result,
    })
}
