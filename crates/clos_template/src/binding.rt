//! Clauses, and the variables of `let`, `let*` and `mapcar` (HyperSpec 5.3, 14.2).
ghost use Rattle.std.specs.Prelude.{◌≡◌, ◌++◌, ◌∷◌, OnOk, IfOk, map, option_map};
ghost use Rattle.std.specs.Option.{option_copied};
ghost use Rattle.lisp_data.specs.DatumView.{datum_of};
ghost use Rattle.clos_forms.specs.Binding.{each};
ghost use Rattle.clos_forms.specs.BindingView.{entry_of};
ghost use Rattle.clos_forms.specs.Fault.{Gives};
ghost use Rattle.clos_template.specs.BindingView.{clause_of, lambda_of};
ghost use Rattle.clos_template.specs.Part.{body_parts, in_role, inits_of};
ghost use Rattle.clos_template.specs.declared.part.Role.TheVariants.{Template};
ghost use Rattle.clos_template.specs.PartView.{part_of, shape_told};
ghost use Rattle.clos_template.specs.Shape.{after_head, bodies_of, body_part, clause_in, cond_shape, cond_with, lambda_in, lambda_with, let_in_order_shape, let_shape, let_with, mapcar_shape, mapcar_with, mapped_by, only_parameter_in, parts_of_all};

use crate::operator::Operator;
use crate::part::{Part, Role, Shape, push_body, push_inits, push_part};
use clos_forms::{
    Entry, Sequence, SyntaxFault, are_distinct, bindings_of, is_the, names_of, only,
    parse_bindings, symbol_name,
};
use clos_lambda::parse_parameter;
use lisp_data::{Data, Datum, Name};
use std::alloc::{AllocError, Global};

/// A clause of `cond`: its test, the clause itself, and whether there is a body after the test.
#[derive(Clone, Copy)]
struct Clause<'a> {
    test: &'a Datum,
    whole: &'a Datum,
    has_body: bool,
}

/// A lambda expression of one variable, and what it gives.
#[derive(Drop)]
struct Lambda<'a> {
    variable: Name,
    body: &'a Datum,
}

/// Clauses, each a list of at least one template.
pub(crate) fn cond_shape<'a>(alloc: Global, rest: &'a Data) -> Result<Shape<'a>, SyntaxFault>
    ensures { Gives shape_told result (cond_shape rest.now) }
{
    let clauses = parse_clauses(alloc, rest)?;
    Ok(cond_with(alloc, &clauses)?)
}

fn cond_with<'a>(alloc: Global, clauses: &[Clause<'a>]) -> Result<Shape<'a>, AllocError>
    ensures { IfOk result (λ s. shape_told s ≡ cond_with (map clause_of clauses.now)) }
{
    let bodies = bodies_of(alloc, clauses)?;
    let mut parts: Vec<Part<'a>> = Vec::new(alloc);
    push_clauses(&mut parts, clauses)?;
    Ok(Shape {
        operator: Operator::Cond(bodies),
        parts,
    })
}

fn parse_clauses<'a>(alloc: Global, elements: &'a Data) -> Result<Vec<Clause<'a>>, SyntaxFault>
    ensures { Gives (λ cs. map clause_of cs.items) result (each clause_in elements.now) }
{
    let mut clauses = Vec::new(alloc);
    let mut rest = elements;
    while let Some((first, others)) = rest.split_first() {
        match parse_clause(first) {
            None => return Err(SyntaxFault::Program),
            Some(clause) => clauses.push(clause)?,
        }
        rest = others;
    }
    Ok(clauses)
}

fn parse_clause(datum: &Datum) -> Option<Clause<'_>>
    ensures { option_map clause_of result ≡ clause_in (datum_of datum.now) }
{
    match datum {
        Datum::List(elements) => {
            let (test, body) = elements.split_first()?;
            Some(Clause {
                test,
                whole: datum,
                has_body: body.split_first().is_some(),
            })
        }
        _ => None,
    }
}

/// Whether each clause has a body.
fn bodies_of(alloc: Global, clauses: &[Clause<'_>]) -> Result<Sequence<bool>, AllocError>
    ensures { IfOk result (λ bs. bs ≡ bodies_of (map clause_of clauses.now)) }
{
    let mut bodies = Sequence::new(alloc);
    for clause in clauses {
        bodies.push(clause.has_body)?;
    }
    Ok(bodies)
}

fn push_clauses<'a>(parts: &mut Vec<Part<'a>>, clauses: &[Clause<'a>]) -> Result<(), AllocError>
    ensures { OnOk result (map part_of parts.new.items ≡ map part_of parts.old.items ++ parts_of_all (map clause_of clauses.now)) }
{
    for clause in clauses {
        push_clause(parts, *clause)?;
    }
    Ok(())
}

/// Adds the test of a clause, and its body where it has one.
fn push_clause<'a>(parts: &mut Vec<Part<'a>>, clause: Clause<'a>) -> Result<(), AllocError>
    ensures { OnOk result (map part_of parts.new.items ≡ map part_of parts.old.items ++ (in_role Template (clause_of clause.entry).test ∷ body_part (clause_of clause.entry))) }
{
    push_part(parts, Role::Template, clause.test)?;
    if clause.has_body {
        push_part(parts, Role::Body, clause.whole)?;
    }
    Ok(())
}

pub(crate) fn let_shape<'a>(alloc: Global, rest: &'a Data) -> Result<Shape<'a>, SyntaxFault>
    ensures { Gives shape_told result (let_shape rest.now) }
{
    match rest.split_first() {
        None => Err(SyntaxFault::Program),
        Some((bindings, body)) => {
            let entries = parse_bindings(alloc, bindings)?;
            let_with(alloc, &entries, body)
        }
    }
}

fn let_with<'a>(
    alloc: Global,
    entries: &[Entry<'a>],
    body: &'a Data,
) -> Result<Shape<'a>, SyntaxFault>
    ensures { Gives shape_told result (let_with (map entry_of entries.now) body.now) }
{
    let names = names_of(alloc, entries)?;
    if !are_distinct(alloc, &names)? {
        return Err(SyntaxFault::Program);
    }
    let operator = Operator::Let(bindings_of(alloc, entries)?);
    let parts = bound_parts(alloc, entries, body)?;
    Ok(Shape { operator, parts })
}

pub(crate) fn let_in_order_shape<'a>(
    alloc: Global,
    rest: &'a Data,
) -> Result<Shape<'a>, SyntaxFault>
    ensures { Gives shape_told result (let_in_order_shape rest.now) }
{
    match rest.split_first() {
        None => Err(SyntaxFault::Program),
        Some((bindings, body)) => {
            let entries = parse_bindings(alloc, bindings)?;
            let operator = Operator::LetInOrder(bindings_of(alloc, &entries)?);
            let parts = bound_parts(alloc, &entries, body)?;
            Ok(Shape { operator, parts })
        }
    }
}

/// The values of these variables, and then a body.
fn bound_parts<'a>(
    alloc: Global,
    entries: &[Entry<'a>],
    body: &'a Data,
) -> Result<Vec<Part<'a>>, AllocError>
    ensures { IfOk result (λ ps. map part_of ps.items ≡ inits_of (map entry_of entries.now) ++ body_parts body.now) }
{
    let mut parts: Vec<Part<'a>> = Vec::new(alloc);
    push_inits(&mut parts, entries)?;
    push_body(&mut parts, body)?;
    Ok(parts)
}

/// A function, and one list.
pub(crate) fn mapcar_shape<'a>(alloc: Global, rest: &'a Data) -> Result<Shape<'a>, SyntaxFault>
    ensures { Gives shape_told result (mapcar_shape rest.now) }
{
    match rest.split_first() {
        None => Err(SyntaxFault::Program),
        Some((function, others)) => {
            let function = parse_mapped(function)?;
            match only(others) {
                None => Err(SyntaxFault::Program),
                Some(list) => Ok(mapcar_with(alloc, function, list)?),
            }
        }
    }
}

fn mapcar_with<'a>(
    alloc: Global,
    function: Lambda<'a>,
    list: &'a Datum,
) -> Result<Shape<'a>, AllocError>
    ensures { IfOk result (λ s. shape_told s ≡ mapcar_with (lambda_of function.entry) (datum_of list.now)) }
{
    let Lambda { variable, body } = function;
    let mut parts: Vec<Part<'a>> = Vec::new(alloc);
    push_part(&mut parts, Role::Template, list)?;
    push_part(&mut parts, Role::Template, body)?;
    Ok(Shape {
        operator: Operator::MapCar(variable),
        parts,
    })
}

/// A lambda expression, also in a `function` form.
fn parse_mapped(datum: &Datum) -> Result<Lambda<'_>, SyntaxFault>
    ensures { Gives lambda_of result (mapped_by (datum_of datum.now)) }
{
    match after_head("FUNCTION", datum) {
        None => parse_lambda(datum),
        Some(rest) => match only(rest) {
            None => Err(SyntaxFault::Program),
            Some(datum) => parse_lambda(datum),
        },
    }
}

fn parse_lambda(datum: &Datum) -> Result<Lambda<'_>, SyntaxFault>
    ensures { Gives lambda_of result (lambda_in (datum_of datum.now)) }
{
    match after_head("LAMBDA", datum) {
        None => Err(SyntaxFault::Program),
        Some(rest) => parse_lambda_with(rest),
    }
}

/// What follows this name at the head of a list.
fn after_head<'a>(text: &str, datum: &'a Datum) -> Option<&'a Data>
    ensures { option_copied result ≡ after_head text.now (datum_of datum.now) }
{
    match datum {
        Datum::List(elements) => {
            let (head, rest) = elements.split_first()?;
            let name = symbol_name(head)?;
            if is_the(name, text) { Some(rest) } else { None }
        }
        _ => None,
    }
}

/// A list of one variable, and one template.
fn parse_lambda_with(rest: &Data) -> Result<Lambda<'_>, SyntaxFault>
    ensures { Gives lambda_of result (lambda_with rest.now) }
{
    match rest.split_first() {
        None => Err(SyntaxFault::Program),
        Some((variable, others)) => {
            let variable = parse_only_parameter(variable)?;
            match only(others) {
                None => Err(SyntaxFault::Program),
                Some(body) => Ok(Lambda { variable, body }),
            }
        }
    }
}

fn parse_only_parameter(datum: &Datum) -> Result<Name, SyntaxFault>
    ensures { Gives (λ n. n) result (only_parameter_in (datum_of datum.now)) }
{
    match datum {
        Datum::List(elements) => match only(elements) {
            None => Err(SyntaxFault::Program),
            Some(variable) => parse_parameter(variable),
        },
        Datum::Int(_) => Err(SyntaxFault::Program),
        Datum::Sym(_) => Err(SyntaxFault::Program),
        Datum::Str(_) => Err(SyntaxFault::Program),
        Datum::Dotted(_) => Err(SyntaxFault::Program),
        Datum::Method(_) => Err(SyntaxFault::Program),
    }
}
