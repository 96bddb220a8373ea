//! What a datum is as a template: an operator, and data that are templates again, each in its role.
ghost use Rattle.std.specs.Prelude.{◌≡◌, ◌++◌, ◌∷◌, [], OnOk, IfOk, map, option_map};
ghost use Rattle.lisp_data.specs.DatumView.{datum_of};
ghost use Rattle.clos_forms.specs.BindingView.{entry_of};
ghost use Rattle.clos_template.specs.OperatorView.{operator_of};
ghost use Rattle.clos_template.specs.Part.{as_it_is, atom, body_parts, in_role, inits_of, operation, optional, templates_in};
ghost use Rattle.clos_template.specs.PartView.{part_of, shape_told};

use crate::operator::Operator;
use clos_forms::{Bindings, Entry, past_declarations};
use lisp_data::{Data, Datum};
use std::alloc::{AllocError, Global};

/// What a datum stands for in a template.
#[derive(Clone, Copy, Debug, Drop, PartialEq, Eq)]
pub(crate) enum Role {
    Template,
    /// What stands in a backquote (HyperSpec 2.4.6).
    Quoted,
    /// What follows the test of a clause.
    Body,
}

/// A datum in its role.
#[derive(Clone, Copy)]
pub(crate) struct Part<'a> {
    pub role: Role,
    pub datum: &'a Datum,
}

/// An operator, and the data of its parts.
#[derive(Drop)]
pub(crate) struct Shape<'a> {
    pub operator: Operator,
    pub parts: Vec<Part<'a>>,
}

/// An operator without parts.
pub(crate) fn atom<'a>(alloc: Global, operator: Operator) -> Shape<'a>
    ensures { shape_told result ≡ atom (operator_of operator) }
{
    Shape {
        operator,
        parts: Vec::new(alloc),
    }
}

/// An operator on templates.
pub(crate) fn operation<'a>(
    alloc: Global,
    operator: Operator,
    elements: &'a Data,
) -> Result<Shape<'a>, AllocError>
    ensures { IfOk result (λ s. shape_told s ≡ operation (operator_of operator) elements.now) }
{
    let mut parts: Vec<Part<'a>> = Vec::new(alloc);
    push_templates(&mut parts, elements)?;
    Ok(Shape { operator, parts })
}

/// What a datum in this role gives, and nothing else.
pub(crate) fn as_it_is<'a>(
    alloc: Global,
    role: Role,
    datum: &'a Datum,
) -> Result<Shape<'a>, AllocError>
    ensures { IfOk result (λ s. shape_told s ≡ as_it_is role (datum_of datum.now)) }
{
    let mut parts: Vec<Part<'a>> = Vec::new(alloc);
    push_part(&mut parts, role, datum)?;
    let operator = Operator::Let(Bindings::new(Vec::new(alloc)));
    Ok(Shape { operator, parts })
}

/// Adds these templates.
pub(crate) fn push_templates<'a>(
    parts: &mut Vec<Part<'a>>,
    elements: &'a Data,
) -> Result<(), AllocError>
    ensures { OnOk result (map part_of parts.new.items ≡ map part_of parts.old.items ++ templates_in elements.now) }
{
    let mut rest = elements;
    while let Some((datum, others)) = rest.split_first() {
        push_part(parts, Role::Template, datum)?;
        rest = others;
    }
    Ok(())
}

/// Adds a datum in its role.
#[tactic(auto, using(clos_forms::proofs::Parts::pushed))]
pub(crate) fn push_part<'a>(
    parts: &mut Vec<Part<'a>>,
    role: Role,
    datum: &'a Datum,
) -> Result<(), AllocError>
    ensures { OnOk result (map part_of parts.new.items ≡ map part_of parts.old.items ++ in_role role (datum_of datum.now) ∷ []) }
{
    parts.push(Part { role, datum })?;
    Ok(())
}

/// Adds a template, where there is one.
fn push_optional<'a>(parts: &mut Vec<Part<'a>>, datum: Option<&'a Datum>) -> Result<(), AllocError>
    ensures { OnOk result (map part_of parts.new.items ≡ map part_of parts.old.items ++ optional (option_map (λ d. datum_of d.now) datum.entry)) }
{
    match datum {
        None => Ok(()),
        Some(datum) => push_part(parts, Role::Template, datum),
    }
}

/// Adds the values of these variables.
pub(crate) fn push_inits<'a>(
    parts: &mut Vec<Part<'a>>,
    entries: &[Entry<'a>],
) -> Result<(), AllocError>
    ensures { OnOk result (map part_of parts.new.items ≡ map part_of parts.old.items ++ inits_of (map entry_of entries.now)) }
{
    for entry in entries {
        push_optional(parts, entry.init)?;
    }
    Ok(())
}

/// Adds the templates of a body, without what leads it and is ignored.
pub(crate) fn push_body<'a>(parts: &mut Vec<Part<'a>>, body: &'a Data) -> Result<(), AllocError>
    ensures { OnOk result (map part_of parts.new.items ≡ map part_of parts.old.items ++ body_parts body.now) }
{
    let (last, rest) = past_declarations(body);
    match rest.split_first() {
        None => push_optional(parts, last),
        Some(_) => push_templates(parts, rest),
    }
}
