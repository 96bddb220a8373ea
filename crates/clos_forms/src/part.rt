//! What a datum is as a form: an operator, and data that are forms again, each in its role.
ghost use Rattle.std.specs.Prelude.{◌≡◌, ◌++◌, ◌∷◌, [], OnOk, IfOk, MatchOption, map, option_map, Some, None};
ghost use Rattle.lisp_data.specs.Datum.{Dats, nil, cons};
ghost use Rattle.lisp_data.specs.DatumView.{datum_of};
ghost use Rattle.clos_forms.specs.OperatorView.{operator_of};
ghost use Rattle.clos_forms.specs.Part.{at_most_one, in_effective, in_method, in_role, in_roles, only_in, operation, optional, shape};
ghost use Rattle.clos_forms.specs.PartView.{part_of, shape_told};
ghost use Rattle.clos_forms.specs.declared.part.Role.TheVariants.{Expression};

use crate::operator::Operator;
use lisp_data::{Data, Datum};
use std::alloc::{AllocError, Global};

/// Where a form stands.
#[derive(Clone, Copy, Debug, Drop, PartialEq, Eq)]
pub enum Context {
    /// In no method.
    Plain,
    /// In the body of a method, where `call-next-method` and `next-method-p` may stand (HyperSpec 7.6.6.2).
    Method,
    /// In an effective form, where `call-method` may stand (HyperSpec 7.6.6.2).
    Effective,
}

impl Context {
    /// Whether it is the body of a method.
    pub(crate) fn is_method(self) -> bool
        ensures { result ≡ in_method self }
    {
        match self {
            Context::Plain => false,
            Context::Method => true,
            Context::Effective => false,
        }
    }

    /// Whether it is an effective form.
    pub(crate) fn is_effective(self) -> bool
        ensures { result ≡ in_effective self }
    {
        match self {
            Context::Plain => false,
            Context::Method => false,
            Context::Effective => true,
        }
    }
}

/// What a datum stands for in a form.
#[derive(Clone, Copy, Debug, Drop, PartialEq, Eq)]
pub(crate) enum Role {
    Expression,
    /// Of a `cond`.
    Clause,
    Place,
}

/// A datum in its role.
#[derive(Clone, Copy)]
pub(crate) struct Part<'a> {
    pub role: Role,
    pub datum: &'a Datum,
}

/// An operator, and the data of its parts.
#[derive(Drop)]
pub(crate) struct Shape<'a> {
    pub operator: Operator,
    pub parts: Vec<Part<'a>>,
}

/// An operator without parts.
pub(crate) fn atom<'a>(alloc: Global, operator: Operator) -> Shape<'a>
    ensures { shape_told result ≡ shape (operator_of operator) [] }
{
    Shape {
        operator,
        parts: Vec::new(alloc),
    }
}

/// An operator on expressions.
pub(crate) fn operation<'a>(
    alloc: Global,
    operator: Operator,
    elements: &'a Data,
) -> Result<Shape<'a>, AllocError>
    ensures { IfOk result (λ s. shape_told s ≡ operation (operator_of operator) elements.now) }
{
    in_roles(alloc, operator, Role::Expression, elements)
}

/// An operator on parts of one role.
pub(crate) fn in_roles<'a>(
    alloc: Global,
    operator: Operator,
    role: Role,
    elements: &'a Data,
) -> Result<Shape<'a>, AllocError>
    ensures { IfOk result (λ s. shape_told s ≡ shape (operator_of operator) (in_roles role elements.now)) }
{
    let mut parts: Vec<Part<'a>> = Vec::new(alloc);
    push_parts(&mut parts, role, elements)?;
    Ok(Shape { operator, parts })
}

/// Adds these data, in one role.
pub(crate) fn push_parts<'a>(
    parts: &mut Vec<Part<'a>>,
    role: Role,
    elements: &'a Data,
) -> Result<(), AllocError>
    ensures { OnOk result (map part_of parts.new.items ≡ map part_of parts.old.items ++ in_roles role elements.now) }
{
    let mut rest = elements;
    while let Some((datum, others)) = rest.split_first() {
        push_part(parts, role, datum)?;
        rest = others;
    }
    Ok(())
}

/// Adds a datum in its role.
#[tactic(auto, using(crate::proofs::Parts::pushed))]
pub(crate) fn push_part<'a>(
    parts: &mut Vec<Part<'a>>,
    role: Role,
    datum: &'a Datum,
) -> Result<(), AllocError>
    ensures { OnOk result (map part_of parts.new.items ≡ map part_of parts.old.items ++ in_role role (datum_of datum.now) ∷ []) }
{
    parts.push(Part { role, datum })?;
    Ok(())
}

/// Adds an expression, where there is one.
pub(crate) fn push_optional<'a>(
    parts: &mut Vec<Part<'a>>,
    datum: Option<&'a Datum>,
) -> Result<(), AllocError>
    ensures { OnOk result (map part_of parts.new.items ≡ map part_of parts.old.items ++ optional (option_map (λ d. datum_of d.now) datum.entry)) }
{
    match datum {
        None => Ok(()),
        Some(datum) => push_part(parts, Role::Expression, datum),
    }
}

/// The one datum of a list.
pub fn only(elements: &Data) -> Option<&Datum>
    ensures { option_map (λ d. datum_of d.now) result ≡ only_in elements.now }
{
    let (datum, others) = elements.split_first()?;
    match others.split_first() {
        None => Some(datum),
        Some(_) => None,
    }
}

/// The datum that a list may have, where it has no more.
pub fn at_most_one(elements: &Data) -> Option<Option<&Datum>>
    ensures { option_map (λ o. option_map (λ d. datum_of d.now) o) result ≡ at_most_one elements.now }
{
    match elements.split_first() {
        None => Some(None),
        Some((datum, others)) => match others.split_first() {
            None => Some(Some(datum)),
            Some(_) => None,
        },
    }
}
