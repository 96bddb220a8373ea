//! Circles of classes that would have to come before each other (HyperSpec 4.3.5).
ghost use Rattle.std.specs.Prelude.{◌≡◌, IfOk};
ghost use Rattle.clos_circle.specs.Circle.{FindsOrderCircle, are_next};
ghost use Rattle.clos_circle.specs.DefinitionView.{direct_of};
ghost use Rattle.clos_circle.specs.inner.Before.{FindsAmong, befores, by_of, edge_for, edges_for};

use crate::definition::Definition;
use crate::relation::Relation;
use crate::superclasses::circle_from;
use crate::upward::Upward;
use lisp_data::Name;
use std::alloc::{AllocError, Global};

/// A class that has to come before another one, by what a class names.
#[derive(Drop)]
pub struct Edge {
    pub before: Name,
    pub after: Name,
    pub by: Name,
}

/// Whether one of these stands just before the other, after this one or after it alone.
pub(crate) fn are_next(first: &Name, names: &[Name], before: &Name, after: &Name) -> bool
    ensures { result ≡ are_next first.now names.now before.now after.now }
{
    let mut last = first;
    let mut left = names;
    while let [next, rest @ ..] = left {
        if last.is(before) && next.is(after) {
            return true;
        }
        last = next;
        left = rest;
    }
    false
}

/// The first of these classes by what one has to come before the other.
fn by_of<'a>(
    definition: Definition<'_>,
    names: &'a [Name],
    before: &'a Name,
    after: &Name,
) -> &'a Name
    ensures { result.now ≡ by_of (direct_of definition.entry) names.now before.now after.now }
{
    let mut left = names;
    while let [by, rest @ ..] = left {
        if are_next(by, definition.direct(by), before, after) {
            return by;
        }
        left = rest;
    }
    before
}

fn edge_for(
    definition: Definition<'_>,
    names: &[Name],
    before: &Name,
    after: &Name,
) -> Result<Edge, AllocError>
    ensures { IfOk result (λ r. r ≡ edge_for (direct_of definition.entry) names.now before.now after.now) }
{
    Ok(Edge {
        before: before.copy()?,
        after: after.copy()?,
        by: by_of(definition, names, before, after).copy()?,
    })
}

/// Of each class of a circle and the one after it, by what one has to come before the other.
fn edges_for(
    alloc: Global,
    definition: Definition<'_>,
    names: &[Name],
    circle: &[Name],
) -> Result<Vec<Edge>, AllocError>
    ensures { IfOk result (λ r. r.items ≡ edges_for (direct_of definition.entry) names.now circle.now) }
{
    let mut edges = Vec::new(alloc);
    let mut left = circle;
    while let [before, rest @ ..] = left {
        if let [after, ..] = rest {
            edges.push(edge_for(definition, names, before, after)?)?;
        }
        left = rest;
    }
    Ok(edges)
}

/// A circle of these classes, each of which has to come before the next one by what they name, or no classes where there is none.
fn circle_among(
    alloc: Global,
    definition: Definition<'_>,
    names: &[Name],
) -> Result<Vec<Name>, AllocError>
    ensures { IfOk result (λ r. FindsAmong (befores (direct_of definition.entry) names.now) names.now r.items) }
{
    let mut left = names;
    while let Some((first, rest)) = left.split_first() {
        let circle = circle_from(alloc, Relation::Before(definition, names), first)?;
        if !circle.is_empty() {
            return Ok(circle);
        }
        left = rest;
    }
    Ok(Vec::new(alloc))
}

/// A circle of classes each of which would have to come before the next one, by what the class of this name and those above it name, or
/// no edges where there is none.
pub fn precedence_circle(
    alloc: Global,
    definition: Definition<'_>,
    name: &Name,
) -> Result<Vec<Edge>, AllocError>
    ensures { IfOk result (λ r. FindsOrderCircle (direct_of definition.entry) name.now r.items) }
{
    let found = Upward::new(alloc, Relation::Above(definition), name)?;
    let names = found.names.as_slice();
    let circle = circle_among(alloc, definition, names)?;
    edges_for(alloc, definition, names, circle.as_slice())
}
