//! Circles of classes that would be above each other.
ghost use Rattle.std.specs.Prelude.{◌≡◌, IfOk, position, true};
ghost use Rattle.clos_circle.specs.Circle.{FindsCircle, is_circle};
ghost use Rattle.clos_circle.specs.DefinitionView.{direct_of};
ghost use Rattle.clos_circle.specs.inner.Before.{related_by};
ghost use Rattle.clos_circle.specs.inner.Upward.{Closes, IsWay, found_in, is_among};

use crate::definition::Definition;
use crate::relation::Relation;
use crate::upward::Upward;
use lisp_data::Name;
use std::alloc::{AllocError, Global};

/// The place of a class above which this one stands.
fn closing(relation: Relation<'_>, names: &[Name], first: &Name) -> Option<usize>
    ensures { result ≡ position (λ y. is_among (related_by relation.entry y) first.now) names.now }
{
    names.iter().position(|name| relation.relates(first, name))
}

/// The way from the first class down from one above which it stands, at this place, to itself.
fn way(
    alloc: Global,
    relation: Relation<'_>,
    first: &Name,
    found: &Upward,
    place: usize,
) -> Result<Vec<Name>, AllocError>
    requires upward { IsWay (related_by relation) first.now (found_in found.now) }
    requires closes { Closes (related_by relation) first.now found.now.names.items place }
    ensures { IfOk result (λ r. is_circle (related_by relation.entry) r.items ≡ true) }
{
    let _ = relation;
    let mut names = Vec::new(alloc);
    names.push(first.copy()?)?;
    let mut place = place;
    while place > 0 {
        names.push(found.names[place].copy()?)?;
        place = found.below[place];
    }
    names.push(first.copy()?)?;
    Ok(names)
}

/// A circle of classes of which each stands above the one after it, from this one back to it, or no classes where there is none.
pub(crate) fn circle_from(
    alloc: Global,
    relation: Relation<'_>,
    first: &Name,
) -> Result<Vec<Name>, AllocError>
    ensures { IfOk result (λ r. FindsCircle (related_by relation.entry) first.now r.items) }
{
    let found = Upward::new(alloc, relation, first)?;
    match closing(relation, found.names.as_slice(), first) {
        None => Ok(Vec::new(alloc)),
        Some(place) => way(alloc, relation, first, &found, place),
    }
}

/// A circle of classes of which each is a direct superclass of the one after it, from the defined class back to it, or no classes where
/// there is none.
pub fn superclass_circle(alloc: Global, definition: Definition<'_>) -> Result<Vec<Name>, AllocError>
    ensures { IfOk result (λ r. FindsCircle (direct_of definition.entry) definition.entry.name.now r.items) }
{
    circle_from(alloc, Relation::Above(definition), definition.name)
}
