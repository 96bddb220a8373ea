//! Many classes.
use clos_hierarchy::{ClassFault, Hierarchy};
use lisp_data::{ClassId, Name};
use std::alloc::{AllocError, Global};
use std::ops::Range;
use std::process::Abort;
use std::test::Fail;

/// How the superclasses of a class follow from its place.
#[derive(Clone, Copy)]
enum Shape {
    /// The class before it.
    Chain,
    /// The three classes before it.
    Ladder,
    /// The first class.
    Fan,
    /// The four of the level above it.
    Lattice,
    /// All that were defined before it.
    Full,
}

impl Shape {
    fn above(self, place: u64) -> Range<u64> {
        match self {
            Shape::Chain => place.saturating_sub(1)..place,
            Shape::Ladder => place.saturating_sub(3)..place,
            Shape::Fan => 0..place.min(1),
            Shape::Lattice => (place & !3).saturating_sub(4)..place & !3,
            Shape::Full => 0..place,
        }
    }
}

fn name(alloc: Global, place: u64) -> Result<Name, AllocError> {
    let text = format!(in alloc; "C{place}")?;
    Name::new(alloc, text.as_str(), false)
}

/// The names of the classes of these places, the latest first.
fn names(alloc: Global, places: Range<u64>) -> Result<Vec<Name>, AllocError> {
    let mut names = Vec::new(alloc);
    for place in places.rev() {
        names.push(name(alloc, place)?)?;
    }
    Ok(names)
}

/// Defines so many classes, and then the first one again, below another. Answers how many that changed.
fn define(
    alloc: Global,
    classes: &mut Hierarchy,
    shape: Shape,
    count: u64,
) -> Result<usize, ClassFault> {
    for place in 0..count {
        let above = names(alloc, shape.above(place))?;
        classes.define(alloc, &name(alloc, place)?, above, true)?;
    }
    let root = names(alloc, count..count)?;
    classes.define(alloc, &name(alloc, count)?, root, true)?;
    let above = names(alloc, count..count.saturating_add(1))?;
    let changed = classes.define(alloc, &name(alloc, 0)?, above, true)?;
    Ok(changed.lists.len())
}

/// How long the class precedence list of the class of this place is.
fn length(alloc: Global, classes: &Hierarchy, place: u64) -> Result<usize, AllocError> {
    let length = match classes.named(&name(alloc, place)?) {
        Some(class) => classes.precedence(class).map_or(0, |list| list.len()),
        None => 0,
    };
    Ok(length)
}

/// So many classes of a shape in this table: how many change with the first, and how long the last one's list is.
fn figures_in(
    alloc: Global,
    classes: &mut Hierarchy,
    shape: Shape,
    count: u64,
) -> Result<(usize, usize), ClassFault> {
    let changed = define(alloc, classes, shape, count)?;
    Ok((changed, length(alloc, classes, count.saturating_sub(1))?))
}

/// The same in a new table.
fn figures(alloc: Global, shape: Shape, count: u64) -> Result<(usize, usize), ClassFault> {
    let mut classes = Hierarchy::new(alloc, count.saturating_add(1))?;
    figures_in(alloc, &mut classes, shape, count)
}

#[test]
fn a_long_chain(rt: HostRuntime) -> Result<(), Fail> {
    assert_eq!(rt; figures(rt.alloc(), Shape::Chain, 2_000)?, (2_000, 2_003));
    Ok(())
}

#[test]
fn a_long_ladder(rt: HostRuntime) -> Result<(), Fail> {
    assert_eq!(rt; figures(rt.alloc(), Shape::Ladder, 1_200)?, (1_200, 1_203));
    Ok(())
}

#[test]
fn a_wide_fan(rt: HostRuntime) -> Result<(), Fail> {
    assert_eq!(rt; figures(rt.alloc(), Shape::Fan, 2_000)?, (2_000, 5));
    Ok(())
}

#[test]
fn a_full_lattice(rt: HostRuntime) -> Result<(), Fail> {
    assert_eq!(rt; figures(rt.alloc(), Shape::Lattice, 48)?, (45, 48));
    Ok(())
}

#[test]
fn all_below_all_before(rt: HostRuntime) -> Result<(), Fail> {
    assert_eq!(rt; figures(rt.alloc(), Shape::Full, 200)?, (200, 203));
    Ok(())
}
