//! Many classes, each with a slot.
use clos_class::{ClassFault, Classes};
use clos_forms::Sequence;
use clos_syntax::{Allocation, ClassDefinition, SlotSpecifier};
use lisp_data::{CellId, Name};
use std::alloc::{AllocError, Global};
use std::ops::Range;
use std::process::Abort;
use std::test::Fail;

/// How the superclasses of a class follow from its place.
#[derive(Clone, Copy)]
enum Shape {
    /// The class before it.
    Chain,
    /// The first class.
    Fan,
    /// The four of the level above it.
    Lattice,
}

impl Shape {
    fn above(self, place: u64) -> Range<u64> {
        match self {
            Shape::Chain => place.saturating_sub(1)..place,
            Shape::Fan => 0..place.min(1),
            Shape::Lattice => (place & !3).saturating_sub(4)..place & !3,
        }
    }
}

fn name(alloc: Global, place: u64) -> Result<Name, AllocError> {
    let text = format!(in alloc; "C{place}")?;
    Name::new(alloc, text.as_str(), false)
}

/// The class of this place, with a slot of its own and one that all have; the first one's is shared.
fn definition(alloc: Global, shape: Shape, place: u64) -> Result<ClassDefinition, AllocError> {
    let mut superclasses = Sequence::new(alloc);
    for above in shape.above(place).rev() {
        superclasses.push(name(alloc, above)?)?;
    }
    let mut initargs = Sequence::new(alloc);
    initargs.push(name(alloc, place)?)?;
    let mut slots = Sequence::new(alloc);
    slots.push(SlotSpecifier {
        name: name(alloc, place)?,
        initargs,
        accessors: Sequence::new(alloc),
        initform: None,
        allocation: if place == 0 {
            Allocation::Class
        } else {
            Allocation::Instance
        },
    })?;
    Ok(ClassDefinition {
        name: name(alloc, place)?,
        superclasses,
        slots,
        defaults: Sequence::new(alloc),
    })
}

/// Defines the class of a place, with this as the first new cell.
fn define(
    alloc: Global,
    classes: &mut Classes,
    shape: Shape,
    place: u64,
    cell: CellId,
) -> Result<(), ClassFault> {
    let definition = definition(alloc, shape, place)?;
    classes.define(alloc, &definition, cell)?;
    Ok(())
}

/// How many local slots the class of this name has, where this one of its slots has the cell 7.
fn slots_of(classes: &Classes, class: &Name, slot: &Name) -> Option<usize> {
    let class = classes.hierarchy().named(class)?;
    let layout = classes.layout(class)?;
    if layout.cell(slot)?.0 == 7 {
        Some(layout.len())
    } else {
        None
    }
}

/// Defines so many classes of a shape, the first one twice.
fn define_all(
    alloc: Global,
    classes: &mut Classes,
    shape: Shape,
    count: u64,
) -> Result<(), ClassFault> {
    for place in 0..count {
        define(alloc, classes, shape, place, CellId(7))?;
    }
    define(alloc, classes, shape, 0, CellId(8))
}

/// So many classes of a shape in this table, the first one defined twice: how many local slots the last one has.
fn slots_of_last_in(
    alloc: Global,
    classes: &mut Classes,
    shape: Shape,
    count: u64,
) -> Result<Option<usize>, ClassFault> {
    define_all(alloc, classes, shape, count)?;
    let last = name(alloc, count.saturating_sub(1))?;
    Ok(slots_of(classes, &last, &name(alloc, 0)?))
}

/// The same in a new table.
fn slots_of_last(alloc: Global, shape: Shape, count: u64) -> Result<Option<usize>, ClassFault> {
    let mut classes = Classes::new(alloc, count)?;
    slots_of_last_in(alloc, &mut classes, shape, count)
}

#[test]
fn a_long_chain(rt: HostRuntime) -> Result<(), Fail> {
    assert_eq!(rt;
        slots_of_last(rt.alloc(), Shape::Chain, 1_024)?,
        Some(1_023)
    );
    Ok(())
}

#[test]
fn a_wide_fan(rt: HostRuntime) -> Result<(), Fail> {
    assert_eq!(rt; slots_of_last(rt.alloc(), Shape::Fan, 4_096)?, Some(1));
    Ok(())
}

#[test]
fn a_full_lattice(rt: HostRuntime) -> Result<(), Fail> {
    assert_eq!(rt; slots_of_last(rt.alloc(), Shape::Lattice, 48)?, Some(44));
    Ok(())
}
