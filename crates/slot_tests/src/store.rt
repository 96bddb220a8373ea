//! Each call succeeds where there is memory and room.
use clos_class::{ClassFault, Classes, Layout};
use clos_forms::Sequence;
use clos_store::{Store, StoreFault};
use clos_syntax::{Allocation, ClassDefinition, SlotSpecifier};
use lisp_data::{CellId, ClassId, Name, Value};
use std::alloc::{AllocError, Global};
use std::process::Abort;
use std::test::Fail;

fn slot(alloc: Global, name: Name, allocation: Allocation) -> SlotSpecifier {
    SlotSpecifier {
        name,
        initargs: Sequence::new(alloc),
        accessors: Sequence::new(alloc),
        initform: None,
        allocation,
    }
}

/// Of a class A with a slot N of this allocation and a local slot Y.
pub fn definition(alloc: Global, allocation: Allocation) -> Result<ClassDefinition, AllocError> {
    let mut slots = Sequence::new(alloc);
    slots.push(slot(alloc, Name::fixed(&"N"), allocation))?;
    slots.push(slot(alloc, Name::fixed(&"Y"), Allocation::Instance))?;
    Ok(ClassDefinition {
        name: Name::fixed(&"A"),
        superclasses: Sequence::new(alloc),
        slots,
        defaults: Sequence::new(alloc),
    })
}

/// The layout of that class, with this cell, in a table of its own.
fn layout(alloc: Global, cell: CellId) -> Result<Option<Layout>, ClassFault> {
    let mut classes = Classes::new(alloc, 1)?;
    layout_in(alloc, &mut classes, cell)
}

/// The layout of that class, with this cell, in an empty table.
fn layout_in(
    alloc: Global,
    classes: &mut Classes,
    cell: CellId,
) -> Result<Option<Layout>, ClassFault> {
    let definition = definition(alloc, Allocation::Class)?;
    let class = classes.define(alloc, &definition, cell)?.class;
    match classes.layout(class) {
        None => Ok(None),
        Some(layout) => Ok(Some(layout.copy()?)),
    }
}

/// A new cell, in a store in which there is room for it.
fn cell(store: &mut Store) -> Result<CellId, StoreFault> {
    store.reserve(1)?;
    store.new_cell(Some(Value::Int(7)))
}

/// What is read of the slot Y of a new instance, after it was given a value.
fn written(store: &mut Store, alloc: Global, layout: &Layout) -> Result<i64, StoreFault> {
    let name = Name::fixed(&"Y");
    let instance = store.allocate(alloc, ClassId(70), layout)?;
    if let Some(place) = store.place_of(instance, &name) {
        store.write(instance, place, Value::Int(5));
    }
    if let Some(place) = store.place_of(instance, &name) {
        if let Some(Value::Int(number)) = store.read(instance, place) {
            return Ok(*number);
        }
    }
    Ok(0)
}

/// What is told of an instance with this layout that is given another one: how many names are added and discarded, and how
/// many values; and the number of the copy that is made as it changes its class.
fn moved(
    store: &mut Store,
    alloc: Global,
    kept: &Layout,
    other: &Layout,
) -> Result<(usize, usize, usize, u64), StoreFault> {
    let instance = store.allocate(alloc, ClassId(70), kept)?;
    let told = store.discarded(alloc, instance, other)?;
    let copy = store.change(alloc, instance, ClassId(71), other)?;
    Ok((
        told.added.len(),
        told.discarded.len(),
        told.values.len(),
        copy.0,
    ))
}

/// Whether an instance with this layout is stale beside another one, and no more once it has that.
fn updated(
    store: &mut Store,
    alloc: Global,
    kept: &Layout,
    other: &Layout,
) -> Result<bool, StoreFault> {
    let instance = store.allocate(alloc, ClassId(70), kept)?;
    let was_stale = store.is_stale(instance, other);
    store.restructure(alloc, instance, other)?;
    Ok(was_stale && !store.is_stale(instance, other))
}

/// What is told of instances with these two layouts.
fn use_instances(
    store: &mut Store,
    alloc: Global,
    kept: &Layout,
    other: &Layout,
) -> Result<(i64, (usize, usize, usize, u64), bool), StoreFault> {
    let number = written(store, alloc, kept)?;
    let told = moved(store, alloc, kept, other)?;
    let holds = updated(store, alloc, kept, other)?;
    Ok((number, told, holds))
}

/// The number of the first of two new cells, and what is told of instances whose layouts have them.
fn use_store(
    store: &mut Store,
    alloc: Global,
) -> Option<(u64, (i64, (usize, usize, usize, u64), bool))> {
    let first = cell(store).ok()?;
    let second = cell(store).ok()?;
    let kept = layout(alloc, first).ok()??;
    let other = layout(alloc, second).ok()??;
    let told = use_instances(store, alloc, &kept, &other).ok()?;
    Some((first.0, told))
}

#[test]
fn calls_succeed(rt: HostRuntime) -> Result<(), Fail> {
    let alloc = rt.alloc();
    let mut store = Store::new(alloc, 5, 2);
    let told = use_store(&mut store, alloc);
    assert_eq!(rt; told, Some((0, (5, (0, 0, 0, 3), true))));
    Ok(())
}
