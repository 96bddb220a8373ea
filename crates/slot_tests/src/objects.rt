//! Classes with their instances: each call succeeds where there is memory and room, and an instance is due for another
//! layout after its class was defined again.
use crate::store::definition;
use clos_class::Layout;
use clos_store::{Objects, Slot, StoreFault};
use clos_syntax::Allocation;
use lisp_data::{ClassId, InstanceId, Name, Value};
use std::alloc::{AllocError, Global};
use std::process::Abort;
use std::test::Fail;

/// Defines the class A, where it may be, whose slot N has this allocation.
fn define(
    alloc: Global,
    objects: &mut Objects,
    allocation: Allocation,
    values: Vec<Slot>,
) -> Result<bool, AllocError> {
    let definition = definition(alloc, allocation)?;
    let Ok(_) = objects.reserve_class(alloc, &definition) else {
        return Ok(false);
    };
    if !objects.store().has_room_for(values.len() as u64) {
        return Ok(false);
    }
    objects.define(alloc, &definition, values)?;
    Ok(true)
}

/// The class A, whose slot N is shared, and its layout.
fn begin(alloc: Global, objects: &mut Objects) -> Result<Option<(ClassId, Layout)>, AllocError> {
    let mut values = Vec::new(alloc);
    values.push(Slot::new(Some(Value::Int(7))))?;
    if !define(alloc, objects, Allocation::Class, values)? {
        return Ok(None);
    }
    match objects.classes().hierarchy().named(&Name::fixed(&"A")) {
        None => Ok(None),
        Some(class) => match objects.classes().layout(class) {
            None => Ok(None),
            Some(layout) => Ok(Some((class, layout.copy()?))),
        },
    }
}

/// What the slot N of an instance is then.
fn value_of_n(objects: &Objects, id: InstanceId) -> i64 {
    match objects.store().slot(id, &Name::fixed(&"N")) {
        None => 0,
        Some(slot) => match slot.value() {
            Some(Value::Int(number)) => *number,
            _ => 1,
        },
    }
}

/// Updates an instance and tells whether more is due, what its slot N is then and once it has another value, and the number
/// of its copy as it changes its class.
fn update(
    alloc: Global,
    objects: &mut Objects,
    id: InstanceId,
    class: ClassId,
    layout: &Layout,
) -> Result<(bool, i64, i64, u64), StoreFault> {
    if objects.store().class_of(id).is_none() {
        return Ok((true, 0, 0, 0));
    }
    objects.restructure(alloc, id, layout)?;
    let due = objects.due(id)?.is_some();
    let kept = value_of_n(objects, id);
    objects.set_slot(id, &Name::fixed(&"N"), Some(Value::Int(5)));
    let written = value_of_n(objects, id);
    if objects.store().class_of(id).is_none() {
        return Ok((due, kept, written, 0));
    }
    let copy = objects.change(alloc, id, class, layout)?;
    Ok((due, kept, written, copy.0))
}

/// Whether another layout is due for a new instance, at its first and at its second use, and then for one whose class was
/// defined again, with what is told of its update.
fn use_class(
    alloc: Global,
    objects: &mut Objects,
) -> Result<Option<(bool, bool, bool, i64, i64, u64)>, StoreFault> {
    let Some((class, layout)) = begin(alloc, objects)? else {
        return Ok(None);
    };
    let id = objects.allocate(alloc, class, &layout)?;
    let first = objects.due(id)?.is_some();
    let second = objects.due(id)?.is_some();
    if !define(alloc, objects, Allocation::Instance, Vec::new(alloc))? {
        return Ok(None);
    }
    let Some(layout) = objects.due(id)? else {
        return Ok(None);
    };
    let (due, kept, written, copy) = update(alloc, objects, id, class, &layout)?;
    Ok(Some((first, second, due, kept, written, copy)))
}

/// The same of new ones.
fn used(alloc: Global) -> Option<(bool, bool, bool, i64, i64, u64)> {
    let mut objects = Objects::new(alloc, 1, 2, 1).ok()?;
    use_class(alloc, &mut objects).ok()?
}

#[test]
fn instances_follow_their_class(rt: HostRuntime) -> Result<(), Fail> {
    let told = used(rt.alloc());
    assert_eq!(rt; told, Some((false, false, false, 7, 5, 2)));
    Ok(())
}
