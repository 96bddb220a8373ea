//! Instances that are given another layout (HyperSpec 4.3.6.1, 7.2.1): what becomes of their slots.
ghost use Rattle.std.specs.Prelude.{◌≡◌, ◌++◌, ◌∷◌, [], not, IfOk, OnOk, option_map};
ghost use Rattle.std.specs.List.{filter, zip};
ghost use Rattle.clos_store.specs.Store.{cell_among, if_bound};
ghost use Rattle.clos_store.specs.Update.{added, bound, has_slot, is_among, lost, slot_of};
ghost use Rattle.clos_store.specs.UpdateView.{values_of};

use crate::instance::Instance;
use crate::slot::Slot;
use clos_class::Layout;
use lisp_data::{CellId, Name, Value};
use std::alloc::{AllocError, Global};

/// A local slot that is local no more, and the value that it had.
#[derive(Drop)]
pub struct Lost {
    pub slot: Name,
    pub value: Value,
}

/// What is told of an instance that is given another layout (HyperSpec 4.3.6.1).
#[derive(Drop)]
pub struct Discarded {
    /// The local slots that are new, in the order of the new layout.
    pub added: Vec<Name>,
    /// The local slots that are local no more, in the order of the old layout.
    pub discarded: Vec<Name>,
    /// Those of them that had values, with them, in the same order.
    pub values: Vec<Lost>,
}

/// What the cell of this number has.
fn cell_among(cells: &[Slot], cell: Option<CellId>) -> Option<&Slot>
    ensures { option_map (λ s. s.now) result ≡ cell_among cells.now cell }
{
    match cell {
        None => None,
        Some(id) => cells.get(id.0 as usize),
    }
}

/// The slot of this name, a local one or a cell.
fn slot_of<'a>(instance: &'a Instance, cells: &'a [Slot], name: &Name) -> Option<&'a Slot>
    ensures { option_map (λ s. s.now) result ≡ slot_of cells.now instance.now name.now }
{
    match instance.slot(name) {
        Some(slot) => Some(slot),
        None => cell_among(cells, instance.cell(name)),
    }
}

/// What the slot of this name has, if there is one.
pub fn copy_of(instance: &Instance, cells: &[Slot], name: &Name) -> Result<Slot, AllocError>
    ensures { IfOk result (λ r. r ≡ if_bound (slot_of cells.now instance.now name.now)) }
{
    match slot_of(instance, cells, name) {
        None => Ok(Slot::new(None)),
        Some(slot) => slot.copy(),
    }
}

/// Whether an instance has a slot of this name.
fn has_slot(instance: &Instance, name: &Name) -> bool
    ensures { result ≡ has_slot instance.now name.now }
{
    instance.slot(name).is_some() || instance.cell(name).is_some()
}

/// Those of these names that an instance has no slots of.
pub fn names_added(
    alloc: Global,
    instance: &Instance,
    names: &[Name],
) -> Result<Vec<Name>, AllocError>
    ensures { IfOk result (λ r. r.items ≡ added instance.now names.now) }
{
    let mut added = Vec::new(alloc);
    let mut left = names;
    while let Some((name, others)) = left.split_first() {
        if !has_slot(instance, name) {
            added.push(name.copy()?)?;
        }
        left = others;
    }
    Ok(added)
}

/// Those of these names that are no local slots of a layout.
pub fn names_lost(alloc: Global, names: &[Name], layout: &Layout) -> Result<Vec<Name>, AllocError>
    ensures { IfOk result (λ r. r.items ≡ filter (λ n. not (is_among layout.now.locals n)) names.now) }
{
    let mut discarded = Vec::new(alloc);
    let mut left = names;
    while let Some((name, others)) = left.split_first() {
        if !layout.locals().has(name) {
            discarded.push(name.copy()?)?;
        }
        left = others;
    }
    Ok(discarded)
}

/// Notes the value of a slot, where it is bound and no local slot of a layout.
fn note(values: &mut Vec<Lost>, name: &Name, slot: &Slot, layout: &Layout) -> Result<(), AllocError>
    ensures { OnOk result (values_of values.new.items ≡ values_of values.old.items ++ bound (lost layout.now.locals ((name.now, slot.now) ∷ []))) }
{
    if layout.locals().has(name) {
        return Ok(());
    }
    match slot.value() {
        None => Ok(()),
        Some(value) => {
            let slot = name.copy()?;
            let value = value.copy()?;
            values.push(Lost { slot, value })?;
            Ok(())
        }
    }
}

/// The values of those of these slots that are no local slots of a layout.
pub fn lost_values(
    alloc: Global,
    names: &[Name],
    slots: &[Slot],
    layout: &Layout,
) -> Result<Vec<Lost>, AllocError>
    ensures { IfOk result (λ r. values_of r.items ≡ bound (lost layout.now.locals (zip names.now slots.now))) }
{
    let mut values = Vec::new(alloc);
    let mut left = names;
    let mut kept = slots;
    while let Some((name, others)) = left.split_first() {
        let Some((slot, more)) = kept.split_first() else {
            return Ok(values);
        };
        note(&mut values, name, slot, layout)?;
        left = others;
        kept = more;
    }
    Ok(values)
}
