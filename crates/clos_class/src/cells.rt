//! The cells of the shared slots of a class that is defined (HyperSpec 7.5.3). One that stays shared keeps its cell.
ghost use Rattle.std.specs.Prelude.{◌≡◌, ◌≤◌, ◌&&◌, [], not, is_some, length, map, IfOk, OnOk};
ghost use Rattle.std.specs.HashMap.{get};
ghost use Rattle.std.specs.List.{filter, list_any};
ghost use Rattle.lisp_data.specs.Name.{Name, same_name};
ghost use Rattle.clos_precedence.specs.PrecedenceView.{numbers};
ghost use Rattle.clos_class.specs.inner.Building.{with_names};
ghost use Rattle.clos_class.specs.Slots.{accessible, cell_in, names};
ghost use Rattle.clos_class.specs.SlotsView.{direct_slot, direct_slots, slots_in};
ghost use Rattle.clos_class.specs.Table.{cell_for, is_shared, needs_cell, new_cells, own_cell, said, with_row};

use crate::allocation::{allocations, cell_of};
use crate::defaults::copy_defaults;
use crate::definition::is_shared;
use crate::direct::{ClassSlots, DirectSlot, SlotAllocation};
use crate::names::NameSet;
use crate::rows::Rows;
use clos_defclass::{ClassDefinition, SlotSpecifier};
use clos_forms::Sequence;
use lisp_data::{CellId, ClassId, Name};
use std::alloc::{AllocError, Global};
use std::collections::HashMap;

/// Where the shared slots of a class that is defined are kept: the allocations that it had for its slots, and the slots
/// that need new cells, in layout order.
#[derive(Drop)]
pub struct Cells {
    pub own: HashMap<Name, SlotAllocation>,
    pub new: NameSet,
}

fn lacks_cell(own: &HashMap<Name, SlotAllocation>, slot: &SlotSpecifier) -> bool
    ensures { result ≡ (is_shared slot.now.allocation && not (is_some (cell_in (get same_name own.now slot.now.name)))) }
{
    is_shared(slot.allocation) && cell_of(own, &slot.name).is_none()
}

/// The shared slots that have no cell.
fn lacking(
    alloc: Global,
    own: &HashMap<Name, SlotAllocation>,
    slots: &[SlotSpecifier],
) -> Result<NameSet, AllocError>
    ensures { IfOk result (λ r. (n : Name) → list_any (same_name n) r ≡ needs_cell (λ m. cell_in (get same_name own.now m)) slots.now n) }
{
    let mut lacking = NameSet::new(alloc);
    let mut left = slots;
    while let Some((slot, others)) = left.split_first() {
        if lacks_cell(own, slot) {
            lacking.add(slot.name.copy()?)?;
        }
        left = others;
    }
    Ok(lacking)
}

/// Adds those of these names that slots have.
fn add_among(found: &mut NameSet, lacking: &NameSet, slots: &[DirectSlot]) -> Result<(), AllocError>
    ensures { OnOk result (found.new ≡ with_names found.old (filter (λ n. list_any (same_name n) lacking.now) (names slots.now))) }
{
    let mut left = slots;
    while let Some((slot, others)) = left.split_first() {
        if lacking.has(&slot.name) {
            found.add(slot.name.copy()?)?;
        }
        left = others;
    }
    Ok(())
}

/// Those of these names that slots of a class with this class precedence list have, in layout order.
fn in_layout_order(
    alloc: Global,
    classes: &Rows<'_>,
    list: &[ClassId],
    lacking: &NameSet,
) -> Result<NameSet, AllocError>
    ensures { IfOk result (λ r. r ≡ filter (λ n. list_any (same_name n) lacking.now) (accessible (slots_in classes.now) (numbers list.now))) }
{
    let mut found = NameSet::new(alloc);
    let mut left = list;
    while let Some((class, others)) = left.split_last() {
        add_among(&mut found, lacking, classes.slots(*class))?;
        left = others;
    }
    Ok(found)
}

impl Cells {
    /// The cells for a class that is defined, which has this class precedence list then.
    pub fn find(
        alloc: Global,
        rows: &[ClassSlots],
        class: ClassId,
        list: &[ClassId],
        definition: &ClassDefinition,
    ) -> Result<Cells, AllocError>
        requires { class.0 ≤ length rows.now }
        ensures own { IfOk result (λ r. (m : Name) → cell_in (get same_name r.own m) ≡ own_cell rows.now class.0 m) }
        ensures new { IfOk result (λ r. r.new ≡ new_cells rows.now class.0 (numbers list.now) definition.now) }
    {
        let own = allocations(alloc, &Rows::kept(rows), &[class])?;
        let lacking = lacking(alloc, &own, definition.slots.as_slice())?;
        let cells = Cells { own, new: lacking };
        if cells.new.len() == 0 {
            return Ok(cells);
        }
        let new = cells.order(alloc, rows, class, list, definition)?;
        Ok(Cells {
            own: cells.own,
            new,
        })
    }

    /// These new ones, in layout order.
    fn order(
        &self,
        alloc: Global,
        rows: &[ClassSlots],
        class: ClassId,
        list: &[ClassId],
        definition: &ClassDefinition,
    ) -> Result<NameSet, AllocError>
        requires { class.0 ≤ length rows.now }
        ensures { IfOk result (λ r. r ≡ filter (λ m. list_any (same_name m) self.now.new) (accessible (direct_slots (with_row rows.now class.0 (said (cell_for (λ m. cell_in (get same_name self.now.own m)) self.now.new []) definition.now))) (numbers list.now))) }
    {
        let said = self.said(alloc, definition, &[])?;
        let found = in_layout_order(alloc, &Rows::with(rows, class, &said), list, &self.new)?;
        Ok(found)
    }

    /// The cell of a shared slot, where the new ones are these.
    fn of(&self, name: &Name, cells: &[CellId]) -> CellId
        ensures { result ≡ cell_for (λ m. cell_in (get same_name self.now.own m)) self.now.new cells.now name.now }
    {
        match cell_of(&self.own, name) {
            Some(cell) => cell,
            None => match self.new.place_of(name) {
                None => CellId(0),
                Some(place) => cells.get(place).copied().unwrap_or(CellId(0)),
            },
        }
    }

    fn slots(
        &self,
        alloc: Global,
        slots: &[SlotSpecifier],
        cells: &[CellId],
    ) -> Result<Sequence<DirectSlot>, AllocError>
        ensures { IfOk result (λ r. r ≡ map (λ s. direct_slot s (cell_for (λ m. cell_in (get same_name self.now.own m)) self.now.new cells.now s.name)) slots.now) }
    {
        let mut direct = Sequence::new(alloc);
        let mut left = slots;
        while let Some((slot, others)) = left.split_first() {
            direct.push(DirectSlot::new(alloc, slot, self.of(&slot.name, cells))?)?;
            left = others;
        }
        Ok(direct)
    }

    /// What a definition says of slots, where the new cells are these.
    pub fn said(
        &self,
        alloc: Global,
        definition: &ClassDefinition,
        cells: &[CellId],
    ) -> Result<ClassSlots, AllocError>
        ensures { IfOk result (λ r. r ≡ said (cell_for (λ m. cell_in (get same_name self.now.own m)) self.now.new cells.now) definition.now) }
    {
        Ok(ClassSlots {
            slots: self.slots(alloc, definition.slots.as_slice(), cells)?,
            defaults: copy_defaults(alloc, definition.defaults.as_slice())?,
        })
    }
}
