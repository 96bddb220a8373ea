//! Layouts: where the slots of an instance are kept (HyperSpec 7.5.3).
ghost use Rattle.std.specs.Prelude.{◌≡◌, IfOk, OnOk, length, option_copied, option_map, position, slice_get};
ghost use Rattle.std.specs.List.{list_all};
ghost use Rattle.std.specs.Map.{keys_of, lookup};
ghost use Rattle.std.specs.HashMap.{get};
ghost use Rattle.lisp_data.specs.Name.{same_name};
ghost use Rattle.clos_class.specs.Slots.{agrees_on, same_cell, same_layout, same_names};
ghost use Rattle.clos_class.specs.inner.Building.{no_slots, with_slot, with_slots};

use crate::direct::SlotAllocation;
use crate::names::NameSet;
use indexmap::IndexMap;
use lisp_data::{CellId, Name};
use std::alloc::{AllocError, Global};
use std::collections::HashMap;
use std::marker::Model;
use std::rc::Rc;

/// The names of local slots, and those of shared ones with their cells. Contracts see both as lists.
struct SlotPlaces {
    locals: NameSet,
    shared: IndexMap<Name, CellId>,
}

impl Drop for SlotPlaces {
    fn drop(self) {
        let SlotPlaces {
            locals: _,
            shared: _,
        } = self;
    }
}

impl Model for SlotPlaces {
    ghost use Rattle.clos_class.specs.Slots.{Layout as Slots};

    ghost Value = { Slots };

    ghost view = { λ a. record { locals = a.locals; shared = a.shared.entries } };
}

/// The local slots of instances, and the shared ones with their cells. A class shares it with its instances.
#[derive(Drop)]
pub struct Layout {
    slots: Rc<SlotPlaces>,
}

impl Model for Layout {
    ghost use Rattle.clos_class.specs.Slots.{Layout as Slots};

    ghost Value = { Slots };

    ghost view = { λ a. a.slots.value };
}

/// Whether both are the same names in the same order.
fn same_names(names: &[Name], others: &[Name]) -> bool
    ensures { result ≡ same_names names.now others.now }
{
    let mut left = names;
    let mut right = others;
    loop {
        match (left.split_first(), right.split_first()) {
            (None, None) => return true,
            (Some((x, xs)), Some((y, ys))) => {
                if !x.is(y) {
                    return false;
                }
                left = xs;
                right = ys;
            }
            _ => return false,
        }
    }
}

/// Whether both are one cell, or both are none.
fn same_cell(cell: Option<CellId>, other: Option<CellId>) -> bool
    ensures { result ≡ same_cell cell other }
{
    match (cell, other) {
        (None, None) => true,
        (Some(cell), Some(other)) => cell.0 == other.0,
        _ => false,
    }
}

impl SlotPlaces {
    /// No slots.
    fn new(alloc: Global) -> SlotPlaces
        ensures { result ≡ no_slots }
    {
        SlotPlaces {
            locals: NameSet::new(alloc),
            shared: IndexMap::new(alloc),
        }
    }

    /// Adds a slot at the end, unless it is there.
    #[tactic(auto, using(crate::proofs::Built::new_cell, crate::proofs::Built::same_cells))]
    fn add(&mut self, name: &Name, allocation: Option<SlotAllocation>) -> Result<(), AllocError>
        ensures { OnOk result (self.new ≡ with_slot self.old name.now allocation) }
    {
        match allocation {
            None => {}
            Some(SlotAllocation::Local) => self.locals.add(name.copy()?)?,
            Some(SlotAllocation::Shared(cell)) => {
                if !self.shared.contains_key(name) {
                    self.shared.insert(name.copy()?, cell)?;
                }
            }
        }
        Ok(())
    }
}

impl Layout {
    /// The same, in a few steps however many slots there are.
    pub fn copy(&self) -> Result<Layout, AllocError>
        ensures { IfOk result (λ r. r ≡ self.now) }
    {
        Ok(Layout {
            slots: self.slots.clone()?,
        })
    }

    /// The names of the local slots, in the order in which instances have them.
    pub fn locals(&self) -> &NameSet
        ensures { result.now ≡ self.now.locals }
    {
        &self.slots.locals
    }

    /// How many local slots there are.
    pub fn len(&self) -> usize
        ensures { result ≡ length self.now.locals }
    {
        self.slots.locals.len()
    }

    /// The name of the local slot at this place.
    pub fn name(&self, place: usize) -> Option<&Name>
        ensures { option_copied result ≡ slice_get self.now.locals place }
    {
        self.slots.locals.name(place)
    }

    /// The place of the local slot of this name.
    pub fn place_of(&self, name: &Name) -> Option<usize>
        ensures { result ≡ position (same_name name.now) self.now.locals }
    {
        self.slots.locals.place_of(name)
    }

    /// The shared slot at this place, with its cell.
    pub fn shared(&self, place: usize) -> Option<(&Name, &CellId)>
        ensures { option_map (λ s. (s.0.now, s.1.now)) result ≡ slice_get self.now.shared place }
    {
        self.slots.shared.get_index(place)
    }

    /// The cell of the shared slot of this name.
    pub fn cell(&self, name: &Name) -> Option<CellId>
        ensures { result ≡ lookup (same_name name.now) self.now.shared }
    {
        self.slots.shared.get(name).copied()
    }

    /// Whether these names have the same cells in both, or none.
    fn agrees(&self, other: &Layout, names: &[Name]) -> bool
        ensures { result ≡ list_all (agrees_on self.now.shared other.now.shared) names.now }
    {
        names
            .iter()
            .all(|name| same_cell(self.cell(name), other.cell(name)))
    }

    /// Whether both are one layout: the same local slots in the same order, and the same shared slots with the same
    /// cells, in any order (HyperSpec 4.3.6).
    pub fn is_same(&self, other: &Layout) -> bool
        ensures { result ≡ same_layout self.now other.now }
    {
        same_names(self.locals().as_slice(), other.locals().as_slice())
            && self.agrees(other, self.slots.shared.keys().as_slice())
            && self.agrees(other, other.slots.shared.keys().as_slice())
    }
}

/// The layout of slots that have these names in layout order, and these allocations.
pub fn layout_of(
    alloc: Global,
    allocations: &HashMap<Name, SlotAllocation>,
    names: &[Name],
) -> Result<Layout, AllocError>
    ensures { IfOk result (λ r. r ≡ with_slots (λ n. get same_name allocations.now n) no_slots names.now) }
{
    let slots = placed(alloc, allocations, names)?;
    Ok(Layout {
        slots: Rc::new(alloc, slots)?,
    })
}

fn placed(
    alloc: Global,
    allocations: &HashMap<Name, SlotAllocation>,
    names: &[Name],
) -> Result<SlotPlaces, AllocError>
    ensures { IfOk result (λ r. r ≡ with_slots (λ n. get same_name allocations.now n) no_slots names.now) }
{
    let mut slots = SlotPlaces::new(alloc);
    let mut left = names;
    while let Some((name, others)) = left.split_first() {
        slots.add(name, allocations.get(name).copied())?;
        left = others;
    }
    Ok(slots)
}
