//! One instance.
ghost use Rattle.std.specs.Prelude.{◌≡◌, ◌<◌, ◌++◌, [], IfOk, OnOk, length, map, option_map, position, replicate, slice_get, None};
ghost use Rattle.std.specs.List.{zip};
ghost use Rattle.std.specs.Map.{lookup};
ghost use Rattle.lisp_data.specs.Name.{same_name};
ghost use Rattle.lisp_data.specs.ValueView.{value_of};
ghost use Rattle.clos_store.specs.Store.{allocated, if_bound, kept_layout, slot_names, value_at, with_value_at};
ghost use Rattle.clos_store.specs.Update.{bound, lost, slot_of, updated};
ghost use Rattle.clos_store.specs.UpdateView.{Tells, values_of};

use crate::slot::Slot;
use crate::update::{Discarded, copy_of, lost_values, names_added, names_lost};
use clos_class::Layout;
use lisp_data::{CellId, ClassId, Name, Value};
use std::alloc::{AllocError, Global};
use std::marker::Model;

/// An instance: it keeps the layout that it was made with, which it shares with others, and has the values of its local
/// slots in that order. Contracts see the slots by their names.
#[derive(Drop)]
pub struct Instance {
    class: ClassId,
    layout: Layout,
    slots: Vec<Slot>,
}

impl Model for Instance {
    ghost use Rattle.std.specs.Prelude.{◌≡◌, length};
    ghost use Rattle.std.specs.List.{zip};
    ghost use Rattle.clos_store.specs.Store.{Object};
    ghost use Rattle.clos_store.specs.inner.StoreCode.{object_code};

    ghost Value = { Object };

    ghost coded = { object_code };

    ghost view = { λ a. record { class = a.class.0; slots = zip a.layout.locals a.slots.items; shared = a.layout.shared } };

    ghost invariant = { λ a. length a.slots.items ≡ length a.layout.locals };
}

/// So many unbound slots, in one piece of memory.
fn unbound_slots(alloc: Global, count: usize) -> Result<Vec<Slot>, AllocError>
    ensures { IfOk result (λ r. r.items ≡ replicate count None) }
{
    let mut slots = Vec::with_capacity(alloc, count)?;
    while slots.len() < count {
        slots.push(Slot::new(None))?;
    }
    Ok(slots)
}

fn slot_at(slots: &[Slot], place: usize) -> Option<&Slot>
    ensures { option_map (λ s. s.now) result ≡ slice_get slots.now place }
{
    slots.get(place)
}

impl Instance {
    /// A new instance, all of whose slots are unbound.
    #[tactic(auto, using(crate::proofs::Slots::length_of_unbound, crate::proofs::Slots::all_unbound))]
    pub fn new(alloc: Global, class: ClassId, layout: &Layout) -> Result<Instance, AllocError>
        ensures { IfOk result (λ r. r ≡ allocated class.0 layout.now) }
    {
        let slots = unbound_slots(alloc, layout.len())?;
        let layout = layout.copy()?;
        Ok(Instance {
            class,
            layout,
            slots,
        })
    }

    pub fn class(&self) -> ClassId
        ensures { result.0 ≡ self.now.class }
    {
        self.class
    }

    /// The layout that it was made with.
    #[tactic(auto, using(crate::proofs::Slots::names_of_zip))]
    pub fn layout(&self) -> &Layout
        ensures { result.now ≡ kept_layout self.now }
    {
        &self.layout
    }

    /// The place of the local slot of this name.
    #[tactic(auto, using(crate::proofs::Slots::names_of_zip))]
    pub fn place_of(&self, name: &Name) -> Option<usize>
        ensures { result ≡ position (same_name name.now) (slot_names self.now.slots) }
    {
        self.layout.place_of(name)
    }

    /// The cell of the shared slot of this name.
    pub fn cell(&self, name: &Name) -> Option<CellId>
        ensures { result ≡ lookup (same_name name.now) self.now.shared }
    {
        self.layout.cell(name)
    }

    /// The local slot of this name.
    #[tactic(auto, using(crate::proofs::Slots::no_slot_there))]
    pub fn slot(&self, name: &Name) -> Option<&Slot>
        ensures { option_map (λ s. s.now) result ≡ lookup (same_name name.now) self.now.slots }
    {
        match self.layout.place_of(name) {
            None => None,
            Some(place) => slot_at(&self.slots, place),
        }
    }

    /// The value of the slot at this place, where it is bound.
    #[tactic(auto, using(crate::proofs::Slots::length_of_zip, crate::proofs::Slots::read_of_zip))]
    pub fn read(&self, place: usize) -> Option<&Value>
        requires { place < length self.now.slots }
        ensures { option_map (λ v. value_of v.now) result ≡ value_at self.now.slots place }
    {
        self.slots[place].value()
    }

    /// Gives the slot at this place this value, or none.
    #[tactic(auto, using(crate::proofs::Slots::length_of_zip, crate::proofs::Slots::zip_with_value))]
    pub fn set(&mut self, place: usize, value: Option<Value>)
        requires { place < length self.old.slots }
        ensures { self.new ≡ record self.old { slots = with_value_at place (option_map value_of value) self.old.slots } }
    {
        self.slots[place] = Slot::new(value);
    }

    /// The same instance with this class and this layout, its slots moved into the places that they have there (HyperSpec
    /// 4.3.6.1, 7.2.1).
    #[tactic(auto, using(crate::proofs::Updating::slots_updated, crate::proofs::Updating::length_updated))]
    pub fn updated(
        &self,
        alloc: Global,
        cells: &[Slot],
        class: ClassId,
        layout: &Layout,
    ) -> Result<Instance, AllocError>
        ensures { IfOk result (λ r. r ≡ updated cells.now class.0 layout.now self.now) }
    {
        let slots = updated_slots(alloc, self, cells, layout.locals().as_slice())?;
        let layout = layout.copy()?;
        Ok(Instance {
            class,
            layout,
            slots,
        })
    }

    /// What is told where it is given this layout.
    #[tactic(auto, using(crate::proofs::Slots::names_of_zip))]
    pub fn discarded(&self, alloc: Global, layout: &Layout) -> Result<Discarded, AllocError>
        ensures { IfOk result (λ r. Tells r self.now layout.now.locals) }
    {
        let names = self.layout.locals().as_slice();
        let values = lost_values(alloc, names, self.slots.as_slice(), layout)?;
        let discarded = names_lost(alloc, names, layout)?;
        let added = names_added(alloc, self, layout.locals().as_slice())?;
        Ok(Discarded {
            added,
            discarded,
            values,
        })
    }
}

/// The slots of these names, those that an instance has with what they have there.
fn updated_slots(
    alloc: Global,
    instance: &Instance,
    cells: &[Slot],
    names: &[Name],
) -> Result<Vec<Slot>, AllocError>
    ensures { IfOk result (λ r. r.items ≡ map (λ n. if_bound (slot_of cells.now instance.now n)) names.now) }
{
    let mut slots = Vec::with_capacity(alloc, names.len())?;
    let mut left = names;
    while let Some((name, others)) = left.split_first() {
        slots.push(copy_of(instance, cells, name)?)?;
        left = others;
    }
    Ok(slots)
}
