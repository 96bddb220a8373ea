//! The instances of a session, and its cells.
ghost use Rattle.std.specs.Prelude.{◌≡◌, ◌≤◌, ◌<◌, ◌+◌, ◌-◌, max, true, Some, None, IfOk, IfErr, IfSome, IsOk, IsSome, OnOk, OnErr, length, option_map, option_copied};
ghost use Rattle.std.specs.Map.{lookup};
ghost use Rattle.lisp_data.specs.Name.{same_name};
ghost use Rattle.lisp_data.specs.ValueView.{value_of};
ghost use Rattle.clos_store.specs.Store.{allocated, cell_value, empty, has_room, has_room_for, instance, kept_layout, next_instance, place_named, shared_of, slot_found, slots_of, value_at, value_named, with_cell, with_cell_value, with_cells, with_instance, with_slot, with_slots, with_value, with_value_at};
ghost use Rattle.clos_store.specs.StoreFault.{Refuses};
ghost use Rattle.clos_store.specs.Update.{is_stale, with_change, with_update};
ghost use Rattle.clos_store.specs.UpdateView.{TellsOf};

use crate::fault::StoreFault;
use crate::instance::Instance;
use crate::slot::Slot;
use crate::update::Discarded;
use clos_class::Layout;
use lisp_data::{CellId, ClassId, InstanceId, Name, Value};
use std::alloc::{AllocError, Global};
use std::marker::Model;
use std::mem;

/// The instances that were made, and the cells, in which the values of shared slots are (HyperSpec 7.5.1). Both are kept
/// for good. Instances are numbered from 1, cells from 0.
#[derive(Drop)]
pub struct Store {
    instances: Vec<Instance>,
    cells: Vec<Slot>,
    most_instances: u64,
    most_cells: u64,
    /// So many more cells can be made with no more memory.
    reserved: u64,
}

impl Model for Store {
    ghost use Rattle.std.specs.Prelude.{◌≤◌, ◌+◌, vec_len, vec_capacity};
    ghost use Rattle.clos_store.specs.Store.{Held};
    ghost use Rattle.clos_store.specs.inner.StoreCode.{held_code};

    ghost Value = { Held };

    ghost coded = { held_code };

    ghost view = { λ a. record { contents = record { instances = a.instances.items; cells = a.cells.items; most_instances = a.most_instances; most_cells = a.most_cells }; reserved = a.reserved } };

    ghost invariant = { λ a. (vec_len a.cells + a.reserved ≤ a.most_cells) × (vec_len a.cells + a.reserved ≤ vec_capacity a.cells) };
}

impl Store {
    /// No instances and no cells, and room for so many.
    pub fn new(alloc: Global, instances: u64, cells: u64) -> Store
        ensures { result ≡ record { contents = empty instances cells; reserved = 0 } }
    {
        Store {
            instances: Vec::new(alloc),
            cells: Vec::new(alloc),
            most_instances: instances,
            most_cells: cells,
            reserved: 0,
        }
    }

    /// Whether an instance may be made.
    pub fn has_room(&self) -> bool
        ensures { result ≡ has_room self.now.contents }
    {
        self.instance_count() < self.most_instances
    }

    /// How many instances were made.
    #[tactic(auto, using(std::proofs::lemmas::Grind::common_steps))]
    pub fn instance_count(&self) -> u64
        ensures { result ≡ length self.now.contents.instances }
    {
        self.instances.len() as u64
    }

    /// The number of the instance that is made next, if one may be made.
    pub fn next_instance(&self) -> Option<InstanceId>
        ensures { option_map (λ i. i.0) result ≡ next_instance self.now.contents }
    {
        let count = self.instance_count();
        if count < self.most_instances {
            return Some(InstanceId(count + 1));
        }
        None
    }

    /// Makes an instance of this class with this layout (HyperSpec 7.1, allocate-instance): its slots are unbound.
    pub fn allocate(
        &mut self,
        alloc: Global,
        class: ClassId,
        layout: &Layout,
    ) -> Result<InstanceId, StoreFault>
        ensures ok { OnOk result ((has_room self.old.contents ≡ true) × (self.new ≡ record self.old { contents = with_instance (allocated class.0 layout.now) self.old.contents })) }
        ensures id { IfOk result (λ r. r.0 ≡ length self.old.contents.instances + 1) }
        ensures there { IfOk result (λ r. IsSome (instance self.new.contents r.0)) }
        ensures fault { IfErr result (λ e. Refuses e (has_room self.old.contents)) }
        ensures err { OnErr result (self.new ≡ self.old) }
    {
        if !self.has_room() {
            return Err(StoreFault::TableLimit);
        }
        let instance = Instance::new(alloc, class, layout)?;
        self.instances.push(instance)?;
        Ok(InstanceId(self.instance_count()))
    }

    fn instance(&self, id: InstanceId) -> Option<&Instance>
        ensures { option_copied result ≡ instance self.now.contents id.0 }
    {
        if id.0 == 0 {
            return None;
        }
        self.instances.get((id.0 - 1) as usize)
    }

    /// The class of an instance.
    pub fn class_of(&self, id: InstanceId) -> Option<ClassId>
        ensures { option_map (λ c. c.0) result ≡ option_map (λ o. o.class) (instance self.now.contents id.0) }
    {
        match self.instance(id) {
            None => None,
            Some(instance) => Some(instance.class()),
        }
    }

    /// The layout that an instance keeps.
    pub fn layout(&self, id: InstanceId) -> Option<&Layout>
        ensures { option_copied result ≡ option_map kept_layout (instance self.now.contents id.0) }
    {
        match self.instance(id) {
            None => None,
            Some(instance) => Some(instance.layout()),
        }
    }

    /// Whether an instance keeps another layout than this one, which its class has now (HyperSpec 4.3.6).
    pub fn is_stale(&self, id: InstanceId, layout: &Layout) -> bool
        ensures { result ≡ is_stale self.now.contents id.0 layout.now }
    {
        match self.instance(id) {
            None => false,
            Some(instance) => !instance.layout().is_same(layout),
        }
    }

    /// What is told where an instance is given this layout (HyperSpec 4.3.6.1).
    pub fn discarded(
        &self,
        alloc: Global,
        id: InstanceId,
        layout: &Layout,
    ) -> Result<Discarded, AllocError>
        requires { IsSome (instance self.now.contents id.0) }
        ensures { IfOk result (λ r. TellsOf r (instance self.now.contents id.0) layout.now.locals) }
    {
        self.instances[(id.0 - 1) as usize].discarded(alloc, layout)
    }

    /// Gives an instance this layout, which its class has now (HyperSpec 4.3.6.1): a slot that it has keeps its value, or
    /// takes that of its cell, and any other is unbound.
    pub fn restructure(
        &mut self,
        alloc: Global,
        id: InstanceId,
        layout: &Layout,
    ) -> Result<(), AllocError>
        requires { IsSome (instance self.old.contents id.0) }
        ensures ok { OnOk result (self.new ≡ record self.old { contents = with_update id.0 layout.now self.old.contents }) }
        ensures err { OnErr result (self.new ≡ self.old) }
    {
        let place = (id.0 - 1) as usize;
        let instance = &self.instances[place];
        let class = instance.class();
        let updated = instance.updated(alloc, self.cells.as_slice(), class, layout)?;
        self.instances[place] = updated;
        Ok(())
    }

    /// Makes an instance one of this class with this layout (HyperSpec 7.2.1), and a copy of it as it was, whose number is
    /// told.
    pub fn change(
        &mut self,
        alloc: Global,
        id: InstanceId,
        class: ClassId,
        layout: &Layout,
    ) -> Result<InstanceId, StoreFault>
        requires { IsSome (instance self.old.contents id.0) }
        ensures ok { OnOk result ((has_room self.old.contents ≡ true) × (self.new ≡ record self.old { contents = with_change id.0 class.0 layout.now self.old.contents })) }
        ensures id { IfOk result (λ r. r.0 ≡ length self.old.contents.instances + 1) }
        ensures fault { IfErr result (λ e. Refuses e (has_room self.old.contents)) }
        ensures err { OnErr result (self.new ≡ self.old) }
    {
        if !self.has_room() {
            return Err(StoreFault::TableLimit);
        }
        let place = (id.0 - 1) as usize;
        let changed = self.instances[place].updated(alloc, self.cells.as_slice(), class, layout)?;
        self.instances.reserve(1)?;
        let copy = mem::replace(&mut self.instances[place], changed);
        let Ok(()) = self.instances.push(copy) else {
            unreachable!()
        };
        Ok(InstanceId(self.instance_count()))
    }

    /// The place of the local slot of this name.
    pub fn place_of(&self, id: InstanceId, name: &Name) -> Option<usize>
        ensures value { result ≡ place_named self.now.contents id.0 name.now }
        ensures within { IfSome result (λ p. p < length (slots_of self.now.contents id.0)) }
    {
        match self.instance(id) {
            None => None,
            Some(instance) => instance.place_of(name),
        }
    }

    /// The cell of the shared slot of this name.
    pub fn cell(&self, id: InstanceId, name: &Name) -> Option<CellId>
        ensures { result ≡ lookup (same_name name.now) (shared_of self.now.contents id.0) }
    {
        match self.instance(id) {
            None => None,
            Some(instance) => instance.cell(name),
        }
    }

    /// The value of the local slot at this place, where it is bound (HyperSpec 7.5.2).
    pub fn read(&self, id: InstanceId, place: usize) -> Option<&Value>
        requires { place < length (slots_of self.now.contents id.0) }
        ensures value { option_map (λ v. value_of v.now) result ≡ value_at (slots_of self.now.contents id.0) place }
        ensures named { (name : _) → place_named self.now.contents id.0 name ≡ Some place → option_map (λ v. value_of v.now) result ≡ value_named (slots_of self.now.contents id.0) name }
    {
        self.instances[(id.0 - 1) as usize].read(place)
    }

    /// The slot of this name that an instance has, a local or a shared one (HyperSpec 7.5.1).
    pub fn slot(&self, id: InstanceId, name: &Name) -> Option<&Slot>
        ensures { option_map (λ s. s.now) result ≡ slot_found self.now.contents id.0 name.now }
    {
        match self.instance(id) {
            None => None,
            Some(instance) => match instance.slot(name) {
                Some(slot) => Some(slot),
                None => match instance.cell(name) {
                    None => None,
                    Some(cell) => self.cells.get(cell.0 as usize),
                },
            },
        }
    }

    /// Gives the slot of this name this value, or makes it unbound, where the instance has such a slot.
    pub fn set_slot(&mut self, id: InstanceId, name: &Name, value: Option<Value>)
        ensures { self.new ≡ record self.old { contents = with_slot id.0 name.now (option_map value_of value) self.old.contents } }
    {
        match self.place_of(id, name) {
            Some(place) => self.set(id, place, value),
            None => match self.cell(id, name) {
                Some(cell) => self.set_cell(cell, value),
                None => {}
            },
        }
    }

    /// Gives a cell this value, or none, where there is such a cell.
    fn set_cell(&mut self, id: CellId, value: Option<Value>)
        ensures { self.new ≡ record self.old { contents = with_cell_value id.0 (option_map value_of value) self.old.contents } }
    {
        if id.0 < self.cell_count() {
            self.cells[id.0 as usize] = Slot::new(value);
        }
    }

    fn set(&mut self, id: InstanceId, place: usize, value: Option<Value>)
        requires { place < length (slots_of self.old.contents id.0) }
        ensures { self.new ≡ record self.old { contents = with_slots (with_value_at place (option_map value_of value)) id.0 self.old.contents } }
    {
        self.instances[(id.0 - 1) as usize].set(place, value);
    }

    /// Gives the local slot at this place this value.
    pub fn write(&mut self, id: InstanceId, place: usize, value: Value)
        requires { place < length (slots_of self.old.contents id.0) }
        ensures value { self.new ≡ record self.old { contents = with_slots (with_value_at place (Some (value_of value))) id.0 self.old.contents } }
        ensures named { (name : _) → place_named self.old.contents id.0 name ≡ Some place → self.new ≡ record self.old { contents = with_slots (with_value name (Some (value_of value))) id.0 self.old.contents } }
    {
        self.set(id, place, Some(value));
    }

    /// Makes the local slot at this place unbound (HyperSpec 7.7, slot-makunbound).
    pub fn unbind(&mut self, id: InstanceId, place: usize)
        requires { place < length (slots_of self.old.contents id.0) }
        ensures value { self.new ≡ record self.old { contents = with_slots (with_value_at place None) id.0 self.old.contents } }
        ensures named { (name : _) → place_named self.old.contents id.0 name ≡ Some place → self.new ≡ record self.old { contents = with_slots (with_value name None) id.0 self.old.contents } }
    {
        self.set(id, place, None);
    }

    /// How many cells were made.
    #[tactic(auto, using(std::proofs::lemmas::Grind::common_steps))]
    pub fn cell_count(&self) -> u64
        ensures { result ≡ length self.now.contents.cells }
    {
        self.cells.len() as u64
    }

    /// Whether so many more cells may be made.
    pub fn has_room_for(&self, cells: u64) -> bool
        ensures { result ≡ has_room_for cells self.now.contents }
    {
        cells <= self.most_cells - self.cell_count()
    }

    /// Takes the memory for so many more cells: the next so many calls of `new_cell` succeed, or more where more were
    /// reserved before.
    pub fn reserve(&mut self, cells: u64) -> Result<(), StoreFault>
        ensures ok { OnOk result ((has_room_for cells self.old.contents ≡ true) × (self.new ≡ record self.old { reserved = max self.old.reserved cells })) }
        ensures fault { IfErr result (λ e. Refuses e (has_room_for cells self.old.contents)) }
        ensures err { OnErr result (self.new ≡ self.old) }
    {
        if !self.has_room_for(cells) {
            return Err(StoreFault::TableLimit);
        }
        if cells > self.reserved {
            self.cells.reserve(cells as usize)?;
            self.reserved = cells;
        }
        Ok(())
    }

    /// Makes these cells, which are reserved.
    pub fn new_cells(&mut self, mut cells: Vec<Slot>)
        requires { length cells.items ≤ self.old.reserved }
        ensures { self.new ≡ record { contents = with_cells cells.items self.old.contents; reserved = self.old.reserved - length cells.items } }
    {
        let count = cells.len() as u64;
        let Ok(()) = self.cells.append(&mut cells) else {
            unreachable!()
        };
        self.reserved -= count;
    }

    /// Makes a cell with this value, or an unbound one.
    pub fn new_cell(&mut self, value: Option<Value>) -> Result<CellId, StoreFault>
        ensures ok { OnOk result ((has_room_for 1 self.old.contents ≡ true) × (self.new ≡ record { contents = with_cell (option_map value_of value) self.old.contents; reserved = self.old.reserved - 1 })) }
        ensures id { IfOk result (λ r. r.0 ≡ length self.old.contents.cells) }
        ensures fault { IfErr result (λ e. Refuses e (has_room_for 1 self.old.contents)) }
        ensures err { OnErr result (self.new ≡ self.old) }
        ensures reserved { 0 < self.old.reserved → IsOk result }
    {
        let count = self.cell_count();
        if count >= self.most_cells {
            return Err(StoreFault::TableLimit);
        }
        self.cells.push(Slot::new(value))?;
        self.reserved = self.reserved.saturating_sub(1);
        Ok(CellId(count))
    }

    /// The value of a cell, where it is bound.
    pub fn read_cell(&self, id: CellId) -> Option<&Value>
        requires { id.0 < length self.now.contents.cells }
        ensures { option_map (λ v. value_of v.now) result ≡ cell_value self.now.contents id.0 }
    {
        self.cells[id.0 as usize].value()
    }

    /// Gives a cell this value.
    pub fn write_cell(&mut self, id: CellId, value: Value)
        requires { id.0 < length self.old.contents.cells }
        ensures { self.new ≡ record self.old { contents = with_cell_value id.0 (Some (value_of value)) self.old.contents } }
    {
        self.cells[id.0 as usize] = Slot::new(Some(value));
    }

    /// Makes a cell unbound.
    pub fn unbind_cell(&mut self, id: CellId)
        requires { id.0 < length self.old.contents.cells }
        ensures { self.new ≡ record self.old { contents = with_cell_value id.0 None self.old.contents } }
    {
        self.cells[id.0 as usize] = Slot::new(None);
    }
}
