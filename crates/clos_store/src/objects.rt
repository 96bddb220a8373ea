//! The classes of a session with their instances (HyperSpec 4.3.6).
ghost use Rattle.std.specs.Prelude.{◌≡◌, ◌+◌, IfOk, IfErr, IsSome, IsTrue, None, OnOk, OnErr, length, option_copied, option_map, true};
ghost use Rattle.lisp_data.specs.ValueView.{value_of};
ghost use Rattle.clos_precedence.specs.PrecedenceView.{numbers};
ghost use Rattle.clos_hierarchy.specs.Table.{changed};
ghost use Rattle.clos_hierarchy.specs.TableView.{Refuses as RefusesClass};
ghost use Rattle.clos_class.specs.Table.{cells_to_make, initial, list_with, number, refusal};
ghost use Rattle.clos_store.specs.Objects.{due, layout_for, with_class};
ghost use Rattle.clos_store.specs.Store.{allocated, empty, has_room, has_room_for, instance, with_instance, with_slot};
ghost use Rattle.clos_store.specs.StoreFault.{Refuses};
ghost use Rattle.clos_store.specs.Update.{with_change, with_update};

use crate::fault::StoreFault;
use crate::slot::Slot;
use crate::store::Store;
use clos_class::{Changed, ClassFault, Classes, Layout, Reserved};
use clos_defclass::ClassDefinition;
use lisp_data::{CellId, ClassId, InstanceId, Name, Value};
use std::alloc::{AllocError, Global};
use std::marker::Model;

/// The classes of a session and their instances, with the cells of shared slots.
#[derive(Drop)]
pub struct Objects {
    classes: Classes,
    store: Store,
    /// How many definitions of classes there have been.
    definitions: u64,
    /// Of each instance, how many there had been when it was last seen to be up to date.
    notes: Vec<Option<u64>>,
}

impl Model for Objects {
    ghost use Rattle.std.specs.Coded.{codes};
    ghost use Rattle.clos_class.specs.contracts.table.Classes as class_table;
    ghost use Rattle.clos_store.specs.Objects.{Objects as Whole};
    ghost use Rattle.clos_store.specs.inner.Noted.{AreNoted};
    ghost use Rattle.clos_store.specs.inner.StoreCode.{contents_code};

    ghost Value = { Whole };

    ghost coded = { Prim.hlevel (codes, contents_code, class_table.the_row.coded) };

    ghost view = { λ a. record { classes = a.classes; contents = a.store.contents } };

    ghost invariant = { λ a. AreNoted a.classes a.store.contents a.definitions a.notes.items };
}

impl Objects {
    /// The predefined classes and no instances, and room for so many classes, instances and cells.
    pub fn new(
        alloc: Global,
        classes: u64,
        instances: u64,
        cells: u64,
    ) -> Result<Objects, AllocError>
        ensures { IfOk result (λ r. r ≡ record { classes = initial classes; contents = empty instances cells }) }
    {
        let classes = Classes::new(alloc, classes)?;
        Ok(Objects {
            classes,
            store: Store::new(alloc, instances, cells),
            definitions: 0,
            notes: Vec::new(alloc),
        })
    }

    /// The classes.
    pub fn classes(&self) -> &Classes
        ensures { result.now ≡ self.now.classes }
    {
        &self.classes
    }

    /// The instances and the cells.
    pub fn store(&self) -> &Store
        ensures { result.now.contents ≡ self.now.contents }
    {
        &self.store
    }

    /// The layout that the class of an instance has now.
    pub fn layout_of(&self, id: InstanceId) -> Option<&Layout>
        ensures { option_copied result ≡ layout_for self.now.classes (instance self.now.contents id.0) }
    {
        match self.store.class_of(id) {
            None => None,
            Some(class) => self.classes.layout(class),
        }
    }

    /// The layout that the class of an instance has now, where the instance keeps another (HyperSpec 4.3.6). The two are
    /// compared once after each definition of a class.
    pub fn due(&mut self, id: InstanceId) -> Result<Option<Layout>, AllocError>
        ensures value { IfOk result (λ r. r ≡ due self.old.classes self.old.contents id.0) }
        ensures same { self.new ≡ self.old }
    {
        if self.is_noted(id) {
            return Ok(None);
        }
        let due = self.due_anew(id)?;
        if due.is_none() {
            self.note(id);
        }
        Ok(due)
    }

    /// The same, with no regard to what was noted.
    fn due_anew(&self, id: InstanceId) -> Result<Option<Layout>, AllocError>
        ensures { IfOk result (λ r. r ≡ due self.now.classes self.now.contents id.0) }
    {
        match self.layout_of(id) {
            None => Ok(None),
            Some(layout) => {
                if !self.store.is_stale(id, layout) {
                    return Ok(None);
                }
                Ok(Some(layout.copy()?))
            }
        }
    }

    /// Whether an instance was seen to be up to date since a class was defined last.
    fn is_noted(&self, id: InstanceId) -> bool
        ensures { IsTrue result → due self.now.classes self.now.contents id.0 ≡ None }
    {
        if id.0 == 0 {
            return false;
        }
        match self.notes.get((id.0 - 1) as usize) {
            Some(Some(definitions)) => *definitions == self.definitions,
            _ => false,
        }
    }

    /// Notes that an instance is up to date.
    fn note(&mut self, id: InstanceId)
        requires { due self.old.classes self.old.contents id.0 ≡ None }
        ensures { self.new ≡ self.old }
    {
        if id.0 == 0 || id.0 > self.notes.len() as u64 {
            return;
        }
        self.notes[(id.0 - 1) as usize] = Some(self.definitions);
    }

    /// Makes an instance of this class with this layout (HyperSpec 7.1, allocate-instance): its slots are unbound.
    pub fn allocate(
        &mut self,
        alloc: Global,
        class: ClassId,
        layout: &Layout,
    ) -> Result<InstanceId, StoreFault>
        ensures ok { OnOk result ((has_room self.old.contents ≡ true) × (self.new ≡ record self.old { contents = with_instance (allocated class.0 layout.now) self.old.contents })) }
        ensures id { IfOk result (λ r. r.0 ≡ length self.old.contents.instances + 1) }
        ensures fault { IfErr result (λ e. Refuses e (has_room self.old.contents)) }
        ensures err { OnErr result (self.new ≡ self.old) }
    {
        if !self.store.has_room() {
            return Err(StoreFault::TableLimit);
        }
        self.notes.reserve(1)?;
        let id = self.store.allocate(alloc, class, layout)?;
        let Ok(()) = self.notes.push(None) else {
            unreachable!()
        };
        Ok(id)
    }

    /// Gives the slot of this name this value, or makes it unbound, where the instance has such a slot.
    pub fn set_slot(&mut self, id: InstanceId, name: &Name, value: Option<Value>)
        ensures { self.new ≡ record self.old { contents = with_slot id.0 name.now (option_map value_of value) self.old.contents } }
    {
        self.store.set_slot(id, name, value);
    }

    /// Gives an instance this layout, which its class has now (HyperSpec 4.3.6.1): a slot that it has keeps its value, or
    /// takes that of its cell, and any other is unbound.
    pub fn restructure(
        &mut self,
        alloc: Global,
        id: InstanceId,
        layout: &Layout,
    ) -> Result<(), AllocError>
        requires { IsSome (instance self.old.contents id.0) }
        ensures ok { OnOk result (self.new ≡ record self.old { contents = with_update id.0 layout.now self.old.contents }) }
        ensures err { OnErr result (self.new ≡ self.old) }
    {
        self.store.restructure(alloc, id, layout)?;
        self.notes[(id.0 - 1) as usize] = None;
        Ok(())
    }

    /// Makes an instance one of this class with this layout (HyperSpec 7.2.1), and a copy of it as it was, whose number is
    /// told.
    pub fn change(
        &mut self,
        alloc: Global,
        id: InstanceId,
        class: ClassId,
        layout: &Layout,
    ) -> Result<InstanceId, StoreFault>
        requires { IsSome (instance self.old.contents id.0) }
        ensures ok { OnOk result ((has_room self.old.contents ≡ true) × (self.new ≡ record self.old { contents = with_change id.0 class.0 layout.now self.old.contents })) }
        ensures id { IfOk result (λ r. r.0 ≡ length self.old.contents.instances + 1) }
        ensures fault { IfErr result (λ e. Refuses e (has_room self.old.contents)) }
        ensures err { OnErr result (self.new ≡ self.old) }
    {
        if !self.store.has_room() {
            return Err(StoreFault::TableLimit);
        }
        self.notes.reserve(1)?;
        let copy = self.store.change(alloc, id, class, layout)?;
        self.notes[(id.0 - 1) as usize] = None;
        let Ok(()) = self.notes.push(None) else {
            unreachable!()
        };
        Ok(copy)
    }

    /// The fault that a definition of a class would meet, or else the class, and the slots that need new cells.
    pub fn reserve_class(
        &mut self,
        alloc: Global,
        definition: &ClassDefinition,
    ) -> Result<Reserved, ClassFault>
        ensures ok { OnOk result (refusal self.old.classes.table definition.now ≡ None) }
        ensures class { IfOk result (λ r. r.class.0 ≡ number self.old.classes.table definition.now) }
        ensures cells { IfOk result (λ r. r.cells ≡ cells_to_make self.old.classes.slots (number self.old.classes.table definition.now) (list_with self.old.classes.table definition.now) definition.now) }
        ensures fault { IfErr result (λ e. RefusesClass e (refusal self.old.classes.table definition.now)) }
        ensures same { self.new ≡ self.old }
    {
        self.classes.reserve(alloc, definition)
    }

    /// Defines a class, whose new cells have these values, and tells which class precedence lists changed. Where the class may be
    /// defined and the cells can be made, it is refused only for want of memory.
    pub fn define(
        &mut self,
        alloc: Global,
        definition: &ClassDefinition,
        values: Vec<Slot>,
    ) -> Result<Changed, AllocError>
        requires class { refusal self.old.classes.table definition.now ≡ None }
        requires cells { has_room_for (length values.items) self.old.contents ≡ true }
        ensures ok { OnOk result (self.new ≡ with_class definition.now values.items self.old) }
        ensures changed { IfOk result (λ r. numbers r.lists.items ≡ changed self.old.classes.table.classes self.new.classes.table.classes) }
        ensures err { OnErr result (self.new ≡ self.old) }
    {
        let Some(definitions) = self.definitions.checked_add(1) else {
            return Err(AllocError);
        };
        let Ok(()) = self.store.reserve(values.len() as u64) else {
            return Err(AllocError);
        };
        let first = CellId(self.store.cell_count());
        let Ok(changed) = self.classes.define(alloc, definition, first) else {
            return Err(AllocError);
        };
        self.store.new_cells(values);
        self.definitions = definitions;
        Ok(changed)
    }
}
