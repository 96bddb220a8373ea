//! A session's table of classes, with the slots that each has (HyperSpec 4.3, 7.5.3).
ghost use Rattle.std.specs.Prelude.{◌≡◌, ◌<◌, true, None, IfOk, IfErr, OnOk, OnErr, length, option_map, option_copied, replicate, vec_len, vec_capacity};
ghost use Rattle.std.specs.List.{find, list_any};
ghost use Rattle.lisp_data.specs.Name.{same_name};
ghost use Rattle.clos_hierarchy.specs.Classes.{listing, list_in};
ghost use Rattle.clos_precedence.specs.Precedence.{has};
ghost use Rattle.clos_precedence.specs.PrecedenceView.{numbers};
ghost use Rattle.clos_hierarchy.specs.Table.{changed, list_if};
ghost use Rattle.clos_hierarchy.specs.TableView.{Refuses};
ghost use Rattle.clos_class.specs.Slots.{default_initargs, effective_of, effective_slots, initargs, initform, layout_of};
ghost use Rattle.clos_class.specs.SlotsView.{defaults, direct_slots, says_nothing};
ghost use Rattle.clos_class.specs.Table.{cells_to_make, classes_with, initial, is_unambiguous, list_with, number, refusal, with_definition, with_row};

use crate::definition::has_shared_slots;
use crate::direct::{ClassSlots, DirectSlot};
use crate::effective::Effective;
use crate::effective_slots::EffectiveSlot;
use crate::keep::{keep, keep_first, kept_at};
use crate::layout::Layout;
use crate::names::{copy_names, is_among};
use crate::reserve::{Prepared, Reserved, cells_to_make, check, prepare};
use clos_defclass::{ClassDefinition, DefaultInitarg};
use clos_forms::Form;
use clos_hierarchy::{Changed, ClassFault, Hierarchy};
use lisp_data::{CellId, ClassId, Name};
use std::alloc::{AllocError, Global};
use std::marker::Model;
use std::rc::Rc;

/// Classes by their numbers, in the order of first definition, the predefined ones first. What each has by its class
/// precedence list is kept.
#[derive(Drop)]
pub struct Classes {
    table: Hierarchy,
    rows: Vec<ClassSlots>,
    kept: Vec<Option<Rc<Effective>>>,
}

impl Model for Classes {
    ghost use Rattle.std.specs.Prelude.{◌≡◌, length};
    ghost use Rattle.clos_class.specs.inner.Keeping.{TellsAll, lists_of};
    ghost use Rattle.std.specs.Coded.{codes};
    ghost use Rattle.clos_class.specs.Table.{Table};
    ghost use Rattle.clos_class.specs.contracts.direct.ClassSlots as class_slots;

    ghost Value = { Table };

    ghost coded = { Prim.hlevel (codes, class_slots.the_row.coded) };

    ghost view = { λ a. record { table = a.table; slots = a.rows.items } };

    ghost invariant = { λ a. (length a.rows.items ≡ length a.table.classes.names) × (length a.kept.items ≡ length a.table.classes.names) × TellsAll a.rows.items (lists_of a.table.classes) a.kept.items };
}

/// Nothing, of each class.
fn no_rows(alloc: Global, table: &Hierarchy) -> Result<Vec<ClassSlots>, AllocError>
    ensures { IfOk result (λ r. r.items ≡ replicate (length table.now.classes.names) says_nothing) }
{
    let mut rows = Vec::new(alloc);
    while table.name(ClassId(rows.len() as u64)).is_some() {
        rows.push(ClassSlots::new(alloc))?;
    }
    Ok(rows)
}

/// Puts what a class says in its place, or at the end.
fn put(rows: &mut Vec<ClassSlots>, class: ClassId, said: ClassSlots)
    requires { vec_len rows.old < vec_capacity rows.old }
    ensures { rows.new.items ≡ with_row rows.old.items class.0 said }
{
    if class.0 < rows.len() as u64 {
        rows[class.0 as usize] = said;
        return;
    }
    let Ok(()) = rows.push(said) else {
        unreachable!()
    };
}

fn define_name(
    alloc: Global,
    table: &mut Hierarchy,
    definition: &ClassDefinition,
) -> Result<Changed, ClassFault>
    ensures ok { OnOk result (table.new ≡ record table.old { classes = classes_with table.old definition.now }) }
    ensures class { IfOk result (λ r. r.class.0 ≡ number table.old definition.now) }
    ensures changed { IfOk result (λ r. numbers r.lists.items ≡ changed table.old.classes table.new.classes) }
    ensures err { OnErr result (table.new ≡ table.old) }
    ensures fault { IfErr result (λ e. is_unambiguous definition.now ≡ true → Refuses e (refusal table.old definition.now)) }
{
    let superclasses = copy_names(alloc, definition.superclasses.as_slice())?;
    table.define(
        alloc,
        &definition.name,
        superclasses.into_items(),
        has_shared_slots(definition.slots.as_slice()),
    )
}

impl Classes {
    /// The predefined classes (HyperSpec 4.3.7), none of which has slots, and room for so many more.
    pub fn new(alloc: Global, limit: u64) -> Result<Classes, AllocError>
        ensures { IfOk result (λ r. r ≡ initial limit) }
    {
        let table = Hierarchy::new(alloc, limit)?;
        let rows = no_rows(alloc, &table)?;
        let kept = keep_first(alloc, &table, &rows)?;
        Ok(Classes { table, rows, kept })
    }

    /// The fault that `define` would answer, or else the class that it would define, and the slots that need new cells.
    /// The table stays as it was.
    pub fn reserve(
        &mut self,
        alloc: Global,
        definition: &ClassDefinition,
    ) -> Result<Reserved, ClassFault>
        ensures ok { OnOk result (refusal self.old.table definition.now ≡ None) }
        ensures class { IfOk result (λ r. r.class.0 ≡ number self.old.table definition.now) }
        ensures cells { IfOk result (λ r. r.cells ≡ cells_to_make self.old.slots (number self.old.table definition.now) (list_with self.old.table definition.now) definition.now) }
        ensures fault { IfErr result (λ e. Refuses e (refusal self.old.table definition.now)) }
        ensures same { self.new ≡ self.old }
    {
        let preview = check(alloc, &mut self.table, definition)?;
        let class = preview.class();
        let list = preview.list();
        let cells = cells_to_make(alloc, &self.rows, class, list, definition)?;
        Ok(Reserved { class, cells })
    }

    /// Defines a class, or defines it again. The cells of the slots that need new ones are numbered from this one on, in
    /// the order that `reserve` tells.
    pub fn define(
        &mut self,
        alloc: Global,
        definition: &ClassDefinition,
        first: CellId,
    ) -> Result<Changed, ClassFault>
        ensures ok { OnOk result ((refusal self.old.table definition.now ≡ None) × (self.new ≡ with_definition self.old definition.now first.0)) }
        ensures class { IfOk result (λ r. r.class.0 ≡ number self.old.table definition.now) }
        ensures changed { IfOk result (λ r. numbers r.lists.items ≡ changed self.old.table.classes self.new.table.classes) }
        ensures err { OnErr result (self.new ≡ self.old) }
        ensures fault { IfErr result (λ e. Refuses e (refusal self.old.table definition.now)) }
    {
        let Prepared {
            preview,
            said,
            kept,
        } = prepare(alloc, &mut self.table, &self.rows, definition, first)?;
        self.rows.reserve(1)?;
        self.kept.reserve(1)?;
        let changed = define_name(alloc, &mut self.table, definition)?;
        put(&mut self.rows, changed.class, said);
        keep(&mut self.kept, changed.class, preview.touched(), kept);
        Ok(changed)
    }

    /// The classes by themselves: their names, their superclasses and their class precedence lists (HyperSpec 4.3).
    pub fn hierarchy(&self) -> &Hierarchy
        ensures { result.now ≡ self.now.table }
    {
        &self.table
    }

    /// The direct slots of a class, in written order (HyperSpec 7.5.3).
    pub fn direct_slots(&self, class: ClassId) -> &[DirectSlot]
        ensures { result.now ≡ direct_slots self.now.slots class.0 }
    {
        match self.rows.get(class.0 as usize) {
            Some(said) => said.slots.as_slice(),
            None => &[],
        }
    }

    /// The default initargs that a class itself gives, in written order (HyperSpec 7.1.3).
    pub fn direct_defaults(&self, class: ClassId) -> &[DefaultInitarg]
        ensures { result.now ≡ defaults self.now.slots class.0 }
    {
        match self.rows.get(class.0 as usize) {
            Some(said) => said.defaults.as_slice(),
            None => &[],
        }
    }

    /// What a class has by its class precedence list, if it has one (AMOP 5.4). Who goes on with it while classes are
    /// defined keeps a clone.
    pub fn effective(&self, class: ClassId) -> Option<&Rc<Effective>>
        ensures { option_map (λ e. e.now.value) result ≡ option_map (effective_of (direct_slots self.now.slots) (defaults self.now.slots)) (list_if (listing self.now.table.classes class.0)) }
    {
        kept_at(&self.kept, class.0 as usize)
    }

    /// The slot of this name, as the instances of a class have it.
    pub fn slot(&self, class: ClassId, slot: &Name) -> Option<&EffectiveSlot>
        ensures { option_copied result ≡ find (λ s. same_name slot.now s.name) (effective_slots (direct_slots self.now.slots) (list_in (listing self.now.table.classes class.0))) }
    {
        match self.effective(class) {
            None => None,
            Some(effective) => effective.slot(slot),
        }
    }

    /// The layout of a class's instances, if it has a class precedence list.
    pub fn layout(&self, class: ClassId) -> Option<&Layout>
        ensures { option_copied result ≡ option_map (layout_of (direct_slots self.now.slots)) (list_if (listing self.now.table.classes class.0)) }
    {
        match self.effective(class) {
            None => None,
            Some(effective) => Some(effective.layout()),
        }
    }

    /// The initargs of a slot of a class.
    pub fn initargs(&self, class: ClassId, slot: &Name) -> &[Name]
        ensures { result.now ≡ initargs (direct_slots self.now.slots) (list_in (listing self.now.table.classes class.0)) slot.now }
    {
        match self.slot(class, slot) {
            None => &[],
            Some(found) => found.initargs.as_slice(),
        }
    }

    /// Whether a slot of a class has this initarg.
    pub fn is_initarg(&self, class: ClassId, slot: &Name, initarg: &Name) -> bool
        ensures { result ≡ list_any (same_name initarg.now) (initargs (direct_slots self.now.slots) (list_in (listing self.now.table.classes class.0)) slot.now) }
    {
        is_among(self.initargs(class, slot), initarg)
    }

    /// The initform of a slot of a class.
    pub fn initform(&self, class: ClassId, slot: &Name) -> Option<&Form>
        ensures { option_copied result ≡ initform (direct_slots self.now.slots) (list_in (listing self.now.table.classes class.0)) slot.now }
    {
        match self.slot(class, slot) {
            None => None,
            Some(found) => found.initform.as_ref(),
        }
    }

    /// The default initargs of a class.
    pub fn defaults(&self, class: ClassId) -> &[DefaultInitarg]
        ensures { result.now ≡ default_initargs (defaults self.now.slots) (list_in (listing self.now.table.classes class.0)) }
    {
        match self.effective(class) {
            None => &[],
            Some(effective) => effective.defaults(),
        }
    }
}
