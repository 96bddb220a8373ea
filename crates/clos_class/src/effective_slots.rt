//! Slots as the instances of a class have them (AMOP 5.4, effective slot definitions).
ghost use Rattle.std.specs.Prelude.{◌≡◌, IfOk, map};
ghost use Rattle.std.specs.HashMap.{get};
ghost use Rattle.lisp_data.specs.Name.{Name, same_name};
ghost use Rattle.clos_precedence.specs.PrecedenceView.{numbers};
ghost use Rattle.clos_class.specs.inner.Building.{or_no_names, slot_by};
ghost use Rattle.clos_class.specs.Slots.{allocation, initargs, initform};
ghost use Rattle.clos_class.specs.SlotsView.{slots_in};

use crate::allocation::{allocations, cell_of};
use crate::direct::SlotAllocation;
use crate::initforms::{copy_initform, initforms};
use crate::names::copy_names;
use crate::rows::Rows;
use crate::slot_initargs::{all_initargs, initargs_of};
use clos_forms::{Form, Sequence};
use lisp_data::{CellId, ClassId, Name};
use std::alloc::{AllocError, Global};
use std::collections::HashMap;

/// A slot as the instances of a class have it: a shared one with its cell, its initargs by all its specifiers, and its
/// initform by the most specific one that has some.
#[derive(Drop)]
pub struct EffectiveSlot {
    pub name: Name,
    pub cell: Option<CellId>,
    pub initargs: Sequence<Name>,
    pub initform: Option<Form>,
}

/// What the specifiers of slots say together. A slot without initargs or initform is not among those that have some.
#[derive(Drop)]
pub struct Specified {
    pub allocations: HashMap<Name, SlotAllocation>,
    pub initargs: HashMap<Name, Sequence<Name>>,
    pub initforms: HashMap<Name, Form>,
}

impl Specified {
    /// Of the slots of a class with this class precedence list.
    pub fn find(
        alloc: Global,
        classes: &Rows<'_>,
        list: &[ClassId],
    ) -> Result<Specified, AllocError>
        ensures allocations { IfOk result (λ r. (n : Name) → get same_name r.allocations n ≡ allocation (slots_in classes.now) (numbers list.now) n) }
        ensures initargs { IfOk result (λ r. (n : Name) → or_no_names (get same_name r.initargs n) ≡ initargs (slots_in classes.now) (numbers list.now) n) }
        ensures initforms { IfOk result (λ r. (n : Name) → get same_name r.initforms n ≡ initform (slots_in classes.now) (numbers list.now) n) }
    {
        let allocations = allocations(alloc, classes, list)?;
        let initargs = all_initargs(alloc, classes, list)?;
        let initforms = initforms(alloc, classes, list)?;
        Ok(Specified {
            allocations,
            initargs,
            initforms,
        })
    }

    /// The slot of this name.
    fn slot(&self, alloc: Global, name: &Name) -> Result<EffectiveSlot, AllocError>
        ensures { IfOk result (λ r. r ≡ slot_by (λ n. get same_name self.now.allocations n) (λ n. or_no_names (get same_name self.now.initargs n)) (λ n. get same_name self.now.initforms n) name.now) }
    {
        Ok(EffectiveSlot {
            name: name.copy()?,
            cell: cell_of(&self.allocations, name),
            initargs: copy_names(alloc, initargs_of(&self.initargs, name))?,
            initform: copy_initform(&self.initforms, name)?,
        })
    }

    /// The slots of these names.
    pub fn slots(
        &self,
        alloc: Global,
        names: &[Name],
    ) -> Result<Sequence<EffectiveSlot>, AllocError>
        ensures { IfOk result (λ r. r ≡ map (slot_by (λ n. get same_name self.now.allocations n) (λ n. or_no_names (get same_name self.now.initargs n)) (λ n. get same_name self.now.initforms n)) names.now) }
    {
        let mut slots = Sequence::new(alloc);
        let mut left = names;
        while let Some((name, others)) = left.split_first() {
            slots.push(self.slot(alloc, name)?)?;
            left = others;
        }
        Ok(slots)
    }
}
