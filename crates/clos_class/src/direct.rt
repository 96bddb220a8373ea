//! What classes say of slots.
ghost use Rattle.std.specs.Prelude.{◌≡◌, IfOk};
ghost use Rattle.clos_class.specs.SlotsView.{allocated, direct_slot, says_nothing};

use crate::names::copy_names;
use clos_defclass::{Allocation, DefaultInitarg, SlotSpecifier};
use clos_forms::{Form, Sequence};
use lisp_data::{CellId, Name};
use std::alloc::{AllocError, Global};

/// Where the values of a slot are kept: in each instance, or in one cell for all (HyperSpec 7.5.1).
#[derive(Clone, Copy, Drop)]
pub enum SlotAllocation {
    Local,
    Shared(CellId),
}

/// A direct slot of a class: what its slot specifier says of it, but for the accessors (HyperSpec 7.5.3).
#[derive(Drop)]
pub struct DirectSlot {
    pub name: Name,
    pub initargs: Sequence<Name>,
    pub initform: Option<Form>,
    pub allocation: SlotAllocation,
}

/// What a class says of slots: its direct slots and its default initargs, both in written order.
#[derive(Drop)]
pub struct ClassSlots {
    pub slots: Sequence<DirectSlot>,
    pub defaults: Sequence<DefaultInitarg>,
}

impl ClassSlots {
    /// Nothing.
    pub fn new(alloc: Global) -> ClassSlots
        ensures { result ≡ says_nothing }
    {
        ClassSlots {
            slots: Sequence::new(alloc),
            defaults: Sequence::new(alloc),
        }
    }
}

impl DirectSlot {
    /// The slot that a specifier defines. One with allocation `:class` is in this cell.
    pub fn new(
        alloc: Global,
        specifier: &SlotSpecifier,
        cell: CellId,
    ) -> Result<DirectSlot, AllocError>
        ensures { IfOk result (λ r. r ≡ direct_slot specifier.now cell) }
    {
        Ok(DirectSlot {
            name: specifier.name.copy()?,
            initargs: copy_names(alloc, specifier.initargs.as_slice())?,
            initform: copy_form(&specifier.initform)?,
            allocation: allocated(specifier.allocation, cell),
        })
    }
}

/// The same form, where there is one.
fn copy_form(form: &Option<Form>) -> Result<Option<Form>, AllocError>
    ensures { IfOk result (λ r. r ≡ form.now) }
{
    match form {
        None => Ok(None),
        Some(form) => Ok(Some(form.copy()?)),
    }
}

fn allocated(allocation: Allocation, cell: CellId) -> SlotAllocation
    ensures { result ≡ allocated allocation cell }
{
    match allocation {
        Allocation::Instance => SlotAllocation::Local,
        Allocation::Class => SlotAllocation::Shared(cell),
    }
}
