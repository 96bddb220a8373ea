//! The names of slots and of default initargs.
ghost use Rattle.std.specs.Prelude.{◌≡◌, IfOk};
ghost use Rattle.clos_defclass.specs.Names.{default_names, slot_names};

use crate::class::DefaultInitarg;
use crate::slot::SlotSpecifier;
use lisp_data::Name;
use std::alloc::{AllocError, Global};

/// The names of slots, in order.
pub fn slot_names(alloc: Global, slots: &[SlotSpecifier]) -> Result<Vec<Name>, AllocError>
    ensures { IfOk result (λ ns. ns.items ≡ slot_names slots.now) }
{
    let mut names = Vec::new(alloc);
    for slot in slots {
        names.push(slot.name.copy()?)?;
    }
    Ok(names)
}

/// The names of default initargs, in order.
pub fn default_names(alloc: Global, defaults: &[DefaultInitarg]) -> Result<Vec<Name>, AllocError>
    ensures { IfOk result (λ ns. ns.items ≡ default_names defaults.now) }
{
    let mut names = Vec::new(alloc);
    for default in defaults {
        names.push(default.name.copy()?)?;
    }
    Ok(names)
}
