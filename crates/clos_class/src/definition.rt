//! What a definition of a class says by itself (HyperSpec 7.7 defclass).
ghost use Rattle.std.specs.Prelude.{◌≡◌, IfOk};
ghost use Rattle.clos_class.specs.Table.{has_shared_slots, is_shared, is_unambiguous};

use clos_defclass::{Allocation, ClassDefinition, SlotSpecifier, default_names, slot_names};
use clos_forms::are_distinct;
use std::alloc::{AllocError, Global};

/// Whether a slot is in one cell for all instances.
pub fn is_shared(allocation: Allocation) -> bool
    ensures { result ≡ is_shared allocation }
{
    match allocation {
        Allocation::Instance => false,
        Allocation::Class => true,
    }
}

/// Whether one of these slots is shared.
pub fn has_shared_slots(slots: &[SlotSpecifier]) -> bool
    ensures { result ≡ has_shared_slots slots.now }
{
    slots.iter().any(|slot| is_shared(slot.allocation))
}

/// Whether no slot and no default initarg stands twice.
pub fn is_unambiguous(alloc: Global, definition: &ClassDefinition) -> Result<bool, AllocError>
    ensures { IfOk result (λ r. r ≡ is_unambiguous definition.now) }
{
    let slots = slot_names(alloc, definition.slots.as_slice())?;
    if !are_distinct(alloc, slots.as_slice())? {
        return Ok(false);
    }
    drop(slots);
    let defaults = default_names(alloc, definition.defaults.as_slice())?;
    Ok(are_distinct(alloc, defaults.as_slice())?)
}
