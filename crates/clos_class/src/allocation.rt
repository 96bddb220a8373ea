//! Which slots are local and which are shared (HyperSpec 7.5.3).
ghost use Rattle.std.specs.Prelude.{◌≡◌, ◌∷◌, [], IfOk, OnOk};
ghost use Rattle.std.specs.Option.{option_or};
ghost use Rattle.std.specs.HashMap.{get};
ghost use Rattle.lisp_data.specs.Name.{Name, same_name};
ghost use Rattle.clos_precedence.specs.PrecedenceView.{numbers};
ghost use Rattle.clos_class.specs.Slots.{allocation, called, cell_in, first_allocation};
ghost use Rattle.clos_class.specs.SlotsView.{slots_in};

use crate::direct::{DirectSlot, SlotAllocation};
use crate::rows::Rows;
use lisp_data::{CellId, ClassId, Name};
use std::alloc::{AllocError, Global};
use std::collections::HashMap;

/// Notes the allocation of a slot, unless one is noted of its name.
fn note(noted: &mut HashMap<Name, SlotAllocation>, slot: &DirectSlot) -> Result<(), AllocError>
    ensures { OnOk result ((n : Name) → get same_name noted.new n ≡ option_or (get same_name noted.old n) (first_allocation (called n (slot.now ∷ [])))) }
{
    if !noted.contains_key(&slot.name) {
        noted.insert(slot.name.copy()?, slot.allocation)?;
    }
    Ok(())
}

/// Notes the allocations of slots, the first of each name.
#[tactic(auto, using(crate::proofs::Noted::more_noted, crate::proofs::Noted::all_noted))]
fn note_all(
    noted: &mut HashMap<Name, SlotAllocation>,
    slots: &[DirectSlot],
) -> Result<(), AllocError>
    ensures { OnOk result ((n : Name) → get same_name noted.new n ≡ option_or (get same_name noted.old n) (first_allocation (called n slots.now))) }
{
    let mut left = slots;
    while let Some((slot, others)) = left.split_first() {
        note(noted, slot)?;
        left = others;
    }
    Ok(())
}

/// The allocation of each accessible slot, that of its most specific specifier.
#[tactic(auto, using(crate::proofs::Noted::more_noted, crate::proofs::Noted::all_noted))]
pub fn allocations(
    alloc: Global,
    classes: &Rows<'_>,
    list: &[ClassId],
) -> Result<HashMap<Name, SlotAllocation>, AllocError>
    ensures { IfOk result (λ r. (n : Name) → get same_name r n ≡ allocation (slots_in classes.now) (numbers list.now) n) }
{
    let mut noted = HashMap::new(alloc);
    let mut left = list;
    while let Some((class, others)) = left.split_first() {
        note_all(&mut noted, classes.slots(*class))?;
        left = others;
    }
    Ok(noted)
}

/// The cell of a slot, if by these allocations it is shared.
pub fn cell_of(allocations: &HashMap<Name, SlotAllocation>, name: &Name) -> Option<CellId>
    ensures { result ≡ cell_in (get same_name allocations.now name.now) }
{
    match allocations.get(name) {
        Some(SlotAllocation::Shared(cell)) => Some(*cell),
        _ => None,
    }
}
