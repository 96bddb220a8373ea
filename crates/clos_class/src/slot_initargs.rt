//! Initargs of slots (HyperSpec 7.1.2, 7.5.3).
ghost use Rattle.std.specs.Prelude.{◌≡◌, ◌∷◌, [], IfOk, OnOk};
ghost use Rattle.std.specs.HashMap.{get};
ghost use Rattle.std.specs.List.{flat_map};
ghost use Rattle.lisp_data.specs.Name.{Name, same_name};
ghost use Rattle.clos_precedence.specs.PrecedenceView.{numbers};
ghost use Rattle.clos_class.specs.Slots.{called, initargs};
ghost use Rattle.clos_class.specs.SlotsView.{slots_in};
ghost use Rattle.clos_class.specs.inner.Building.{or_no_names, with_names};

use crate::direct::DirectSlot;
use crate::names::add_names;
use crate::rows::Rows;
use clos_forms::Sequence;
use lisp_data::{ClassId, Name};
use std::alloc::{AllocError, Global};
use std::collections::HashMap;

/// Adds the initargs of a slot to those of its name.
fn add(
    alloc: Global,
    found: &mut HashMap<Name, Sequence<Name>>,
    slot: &DirectSlot,
) -> Result<(), AllocError>
    ensures { OnOk result ((n : Name) → or_no_names (get same_name found.new n) ≡ with_names (or_no_names (get same_name found.old n)) (flat_map (λ s. s.initargs) (called n (slot.now ∷ [])))) }
{
    if slot.initargs.len() == 0 {
        return Ok(());
    }
    let mut initargs = found.remove(&slot.name).unwrap_or(Sequence::new(alloc));
    add_names(&mut initargs, slot.initargs.as_slice())?;
    found.insert(slot.name.copy()?, initargs)?;
    Ok(())
}

/// Adds the initargs of slots to those of their names.
fn add_all(
    alloc: Global,
    found: &mut HashMap<Name, Sequence<Name>>,
    slots: &[DirectSlot],
) -> Result<(), AllocError>
    ensures { OnOk result ((n : Name) → or_no_names (get same_name found.new n) ≡ with_names (or_no_names (get same_name found.old n)) (flat_map (λ s. s.initargs) (called n slots.now))) }
{
    let mut left = slots;
    while let Some((slot, others)) = left.split_first() {
        add(alloc, found, slot)?;
        left = others;
    }
    Ok(())
}

/// The initargs of the slots of a class with this class precedence list: of each slot those of all its specifiers. A slot
/// without any is not among them.
pub fn all_initargs(
    alloc: Global,
    classes: &Rows<'_>,
    list: &[ClassId],
) -> Result<HashMap<Name, Sequence<Name>>, AllocError>
    ensures { IfOk result (λ r. (n : Name) → or_no_names (get same_name r n) ≡ initargs (slots_in classes.now) (numbers list.now) n) }
{
    let mut found = HashMap::new(alloc);
    let mut left = list;
    while let Some((class, others)) = left.split_first() {
        add_all(alloc, &mut found, classes.slots(*class))?;
        left = others;
    }
    Ok(found)
}

/// The initargs of a slot, or none where these have none.
pub fn initargs_of<'a>(initargs: &'a HashMap<Name, Sequence<Name>>, slot: &Name) -> &'a [Name]
    ensures { result.now ≡ or_no_names (get same_name initargs.now slot.now) }
{
    match initargs.get(slot) {
        None => &[],
        Some(names) => names.as_slice(),
    }
}
