//! Initforms of slots (HyperSpec 7.5.3).
ghost use Rattle.std.specs.Prelude.{◌≡◌, ◌∷◌, [], IfOk, OnOk};
ghost use Rattle.std.specs.HashMap.{get};
ghost use Rattle.std.specs.Option.{option_or};
ghost use Rattle.lisp_data.specs.Name.{Name, same_name};
ghost use Rattle.clos_precedence.specs.PrecedenceView.{numbers};
ghost use Rattle.clos_class.specs.Slots.{called, first_initform, initform};
ghost use Rattle.clos_class.specs.SlotsView.{slots_in};

use crate::direct::DirectSlot;
use crate::rows::Rows;
use clos_forms::Form;
use lisp_data::{ClassId, Name};
use std::alloc::{AllocError, Global};
use std::collections::HashMap;

/// Notes the initform of a slot that has one, unless one is noted of its name.
fn note(noted: &mut HashMap<Name, Form>, slot: &DirectSlot) -> Result<(), AllocError>
    ensures { OnOk result ((n : Name) → get same_name noted.new n ≡ option_or (get same_name noted.old n) (first_initform (called n (slot.now ∷ [])))) }
{
    if let Some(form) = &slot.initform {
        if !noted.contains_key(&slot.name) {
            noted.insert(slot.name.copy()?, form.copy()?)?;
        }
    }
    Ok(())
}

/// Notes the initforms of slots, the first of each name.
#[tactic(auto, using(crate::proofs::FirstInitform::more_noted, crate::proofs::FirstInitform::all_noted))]
fn note_all(noted: &mut HashMap<Name, Form>, slots: &[DirectSlot]) -> Result<(), AllocError>
    ensures { OnOk result ((n : Name) → get same_name noted.new n ≡ option_or (get same_name noted.old n) (first_initform (called n slots.now))) }
{
    let mut left = slots;
    while let Some((slot, others)) = left.split_first() {
        note(noted, slot)?;
        left = others;
    }
    Ok(())
}

/// The initforms of the slots of a class with this class precedence list: of each slot that of the most specific
/// specifier that has one.
#[tactic(auto, using(crate::proofs::FirstInitform::more_noted, crate::proofs::FirstInitform::all_noted))]
pub fn initforms(
    alloc: Global,
    classes: &Rows<'_>,
    list: &[ClassId],
) -> Result<HashMap<Name, Form>, AllocError>
    ensures { IfOk result (λ r. (n : Name) → get same_name r n ≡ initform (slots_in classes.now) (numbers list.now) n) }
{
    let mut noted = HashMap::new(alloc);
    let mut left = list;
    while let Some((class, others)) = left.split_first() {
        note_all(&mut noted, classes.slots(*class))?;
        left = others;
    }
    Ok(noted)
}

/// The initform of a slot, if these have one.
pub fn copy_initform(
    initforms: &HashMap<Name, Form>,
    slot: &Name,
) -> Result<Option<Form>, AllocError>
    ensures { IfOk result (λ r. r ≡ get same_name initforms.now slot.now) }
{
    match initforms.get(slot) {
        None => Ok(None),
        Some(form) => Ok(Some(form.copy()?)),
    }
}
