//! The accessible slots of a class (HyperSpec 7.5.3).
ghost use Rattle.std.specs.Prelude.{◌≡◌, IfOk, OnOk};
ghost use Rattle.clos_precedence.specs.PrecedenceView.{numbers};
ghost use Rattle.clos_class.specs.inner.Building.{with_names};
ghost use Rattle.clos_class.specs.Slots.{accessible, names};
ghost use Rattle.clos_class.specs.SlotsView.{slots_in};

use crate::direct::DirectSlot;
use crate::names::NameSet;
use crate::rows::Rows;
use lisp_data::ClassId;
use std::alloc::{AllocError, Global};

/// Adds the slots of a class, in written order, but for those that are there.
#[tactic(auto, using(crate::proofs::Added::one_name, crate::proofs::Added::same_names))]
fn add_all(found: &mut NameSet, slots: &[DirectSlot]) -> Result<(), AllocError>
    ensures { OnOk result (found.new ≡ with_names found.old (names slots.now)) }
{
    let mut left = slots;
    while let Some((slot, others)) = left.split_first() {
        found.add(slot.name.copy()?)?;
        left = others;
    }
    Ok(())
}

/// The slots of a class with this class precedence list, in layout order.
#[tactic(auto, using(crate::proofs::Combined::all_accessible, crate::proofs::Combined::next_class, crate::proofs::Added::same_names))]
pub fn accessible(
    alloc: Global,
    classes: &Rows<'_>,
    list: &[ClassId],
) -> Result<NameSet, AllocError>
    ensures { IfOk result (λ r. r ≡ accessible (slots_in classes.now) (numbers list.now)) }
{
    let mut found = NameSet::new(alloc);
    let mut left = list;
    while let Some((class, others)) = left.split_last() {
        add_all(&mut found, classes.slots(*class))?;
        left = others;
    }
    Ok(found)
}
