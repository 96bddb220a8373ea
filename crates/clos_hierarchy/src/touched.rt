//! The classes that a definition touches: of all others what is kept stays.
ghost use Rattle.std.specs.Prelude.{◌≡◌, ◌||◌, ℕ, IfOk, OnOk};
ghost use Rattle.clos_precedence.specs.Precedence.{has};
ghost use Rattle.clos_precedence.specs.PrecedenceView.{numbers};
ghost use Rattle.clos_hierarchy.specs.inner.Touched.{Ascends, Touches, begins_with, have_it, is_touched};

use crate::below::Below;
use crate::definitions::Definitions;
use crate::direct::Direct;
use crate::find::list_of;
use crate::kept::Kept;
use crate::woken::woken;
use clos_precedence::contains;
use lisp_data::ClassId;
use std::alloc::{AllocError, Global};

/// Adds these classes.
fn add_all(places: &mut Vec<u64>, classes: &[ClassId]) -> Result<(), AllocError>
    ensures { OnOk result ((n : ℕ) → has places.new.items n ≡ (has places.old.items n || has (numbers classes.now) n)) }
{
    let mut left = classes;
    while let Some((class, others)) = left.split_first() {
        places.push(class.0)?;
        left = others;
    }
    Ok(())
}

/// Adds those of these that have a class in their lists.
fn add_below(
    places: &mut Vec<u64>,
    kept: &[Kept],
    class: ClassId,
    noted: &[u64],
) -> Result<(), AllocError>
    ensures { OnOk result ((n : ℕ) → has places.new.items n ≡ (has places.old.items n || have_it kept.now class.0 noted.now n)) }
{
    let mut left = noted;
    while let Some((number, others)) = left.split_first() {
        if contains(list_of(kept, ClassId(*number)), class) {
            places.push(*number)?;
        }
        left = others;
    }
    Ok(())
}

fn begins_with(numbers: &[u64], number: u64) -> bool
    ensures { result ≡ begins_with numbers.now number }
{
    match numbers.first() {
        Some(first) => *first == number,
        None => false,
    }
}

/// Each of these once, in the order of their numbers.
fn in_order(alloc: Global, mut places: Vec<u64>) -> Result<Vec<ClassId>, AllocError>
    ensures members { IfOk result (λ r. (n : ℕ) → has (numbers r.items) n ≡ has places.items n) }
    ensures ordered { IfOk result (λ r. Ascends (numbers r.items)) }
{
    places.sort()?;
    let mut classes = Vec::new(alloc);
    let mut left = places.as_slice();
    while let Some((number, others)) = left.split_first() {
        if !begins_with(others, *number) {
            classes.push(ClassId(*number))?;
        }
        left = others;
    }
    Ok(classes)
}

/// A class, these others, and those that have it in their lists, in the order of their numbers.
fn gather(
    alloc: Global,
    kept: &[Kept],
    woken: &[ClassId],
    below: &Below,
    class: ClassId,
) -> Result<Vec<ClassId>, AllocError>
    ensures members { IfOk result (λ r. (n : ℕ) → has (numbers r.items) n ≡ is_touched kept.now (numbers woken.now) below.now class.0 n) }
    ensures ordered { IfOk result (λ r. Ascends (numbers r.items)) }
{
    let mut places = Vec::new(alloc);
    places.push(class.0)?;
    add_all(&mut places, woken)?;
    add_below(&mut places, kept, class, below.of(class.0))?;
    let touched = in_order(alloc, places)?;
    Ok(touched)
}

/// The classes that a definition of this one touches, in the order of their numbers.
pub fn touched(
    alloc: Global,
    definitions: &Definitions,
    kept: &[Kept],
    direct: &Direct,
    below: &Below,
    class: ClassId,
) -> Result<Vec<ClassId>, AllocError>
    ensures { IfOk result (λ r. Touches definitions.now kept.now direct.now below.now class.0 (numbers r.items)) }
{
    let woken = woken(alloc, definitions, kept, direct, class)?;
    let touched = gather(alloc, kept, woken.as_slice(), below, class)?;
    Ok(touched)
}
