//! What is kept of the classes, found for one after another until no more is found.
ghost use Rattle.std.specs.Prelude.{◌≡◌, ◌<◌, ◌∷◌, [], ℕ, IfOk, OnOk, length};
ghost use Rattle.clos_precedence.specs.PrecedenceView.{numbers};
ghost use Rattle.clos_hierarchy.specs.inner.Touched.{AllEnd, AreWithin, Closes, OthersStay};
ghost use Rattle.clos_hierarchy.specs.inner.Kept.{Adds, Ends, Filled, Progress, Knows};
ghost use Rattle.clos_hierarchy.specs.inner.KeptView.{listing_of};
ghost use Rattle.clos_hierarchy.specs.Classes.{is_lacking};

use crate::definitions::Definitions;
use crate::find::{find, is_lacking};
use crate::kept::Kept;
use lisp_data::ClassId;
use std::alloc::{AllocError, Global};

/// Whether this says that one of a class's superclasses is not defined.
fn lacks(kept: &Kept) -> bool
    ensures { result ≡ is_lacking (listing_of kept.now) }
{
    match kept {
        Kept::Lacking => true,
        _ => false,
    }
}

/// Finds what there is to say of the class at this place, if nothing is said of it. Tells whether there is something.
#[tactic(auto, using(crate::proofs::Filling::progress_filled, crate::proofs::Filling::fewer_lack, crate::proofs::Filling::same_length, crate::proofs::Filling::nothing_found, crate::proofs::Filling::filled_adds))]
fn fill_at(
    alloc: Global,
    definitions: &Definitions,
    kept: &mut Vec<Kept>,
    place: usize,
) -> Result<bool, AllocError>
    requires { place < length kept.old.items }
    ensures filled { IfOk result (λ b. Filled b definitions.now kept.old.items kept.new.items (Ends definitions.now kept.old.items place)) }
    ensures others { OthersStay (place ∷ []) kept.old.items kept.new.items }
{
    let class = ClassId(place as u64);
    if !is_lacking(kept.as_slice(), class) {
        return Ok(false);
    }
    let found = find(alloc, definitions, kept.as_slice(), class)?;
    if lacks(&found) {
        return Ok(false);
    }
    kept[place] = found;
    Ok(true)
}

/// Does so for each of these classes.
fn fill_forward(
    alloc: Global,
    definitions: &Definitions,
    kept: &mut Vec<Kept>,
    places: &[ClassId],
) -> Result<bool, AllocError>
    requires { AreWithin (numbers places.now) kept.old.items }
    ensures filled { IfOk result (λ b. Filled b definitions.now kept.old.items kept.new.items (AllEnd definitions.now kept.old.items (numbers places.now))) }
    ensures others { OthersStay (numbers places.now) kept.old.items kept.new.items }
{
    let mut filled = false;
    let mut left = places;
    while let Some((place, others)) = left.split_first() {
        let more = fill_at(alloc, definitions, kept, place.0 as usize)?;
        filled = filled || more;
        left = others;
    }
    Ok(filled)
}

/// The same from the last one to the first.
fn fill_backward(
    alloc: Global,
    definitions: &Definitions,
    kept: &mut Vec<Kept>,
    places: &[ClassId],
) -> Result<bool, AllocError>
    requires { AreWithin (numbers places.now) kept.old.items }
    ensures filled { IfOk result (λ b. Filled b definitions.now kept.old.items kept.new.items (AllEnd definitions.now kept.old.items (numbers places.now))) }
    ensures others { OthersStay (numbers places.now) kept.old.items kept.new.items }
{
    let mut filled = false;
    let mut left = places;
    while let Some((place, others)) = left.split_last() {
        let more = fill_at(alloc, definitions, kept, place.0 as usize)?;
        filled = filled || more;
        left = others;
    }
    Ok(filled)
}

/// Finds all that there is to say of these classes: where they wait for one another in the order of their numbers, the one
/// way or the other, each is found before those that wait for it.
pub fn fill(
    alloc: Global,
    definitions: &Definitions,
    kept: &mut Vec<Kept>,
    places: &[ClassId],
) -> Result<(), AllocError>
    requires { AreWithin (numbers places.now) kept.old.items }
    ensures knows { OnOk result (Progress definitions.now kept.old.items → Closes definitions.now (numbers places.now) kept.old.items → Knows definitions.now kept.new.items) }
    ensures adds { OnOk result (Adds kept.old.items kept.new.items) }
    ensures others { OthersStay (numbers places.now) kept.old.items kept.new.items }
{
    loop {
        if !fill_forward(alloc, definitions, kept, places)? {
            return Ok(());
        }
        fill_backward(alloc, definitions, kept, places)?;
    }
}
