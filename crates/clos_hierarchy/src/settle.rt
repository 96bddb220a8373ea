//! What follows for the table where other lists are kept of some classes.
ghost use Rattle.std.specs.Prelude.{◌≡◌, ℕ, true, IfOk, OnOk, length};
ghost use Rattle.clos_precedence.specs.Precedence.{has};
ghost use Rattle.clos_precedence.specs.PrecedenceView.{numbers};
ghost use Rattle.clos_hierarchy.specs.Classes.{list_in};
ghost use Rattle.clos_hierarchy.specs.inner.Below.{Grows, below_at};
ghost use Rattle.clos_hierarchy.specs.inner.KeptView.{listing_at};
ghost use Rattle.clos_hierarchy.specs.inner.Touched.{others_among};

use crate::among::changed_among;
use crate::below::Below;
use crate::find::list_of;
use crate::kept::Kept;
use lisp_data::ClassId;
use std::alloc::{AllocError, Global};

/// Notes the lists of these classes.
fn note(
    alloc: Global,
    below: &mut Below,
    places: &[ClassId],
    kept: &[Kept],
) -> Result<(), AllocError>
    ensures grows { Grows below.old below.new }
    ensures noted { OnOk result ((n m : ℕ) → has (numbers places.now) n ≡ true → has (list_in (listing_at kept.now n)) m ≡ true → has (below_at below.new m) n ≡ true) }
{
    let mut left = places;
    while let Some((class, others)) = left.split_first() {
        below.add(alloc, *class, list_of(kept, *class))?;
        left = others;
    }
    Ok(())
}

/// Notes the lists that are kept of the classes at these places, and answers the classes whose lists changed, where these things
/// were kept of them before.
pub fn settle(
    alloc: Global,
    below: &mut Below,
    places: &[ClassId],
    olds: &[Kept],
    kept: &[Kept],
) -> Result<Vec<ClassId>, AllocError>
    requires { length olds.now ≡ length places.now }
    ensures changed { IfOk result (λ r. numbers r.items ≡ others_among places.now olds.now kept.now) }
    ensures grows { Grows below.old below.new }
    ensures noted { OnOk result ((n m : ℕ) → has (numbers places.now) n ≡ true → has (list_in (listing_at kept.now n)) m ≡ true → has (below_at below.new m) n ≡ true) }
{
    let changed = changed_among(alloc, places, olds, kept)?;
    note(alloc, below, places, kept)?;
    Ok(changed)
}
