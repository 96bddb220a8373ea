//! What is kept of the classes after one was defined: of those that it touches it is found anew.
ghost use Rattle.std.specs.Prelude.{◌≡◌, IfOk, OnErr, OnOk, map};
ghost use Rattle.clos_precedence.specs.PrecedenceView.{numbers};
ghost use Rattle.clos_hierarchy.specs.inner.Exchange.{taken_out};
ghost use Rattle.clos_hierarchy.specs.inner.Kept.{Adds, Knows, Progress};
ghost use Rattle.clos_hierarchy.specs.inner.KeptView.{kept_at};
ghost use Rattle.clos_hierarchy.specs.inner.Touched.{AreWithin, Ascends, Closes, OthersStay};

use crate::definitions::Definitions;
use crate::exchange::{exchange, nothing_of};
use crate::fill::fill;
use crate::kept::Kept;
use lisp_data::ClassId;
use std::alloc::{AllocError, Global};

/// Finds anew what there is to say of these classes, in the place of what is kept of them, which is answered.
pub fn find_anew(
    alloc: Global,
    definitions: &Definitions,
    kept: &mut Vec<Kept>,
    places: &[ClassId],
) -> Result<Vec<Kept>, AllocError>
    requires within { AreWithin (numbers places.now) kept.old.items }
    requires ordered { Ascends (numbers places.now) }
    ensures taken { IfOk result (λ r. r.items ≡ map (kept_at kept.old.items) (numbers places.now)) }
    ensures others { OnOk result (OthersStay (numbers places.now) kept.old.items kept.new.items) }
    ensures knows { OnOk result (Progress definitions.now (taken_out (numbers places.now) kept.old.items) → Closes definitions.now (numbers places.now) (taken_out (numbers places.now) kept.old.items) → Knows definitions.now kept.new.items) }
    ensures err { OnErr result (kept.new.items ≡ kept.old.items) }
{
    let mut taken = nothing_of(alloc, places)?;
    exchange(kept, places, &mut taken);
    match fill(alloc, definitions, kept, places) {
        Ok(()) => Ok(taken),
        Err(refusal) => {
            exchange(kept, places, &mut taken);
            Err(refusal)
        }
    }
}
