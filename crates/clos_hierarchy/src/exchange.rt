//! What is kept of some classes is put in the place of what was kept of them, and back again.
ghost use Rattle.std.specs.Prelude.{◌≡◌, ◌<◌, ℕ, true, IfOk, length, map};
ghost use Rattle.clos_precedence.specs.Precedence.{has};
ghost use Rattle.clos_precedence.specs.PrecedenceView.{numbers};
ghost use Rattle.clos_hierarchy.specs.inner.Exchange.{nothing_of, put_all, replaced};

use crate::kept::Kept;
use lisp_data::ClassId;
use std::alloc::{AllocError, Global};
use std::mem;

/// So many times nothing.
pub fn nothing_of(alloc: Global, places: &[ClassId]) -> Result<Vec<Kept>, AllocError>
    ensures { IfOk result (λ r. r.items ≡ nothing_of (numbers places.now)) }
{
    let mut nothing = Vec::with_capacity(alloc, places.len())?;
    let mut left = places;
    while let Some((_, others)) = left.split_first() {
        nothing.push(Kept::Lacking)?;
        left = others;
    }
    Ok(nothing)
}

/// Puts these in the places of classes, and those that stood there in their own.
pub fn exchange(kept: &mut Vec<Kept>, places: &[ClassId], others: &mut Vec<Kept>)
    requires within { (n : ℕ) → has (numbers places.now) n ≡ true → n < length kept.old.items }
    requires each { length others.old.items ≡ length places.now }
    ensures kept { kept.new.items ≡ put_all (numbers places.now) others.old.items kept.old.items }
    ensures others { others.new.items ≡ replaced (numbers places.now) others.old.items kept.old.items }
{
    let mut index = 0;
    while index < places.len() {
        let place = places[index].0 as usize;
        let other = mem::replace(&mut others[index], Kept::Lacking);
        others[index] = mem::replace(&mut kept[place], other);
        index += 1;
    }
}
