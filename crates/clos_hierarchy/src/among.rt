//! What there is to say of the classes that a definition touches.
ghost use Rattle.std.specs.Prelude.{◌≡◌, ℕ, length, None, false, IfErr, IfOk, OnOk, map, option_copied, slice_get, if◌then◌else◌};
ghost use Rattle.clos_precedence.specs.Precedence.{has};
ghost use Rattle.lisp_data.specs.Numbers.{same_numbers};
ghost use Rattle.clos_precedence.specs.PrecedenceView.{numbers};
ghost use Rattle.clos_hierarchy.specs.Classes.{is_broken};
ghost use Rattle.clos_hierarchy.specs.Table.{broken_from, is_other};
ghost use Rattle.clos_hierarchy.specs.TableView.{Refuses};
ghost use Rattle.clos_hierarchy.specs.declared.kept.Kept.{Kept};
ghost use Rattle.clos_hierarchy.specs.inner.Kept.{Knows};
ghost use Rattle.clos_hierarchy.specs.inner.KeptView.{listing_at, listing_of};
ghost use Rattle.clos_hierarchy.specs.inner.Touched.{Ascends, NoneElse, others_among};

use crate::definitions::Definitions;
use crate::fault::ClassFault;
use crate::find::is_broken;
use crate::kept::Kept;
use lisp_data::{ClassId, Name};
use std::alloc::{AllocError, Global};

fn same_ids(a: &[ClassId], b: &[ClassId]) -> bool
    ensures { result ≡ same_numbers (numbers a.now) (numbers b.now) }
{
    let mut place = 0;
    while place < a.len() && place < b.len() {
        if a[place].0 != b[place].0 {
            return false;
        }
        place += 1;
    }
    a.len() == b.len()
}

/// Whether a class has another list now than was kept of it, or has one now, or has none any more.
fn is_other(old: &Kept, now: &[Kept], class: ClassId) -> bool
    ensures { result ≡ is_other (listing_of old.now) (listing_at now.now class.0) }
{
    match (old, now.get(class.0 as usize)) {
        (Kept::Listed(old), Some(Kept::Listed(now))) => {
            !same_ids(old.list.as_slice(), now.list.as_slice())
        }
        (Kept::Listed(_), _) => true,
        (_, Some(Kept::Listed(_))) => true,
        _ => false,
    }
}

/// Those of the classes at these places whose lists changed, where these were kept of them before.
pub fn changed_among(
    alloc: Global,
    places: &[ClassId],
    olds: &[Kept],
    now: &[Kept],
) -> Result<Vec<ClassId>, AllocError>
    requires { length olds.now ≡ length places.now }
    ensures { IfOk result (λ r. numbers r.items ≡ others_among places.now olds.now now.now) }
{
    let mut changed = Vec::new(alloc);
    let mut at = 0;
    while at < places.len() {
        let class = places[at];
        if is_other(&olds[at], now, class) {
            changed.push(class)?;
        }
        at += 1;
    }
    Ok(changed)
}

/// The name of the class at this place, if it has no list, though all above it is defined.
fn broken_at<'a>(definitions: &'a Definitions, kept: &[Kept], class: ClassId) -> Option<&'a Name>
    ensures { option_copied result ≡ (if is_broken (listing_at kept.now class.0) then slice_get definitions.now.names class.0 else None) }
{
    if !is_broken(kept, class) {
        return None;
    }
    definitions.name(class)
}

/// Answers the name of the first class that has no list, though all above it is defined, if there is one.
#[tactic(auto, using(crate::proofs::Broken::none_but_first, crate::proofs::Broken::none_but_next))]
pub fn find_broken(
    definitions: &Definitions,
    kept: &[Kept],
    places: &[ClassId],
) -> Result<(), ClassFault>
    requires { Ascends (numbers places.now) }
    ensures ok { OnOk result (Knows definitions.now kept.now → NoneElse (numbers places.now) kept.now → broken_from 0 definitions.now.names definitions.now ≡ None) }
    ensures fault { IfErr result (λ e. Knows definitions.now kept.now → NoneElse (numbers places.now) kept.now → Refuses e (broken_from 0 definitions.now.names definitions.now)) }
{
    let mut left = places;
    while let Some((place, others)) = left.split_first() {
        if let Some(name) = broken_at(definitions, kept, *place) {
            return Err(ClassFault::InconsistentPrecedence(name.copy()?));
        }
        left = others;
    }
    Ok(())
}
