//! The classes of which nothing was said, since superclasses of theirs were not defined, and of which something is said once
//! a class is defined.
ghost use Rattle.std.specs.Prelude.{◌≡◌, ◌<◌, ◌&&◌, ℕ, [], true, IfOk, OnOk, length};
ghost use Rattle.clos_precedence.specs.Precedence.{has};
ghost use Rattle.clos_precedence.specs.PrecedenceView.{numbers};
ghost use Rattle.clos_hierarchy.specs.Classes.{are_defined, defined, is_lacking};
ghost use Rattle.clos_hierarchy.specs.inner.KeptView.{listing_at};
ghost use Rattle.clos_hierarchy.specs.inner.Waking.{Wakes};
ghost use Rattle.clos_hierarchy.specs.inner.Woken.{Asleep, Sleeps, all_said, below_class, is_ready};

use crate::definitions::Definitions;
use crate::direct::Direct;
use crate::find::is_lacking;
use crate::kept::Kept;
use clos_precedence::Seen;
use lisp_data::{ClassId, Name};
use std::alloc::{AllocError, Global};

/// Whether all these names are those of classes, and something is said of each that is not among the woken ones.
#[tactic(auto, using(crate::proofs::Ready::ready_on, crate::proofs::Ready::not_defined, crate::proofs::Ready::not_said))]
fn are_said(definitions: &Definitions, kept: &[Kept], woken: &Seen, names: &[Name]) -> bool
    ensures { result ≡ (are_defined definitions.now names.now && all_said (listing_at kept.now) woken.now (defined definitions.now names.now)) }
{
    let mut left = names;
    while let Some((name, others)) = left.split_first() {
        let Some(class) = definitions.named(name) else {
            return false;
        };
        if is_lacking(kept, class) && !woken.has(class) {
            return false;
        }
        left = others;
    }
    true
}

/// Whether something would be said of a class once something is said of the woken ones.
fn is_ready(definitions: &Definitions, kept: &[Kept], woken: &Seen, class: ClassId) -> bool
    ensures { result ≡ is_ready definitions.now (listing_at kept.now) woken.now class.0 }
{
    class.0 < definitions.len() as u64
        && are_said(definitions, kept, woken, definitions.above(class))
}

/// The classes directly below a class.
fn below<'a>(definitions: &Definitions, direct: &'a Direct, class: ClassId) -> &'a [u64]
    ensures { result.now ≡ below_class definitions.now direct.now class.0 }
{
    match definitions.name(class) {
        Some(name) => direct.of(name),
        None => &[],
    }
}

/// Adds those of these classes that wait no longer.
fn wake(
    definitions: &Definitions,
    kept: &[Kept],
    classes: &[u64],
    woken: &mut Seen,
) -> Result<(), AllocError>
    ensures { OnOk result (Wakes definitions.now (listing_at kept.now) classes.now [] woken.old woken.new) }
{
    let mut left = classes;
    while let Some((number, others)) = left.split_first() {
        let class = ClassId(*number);
        if is_lacking(kept, class) && is_ready(definitions, kept, woken, class) {
            woken.add_new(class)?;
        }
        left = others;
    }
    Ok(())
}

/// Of which classes something is said once this one is defined, where nothing is said of them now: it may be among them, and
/// those that waited for it, or for one of these.
pub fn woken(
    alloc: Global,
    definitions: &Definitions,
    kept: &[Kept],
    direct: &Direct,
    class: ClassId,
) -> Result<Vec<ClassId>, AllocError>
    ensures within { IfOk result (λ r. (n : ℕ) → has (numbers r.items) n ≡ true → n < length definitions.now.names) }
    ensures waited { IfOk result (λ r. (n : ℕ) → has (numbers r.items) n ≡ true → is_lacking (listing_at kept.now n) ≡ true) }
    ensures all { IfOk result (λ r. Asleep definitions.now (listing_at kept.now) direct.now class.0 → (n : ℕ) → Sleeps definitions.now (listing_at kept.now) (numbers r.items) n) }
{
    let mut woken = Seen::new(alloc);
    if is_lacking(kept, class) && is_ready(definitions, kept, &woken, class) {
        woken.add(class)?;
    }
    let mut place = 0;
    while place < woken.len() {
        let next = woken.at(place);
        wake(
            definitions,
            kept,
            below(definitions, direct, next),
            &mut woken,
        )?;
        place += 1;
    }
    Ok(woken.into_list())
}
