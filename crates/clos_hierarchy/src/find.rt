//! How what is kept of a class is found from what is kept of its superclasses.
ghost use Rattle.std.specs.Prelude.{◌≡◌, ◌∷◌, ℕ, [], IfOk, IfSome, OnOk, option_map, true};
ghost use Rattle.clos_hierarchy.specs.Classes.{Classes, found, is_based, superclasses, is_lacking, is_broken, list_in, listed_if, listed};
ghost use Rattle.clos_hierarchy.specs.inner.Finding.{any_lacking, any_broken, together};
ghost use Rattle.clos_precedence.specs.Precedence.{has, precedence_list};
ghost use Rattle.clos_hierarchy.specs.inner.Kept.{Keeps, IsAbove, IsSingle};
ghost use Rattle.clos_hierarchy.specs.Table.{list_if};
ghost use Rattle.clos_precedence.specs.PrecedenceView.{numbers};
ghost use Rattle.clos_precedence.specs.OrderView.{with_all_seen};
ghost use Rattle.clos_hierarchy.specs.inner.KeptView.{listing_of, listing_at, above_by};

use crate::definitions::Definitions;
use crate::kept::{Above, Kept, Line};
use clos_precedence::{Seen, contains, precedence_list};
use lisp_data::ClassId;
use std::alloc::{AllocError, Global};
use std::rc::Rc;

pub fn is_lacking(kept: &[Kept], class: ClassId) -> bool
    ensures { result ≡ is_lacking (listing_at kept.now class.0) }
{
    match kept.get(class.0 as usize) {
        None | Some(Kept::Lacking) => true,
        Some(_) => false,
    }
}

pub fn is_broken(kept: &[Kept], class: ClassId) -> bool
    ensures { result ≡ is_broken (listing_at kept.now class.0) }
{
    match kept.get(class.0 as usize) {
        Some(Kept::Broken) => true,
        _ => false,
    }
}

fn any_lacking(kept: &[Kept], classes: &[ClassId]) -> bool
    ensures { result ≡ any_lacking (listing_at kept.now) (numbers classes.now) }
{
    let mut left = classes;
    while let Some((class, others)) = left.split_first() {
        if is_lacking(kept, *class) {
            return true;
        }
        left = others;
    }
    false
}

fn any_broken(kept: &[Kept], classes: &[ClassId]) -> bool
    ensures { result ≡ any_broken (listing_at kept.now) (numbers classes.now) }
{
    let mut left = classes;
    while let Some((class, others)) = left.split_first() {
        if is_broken(kept, *class) {
            return true;
        }
        left = others;
    }
    false
}

/// The list of a class, which is empty where there is none.
pub fn list_of(kept: &[Kept], class: ClassId) -> &[ClassId]
    ensures { numbers result.now ≡ list_in (listing_at kept.now class.0) }
{
    match kept.get(class.0 as usize) {
        Some(Kept::Listed(line)) => line.list.as_slice(),
        _ => &[],
    }
}

/// The list of a class, where there is one.
pub fn listed(kept: &[Kept], class: ClassId) -> Option<&[ClassId]>
    ensures { option_map (λ l. numbers l.now) result ≡ list_if (listing_at kept.now class.0) }
{
    match kept.get(class.0 as usize) {
        Some(Kept::Listed(line)) => Some(line.list.as_slice()),
        _ => None,
    }
}

/// Adds those of these classes that are not there yet.
fn add_all(family: &mut Seen, classes: &[ClassId]) -> Result<(), AllocError>
    ensures { OnOk result (family.new ≡ with_all_seen family.old (numbers classes.now)) }
{
    let mut left = classes;
    while let Some((class, others)) = left.split_first() {
        family.add_new(*class)?;
        left = others;
    }
    Ok(())
}

/// A class and all in the lists of its direct superclasses, each once.
#[tactic(auto, using(clos_precedence::proofs::Lists::reversed, clos_precedence::proofs::Meeting::seen_all, clos_precedence::proofs::Lists::has_both, clos_precedence::proofs::Lists::both_or))]
fn family(
    alloc: Global,
    kept: &[Kept],
    class: ClassId,
    superclasses: &[ClassId],
) -> Result<Vec<ClassId>, AllocError>
    ensures { IfOk result (λ r. (x : ℕ) → has (numbers r.items) x ≡ has (class.0 ∷ together (listing_at kept.now) (numbers superclasses.now)) x) }
{
    let mut family = Seen::new(alloc);
    family.add(class)?;
    let mut left = superclasses;
    while let Some((superclass, others)) = left.split_first() {
        add_all(&mut family, list_of(kept, *superclass))?;
        left = others;
    }
    Ok(family.into_list())
}

/// What is found of a class over its family.
fn line(
    alloc: Global,
    kept: &[Kept],
    class: ClassId,
    superclasses: Vec<ClassId>,
    family: &[ClassId],
) -> Result<Kept, AllocError>
    ensures found { IfOk result (λ r. listing_of r ≡ listed_if (precedence_list (above_by kept.now class.0 (numbers superclasses.items)) class.0 (numbers family.now))) }
    ensures above { IfOk result (λ r. IsAbove r (numbers superclasses.items)) }
{
    let above = Above {
        kept,
        class,
        superclasses: superclasses.as_slice(),
    };
    match precedence_list(alloc, &above, class, family)? {
        None => Ok(Kept::Broken),
        Some(list) => {
            let line = Rc::new(alloc, Line { list, superclasses })?;
            Ok(Kept::Listed(line))
        }
    }
}

/// What is found of a class with these direct superclasses.
#[tactic(auto, using(crate::proofs::SameFamily::lacking_based, crate::proofs::SameFamily::broken_based))]
fn find_over(
    alloc: Global,
    kept: &[Kept],
    class: ClassId,
    direct: Vec<ClassId>,
) -> Result<Kept, AllocError>
    ensures found { IfOk result (λ r. (cs : Classes) → is_based cs class.0 ≡ true → numbers direct.items ≡ superclasses cs class.0 → Keeps cs kept.now → listing_of r ≡ found cs (listing_at kept.now) class.0) }
    ensures above { IfOk result (λ r. IsAbove r (numbers direct.items)) }
{
    if any_lacking(kept, direct.as_slice()) {
        return Ok(Kept::Lacking);
    }
    if any_broken(kept, direct.as_slice()) {
        return Ok(Kept::Broken);
    }
    let family = family(alloc, kept, class, direct.as_slice())?;
    line(alloc, kept, class, direct, family.as_slice())
}

/// What is found of a class with one direct superclass, which has a list that it is not in: the class before that list.
fn find_under(
    alloc: Global,
    class: ClassId,
    superclasses: Vec<ClassId>,
    above: &[ClassId],
) -> Result<Kept, AllocError>
    ensures found { IfOk result (λ r. listing_of r ≡ listed (class.0 ∷ numbers above.now)) }
    ensures above { IfOk result (λ r. IsAbove r (numbers superclasses.items)) }
{
    let mut list = Vec::new(alloc);
    list.push(class)?;
    list.extend_from_slice(above)?;
    let line = Rc::new(alloc, Line { list, superclasses })?;
    Ok(Kept::Listed(line))
}

/// The list of the one direct superclass, if there is just one and it has a list, and this class is not in it.
fn single_above<'a>(
    kept: &'a [Kept],
    class: ClassId,
    superclasses: &[ClassId],
) -> Option<&'a [ClassId]>
    ensures { IfSome result (λ l. IsSingle (listing_at kept.now) class.0 (numbers superclasses.now) (numbers l.now)) }
{
    let [superclass] = superclasses else {
        return None;
    };
    let list = listed(kept, *superclass)?;
    if contains(list, class) {
        return None;
    }
    Some(list)
}

/// What is found of a class whose direct superclasses, which are all defined, are these.
fn find_based(
    alloc: Global,
    kept: &[Kept],
    class: ClassId,
    direct: Vec<ClassId>,
) -> Result<Kept, AllocError>
    ensures found { IfOk result (λ r. (cs : Classes) → is_based cs class.0 ≡ true → numbers direct.items ≡ superclasses cs class.0 → Keeps cs kept.now → listing_of r ≡ found cs (listing_at kept.now) class.0) }
    ensures above { IfOk result (λ r. IsAbove r (numbers direct.items)) }
{
    if let Some(above) = single_above(kept, class, direct.as_slice()) {
        let found = find_under(alloc, class, direct, above)?;
        return Ok(found);
    }
    let found = find_over(alloc, kept, class, direct)?;
    Ok(found)
}

/// What is found of a class.
#[tactic(auto, using(crate::proofs::Single::found_based))]
pub fn find(
    alloc: Global,
    definitions: &Definitions,
    kept: &[Kept],
    class: ClassId,
) -> Result<Kept, AllocError>
    ensures found { IfOk result (λ r. Keeps definitions.now kept.now → listing_of r ≡ found definitions.now (listing_at kept.now) class.0) }
    ensures above { IfOk result (λ r. IsAbove r (superclasses definitions.now class.0)) }
{
    if class.0 >= definitions.len() as u64 {
        return Ok(Kept::Lacking);
    }
    let Some(superclasses) = definitions.resolve(alloc, definitions.above(class))? else {
        return Ok(Kept::Lacking);
    };
    let found = find_based(alloc, kept, class, superclasses)?;
    Ok(found)
}
