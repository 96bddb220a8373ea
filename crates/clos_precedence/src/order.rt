//! The classes of a family in the order of precedence (HyperSpec 4.3.5.1).
ghost use Rattle.std.specs.Prelude.{◌≡◌, ◌++◌, ℕ, List, IfOk, option_map, reverse};
ghost use Rattle.clos_precedence.specs.Precedence.{first_left, if_free, next_above, are_done, if_all_done, precedence_list};
ghost use Rattle.clos_precedence.specs.PrecedenceView.{numbers};
ghost use Rattle.clos_precedence.specs.OrderView.{TellsFree};

use crate::predecessors::Predecessors;
use crate::seen::Seen;
use crate::superclasses::Superclasses;
use lisp_data::ClassId;
use std::alloc::{AllocError, Global};

/// The first class that is left among direct superclasses, if it is free: if all that come before it are done.
fn free_above<S: Superclasses>(
    superclasses: &S,
    before: &Predecessors,
    done: &Seen,
    below: ClassId,
) -> Option<ClassId>
    ensures { (all : List ℕ) → TellsFree (S.above superclasses.now) all before.now → option_map (λ c. c.0) result ≡ if_free (S.above superclasses.now) all done.now (first_left done.now (S.above superclasses.now below.0)) }
{
    let next = done.first_left(superclasses.of(below))?;
    if !done.has_all(before.of(next)) {
        return None;
    }
    Some(next)
}

/// Going back from the latest that is done, the first class that is left and free among direct superclasses.
#[tactic(auto, using(crate::proofs::Lists::latest))]
fn next_above<S: Superclasses>(
    superclasses: &S,
    before: &Predecessors,
    done: &Seen,
) -> Option<ClassId>
    ensures { (all : List ℕ) → TellsFree (S.above superclasses.now) all before.now → option_map (λ c. c.0) result ≡ next_above (S.above superclasses.now) all done.now done.now }
{
    let mut rest = done.as_slice();
    while let Some((latest, earlier)) = rest.split_last() {
        if let Some(class) = free_above(superclasses, before, done, *latest) {
            return Some(class);
        }
        rest = earlier;
    }
    None
}

/// Those that are done, if all are.
fn if_all_done(done: Seen, family: &[ClassId]) -> Option<Vec<ClassId>>
    ensures { option_map (λ l. numbers l.items) result ≡ option_map (λ xs. reverse done ++ xs) (if_all_done (are_done done (numbers family.now))) }
{
    if !done.has_all(family) {
        return None;
    }
    Some(done.into_list())
}

/// The classes of the family in the order of precedence, if there is one.
pub fn order<S: Superclasses>(
    alloc: Global,
    superclasses: &S,
    class: ClassId,
    family: &[ClassId],
) -> Result<Option<Vec<ClassId>>, AllocError>
    ensures { IfOk result (λ r. option_map (λ l. numbers l.items) r ≡ precedence_list (S.above superclasses.now) class.0 (numbers family.now)) }
{
    let before = Predecessors::by(alloc, superclasses, family)?;
    let mut done = Seen::new(alloc);
    if !done.has_all(before.of(class)) {
        return Ok(None);
    }
    done.add(class)?;
    let mut turns = family.len();
    while turns > 0 {
        turns -= 1;
        match next_above(superclasses, &before, &done) {
            None => return Ok(if_all_done(done, family)),
            Some(next) => done.add(next)?,
        }
    }
    Ok(if_all_done(done, family))
}
