//! Class precedence lists (HyperSpec 4.3.5).
ghost use Rattle.std.specs.List.{list_any};
ghost use Rattle.std.specs.Prelude.{◌≡◌, ◌==◌, IfOk, option_map};
ghost use Rattle.clos_precedence.specs.Precedence.{has, precedence_list, IsFamily, Tells};
ghost use Rattle.clos_precedence.specs.PrecedenceView.{numbers};

use crate::order::order;
use crate::superclasses::Superclasses;
use lisp_data::ClassId;
use std::alloc::{AllocError, Global};

fn any(classes: &[ClassId], class: ClassId) -> bool
    ensures { result ≡ list_any (λ c. c.0 == class.0) classes.now }
{
    classes.iter().any(|other| other.0 == class.0)
}

/// Whether a class is among these.
pub fn contains(classes: &[ClassId], class: ClassId) -> bool
    ensures { result ≡ has (numbers classes.now) class.0 }
{
    any(classes, class)
}

/// The class precedence list of a class, whose family is itself and all its superclasses, in any order (HyperSpec 4.3.5).
/// None where there is none, since classes come before one another in a circle.
#[tactic(auto, using(crate::proofs::OnPrecedence::tells))]
pub fn precedence_list<S: Superclasses>(
    alloc: Global,
    superclasses: &S,
    class: ClassId,
    family: &[ClassId],
) -> Result<Option<Vec<ClassId>>, AllocError>
    ensures found { IfOk result (λ r. option_map (λ l. numbers l.items) r ≡ precedence_list (S.above superclasses.now) class.0 (numbers family.now)) }
    ensures law { IfOk result (λ r. IsFamily (S.above superclasses.now) class.0 (numbers family.now)
        → Tells (S.above superclasses.now) (numbers family.now) (option_map (λ l. numbers l.items) r)) }
{
    let list = order(alloc, superclasses, class, family)?;
    Ok(list)
}
