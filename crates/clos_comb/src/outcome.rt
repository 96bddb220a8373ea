//! What applicable methods are combined into (HyperSpec 7.6.6).
ghost use Rattle.std.specs.Prelude.{◌≡◌, true, IfOk, IsOk};
ghost use Rattle.clos_comb.specs.Outcome.{is_method, name_at, refused, refused_primary};
ghost use Rattle.clos_comb.specs.OutcomeView.{combined_of};
ghost use Rattle.clos_groups.specs.RefusalView.{refusal_of};

use clos_forms::Form;
use clos_groups::{GroupRefusal, GroupSpecifier};
use lisp_data::{MethodId, Name};
use std::alloc::AllocError;

/// The effective method, or why there is none.
#[derive(Drop)]
pub enum Outcome {
    /// The form into which the methods are combined.
    Effective(Form),
    /// No group of the combination takes this method.
    InvalidMethod(MethodId),
    /// The group of this name has no method, and has to have one.
    RequiredGroupEmpty(Name),
    /// These are of one group, and their specializers are equal; the first was added before the second.
    AmbiguousMethods(MethodId, MethodId),
    /// Arguments or orders do not fit the combination, or what comes of them is no effective form.
    BadExpansion,
    /// The template of a long form makes too many conses, or what comes of it nests too deep.
    ExpansionLimit,
}

impl Outcome {
    /// Why the groups of a combination refuse its methods. To tell of a method takes no memory.
    pub(crate) fn refused(
        groups: &[GroupSpecifier],
        refusal: GroupRefusal,
    ) -> Result<Outcome, AllocError>
        ensures outcome { IfOk result (λ r. combined_of r ≡ refused groups.now (refusal_of refusal)) }
        ensures free { is_method (refusal_of refusal) ≡ true → IsOk result }
    {
        match refusal {
            GroupRefusal::InvalidMethod(method) => Ok(Outcome::InvalidMethod(method)),
            GroupRefusal::GroupEmpty(place) => Ok(Outcome::RequiredGroupEmpty(name_at(
                groups, place,
            )?)),
            GroupRefusal::AmbiguousMethods(earlier, later) => {
                Ok(Outcome::AmbiguousMethods(earlier, later))
            }
        }
    }

    /// The same, where PRIMARY is the one group that has to have a method.
    pub(crate) fn refused_primary(refusal: GroupRefusal) -> Outcome
        ensures { combined_of result ≡ refused_primary (refusal_of refusal) }
    {
        match refusal {
            GroupRefusal::InvalidMethod(method) => Outcome::InvalidMethod(method),
            GroupRefusal::GroupEmpty(_) => Outcome::RequiredGroupEmpty(Name::fixed(&"PRIMARY")),
            GroupRefusal::AmbiguousMethods(earlier, later) => {
                Outcome::AmbiguousMethods(earlier, later)
            }
        }
    }
}

/// The name of the group at a place.
fn name_at(groups: &[GroupSpecifier], place: usize) -> Result<Name, AllocError>
    ensures { IfOk result (λ n. n ≡ name_at groups.now place) }
{
    match groups.get(place) {
        None => Ok(Name::fixed(&"NIL")),
        Some(group) => group.name.copy(),
    }
}
