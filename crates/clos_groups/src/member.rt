//! The methods of a group.
ghost use Rattle.std.specs.Prelude.{◌≡◌, ◌==◌, ℕ, IfOk, nat_eq};
ghost use Rattle.clos_method.specs.MethodIds.{method_numbers};
ghost use Rattle.std.specs.HashSet.{contains};
ghost use Rattle.std.specs.List.{list_all, list_any};
ghost use Rattle.clos_groups.specs.Group.{members};
ghost use Rattle.clos_groups.specs.Refusal.{among};

use crate::group::is_in;
use clos_combination::GroupSpecifier;
use clos_method::Method;
use lisp_data::MethodId;
use std::alloc::{AllocError, Global};
use std::collections::HashSet;

/// Those of these methods that are of the group at this place, in the same order.
pub fn members(
    alloc: Global,
    methods: &[Method],
    groups: &[GroupSpecifier],
    place: usize,
    ids: &[MethodId],
) -> Result<Vec<MethodId>, AllocError>
    ensures { IfOk result (λ r. method_numbers r.items ≡ members methods.now groups.now place (method_numbers ids.now)) }
{
    let mut members = Vec::new(alloc);
    for id in ids {
        if is_in(methods, groups, place, *id) {
            members.push(*id)?;
        }
    }
    Ok(members)
}

/// Those of the methods that were added, in order of addition, that are among these.
pub(crate) fn among(
    alloc: Global,
    ids: &[MethodId],
    added: &[MethodId],
) -> Result<Vec<MethodId>, AllocError>
    ensures { IfOk result (λ r. method_numbers r.items ≡ among (method_numbers ids.now) (method_numbers added.now)) }
{
    let known = numbers_of(alloc, ids)?;
    let mut members = Vec::new(alloc);
    for id in added {
        if known.contains(&id.0) {
            members.push(*id)?;
        }
    }
    Ok(members)
}

/// Whether each of these methods is among those.
pub fn has_all(alloc: Global, ids: &[MethodId], called: &[MethodId]) -> Result<bool, AllocError>
    ensures { IfOk result (λ b. b ≡ list_all (λ m. list_any (λ n. n == m) (method_numbers ids.now)) (method_numbers called.now)) }
{
    let known = numbers_of(alloc, ids)?;
    for id in called {
        if !known.contains(&id.0) {
            return Ok(false);
        }
    }
    Ok(true)
}

fn numbers_of(alloc: Global, ids: &[MethodId]) -> Result<HashSet<u64>, AllocError>
    ensures { IfOk result (λ s. (n : ℕ) → contains nat_eq s n ≡ list_any (λ m. m == n) (method_numbers ids.now)) }
{
    let mut numbers = HashSet::new(alloc);
    let mut at = ids.len();
    while at > 0 {
        at -= 1;
        let _is_new = numbers.insert(ids[at].0)?;
    }
    Ok(numbers)
}
