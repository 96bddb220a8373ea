//! What keeps the methods of groups from being combined (HyperSpec 7.6.6.2, 7.7 `define-method-combination`).
ghost use Rattle.std.specs.Prelude.{◌≡◌, IfOk, IsOk, is_some, option_map, true};
ghost use Rattle.std.specs.List.{list_any};
ghost use Rattle.clos_method.specs.MethodIds.{method_numbers};
ghost use Rattle.clos_groups.specs.Group.{is_in};
ghost use Rattle.clos_groups.specs.Refusal.{ambiguous_from, empty_from, refusal, ungrouped};
ghost use Rattle.clos_groups.specs.RefusalView.{pair_of, refusal_of};

use crate::group::{has_group, is_in};
use crate::member::{among, members};
use crate::twins::twins;
use clos_combination::GroupSpecifier;
use clos_method::Method;
use lisp_data::MethodId;
use std::alloc::{AllocError, Global};

/// Why methods are not combined.
#[derive(Drop)]
pub enum GroupRefusal {
    /// No group takes this method.
    InvalidMethod(MethodId),
    /// There has to be a method in the group at this place.
    GroupEmpty(usize),
    /// Both are of one group, and their specializers are equal; the first was added before the second.
    AmbiguousMethods(MethodId, MethodId),
}

/// Why these methods of a function are not combined by groups, or None: the first method that no group takes, else the first
/// group that has none and has to, else the first group with two methods of equal specializers. The function's methods are
/// in order of addition. Only the last may find memory refused.
pub fn find_refusal(
    alloc: Global,
    methods: &[Method],
    groups: &[GroupSpecifier],
    added: &[MethodId],
    ids: &[MethodId],
) -> Result<Option<GroupRefusal>, AllocError>
    ensures refusal { IfOk result (λ r. option_map refusal_of r ≡ refusal methods.now groups.now (method_numbers added.now) (method_numbers ids.now)) }
    ensures invalid { is_some (ungrouped methods.now groups.now (method_numbers ids.now)) ≡ true → IsOk result }
    ensures empty { is_some (empty_from methods.now groups.now (method_numbers ids.now) 0 groups.now) ≡ true → IsOk result }
{
    if let Some(invalid) = ungrouped(methods, groups, ids) {
        return Ok(Some(GroupRefusal::InvalidMethod(invalid)));
    }
    if let Some(place) = empty_group(methods, groups, ids) {
        return Ok(Some(GroupRefusal::GroupEmpty(place)));
    }
    let in_order = among(alloc, ids, added)?;
    match ambiguous(alloc, methods, groups, &in_order)? {
        None => Ok(None),
        Some((earlier, later)) => Ok(Some(GroupRefusal::AmbiguousMethods(earlier, later))),
    }
}

/// The first of these methods that no group takes.
fn ungrouped(methods: &[Method], groups: &[GroupSpecifier], ids: &[MethodId]) -> Option<MethodId>
    ensures { option_map (λ m. m.0) result ≡ ungrouped methods.now groups.now (method_numbers ids.now) }
{
    for id in ids {
        if !has_group(methods, groups, *id) {
            return Some(*id);
        }
    }
    None
}

/// The place of the first group that has none of these methods, and has to have one.
fn empty_group(methods: &[Method], groups: &[GroupSpecifier], ids: &[MethodId]) -> Option<usize>
    ensures { result ≡ empty_from methods.now groups.now (method_numbers ids.now) 0 groups.now }
{
    for place in 0..groups.len() {
        if groups[place].required && !has_member(methods, groups, place, ids) {
            return Some(place);
        }
    }
    None
}

/// Whether one of these methods is of the group at this place.
fn has_member(methods: &[Method], groups: &[GroupSpecifier], place: usize, ids: &[MethodId]) -> bool
    ensures { result ≡ list_any (is_in methods.now groups.now place) (method_numbers ids.now) }
{
    for id in ids {
        if is_in(methods, groups, place, *id) {
            return true;
        }
    }
    false
}

/// The pair of the first group that has two of these methods with equal specializers. They are in order of addition.
fn ambiguous(
    alloc: Global,
    methods: &[Method],
    groups: &[GroupSpecifier],
    ids: &[MethodId],
) -> Result<Option<(MethodId, MethodId)>, AllocError>
    ensures { IfOk result (λ r. option_map pair_of r ≡ ambiguous_from methods.now groups.now (method_numbers ids.now) 0 groups.now) }
{
    for place in 0..groups.len() {
        let members = members(alloc, methods, groups, place, ids)?;
        if let Some(pair) = twins(alloc, methods, &members)? {
            return Ok(Some(pair));
        }
    }
    Ok(None)
}
