//! Groups, and the first that takes a method.
ghost use Rattle.std.specs.Prelude.{◌≡◌, map, option_map, slice_get};
ghost use Rattle.std.specs.List.{list_any};
ghost use Rattle.lisp_data.specs.ValueView.{value_of};
ghost use Rattle.clos_combination.specs.Pattern.{matches};
ghost use Rattle.clos_groups.specs.Group.{group_for, group_of, has_group, is_in, is_the, takes};

use clos_combination::{GroupSpecifier, Pattern};
use clos_method::{Method, method_numbered};
use lisp_data::{MethodId, Value};

/// Whether one of its patterns matches these qualifiers.
pub fn takes(group: &GroupSpecifier, qualifiers: &[Value]) -> bool
    ensures { result ≡ takes group.now (map value_of qualifiers.now) }
{
    any_matches(group.patterns.as_slice(), qualifiers)
}

fn any_matches(patterns: &[Pattern], qualifiers: &[Value]) -> bool
    ensures { result ≡ list_any (λ p. matches p (map value_of qualifiers.now)) patterns.now }
{
    patterns.iter().any(|pattern| pattern.matches(qualifiers))
}

/// The place of the first group that takes these qualifiers.
pub(crate) fn group_for(groups: &[GroupSpecifier], qualifiers: &[Value]) -> Option<usize>
    ensures { result ≡ group_for groups.now (map value_of qualifiers.now) }
{
    for place in 0..groups.len() {
        if takes(&groups[place], qualifiers) {
            return Some(place);
        }
    }
    None
}

/// The place of the group of the method of this number.
pub(crate) fn group_of(methods: &[Method], groups: &[GroupSpecifier], id: MethodId) -> Option<usize>
    ensures { result ≡ group_of methods.now groups.now id.0 }
{
    match method_numbered(methods, id) {
        None => None,
        Some(method) => group_for(groups, method.qualifiers.as_slice()),
    }
}

/// Whether a method has a group.
pub(crate) fn has_group(methods: &[Method], groups: &[GroupSpecifier], id: MethodId) -> bool
    ensures { result ≡ has_group methods.now groups.now id.0 }
{
    group_of(methods, groups, id).is_some()
}

/// Whether a method is of the group at this place.
pub(crate) fn is_in(
    methods: &[Method],
    groups: &[GroupSpecifier],
    place: usize,
    id: MethodId,
) -> bool
    ensures { result ≡ is_in methods.now groups.now place id.0 }
{
    is_the(group_of(methods, groups, id), place)
}

fn is_the(found: Option<usize>, place: usize) -> bool
    ensures { result ≡ is_the found place }
{
    match found {
        None => false,
        Some(found) => found == place,
    }
}
