//! Which keyword arguments a call of a generic function may have (HyperSpec 7.6.5). Methods are told by their numbers among
//! all methods.
ghost use Rattle.std.specs.Prelude.{◌≡◌};
ghost use Rattle.std.specs.List.{list_any};
ghost use Rattle.clos_method.specs.Keywords.{accepts_keyword, allows_all, allows_in, checks_keywords, has_keys, is_allow_other_keys, method_allows, method_checks, method_names, names_keyword};
ghost use Rattle.clos_method.specs.MethodIds.{method_numbers};

use crate::method::{Method, method_numbered};
use crate::shape::Shape;
use lisp_data::{MethodId, Name};

fn allows_in(shape: &Shape) -> bool
    ensures { result ≡ allows_in shape.now }
{
    match &shape.keys {
        None => false,
        Some(keywords) => keywords.allow_other_keys,
    }
}

fn names_keyword(shape: &Shape, name: &Name) -> bool
    ensures { result ≡ names_keyword name.now shape.now }
{
    match &shape.keys {
        None => false,
        Some(keywords) => keywords.names.has(name),
    }
}

fn method_checks(methods: &[Method], id: MethodId) -> bool
    ensures { result ≡ method_checks methods.now id.0 }
{
    match method_numbered(methods, id) {
        None => false,
        Some(method) => method.shape.keys.is_some(),
    }
}

fn method_allows(methods: &[Method], id: MethodId) -> bool
    ensures { result ≡ method_allows methods.now id.0 }
{
    match method_numbered(methods, id) {
        None => false,
        Some(method) => allows_in(&method.shape),
    }
}

fn method_names(methods: &[Method], id: MethodId, name: &Name) -> bool
    ensures { result ≡ method_names methods.now name.now id.0 }
{
    match method_numbered(methods, id) {
        None => false,
        Some(method) => names_keyword(&method.shape, name),
    }
}

fn any_checks(methods: &[Method], applicable: &[MethodId]) -> bool
    ensures { result ≡ list_any (method_checks methods.now) (method_numbers applicable.now) }
{
    for id in applicable {
        if method_checks(methods, *id) {
            return true;
        }
    }
    false
}

/// Whether one of these methods has `&allow-other-keys`.
pub fn any_allows(methods: &[Method], applicable: &[MethodId]) -> bool
    ensures { result ≡ list_any (method_allows methods.now) (method_numbers applicable.now) }
{
    for id in applicable {
        if method_allows(methods, *id) {
            return true;
        }
    }
    false
}

/// Whether one of these methods names this keyword.
pub fn any_names(methods: &[Method], applicable: &[MethodId], name: &Name) -> bool
    ensures { result ≡ list_any (method_names methods.now name.now) (method_numbers applicable.now) }
{
    for id in applicable {
        if method_names(methods, *id, name) {
            return true;
        }
    }
    false
}

fn is_allow_other_keys(name: &Name) -> bool
    ensures { result ≡ is_allow_other_keys name.now }
{
    name.is_keyword() && name.as_str() == "ALLOW-OTHER-KEYS"
}

/// Whether the keyword arguments of a call are checked at all: the function of this shape, or one of the applicable
/// methods, has `&key`.
pub fn checks_keywords(generic: &Shape, methods: &[Method], applicable: &[MethodId]) -> bool
    ensures { result ≡ checks_keywords generic.now methods.now (method_numbers applicable.now) }
{
    generic.keys.is_some() || any_checks(methods, applicable)
}

/// Whether all keywords are accepted: the function, or one of the applicable methods, has `&allow-other-keys`.
pub fn allows_all(generic: &Shape, methods: &[Method], applicable: &[MethodId]) -> bool
    ensures { result ≡ allows_all generic.now methods.now (method_numbers applicable.now) }
{
    allows_in(generic) || any_allows(methods, applicable)
}

/// Whether a keyword is accepted: it is `:ALLOW-OTHER-KEYS`, or all are, or the function or one of the applicable methods
/// names it.
pub fn accepts_keyword(
    generic: &Shape,
    methods: &[Method],
    applicable: &[MethodId],
    name: &Name,
) -> bool
    ensures { result ≡ accepts_keyword generic.now methods.now (method_numbers applicable.now) name.now }
{
    is_allow_other_keys(name)
        || allows_all(generic, methods, applicable)
        || names_keyword(generic, name)
        || any_names(methods, applicable, name)
}
