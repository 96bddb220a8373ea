//! Methods by their numbers.
ghost use Rattle.std.specs.Prelude.{◌≡◌, ◌≤◌, ◌==◌, option_map, position, slice_get, vec_len, vec_capacity};
ghost use Rattle.std.specs.List.{find, list_all, list_any};
ghost use Rattle.clos_method.specs.Specializer.{specializer_of};
ghost use Rattle.clos_generic.specs.Fault.{all_fit, fits_in, is_permitted_one};
ghost use Rattle.clos_generic.specs.Table.{is_alike_at, without};
ghost use Rattle.clos_method.specs.MethodIds.{method_numbers};

use clos_method::{
    Method, Qualifiers, Shape, Specializer, Specializers, is_congruent, is_permitted,
    method_numbered,
};
use lisp_data::MethodId;

fn is_alike_at(
    methods: &[Method],
    id: MethodId,
    qualifiers: &Qualifiers,
    specializers: &Specializers,
) -> bool
    ensures { result ≡ is_alike_at methods.now qualifiers.now specializers.now id.0 }
{
    match method_numbered(methods, id) {
        None => false,
        Some(method) => method.is_alike(qualifiers, specializers),
    }
}

/// The place, among these numbers, of the first method of these qualifiers and specializers.
pub fn place_alike(
    methods: &[Method],
    ids: &[MethodId],
    qualifiers: &Qualifiers,
    specializers: &Specializers,
) -> Option<usize>
    ensures { result ≡ position (λ m. is_alike_at methods.now qualifiers.now specializers.now m.0) ids.now }
{
    ids.iter()
        .position(|id| is_alike_at(methods, *id, qualifiers, specializers))
}

/// The first of these that has these qualifiers and specializers.
pub fn find_alike(
    methods: &[Method],
    ids: &[MethodId],
    qualifiers: &Qualifiers,
    specializers: &Specializers,
) -> Option<MethodId>
    ensures { option_map (λ m. m.0) result ≡ find (is_alike_at methods.now qualifiers.now specializers.now) (method_numbers ids.now) }
{
    match place_alike(methods, ids, qualifiers, specializers) {
        None => None,
        Some(place) => Some(ids[place]),
    }
}

/// Takes the first that has these qualifiers and specializers out of these.
pub fn take_alike(
    ids: &mut Vec<MethodId>,
    methods: &[Method],
    qualifiers: &Qualifiers,
    specializers: &Specializers,
) -> Option<MethodId>
    ensures found { option_map (λ m. m.0) result ≡ find (is_alike_at methods.now qualifiers.now specializers.now) (method_numbers ids.old.items) }
    ensures rest { method_numbers ids.new.items ≡ without (is_alike_at methods.now qualifiers.now specializers.now) (method_numbers ids.old.items) }
    ensures len { vec_len ids.new ≤ vec_len ids.old }
    ensures capacity { vec_capacity ids.new ≡ vec_capacity ids.old }
{
    match place_alike(methods, ids.as_slice(), qualifiers, specializers) {
        None => None,
        Some(place) => Some(ids.remove(place)),
    }
}

/// Takes a number out of these, if it is there.
pub fn take_number(ids: &mut Vec<MethodId>, id: MethodId)
    ensures rest { method_numbers ids.new.items ≡ without (λ n. n == id.0) (method_numbers ids.old.items) }
    ensures len { vec_len ids.new ≤ vec_len ids.old }
    ensures capacity { vec_capacity ids.new ≡ vec_capacity ids.old }
{
    match place_of(ids.as_slice(), id) {
        None => {}
        Some(place) => {
            let _removed = ids.remove(place);
        }
    }
}

/// The place of a number among these.
pub fn place_of(ids: &[MethodId], id: MethodId) -> Option<usize>
    ensures { result ≡ position (λ m. m.0 == id.0) ids.now }
{
    ids.iter().position(|other| other.0 == id.0)
}

/// Whether a number is among these.
pub fn is_among(ids: &[MethodId], id: MethodId) -> bool
    ensures { result ≡ list_any (λ n. n == id.0) (method_numbers ids.now) }
{
    let mut left = ids;
    while let Some((other, others)) = left.split_first() {
        if other.0 == id.0 {
            return true;
        }
        left = others;
    }
    false
}

/// Whether a method may be one of a function of this shape.
pub fn fits_at(methods: &[Method], id: MethodId, shape: &Shape) -> bool
    ensures { result ≡ fits_in shape.now (slice_get methods.now id.0) }
{
    match method_numbered(methods, id) {
        None => true,
        Some(method) => is_congruent(shape, &method.shape),
    }
}

/// Whether these methods may be ones of a function of this shape (HyperSpec 7.6.4).
pub fn all_fit(methods: &[Method], ids: &[MethodId], shape: &Shape) -> bool
    ensures { result ≡ all_fit methods.now shape.now (method_numbers ids.now) }
{
    let mut left = ids;
    while let Some((id, others)) = left.split_first() {
        if !fits_at(methods, *id, shape) {
            return false;
        }
        left = others;
    }
    true
}

fn is_permitted_one(specializer: &Specializer) -> bool
    ensures { result ≡ is_permitted_one (specializer_of specializer.now) }
{
    match specializer {
        Specializer::Class(_) => true,
        Specializer::Eql(object) => is_permitted(object),
    }
}

/// Whether the objects of eql specializers are ones that EQL tells by value.
pub fn all_permitted(specializers: &Specializers) -> bool
    ensures { result ≡ list_all is_permitted_one specializers.now }
{
    let mut left = specializers.as_slice();
    while let Some((specializer, others)) = left.split_first() {
        if !is_permitted_one(specializer) {
            return false;
        }
        left = others;
    }
    true
}
