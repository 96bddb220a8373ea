//! Which methods are applicable to some arguments (HyperSpec 7.6.6.1.1).
ghost use Rattle.std.specs.Prelude.{◌≡◌, option_map};
ghost use Rattle.std.specs.List.{list_any};
ghost use Rattle.lisp_data.specs.ValueView.{value_of};
ghost use Rattle.clos_method.specs.Applicable.{all_fit, fits, has_eql, has_eql_at, is_applicable, is_eql_to};
ghost use Rattle.clos_method.specs.ApplicableView.{fits_at};
ghost use Rattle.clos_method.specs.ArgumentView.{argument_of};
ghost use Rattle.clos_method.specs.MethodIds.{method_numbers};
ghost use Rattle.clos_method.specs.Specializer.{specializer_of, specializers_in};

use crate::arguments::{Argument, Arguments};
use crate::method::{Method, method_numbered};
use crate::specializer::Specializer;
use clos_precedence::contains;
use lisp_data::{MethodId, Value};

/// Whether a specializer fits an argument: the argument is of its class, or EQL to its object.
fn fits(argument: Argument<'_>, specializer: &Specializer) -> bool
    ensures { result ≡ fits (argument_of argument.entry) (specializer_of specializer.now) }
{
    match specializer {
        Specializer::Class(class) => contains(argument.list, *class),
        Specializer::Eql(object) => object == argument.value,
    }
}

/// Whether there is an argument, which the specializer fits.
fn fits_at(arguments: &Arguments<'_>, place: usize, specializer: &Specializer) -> bool
    ensures { result ≡ fits_at arguments.now place (specializer_of specializer.now) }
{
    match arguments.get(place) {
        None => false,
        Some(argument) => fits(argument, specializer),
    }
}

fn all_fit(arguments: &Arguments<'_>, specializers: &[Specializer]) -> bool
    ensures { result ≡ all_fit arguments.now (specializers_in specializers.now) }
{
    for (place, specializer) in specializers.iter().enumerate() {
        if !fits_at(arguments, place, specializer) {
            return false;
        }
    }
    true
}

/// Whether the method of this number is applicable to the arguments: each of its specializers fits the argument at its
/// place. A number of no method tells of none that is applicable.
pub fn is_applicable(methods: &[Method], arguments: &Arguments<'_>, id: MethodId) -> bool
    ensures { result ≡ is_applicable methods.now arguments.now id.0 }
{
    match method_numbered(methods, id) {
        None => false,
        Some(method) => all_fit(arguments, method.specializers.as_slice()),
    }
}

fn is_eql_to(object: &Value, specializer: Option<&Specializer>) -> bool
    ensures { result ≡ is_eql_to (value_of object.now) (option_map (λ s. specializer_of s.now) specializer.entry) }
{
    match specializer {
        None => false,
        Some(Specializer::Class(_)) => false,
        Some(Specializer::Eql(other)) => other == object,
    }
}

fn has_eql_at(methods: &[Method], place: usize, object: &Value, id: MethodId) -> bool
    ensures { result ≡ has_eql_at methods.now place (value_of object.now) id.0 }
{
    match method_numbered(methods, id) {
        None => false,
        Some(method) => is_eql_to(object, method.specializers.get(place)),
    }
}

/// Whether one of these methods has the object as its eql specializer at this place.
pub fn has_eql(methods: &[Method], candidates: &[MethodId], place: usize, object: &Value) -> bool
    ensures { result ≡ has_eql methods.now (method_numbers candidates.now) place (value_of object.now) }
{
    for id in candidates {
        if has_eql_at(methods, place, object, *id) {
            return true;
        }
    }
    false
}
