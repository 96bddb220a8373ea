//! Initargs: which slot one fills, and whether it is valid (HyperSpec 7.1.2).
ghost use Rattle.std.specs.Prelude.{◌≡◌, ◌∷◌, option_map, map};
ghost use Rattle.std.specs.List.{list_any};
ghost use Rattle.lisp_data.specs.ValueView.{value_of};
ghost use Rattle.clos_machine.specs.clos_meaning.Filling.{initarg_for};
ghost use Rattle.clos_machine.specs.clos_meaning.ClassFunctions.{symbol_in};
ghost use Rattle.clos_machine.specs.clos_meaning.Initialization.{fills, first_invalid, invalid_initarg, is_given, is_keyword_of, is_valid};
ghost use Rattle.clos_machine.specs.clos_meaning.Parameters.{is_symbol_named};

use crate::reached::Reached;
use clos_class::EffectiveSlot;
use clos_defclass::DefaultInitarg;
use clos_machine::parameters::{argument_named, is_allow_other_keys, is_allowing, is_symbol_named};
use clos_method::Method;
use lisp_data::{Name, Value};

/// Whether a value is one of these names.
fn is_one_of(names: &[Name], value: &Value) -> bool
    ensures { result ≡ list_any (λ n. is_symbol_named n (value_of value.now)) names.now }
{
    names.iter().any(|name| is_symbol_named(value, name))
}

/// Whether a slot is filled by an initarg of this name.
fn is_filled_by(slot: &EffectiveSlot, name: &Value) -> bool
    ensures { result ≡ list_any (λ n. is_symbol_named n (value_of name.now)) slot.now.initargs }
{
    is_one_of(slot.initargs.as_slice(), name)
}

/// The leftmost initarg that fills a slot.
pub fn initarg_for<'a>(slot: &EffectiveSlot, initargs: &'a [Value]) -> Option<&'a Value>
    ensures { option_map (λ v. value_of v.now) result ≡ initarg_for slot.now (map value_of initargs.now) }
{
    let mut left = initargs;
    while let Some((name, rest)) = left.split_first() {
        let Some((value, others)) = rest.split_first() else {
            return None;
        };
        if is_filled_by(slot, name) {
            return Some(value);
        }
        left = others;
    }
    None
}

/// Whether one of these slots is filled by an initarg.
fn fills(slots: &[EffectiveSlot], name: &Value) -> bool
    ensures { result ≡ fills slots.now (value_of name.now) }
{
    slots.iter().any(|slot| is_filled_by(slot, name))
}

/// Whether one of these methods names the keyword that a value is.
fn is_keyword_of(methods: &[Method], reached: &Reached, value: &Value) -> bool
    ensures { result ≡ is_keyword_of methods.now reached.now (symbol_in (value_of value.now)) }
{
    match value {
        Value::Sym(name) => reached.names(methods, name),
        Value::List(items) => match items.split_first() {
            None => reached.names(methods, &Name::fixed(&"NIL")),
            Some(_) => false,
        },
        _ => false,
    }
}

fn is_valid(methods: &[Method], reached: &Reached, slots: &[EffectiveSlot], name: &Value) -> bool
    ensures { result ≡ is_valid methods.now reached.now slots.now (value_of name.now) }
{
    is_allow_other_keys(name) || fills(slots, name) || is_keyword_of(methods, reached, name)
}

fn first_invalid<'a>(
    methods: &[Method],
    reached: &Reached,
    slots: &[EffectiveSlot],
    initargs: &'a [Value],
) -> Option<&'a Value>
    ensures { option_map (λ v. value_of v.now) result ≡ first_invalid methods.now reached.now slots.now
        (map value_of initargs.now) }
{
    let mut left = initargs;
    while let Some((name, rest)) = left.split_first() {
        if !is_valid(methods, reached, slots, name) {
            return Some(name);
        }
        let Some((_, others)) = rest.split_first() else {
            return None;
        };
        left = others;
    }
    None
}

/// The leftmost initarg that is not valid for these slots, where the initargs reach these of all methods.
pub fn invalid_initarg<'a>(
    methods: &[Method],
    reached: &Reached,
    slots: &[EffectiveSlot],
    initargs: &'a [Value],
) -> Option<&'a Value>
    ensures { option_map (λ v. value_of v.now) result ≡ invalid_initarg methods.now reached.now slots.now
        (map value_of initargs.now) }
{
    if is_allowing(initargs) || reached.allows(methods) {
        return None;
    }
    first_invalid(methods, reached, slots, initargs)
}

/// Whether the name of a default initarg is among the initargs.
pub fn is_given(initargs: &[Value], default: &DefaultInitarg) -> bool
    ensures { result ≡ is_given (map value_of initargs.now) default.now }
{
    argument_named(initargs, &default.name).is_some()
}
