//! The names of slots that shared-initialize is told, and the initargs after them (HyperSpec 7.1.4).
ghost use Rattle.std.specs.Prelude.{◌≡◌, map};
ghost use Rattle.std.specs.Option.{option_map_or};
ghost use Rattle.lisp_data.specs.Value.{list, nil};
ghost use Rattle.lisp_data.specs.ValueView.{value_of};
ghost use Rattle.clos_machine.specs.Machine.{initargs_in, names_in};
ghost use Rattle.clos_machine.specs.clos_meaning.Filling.{are_slot_names, are_symbols, is_listed, is_named, is_symbol_t};

use clos_machine::parameters::{is_symbol, is_symbol_named};
use lisp_data::{Items, Name, Value};

/// The names of slots among the arguments of shared-initialize.
pub fn names_in(arguments: &[Value]) -> Option<&Value>
    ensures { option_map_or (λ v. value_of v.now) result (list nil) ≡ names_in (map value_of arguments.now) }
{
    arguments.get(1)
}

/// The initargs among the arguments of shared-initialize.
pub fn initargs_in(arguments: &[Value]) -> &[Value]
    ensures { map value_of result.now ≡ initargs_in (map value_of arguments.now) }
{
    if arguments.len() < 2 {
        return &[];
    }
    &arguments[2..]
}

/// Whether a value is the symbol T, which stands for all slots.
fn is_t(value: &Value) -> bool
    ensures { result ≡ is_symbol_t (value_of value.now) }
{
    is_symbol_named(value, &Name::fixed(&"T"))
}

fn are_symbols(items: &Items) -> bool
    ensures { result ≡ are_symbols items.now }
{
    let mut rest = items;
    while let Some((first, more)) = rest.split_first() {
        if !is_symbol(first) {
            return false;
        }
        rest = more;
    }
    true
}

/// Whether a value is T or a list of symbols.
pub fn are_slot_names(value: &Value) -> bool
    ensures { result ≡ are_slot_names (value_of value.now) }
{
    if is_t(value) {
        return true;
    }
    match value {
        Value::List(items) => are_symbols(items),
        _ => false,
    }
}

fn is_listed(items: &Items, name: &Name) -> bool
    ensures { result ≡ is_listed name.now items.now }
{
    let mut rest = items;
    while let Some((first, more)) = rest.split_first() {
        if is_symbol_named(first, name) {
            return true;
        }
        rest = more;
    }
    false
}

/// Whether the slot of this name is among them.
pub fn is_named(names: Option<&Value>, name: &Name) -> bool
    ensures { result ≡ is_named (option_map_or (λ v. value_of v.now) names.entry (list nil)) name.now }
{
    match names {
        None => false,
        Some(value) => {
            if is_t(value) {
                return true;
            }
            match value {
                Value::List(items) => is_listed(items, name),
                _ => false,
            }
        }
    }
}
