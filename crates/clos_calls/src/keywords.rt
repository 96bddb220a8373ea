//! The keyword arguments of calls of generic functions (HyperSpec 7.6.5).
ghost use Rattle.std.specs.Prelude.{◌≡◌, Some, drop, map, slice_get};
ghost use Rattle.lisp_data.specs.ValueView.{value_of};
ghost use Rattle.clos_machine.specs.clos_world.clos_generic.Table.{Function};
ghost use Rattle.clos_method.specs.MethodIds.{method_numbers};
ghost use Rattle.clos_machine.specs.clos_world.World.{seen};
ghost use Rattle.clos_machine.specs.clos_meaning.ClassFunctions.{symbol_in};
ghost use Rattle.clos_machine.specs.clos_meaning.GenericCalls.{after_positional, are_accepted, is_accepted, keys_fit, keywords_fit};

use clos_machine::World;
use clos_machine::parameters::{are_pairs, is_allowing};
use clos_method::Shape;
use lisp_data::{GenericId, MethodId, Name, Value};

/// Whether the keyword arguments of a call fit, for which these methods are applicable.
pub fn keywords_fit(world: &World, id: GenericId, methods: &[MethodId], arguments: &[Value]) -> bool
    ensures { (f : Function) → Some f ≡ slice_get (seen world.now).generics.functions id.0 → result ≡ keywords_fit
        (seen world.now).generics id.0 (method_numbers methods.now) (after_positional f.shape
        (map value_of arguments.now)) }
{
    if !world.generics.checks_keywords(id, methods) {
        return true;
    }
    match world.generics.function(id) {
        None => false,
        Some(function) => {
            let keywords = after_positional(function.shape(), arguments);
            keys_fit(world, id, methods, keywords)
        }
    }
}

/// The arguments after those of required and of optional parameters.
#[tactic(auto, using(crate::proofs::Counted::none_after, crate::proofs::Counted::after_both))]
fn after_positional<'a>(shape: &Shape, arguments: &'a [Value]) -> &'a [Value]
    ensures { map value_of result.now ≡ after_positional shape.now (map value_of arguments.now) }
{
    after(after(arguments, shape.required), shape.optional)
}

/// The arguments after the first so many.
#[tactic(auto, using(crate::proofs::Counted::none_after))]
fn after(arguments: &[Value], count: u64) -> &[Value]
    ensures { map value_of result.now ≡ drop count (map value_of arguments.now) }
{
    if arguments.len() as u64 <= count {
        return &[];
    }
    &arguments[count as usize..]
}

fn keys_fit(world: &World, id: GenericId, methods: &[MethodId], arguments: &[Value]) -> bool
    ensures { result ≡ keys_fit (seen world.now).generics id.0 (method_numbers methods.now) (map value_of arguments.now) }
{
    are_pairs(arguments)
        && (world.generics.allows_all(id, methods)
            || is_allowing(arguments)
            || are_accepted(world, id, methods, arguments))
}

/// Whether each of these names is accepted.
fn are_accepted(world: &World, id: GenericId, methods: &[MethodId], arguments: &[Value]) -> bool
    ensures { result ≡ are_accepted (seen world.now).generics id.0 (method_numbers methods.now)
        (map value_of arguments.now) }
{
    let mut left = arguments;
    while let Some((name, rest)) = left.split_first() {
        let Some((_, others)) = rest.split_first() else {
            return true;
        };
        if !is_accepted(world, id, methods, name) {
            return false;
        }
        left = others;
    }
    true
}

fn is_accepted(world: &World, id: GenericId, methods: &[MethodId], name: &Value) -> bool
    ensures { result ≡ is_accepted (seen world.now).generics id.0 (method_numbers methods.now)
        (symbol_in (value_of name.now)) }
{
    match name {
        Value::Sym(name) => world.generics.accepts(id, methods, name),
        Value::List(items) => match items.split_first() {
            None => world.generics.accepts(id, methods, &Name::fixed(&"NIL")),
            Some(_) => false,
        },
        _ => false,
    }
}
