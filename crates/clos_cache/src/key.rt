//! The keys under which outcomes are kept.
ghost use Rattle.std.specs.Prelude.{◌≡◌, ◌∷◌, [], option_map};
ghost use Rattle.std.specs.Cmp.{on_equiv, partial_equiv_from_equiv};
ghost use Rattle.lisp_data.specs.ValueView.{value_of};
ghost use Rattle.clos_cache.specs.Key.{argument_writes, key_writes, same_argument, same_arguments, same_key, same_object};
ghost use Rattle.clos_cache.specs.KeyLaws.{arguments_feed, keys_equiv, keys_feed, arguments_equiv};
ghost use Rattle.clos_cache.specs.KeyView.{argument_of, arguments_in};

use lisp_data::{ClassId, GenericId, Value};
use std::hash::{Hash, Hasher};
use std::marker::Model;

/// What a key knows of an argument: its class, and the argument itself where a method of the generic function has it as eql
/// specializer there.
#[derive(Drop)]
pub struct Argument {
    pub class: ClassId,
    pub object: Option<Value>,
}

/// What is known of the arguments. Of at most two it takes no memory.
#[derive(Drop)]
pub enum Arguments {
    Zero,
    One([Argument; 1]),
    Two([Argument; 2]),
    Many(Vec<Argument>),
}

/// A generic function, and what is known of each required argument of a call of it: what is kept under it is for all such calls.
pub struct Key {
    generic: GenericId,
    arguments: Arguments,
}

// By hand: what drops a key does not ask how many arguments it has.
impl Drop for Key {
    fn drop(self) {
        let Key {
            generic: _,
            arguments: _,
        } = self;
    }
}

impl Model for Key {
    ghost use Rattle.clos_cache.specs.Key.{Key};
    ghost use Rattle.clos_cache.specs.inner.KeyCode.{key_code};

    ghost Value = { Key };

    ghost coded = { key_code };

    ghost use Rattle.clos_cache.specs.KeyView.{arguments_of};

    ghost view = { λ a. record { generic = a.generic.0; arguments = arguments_of a.arguments } };
}

impl Key {
    /// The key of a call with no required argument.
    pub fn of_none(generic: GenericId) -> Key
        ensures { result ≡ record { generic = generic.0; arguments = [] } }
    {
        Key {
            generic,
            arguments: Arguments::Zero,
        }
    }

    /// The key of a call with one required argument.
    pub fn of_one(generic: GenericId, argument: Argument) -> Key
        ensures { result ≡ record { generic = generic.0; arguments = argument_of argument ∷ [] } }
    {
        Key {
            generic,
            arguments: Arguments::One([argument]),
        }
    }

    /// The key of a call with two required arguments.
    pub fn of_two(generic: GenericId, first: Argument, second: Argument) -> Key
        ensures { result ≡ record { generic = generic.0; arguments = argument_of first ∷ argument_of second ∷ [] } }
    {
        Key {
            generic,
            arguments: Arguments::Two([first, second]),
        }
    }

    /// The key of a call with these required arguments.
    pub fn of_all(generic: GenericId, arguments: Vec<Argument>) -> Key
        ensures { result ≡ record { generic = generic.0; arguments = arguments_in arguments.items } }
    {
        Key {
            generic,
            arguments: Arguments::Many(arguments),
        }
    }

    /// The generic function.
    pub fn generic(&self) -> GenericId
        ensures { result.0 ≡ self.now.generic }
    {
        self.generic
    }

    /// What is known of each required argument.
    pub fn arguments(&self) -> &[Argument]
        ensures { arguments_in result.now ≡ self.now.arguments }
    {
        match &self.arguments {
            Arguments::Zero => &[],
            Arguments::One(arguments) => arguments.as_slice(),
            Arguments::Two(arguments) => arguments.as_slice(),
            Arguments::Many(arguments) => arguments.as_slice(),
        }
    }
}

impl PartialEq for Argument {
    ghost eq = { λ a b. same_argument (argument_of a) (argument_of b) };

    ghost laws = { partial_equiv_from_equiv (on_equiv argument_of arguments_equiv) };

    fn eq(&self, other: &Argument) -> bool {
        self.class.0 == other.class.0 && same_object(&self.object, &other.object)
    }
}

impl Eq for Argument {
    ghost laws = { on_equiv argument_of arguments_equiv };
}

impl Hash for Argument {
    ghost hash_input = { λ a. argument_writes (argument_of a) };

    ghost respects_eq = { λ a b. arguments_feed (argument_of a) (argument_of b) };

    fn hash<H: Hasher>(&self, state: &mut H) {
        state.write_u64(self.class.0);
        match &self.object {
            None => state.write_u8(0),
            Some(object) => object.hash(state),
        }
    }
}

/// Whether both are one object, or none is known of either.
fn same_object(one: &Option<Value>, other: &Option<Value>) -> bool
    ensures { result ≡ same_object (option_map value_of one.now) (option_map value_of other.now) }
{
    match (one, other) {
        (None, None) => true,
        (Some(one), Some(other)) => one == other,
        _ => false,
    }
}

fn same_arguments(ones: &[Argument], others: &[Argument]) -> bool
    ensures { result ≡ same_arguments (arguments_in ones.now) (arguments_in others.now) }
{
    let mut left = ones;
    let mut right = others;
    loop {
        match (left.split_first(), right.split_first()) {
            (None, None) => return true,
            (Some((x, xs)), Some((y, ys))) => {
                if x != y {
                    return false;
                }
                left = xs;
                right = ys;
            }
            _ => return false,
        }
    }
}

impl PartialEq for Key {
    ghost eq = { same_key };

    ghost laws = { partial_equiv_from_equiv keys_equiv };

    fn eq(&self, other: &Key) -> bool {
        self.generic.0 == other.generic.0 && same_arguments(self.arguments(), other.arguments())
    }
}

impl Eq for Key {
    ghost laws = { keys_equiv };
}

impl Hash for Key {
    ghost hash_input = { key_writes };

    ghost respects_eq = { keys_feed };

    fn hash<H: Hasher>(&self, state: &mut H) {
        state.write_u64(self.generic.0);
        Argument::hash_slice(self.arguments(), state);
    }
}
