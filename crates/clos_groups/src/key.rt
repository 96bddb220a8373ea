//! The specializers of methods as keys of a map.
ghost use Rattle.std.specs.Prelude.{◌≡◌, fold};
ghost use Rattle.clos_method.specs.Specializer.{specializer_of};
ghost use Rattle.clos_groups.specs.Key.{specializer_writes};

use clos_method::{Specializer, Specializers};
use std::hash::{Hash, Hasher};
use std::marker::Model;

/// The specializers of a method. Contracts see the list.
#[derive(Drop)]
pub(crate) struct Key {
    specializers: Specializers,
}

impl Model for Key {
    ghost use Rattle.std.specs.Prelude.{List};
    ghost use Rattle.std.specs.Coded.{coded_list};
    ghost use Rattle.lisp_data.specs.Print.{Specializer};
    ghost use Rattle.clos_method.specs.Specializer.{specializer_code};

    ghost Value = { List Specializer };

    ghost coded = { coded_list specializer_code };

    ghost view = { λ a. a.specializers };
}

impl Key {
    pub(crate) fn new(specializers: Specializers) -> Key
        ensures { result ≡ specializers }
    {
        Key { specializers }
    }
}

impl PartialEq for Key {
    ghost use Rattle.std.specs.Cmp.{partial_equiv_from_equiv};
    ghost use Rattle.clos_method.specs.Specializer.{same_specializers};
    ghost use Rattle.clos_groups.specs.Key.{keys_equiv};

    ghost eq = { same_specializers };

    ghost laws = { partial_equiv_from_equiv keys_equiv };

    fn eq(&self, other: &Key) -> bool {
        self.specializers.is(&other.specializers)
    }
}

impl Eq for Key {
    ghost use Rattle.clos_groups.specs.Key.{keys_equiv};

    ghost laws = { keys_equiv };
}

impl Hash for Key {
    ghost use Rattle.clos_groups.specs.Key.{keys_feed, key_writes};

    ghost hash_input = { key_writes };

    ghost respects_eq = { keys_feed };

    fn hash<H: Hasher>(&self, state: &mut H) {
        let specializers = self.specializers.as_slice();
        for specializer in specializers {
            feed(specializer, state);
        }
    }
}

fn feed<H: Hasher>(specializer: &Specializer, state: &mut H)
    ensures { state.new ≡ fold H.write state.old (specializer_writes (specializer_of specializer.now)) }
{
    match specializer {
        Specializer::Class(class) => state.write_u64(class.0),
        Specializer::Eql(object) => object.hash(state),
    }
}
