//! The functions that a host stored, as evaluation asks for them.
ghost use Rattle.std.specs.Prelude.{◌≡◌, Some, length, true};
ghost use Rattle.clos_machine.specs.clos_meaning.Host.{Host, may_answer};
ghost use Rattle.clos_eval.specs.Host.{host_of, takes_in};

use clos_native::{Native, find};
use lisp_data::Name;

/// Functions that a host stored, which programs call by their names.
pub trait Natives: Drop {
    ghost host: { Self → Host };

    /// How many integers the function of this name takes, if there is one.
    fn takes(&self, name: &Name) -> Option<usize>
        ensures { result ≡ takes_in (host self.now) name.now };

    /// What the function of this name answers to as many integers as it takes.
    fn call(&self, name: &Name, arguments: &[i64]) -> i64
        requires { takes_in (host self.now) name.now ≡ Some (length arguments.now) }
        ensures { may_answer (host self.now name.now) arguments.now result ≡ true };
}

/// Of two with one name the first is called.
impl Natives for Vec<Native> {
    ghost host = { λ natives. host_of natives.items };

    fn takes(&self, name: &Name) -> Option<usize> {
        match find(self.as_slice(), name) {
            Some(native) => Some(native.arity()),
            None => None,
        }
    }

    fn call(&self, name: &Name, arguments: &[i64]) -> i64 {
        match find(self.as_slice(), name) {
            Some(native) => native.call(arguments),
            None => unreachable!(),
        }
    }
}
