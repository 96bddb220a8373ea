//! Stored functions that are boxes, each with what it is known by.
ghost use Rattle.std.specs.Prelude.{◌≡◌, length};
ghost use Rattle.clos_native.specs.inner.Facts.{meets_is_fact};
ghost use Rattle.clos_native.specs.Relation.{IsFor, Meets};

use crate::relation::Relation;
use lisp_data::Name;

/// What answers to so many integers.
pub type Boxed = Box<dyn Fn(&[i64]) -> i64>;

/// A box that a host stores, with its name, the number of integers that it takes, and what its answers meet.
#[derive(Drop)]
pub struct Native {
    name: Name,
    arity: usize,
    relation: Relation,
    function: Boxed,
    ghost callable: { (x : _) → length x.now ≡ arity → Boxed.pre function x },
    ghost meets: { (x : _) (r : _) → length x.now ≡ arity → Boxed.post function x r → Meets relation x.now r } by { λ f g i x r h p. meets_is_fact relation x.now r (f x r h p) (g x r h p) i },
}

impl Native {
    /// A function of this name, which takes so many integers, and whose answers meet the relation on them.
    pub fn new(name: Name, arity: usize, relation: Relation, function: Boxed) -> Native
        requires relation { IsFor relation arity }
        requires callable { (x : _) → length x.now ≡ arity → Boxed.pre function x }
        requires meets { (x : _) (r : _) → length x.now ≡ arity → Boxed.post function x r → Meets relation x.now r }
        ensures { (result.name ≡ name) × (result.arity ≡ arity) × (result.relation ≡ relation) }
    {
        Native {
            name,
            arity,
            relation,
            function,
        }
    }

    /// The name by which programs call it.
    pub fn name(&self) -> &Name
        ensures { result.now ≡ self.now.name }
    {
        &self.name
    }

    /// How many integers it takes.
    pub fn arity(&self) -> usize
        ensures { result ≡ self.now.arity }
    {
        self.arity
    }

    /// Its answer to these integers, as many as it takes.
    pub fn call(&self, arguments: &[i64]) -> i64
        requires { length arguments.now ≡ self.now.arity }
        ensures { Meets self.now.relation arguments.now result }
    {
        (self.function)(arguments)
    }
}
