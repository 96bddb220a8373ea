//! What methods ask of their arguments (HyperSpec 7.6.2).
ghost use Rattle.std.specs.Prelude.{◌≡◌, ◌↔◌, ◌<◌, ◌++◌, ◌∷◌, [], IfOk, IsTrue, if◌then◌else◌, is_ok, option_map, length, slice_get};
ghost use Rattle.std.specs.Cmp.{on_equiv, partial_equiv_from_equiv};
ghost use Rattle.lisp_data.specs.PrintView.{specializer_told};
ghost use Rattle.lisp_data.specs.ValueView.{value_of};
ghost use Rattle.clos_method.specs.Specializer.{is_permitted, same_specializer, same_specializers, specializer_of, specializers_in};
ghost use Rattle.clos_method.specs.SpecializerLaws.{specializers_equiv};

use lisp_data::{ClassId, Value};
use std::alloc::{AllocError, Global};
use std::marker::Model;

/// What a method asks of one argument (HyperSpec 7.6.2).
#[derive(Drop)]
pub enum Specializer {
    /// To be of this class.
    Class(ClassId),
    /// To be EQL to this object.
    Eql(Value),
}

/// Whether an object may stand in an eql specializer: a string or a list that is not empty may not, since EQL tells
/// these by identity (HyperSpec 5.3, function EQL).
pub fn is_permitted(object: &Value) -> bool
    ensures { result ≡ is_permitted (value_of object.now) }
{
    match object {
        Value::Str(_) => false,
        Value::List(items) => items.split_first().is_none(),
        _ => true,
    }
}

impl PartialEq for Specializer {
    ghost eq = { λ a b. same_specializer (specializer_of a) (specializer_of b) };

    ghost laws = { partial_equiv_from_equiv (on_equiv specializer_of specializers_equiv) };

    fn eq(&self, other: &Specializer) -> bool {
        match (self, other) {
            (Specializer::Class(a), Specializer::Class(b)) => a.0 == b.0,
            (Specializer::Eql(a), Specializer::Eql(b)) => a == b,
            _ => false,
        }
    }
}

impl Eq for Specializer {
    ghost laws = { on_equiv specializer_of specializers_equiv };
}

impl Specializer {
    /// The same specializer.
    pub fn copy(&self) -> Result<Specializer, AllocError>
        ensures { IfOk result (λ r. specializer_of r ≡ specializer_of self.now) }
    {
        match self {
            Specializer::Class(class) => Ok(Specializer::Class(*class)),
            Specializer::Eql(object) => Ok(Specializer::Eql(object.copy()?)),
        }
    }

    /// The same, as it is told for printing.
    pub fn told(&self) -> lisp_data::Specializer<'_>
        ensures { specializer_told result ≡ specializer_of self.now }
    {
        match self {
            Specializer::Class(class) => lisp_data::Specializer::Class(*class),
            Specializer::Eql(object) => lisp_data::Specializer::Eql(object),
        }
    }
}

/// The specializers of a method, one for each required parameter. Contracts see the list.
#[derive(Drop)]
pub struct Specializers {
    items: Vec<Specializer>,
}

impl Model for Specializers {
    ghost use Rattle.std.specs.Prelude.{List};
    ghost use Rattle.std.specs.Coded.{coded_list};
    ghost use Rattle.lisp_data.specs.Print.{Specializer};
    ghost use Rattle.clos_method.specs.Specializer.{specializer_code, specializers_in};

    ghost Value = { List Specializer };

    ghost coded = { coded_list specializer_code };

    ghost view = { λ a. specializers_in a.items.items };
}

impl Specializers {
    /// No specializers.
    pub fn new(alloc: Global) -> Specializers
        ensures { result ≡ [] }
    {
        Specializers {
            items: Vec::new(alloc),
        }
    }

    /// One more, at the end.
    pub fn push(&mut self, specializer: Specializer) -> Result<(), AllocError>
        ensures { self.new ≡ (if is_ok result then self.old ++ specializer_of specializer ∷ [] else self.old) }
    {
        self.items.push(specializer)?;
        Ok(())
    }

    /// How many they are.
    pub fn len(&self) -> usize
        ensures { result ≡ length self.now }
    {
        self.items.len()
    }

    /// All of them.
    pub fn as_slice(&self) -> &[Specializer]
        ensures { specializers_in result.now ≡ self.now }
    {
        self.items.as_slice()
    }

    /// The one at this place, if there is one.
    pub fn get(&self, place: usize) -> Option<&Specializer>
        ensures { option_map (λ s. specializer_of s.now) result ≡ slice_get self.now place }
    {
        self.items.get(place)
    }

    /// The one at this place as it is told for printing, if there is one.
    pub fn told(&self, place: usize) -> Option<lisp_data::Specializer<'_>>
        ensures { option_map specializer_told result ≡ slice_get self.now place }
    {
        match self.get(place) {
            None => None,
            Some(specializer) => Some(specializer.told()),
        }
    }

    /// Whether both are the same specializers in the same order.
    #[tactic(auto, using(crate::proofs::Same::specializers_told))]
    pub fn is(&self, other: &Specializers) -> bool
        ensures test { result ≡ same_specializers self.now other.now }
        ensures only { IsTrue result ↔ (self.now ≡ other.now) }
    {
        same_items(self.items.as_slice(), other.items.as_slice())
    }

    /// The same specializers.
    pub fn copy(&self, alloc: Global) -> Result<Specializers, AllocError>
        ensures { IfOk result (λ r. r ≡ self.now) }
    {
        let mut items = Vec::new(alloc);
        for item in self.items.as_slice() {
            items.push(item.copy()?)?;
        }
        Ok(Specializers { items })
    }
}

fn same_items(a: &[Specializer], b: &[Specializer]) -> bool
    ensures { result ≡ same_specializers (specializers_in a.now) (specializers_in b.now) }
{
    let mut left = a;
    let mut right = b;
    loop {
        match (left.split_first(), right.split_first()) {
            (None, None) => return true,
            (Some((x, xs)), Some((y, ys))) => {
                if x != y {
                    return false;
                }
                left = xs;
                right = ys;
            }
            _ => return false,
        }
    }
}
