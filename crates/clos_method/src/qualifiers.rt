//! The qualifiers of methods (HyperSpec 7.6.2).
ghost use Rattle.std.specs.Prelude.{◌≡◌, ◌↔◌, ◌++◌, ◌∷◌, [], IfOk, IsTrue, if◌then◌else◌, is_ok, option_map, length, slice_get};
ghost use Rattle.lisp_data.specs.ValueView.{value_of};
ghost use Rattle.clos_method.specs.Qualifiers.{same_qualifiers, values_in};

use lisp_data::Value;
use std::alloc::{AllocError, Global};
use std::marker::Model;

/// The qualifiers of a method, each an atom other than NIL. Contracts see the list.
#[derive(Drop)]
pub struct Qualifiers {
    items: Vec<Value>,
}

impl Model for Qualifiers {
    ghost use Rattle.std.specs.Prelude.{List};
    ghost use Rattle.std.specs.Coded.{coded_list};
    ghost use Rattle.lisp_data.specs.Value.{Val};
    ghost use Rattle.lisp_data.specs.inner.ValueCode.{value_code};
    ghost use Rattle.clos_method.specs.Qualifiers.{values_in};

    ghost Value = { List Val };

    ghost coded = { coded_list value_code };

    ghost view = { λ a. values_in a.items.items };
}

impl Qualifiers {
    /// No qualifiers, as of a primary method.
    pub fn new(alloc: Global) -> Qualifiers
        ensures { result ≡ [] }
    {
        Qualifiers {
            items: Vec::new(alloc),
        }
    }

    /// One more, at the end.
    pub fn push(&mut self, qualifier: Value) -> Result<(), AllocError>
        ensures { self.new ≡ (if is_ok result then self.old ++ value_of qualifier ∷ [] else self.old) }
    {
        self.items.push(qualifier)?;
        Ok(())
    }

    /// How many they are.
    pub fn len(&self) -> usize
        ensures { result ≡ length self.now }
    {
        self.items.len()
    }

    /// Whether there are none.
    pub fn is_empty(&self) -> bool
        ensures { IsTrue result ↔ (self.now ≡ []) }
    {
        self.items.is_empty()
    }

    /// All of them.
    pub fn as_slice(&self) -> &[Value]
        ensures { values_in result.now ≡ self.now }
    {
        self.items.as_slice()
    }

    /// The one at this place, if there is one.
    pub fn get(&self, place: usize) -> Option<&Value>
        ensures { option_map (λ v. value_of v.now) result ≡ slice_get self.now place }
    {
        self.items.get(place)
    }

    /// Whether both are the same qualifiers in the same order.
    #[tactic(auto, using(crate::proofs::Same::qualifiers_told))]
    pub fn is(&self, other: &Qualifiers) -> bool
        ensures test { result ≡ same_qualifiers self.now other.now }
        ensures only { IsTrue result ↔ (self.now ≡ other.now) }
    {
        same_values(self.items.as_slice(), other.items.as_slice())
    }

    /// The same qualifiers.
    pub fn copy(&self, alloc: Global) -> Result<Qualifiers, AllocError>
        ensures { IfOk result (λ r. r ≡ self.now) }
    {
        let mut items = Vec::new(alloc);
        for item in self.items.as_slice() {
            items.push(item.copy()?)?;
        }
        Ok(Qualifiers { items })
    }
}

fn same_values(a: &[Value], b: &[Value]) -> bool
    ensures { result ≡ same_qualifiers (values_in a.now) (values_in b.now) }
{
    let mut left = a;
    let mut right = b;
    loop {
        match (left.split_first(), right.split_first()) {
            (None, None) => return true,
            (Some((x, xs)), Some((y, ys))) => {
                if x != y {
                    return false;
                }
                left = xs;
                right = ys;
            }
            _ => return false,
        }
    }
}
