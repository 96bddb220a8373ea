//! Methods by their numbers.
ghost use Rattle.std.specs.Prelude.{◌≡◌, ◌<◌, ◌≤◌, ◌++◌, ◌∷◌, [], if◌then◌else◌, is_ok, length, slice_index, insert, remove};
ghost use Rattle.clos_method.specs.MethodIds.{method_numbers};

use lisp_data::MethodId;
use std::alloc::{AllocError, Global};
use std::marker::Model;

/// The numbers of some methods, in an order. Contracts see the list.
#[derive(Drop)]
pub struct MethodIds {
    ids: Vec<MethodId>,
}

impl Model for MethodIds {
    ghost use Rattle.std.specs.Prelude.{List, ℕ};
    ghost use Rattle.std.specs.Coded.{coded_list, coded_ℕ};
    ghost use Rattle.clos_method.specs.MethodIds.{method_numbers};

    ghost Value = { List ℕ };

    ghost coded = { coded_list coded_ℕ };

    ghost view = { λ a. method_numbers a.ids.items };
}

impl MethodIds {
    /// No methods.
    pub fn new(alloc: Global) -> MethodIds
        ensures { result ≡ [] }
    {
        MethodIds {
            ids: Vec::new(alloc),
        }
    }

    /// These methods.
    pub(crate) fn of(ids: Vec<MethodId>) -> MethodIds
        ensures { result ≡ method_numbers ids.items }
    {
        MethodIds { ids }
    }

    /// How many they are.
    pub fn len(&self) -> usize
        ensures { result ≡ length self.now }
    {
        self.ids.len()
    }

    /// The one at this place.
    pub fn get(&self, place: usize) -> MethodId
        requires { place < length self.now }
        ensures { result.0 ≡ slice_index self.now place }
    {
        self.ids[place]
    }

    /// All of them.
    pub fn as_slice(&self) -> &[MethodId]
        ensures { method_numbers result.now ≡ self.now }
    {
        self.ids.as_slice()
    }

    /// Puts one more at this place, before those from there on.
    #[tactic(auto, using(crate::proofs::Lists::insert_of_map))]
    pub fn insert(&mut self, place: usize, id: MethodId) -> Result<(), AllocError>
        requires { place ≤ length self.old }
        ensures { self.new ≡ (if is_ok result then insert self.old place id.0 else self.old) }
    {
        self.ids.insert(place, id)?;
        Ok(())
    }

    /// Takes out the one at this place.
    #[tactic(auto, using(crate::proofs::Lists::remove_of_map))]
    pub fn remove(&mut self, place: usize)
        requires { place < length self.old }
        ensures { self.new ≡ remove self.old place }
    {
        let _removed = self.ids.remove(place);
    }
}
