//! The methods that came with accessors, found by their classes.
ghost use Rattle.std.specs.Prelude.{◌≡◌, ◌==◌, ◌<◌, ◌≤◌, ◌+◌, ◌∷◌, ℕ, Some, IfOk, IsOk, OnOk, nat_eq, option_map, slice_get, vec_len, vec_capacity, if◌then◌else◌};
ghost use Rattle.std.specs.HashMap.{get, spare};
ghost use Rattle.clos_method.specs.MethodIds.{method_numbers};
ghost use Rattle.clos_method.specs.Origin.{is_accessor_of};
ghost use Rattle.clos_generic.specs.Accessors.{accessors_there, is_there};
ghost use Rattle.clos_generic.specs.inner.AccessorMethods.{HasPlaces, KnowsMore, KnowsNone, KnowsSame, latest_for, noted_in};

use crate::table::Generics;
use clos_method::Origin;
use lisp_data::{ClassId, MethodId};
use std::alloc::{AllocError, Global};
use std::collections::{HashMap, VecDeque};

/// Of each class the methods that came with accessors of it: the latest one, and from each the one before it.
#[derive(Drop)]
pub struct AccessorMethods {
    /// The latest one of each class, by the number of the class.
    pub(crate) latest: HashMap<u64, MethodId>,
    /// Of each method, by its number, the one of the same class before it, where it came with an accessor.
    pub(crate) earlier: Vec<Option<MethodId>>,
}

impl AccessorMethods {
    /// Of no methods.
    pub fn new(alloc: Global) -> AccessorMethods
        ensures none { KnowsNone result }
        ensures places { HasPlaces 0 result }
    {
        AccessorMethods {
            latest: HashMap::new(alloc),
            earlier: Vec::new(alloc),
        }
    }

    /// The latest one of a class.
    pub fn latest_of(&self, class: ClassId) -> Option<MethodId>
        ensures { result ≡ get nat_eq self.now.latest class.0 }
    {
        self.latest.get(&class.0).copied()
    }

    /// The one of the same class before this one.
    pub fn before(&self, id: MethodId) -> Option<MethodId>
        ensures { option_map (λ m. m.0) result ≡ noted_in (slice_get self.now.earlier.items id.0) }
    {
        match self.earlier.get(id.0 as usize) {
            None => None,
            Some(earlier) => *earlier,
        }
    }

    /// Takes the memory for so many more methods.
    pub fn reserve(&mut self, methods: usize) -> Result<(), AllocError>
        ensures same { KnowsSame self.old self.new }
        ensures ok { OnOk result (HasPlaces methods self.new) }
        ensures succeeds { HasPlaces methods self.old → IsOk result }
        ensures spare { spare self.old.latest ≤ spare self.new.latest }
        ensures len { vec_len self.new.earlier ≡ vec_len self.old.earlier }
        ensures capacity { vec_capacity self.old.earlier ≤ vec_capacity self.new.earlier }
    {
        self.latest.reserve(methods)?;
        self.earlier.reserve(methods)?;
        Ok(())
    }

    /// Notes the next method, which has this number and this origin, in memory that was taken.
    pub fn note(&mut self, id: MethodId, origin: Origin)
        requires { HasPlaces 1 self.old }
        ensures more { KnowsMore id origin self.old self.new }
        ensures spare { spare self.old.latest ≤ spare self.new.latest + 1 }
        ensures len { vec_len self.new.earlier ≡ vec_len self.old.earlier + 1 }
        ensures capacity { vec_capacity self.new.earlier ≡ vec_capacity self.old.earlier }
    {
        let earlier = note_latest(&mut self.latest, id, origin);
        self.earlier.push_reserved(earlier);
    }
}

/// Notes a method as the latest one of its class, if it came with an accessor. Gives the one that was.
fn note_latest(
    latest: &mut HashMap<u64, MethodId>,
    id: MethodId,
    origin: Origin,
) -> Option<MethodId>
    requires { 0 < spare latest.old }
    ensures earlier { result ≡ latest_for origin (λ c. get nat_eq latest.old c) }
    ensures latest { (c : ℕ) → get nat_eq latest.new c ≡ (if is_accessor_of c origin then Some id else get nat_eq latest.old c) }
    ensures spare { spare latest.old ≤ spare latest.new + 1 }
{
    match origin {
        Origin::Accessor(class) => put(latest, class, id),
        _ => None,
    }
}

/// Notes a method as the latest one of a class. Gives the one that was.
fn put(latest: &mut HashMap<u64, MethodId>, class: ClassId, id: MethodId) -> Option<MethodId>
    requires { 0 < spare latest.old }
    ensures earlier { result ≡ get nat_eq latest.old class.0 }
    ensures latest { (c : ℕ) → get nat_eq latest.new c ≡ (if class.0 == c then Some id else get nat_eq latest.old c) }
    ensures spare { spare latest.old ≤ spare latest.new + 1 }
{
    let Ok(earlier) = latest.insert(class.0, id) else {
        unreachable!()
    };
    earlier
}

impl Generics {
    /// The methods that came with accessors of a class and are still there, in order of addition (HyperSpec 4.3.6).
    pub fn accessors_there(
        &self,
        alloc: Global,
        class: ClassId,
    ) -> Result<Vec<MethodId>, AllocError>
        ensures { IfOk result (λ r. method_numbers r.items ≡ accessors_there self.now.table class.0) }
    {
        let mut there = VecDeque::new(alloc);
        let mut left = self.latest_accessor(class);
        while let Some(id) = left {
            self.put_if_there(&mut there, id)?;
            left = self.accessor_before(id);
        }
        Ok(Vec::from(there))
    }

    /// Puts a method first, if it is still there.
    fn put_if_there(&self, there: &mut VecDeque<MethodId>, id: MethodId) -> Result<(), AllocError>
        ensures { OnOk result (method_numbers there.new.items ≡ (if is_there self.now.table id.0 then id.0 ∷ method_numbers there.old.items else method_numbers there.old.items)) }
    {
        if !self.is_there(id) {
            return Ok(());
        }
        there.push_front(id)?;
        Ok(())
    }

    /// Whether a method is still among the methods of its function.
    fn is_there(&self, id: MethodId) -> bool
        ensures { result ≡ is_there self.now.table id.0 }
    {
        match self.method(id) {
            None => false,
            Some(method) => self.has_method(method.generic, id),
        }
    }
}
