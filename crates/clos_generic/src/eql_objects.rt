//! Of which objects a function had eql specializers.
ghost use Rattle.std.specs.Prelude.{◌≡◌, ℕ, false, true};
ghost use Rattle.lisp_data.specs.ValueView.{value_of};
ghost use Rattle.lisp_data.specs.declared.value.Value.{Value};
ghost use Rattle.clos_generic.specs.inner.EqlObjects.{NotesEql, has_object, is_noted, noted_at};
ghost use Rattle.lisp_data.specs.Keys.{same_value};

use clos_method::{Specializer, Specializers};
use lisp_data::{MethodId, Value};
use std::alloc::Global;
use std::collections::HashMap;

/// Objects, each with the latest method that had an eql specializer of it.
#[derive(Drop)]
pub struct Objects {
    pub(crate) methods: HashMap<Value, MethodId>,
    /// Whether there is any.
    pub(crate) any: bool,
    /// Whether one is lacking, since memory was refused for it.
    pub(crate) lacking: bool,
}

/// The objects of the eql specializers of the methods that were ever put into a function (HyperSpec 7.6.2), for each of its
/// first places.
#[derive(Drop)]
pub struct EqlObjects {
    pub(crate) first: Objects,
    pub(crate) second: Objects,
    /// For all later places.
    pub(crate) later: Objects,
}

impl Objects {
    fn new(alloc: Global) -> Objects {
        Objects {
            methods: HashMap::new(alloc),
            any: false,
            lacking: false,
        }
    }

    /// Whether this object may be one of them: where not, it is none.
    fn may_have(&self, object: &Value) -> bool
        ensures { result ≡ has_object self.now object.now }
    {
        self.any && (self.lacking || self.methods.contains_key(object))
    }

    /// The latest method that had an eql specializer of this object, if it is known.
    fn latest(&self, object: &Value) -> Option<MethodId> {
        self.methods.get(object).copied()
    }

    /// Notes an object of this method.
    fn note(&mut self, object: &Value, method: MethodId)
        ensures kept { (v : Value) → has_object self.old v ≡ true → has_object self.new v ≡ true }
        ensures noted { (v : Value) → same_value (value_of object.now) (value_of v) ≡ true → has_object self.new v ≡ true }
    {
        self.any = true;
        let Ok(object) = object.copy() else {
            self.lacking = true;
            return;
        };
        if self.methods.insert(object, method).is_err() {
            self.lacking = true;
        }
    }
}

impl EqlObjects {
    /// None.
    pub fn new(alloc: Global) -> EqlObjects {
        EqlObjects {
            first: Objects::new(alloc),
            second: Objects::new(alloc),
            later: Objects::new(alloc),
        }
    }

    /// Whether any object is noted for this place.
    pub fn have_any(&self, place: usize) -> bool
        ensures { result ≡ false → (v : Value) → is_noted self.now place v ≡ false }
    {
        self.at(place).any
    }

    /// Whether this object is noted for this place, or may be.
    pub fn may_have(&self, place: usize, object: &Value) -> bool
        ensures { result ≡ is_noted self.now place object.now }
    {
        self.at(place).may_have(object)
    }

    /// The latest method that is noted with this object for this place.
    pub fn latest(&self, place: usize, object: &Value) -> Option<MethodId> {
        self.at(place).latest(object)
    }

    /// Notes the objects of these specializers of this method.
    pub fn note(&mut self, specializers: &Specializers, method: MethodId)
        ensures kept { (place : ℕ) (v : Value) → is_noted self.old place v ≡ true → is_noted self.new place v ≡ true }
        ensures noted { NotesEql specializers.now (is_noted self.new) }
    {
        for place in 0..specializers.len() {
            if let Some(Specializer::Eql(object)) = specializers.get(place) {
                self.note_at(place, object, method);
            }
        }
    }

    fn at(&self, place: usize) -> &Objects
        ensures { result.now ≡ noted_at self.now place }
    {
        if place == 0 {
            return &self.first;
        }
        if place == 1 {
            return &self.second;
        }
        &self.later
    }

    fn note_at(&mut self, place: usize, object: &Value, method: MethodId)
        ensures kept { (p : ℕ) (v : Value) → is_noted self.old p v ≡ true → is_noted self.new p v ≡ true }
        ensures noted { (v : Value) → same_value (value_of object.now) (value_of v) ≡ true → is_noted self.new place v ≡ true }
    {
        if place == 0 {
            self.first.note(object, method);
        } else if place == 1 {
            self.second.note(object, method);
        } else {
            self.later.note(object, method);
        }
    }
}
