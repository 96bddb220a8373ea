//! The state of a session: its tables, what was written, and its limits.
ghost use Rattle.clos_world.specs.Kept.{AreNow};

use crate::effective_method::EffectiveMethod;
use crate::functions::Functions;
use crate::globals::Globals;
use crate::hearing::Hearing;
use crate::limits::Limits;
use clos_cache::Cache;
use clos_comb::{Combinations, Meter};
use clos_generic::Generics;
use clos_store::Objects;

/// The tables of a session.
pub struct World {
    /// The classes, their instances, and the cells of shared slots.
    pub objects: Objects,
    /// With all methods ever made.
    pub generics: Generics,
    pub combinations: Combinations,
    /// Counts the effective methods that were worked out.
    pub meter: Meter,
    /// The effective methods of calls, by their keys.
    pub cache: Cache<EffectiveMethod>,
    /// By symbols.
    pub functions: Functions,
    /// The functions `(setf name)`, by that name.
    pub setters: Functions,
    pub globals: Globals,
    /// The dependents of classes and generic functions, and the notices of all changes.
    pub hearing: Hearing,
    /// What forms wrote.
    pub written: Vec<u8>,
    pub limits: Limits,
    /// What is kept is what would be worked out.
    pub ghost kept: { ∥ AreNow objects.classes generics.table combinations cache ∥₁ },
}

/// By hand: to drop the tables is then one call, and not one for each of them at each way out.
impl Drop for World {
    fn drop(self) {
        let World {
            objects: _,
            generics: _,
            combinations: _,
            meter: _,
            cache: _,
            functions: _,
            setters: _,
            globals: _,
            hearing: _,
            written: _,
            limits: _,
        } = self;
    }
}
