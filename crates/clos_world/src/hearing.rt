//! Which dependents classes and generic functions have, and of what they could hear (AMOP chapter 6).
ghost use Rattle.std.specs.Prelude.{◌≡◌};
ghost use Rattle.clos_world.specs.Hearing.{hearing_of, nothing_heard};

use clos_watch::{Notice, Reserved, Watchers};
use lisp_data::Name;
use std::alloc::Global;

/// The dependents of the metaobjects of a session, and the notices of all changes.
#[derive(Drop)]
pub struct Hearing {
    /// The names of the dependents that the session was handed, by their places.
    pub names: Vec<Name>,
    /// Of each metaobject its dependents, by these places.
    pub watchers: Watchers,
    /// Of all changes so far, in order, whether there was anybody to hear of them or not.
    pub notices: Reserved<Notice>,
}

impl Hearing {
    /// Before the first change, where no metaobject has a dependent.
    pub fn new(alloc: Global, names: Vec<Name>) -> Hearing
        ensures { hearing_of result ≡ nothing_heard names.items }
    {
        Hearing {
            names,
            watchers: Watchers::new(alloc),
            notices: Reserved::new(alloc),
        }
    }
}
