//! What dependents are told.
ghost use Rattle.std.specs.Prelude.{◌≡◌};
ghost use Rattle.clos_watch.specs.Watching.{changed};

use lisp_data::{ClassId, GenericId, MethodId};

/// What has dependents.
#[derive(Clone, Copy)]
pub enum Metaobject {
    Class(ClassId),
    Generic(GenericId),
}

/// A change of a class or a generic function.
#[derive(Clone, Copy)]
pub enum Notice {
    /// The class was defined again.
    ClassRedefined(ClassId),
    /// This method was added to the function.
    MethodAdded(GenericId, MethodId),
    /// This method was removed from the function.
    MethodRemoved(GenericId, MethodId),
    /// The function was defined again.
    GenericRedefined(GenericId),
}

impl Notice {
    /// What changed.
    pub fn metaobject(&self) -> Metaobject
        ensures { result ≡ changed self.now }
    {
        match self {
            Notice::ClassRedefined(class) => Metaobject::Class(*class),
            Notice::MethodAdded(generic, _) | Notice::MethodRemoved(generic, _) => {
                Metaobject::Generic(*generic)
            }
            Notice::GenericRedefined(generic) => Metaobject::Generic(*generic),
        }
    }
}
