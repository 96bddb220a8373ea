//! Why a class can't be defined.
ghost use Rattle.std.specs.Prelude.{◌≡◌};
ghost use Rattle.clos_hierarchy.specs.declared.fault.ClassFault.TheVariants.{Memory};

use lisp_data::Name;
use std::alloc::{AllocError, AllocFailed};
use std::fmt::{self, Debug, Formatter, Write};
use thiserror::Error;

/// Why a class can't be defined (HyperSpec 4.3.5, defclass). The table of classes stays as it was.
#[derive(Drop, Error)]
pub enum ClassFault {
    /// The name is a predefined class's, or a superclass is named twice.
    #[error("a wrong definition of a class")]
    ProgramError,
    /// There are as many classes as there may be.
    #[error("the table of classes is full")]
    TableLimit,
    /// This superclass is predefined, and not STANDARD-OBJECT.
    #[error("an invalid superclass")]
    InvalidSuperclass(Name),
    /// The class would be its own superclass.
    #[error("a class above itself")]
    SuperclassCycle,
    /// A superclass is not defined, or one of its superclasses and so on, where all have to be.
    #[error("an incomplete class")]
    IncompleteClass,
    /// The class of this name would have no class precedence list.
    #[error("an inconsistent precedence of classes")]
    InconsistentPrecedence(Name),
    /// Memory was refused.
    #[error("out of memory")]
    Memory,
}

impl Debug for ClassFault {
    fn fmt<W: Write>(&self, f: &mut Formatter<W>) -> fmt::Result {
        fmt::Display::fmt(self, f)
    }
}

impl From<AllocError> for ClassFault {
    ghost from_gives = { λ _ e. e ≡ Memory };

    fn from(_refusal: AllocError) -> ClassFault {
        ClassFault::Memory
    }
}

impl<T: Drop> From<AllocFailed<T>> for ClassFault {
    ghost from_gives = { λ _ e. e ≡ Memory };

    fn from(_refusal: AllocFailed<T>) -> ClassFault {
        ClassFault::Memory
    }
}
