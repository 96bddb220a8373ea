//! Why a function of values gives no value.
ghost use Rattle.std.specs.Prelude.{◌≡◌};
ghost use Rattle.lisp_data.specs.ValueView.{value_of};
ghost use Rattle.lisp_prims.specs.Fault.{StandsFor, number_of, of_list, type_error};
ghost use Rattle.lisp_prims.specs.declared.fault.PrimFault.TheVariants.{Memory};

use lisp_data::{ListFault, Value};
use std::alloc::{AllocError, AllocFailed};
use std::fmt::{self, Debug, Formatter, Write};
use thiserror::Error;

/// The conditions that a function of values signals (HyperSpec 9.1), and want of memory.
#[derive(Drop, Error)]
pub enum PrimFault {
    /// A wrong number of arguments.
    #[error("a wrong number of arguments")]
    ProgramError,
    /// The leftmost argument of a wrong type.
    #[error("an argument of a wrong type")]
    TypeError(Value),
    /// A result outside the width of integers.
    #[error("an integer out of range")]
    IntegerRange,
    /// A division by zero.
    #[error("a division by zero")]
    DivisionByZero,
    /// A list too long or too deep, a last argument that is no list, or EQL of two lists or strings.
    #[error("an unsupported argument")]
    Unsupported,
    /// Memory ran out.
    #[error("out of memory")]
    Memory,
}

impl Debug for PrimFault {
    fn fmt<W: Write>(&self, f: &mut Formatter<W>) -> fmt::Result {
        fmt::Display::fmt(self, f)
    }
}

impl PrimFault {
    /// The number of the condition, None where memory ran out.
    pub fn number(&self) -> Option<u8>
        ensures { result ≡ number_of self.now }
    {
        match self {
            PrimFault::ProgramError => Some(1),
            PrimFault::TypeError(_) => Some(4),
            PrimFault::IntegerRange => Some(5),
            PrimFault::DivisionByZero => Some(6),
            PrimFault::Unsupported => Some(28),
            PrimFault::Memory => None,
        }
    }

    /// The fault of an argument of a wrong type.
    pub(crate) fn wrong(value: &Value) -> PrimFault
        ensures { StandsFor result (type_error (value_of value.now)) }
    {
        match value.copy() {
            Ok(value) => PrimFault::TypeError(value),
            Err(_) => PrimFault::Memory,
        }
    }
}

impl From<AllocError> for PrimFault {
    ghost from_gives = { λ _ e. e ≡ Memory };

    fn from(_error: AllocError) -> PrimFault {
        PrimFault::Memory
    }
}

impl<T: Drop> From<AllocFailed<T>> for PrimFault {
    ghost from_gives = { λ _ e. e ≡ Memory };

    fn from(_error: AllocFailed<T>) -> PrimFault {
        PrimFault::Memory
    }
}

impl From<ListFault> for PrimFault {
    ghost from_gives = { λ fault e. e ≡ of_list fault };

    fn from(fault: ListFault) -> PrimFault {
        match fault {
            ListFault::Limit => PrimFault::Unsupported,
            ListFault::Memory => PrimFault::Memory,
        }
    }
}
