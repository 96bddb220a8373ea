//! The system's generic functions and their methods.
ghost use Rattle.std.specs.Prelude.{◌≡◌, IfOk};
ghost use Rattle.clos_generic.specs.Initial.{system_options};

use crate::options::Options;
use clos_method::SystemFunction;
use std::alloc::{AllocError, Global};

/// What a function of the system is defined with.
pub fn system_options(alloc: Global, function: SystemFunction) -> Result<Options, AllocError>
    ensures { IfOk result (λ r. r ≡ system_options function) }
{
    Options::standard(alloc, function.shape())
}
