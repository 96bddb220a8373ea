//! Names that are called.
ghost use Rattle.std.specs.Prelude.{◌≡◌, IfOk};
ghost use Rattle.clos_names.specs.Callee.{callee_of};

use crate::callee::{Callee, callee_named};
use lisp_data::Name;
use std::alloc::{AllocError, Global};
use std::marker::Model;
use std::rc::Rc;

/// The name of a function that is called. It keeps what it calls, which is looked up once, when the form is parsed (HyperSpec
/// 3.1.2.1.2.3).
#[derive(Drop)]
pub struct CalledName {
    shared: Rc<Called>,
}

/// A name, and what it calls.
#[derive(Drop)]
struct Called {
    name: Name,
    callee: Callee,
}

impl Model for CalledName {
    ghost use Rattle.std.specs.Prelude.{◌≡◌};
    ghost use Rattle.lisp_data.specs.Name.{Name};
    ghost use Rattle.lisp_data.specs.inner.NameCode.{name_code};
    ghost use Rattle.clos_names.specs.Callee.{callee_of};

    ghost Value = { Name };

    ghost coded = { name_code };

    ghost view = { λ a. a.shared.value.name };

    ghost invariant = { λ a. a.shared.value.callee ≡ callee_of a.shared.value.name };
}

impl CalledName {
    /// A name that is called.
    pub fn new(alloc: Global, name: Name) -> Result<CalledName, AllocError>
        ensures { IfOk result (λ r. r ≡ name) }
    {
        let callee = callee_named(&name);
        let shared = Rc::new(alloc, Called { name, callee })?;
        Ok(CalledName { shared })
    }

    /// The name alone.
    pub fn name(&self) -> &Name
        ensures { result.now ≡ self.now }
    {
        &self.shared.name
    }

    /// What it calls.
    pub fn callee(&self) -> Callee
        ensures { result ≡ callee_of self.now }
    {
        self.shared.callee
    }

    /// The same, in a few steps whatever the name's length.
    pub fn copy(&self) -> Result<CalledName, AllocError>
        ensures { IfOk result (λ r. r ≡ self.now) }
    {
        Ok(CalledName {
            shared: self.shared.clone()?,
        })
    }
}
