//! The arguments of calls, and what a running body knows of its own.
ghost use Rattle.std.specs.Prelude.{◌≡◌, IfOk, Some, map, option_copied};
ghost use Rattle.lisp_data.specs.ValueView.{value_of};
ghost use Rattle.clos_world.specs.clos_method.MethodIds.{method_numbers};
ghost use Rattle.clos_meaning.specs.Contexts.{in_call, known, with_arguments};

use clos_forms::{Forms, NextMethods};
use clos_world::{EffectiveMethod, Values};
use lisp_data::{GenericId, MethodId, Value};
use std::alloc::{AllocError, Global};
use std::marker::Model;
use std::rc::Rc;

/// The arguments of a call, which are copied by sharing them. Contracts see the list.
#[derive(Drop)]
pub struct Arguments {
    shared: Rc<Values>,
}

impl Model for Arguments {
    ghost use Rattle.std.specs.Prelude.{List};
    ghost use Rattle.std.specs.Coded.{coded_list};
    ghost use Rattle.lisp_data.specs.Value.{Val};
    ghost use Rattle.lisp_data.specs.inner.ValueCode.{value_code};

    ghost Value = { List Val };

    ghost coded = { coded_list value_code };

    ghost view = { λ a. a.shared.value };
}

impl Arguments {
    /// These values as arguments.
    pub fn new(alloc: Global, values: Values) -> Result<Arguments, AllocError>
        ensures { IfOk result (λ r. r ≡ values) }
    {
        let shared = Rc::new(alloc, values)?;
        Ok(Arguments { shared })
    }

    /// The same arguments, in a few steps however many they are.
    pub fn copy(&self) -> Result<Arguments, AllocError>
        ensures { IfOk result (λ r. r ≡ self.now) }
    {
        let shared = self.shared.clone()?;
        Ok(Arguments { shared })
    }

    /// The values.
    pub fn as_slice(&self) -> &[Value]
        ensures { map value_of result.now ≡ self.now }
    {
        self.shared.as_slice()
    }

    /// The same values, for who changes them.
    pub fn to_values(&self, alloc: Global) -> Result<Values, AllocError>
        ensures { IfOk result (λ r. r ≡ self.now) }
    {
        self.shared.copy(alloc)
    }
}

/// A call of a generic function: the function, and the methods that were applicable as the call began, the most specific
/// first. It is copied by sharing it.
#[derive(Drop)]
pub struct Dispatch {
    generic: GenericId,
    found: Rc<EffectiveMethod>,
}

impl Model for Dispatch {
    ghost use Rattle.clos_meaning.specs.Dispatch.{Dispatch, dispatch_code};

    ghost Value = { Dispatch };

    ghost coded = { dispatch_code };

    ghost view = { λ a. record { generic = a.generic.0; methods = a.found.value.methods } };
}

impl Dispatch {
    /// A call of this function, which found these methods.
    pub fn new(generic: GenericId, found: Rc<EffectiveMethod>) -> Dispatch
        ensures { result ≡ record { generic = generic.0; methods = found.value.methods } }
    {
        Dispatch { generic, found }
    }

    /// The same call, in a few steps however many methods it has.
    pub fn copy(&self) -> Result<Dispatch, AllocError>
        ensures { IfOk result (λ r. r ≡ self.now) }
    {
        let found = self.found.clone()?;
        Ok(Dispatch {
            generic: self.generic,
            found,
        })
    }

    /// The function that is called.
    pub fn generic(&self) -> GenericId
        ensures { result.0 ≡ self.now.generic }
    {
        self.generic
    }

    /// The methods that were applicable, the most specific first.
    pub fn methods(&self) -> &[MethodId]
        ensures { method_numbers result.now ≡ self.now.methods }
    {
        self.found.methods.as_slice()
    }
}

/// A method that runs, with its next methods, and the forms of those that are made.
#[derive(Drop)]
pub struct Running {
    pub method: MethodId,
    pub next: NextMethods,
    pub forms: Forms,
}

impl Running {
    /// The same, in a few steps.
    pub fn copy(&self) -> Result<Running, AllocError>
        ensures { IfOk result (λ r. r ≡ self.now) }
    {
        let next = self.next.copy()?;
        Ok(Running {
            method: self.method,
            next,
            forms: self.forms.copy()?,
        })
    }
}

/// What a running body or an effective form knows.
#[derive(Drop)]
pub struct Known {
    pub arguments: Arguments,
    /// The call of a generic function for which it runs.
    pub call: Option<Dispatch>,
    /// The method of which it is the body.
    pub running: Option<Running>,
}

/// What a running body or an effective form knows, and can't change. It is copied by sharing it.
#[derive(Drop)]
pub struct Context {
    shared: Rc<Known>,
}

impl Model for Context {
    ghost use Rattle.clos_meaning.specs.declared.arguments.Known.{Known};
    ghost use Rattle.clos_meaning.specs.contracts.arguments.Known as known;

    ghost Value = { Known };

    ghost coded = { known.the_row.coded };

    ghost view = { λ a. a.shared.value };
}

impl Context {
    fn new(alloc: Global, known: Known) -> Result<Context, AllocError>
        ensures { IfOk result (λ r. r ≡ known) }
    {
        Ok(Context {
            shared: Rc::new(alloc, known)?,
        })
    }

    /// That of the body of a function that is no generic function.
    pub fn of_function(alloc: Global, arguments: Arguments) -> Result<Context, AllocError>
        ensures { IfOk result (λ r. r ≡ known arguments) }
    {
        let known = Known {
            arguments,
            call: None,
            running: None,
        };
        Context::new(alloc, known)
    }

    /// That of the effective form of a call.
    pub fn of_call(
        alloc: Global,
        call: Dispatch,
        arguments: Arguments,
    ) -> Result<Context, AllocError>
        ensures { IfOk result (λ r. r ≡ in_call call arguments) }
    {
        let known = Known {
            arguments,
            call: Some(call),
            running: None,
        };
        Context::new(alloc, known)
    }

    /// The same context, in a few steps.
    pub fn copy(&self) -> Result<Context, AllocError>
        ensures { IfOk result (λ r. r ≡ self.now) }
    {
        Ok(Context {
            shared: self.shared.clone()?,
        })
    }

    /// The arguments of the call.
    pub fn arguments(&self) -> &Arguments
        ensures { result.now ≡ self.now.arguments }
    {
        &self.shared.arguments
    }

    /// The call of a generic function for which it runs.
    pub fn call(&self) -> Option<&Dispatch>
        ensures { option_copied result ≡ self.now.call }
    {
        self.shared.call.as_ref()
    }

    /// The method of which it is the body.
    pub fn running(&self) -> Option<&Running>
        ensures { option_copied result ≡ self.now.running }
    {
        self.shared.running.as_ref()
    }

    /// That of the effective form of the same call with other arguments.
    pub fn with_arguments(&self, alloc: Global, arguments: Arguments) -> Result<Context, AllocError>
        ensures { IfOk result (λ r. r ≡ with_arguments arguments self.now) }
    {
        let call = self.call_copied()?;
        let known = Known {
            arguments,
            call,
            running: None,
        };
        Context::new(alloc, known)
    }

    /// That of the body of a method that runs on these arguments in the same call.
    pub fn with_running(
        &self,
        alloc: Global,
        arguments: Arguments,
        running: Running,
    ) -> Result<Context, AllocError>
        ensures { IfOk result (λ r. r ≡ record (with_arguments arguments self.now) { running = Some running }) }
    {
        let Ok(call) = self.call_copied() else {
            drop(running);
            return Err(AllocError);
        };
        let known = Known {
            arguments,
            call,
            running: Some(running),
        };
        Context::new(alloc, known)
    }

    fn call_copied(&self) -> Result<Option<Dispatch>, AllocError>
        ensures { IfOk result (λ r. r ≡ self.now.call) }
    {
        match &self.shared.call {
            None => Ok(None),
            Some(call) => Ok(Some(call.copy()?)),
        }
    }
}
