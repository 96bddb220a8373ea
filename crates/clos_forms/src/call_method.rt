//! The methods that effective forms call (HyperSpec 7.6.6.2, 7.7 `call-method`).
ghost use Rattle.std.specs.Prelude.{◌≡◌, ◌∷◌, [], IfOk, MatchOption, drop, map};
ghost use Rattle.clos_forms.specs.CallMethodView.{callable};

use lisp_data::MethodId;
use std::alloc::{AllocError, Global};
use std::marker::Model;
use std::rc::Rc;

/// What a `call-method` form calls, or what comes next in it.
#[derive(Clone, Copy, Debug, PartialEq, Eq)]
pub enum CalledMethod {
    /// The method of this number.
    Method(MethodId),
    /// A method that is made of a form, which is a part of the `call-method` form (`make-method`).
    Made,
}

/// Next methods, in order, which are copied by sharing them, and so are those that are left of them. Contracts see the list.
#[derive(Drop)]
pub struct NextMethods {
    shared: Option<Rc<Vec<CalledMethod>>>,
    /// Those before this place are gone.
    from: usize,
}

impl Model for NextMethods {
    ghost use Rattle.std.specs.Prelude.{List};
    ghost use Rattle.clos_forms.specs.Operator.{Callable};
    ghost use Rattle.clos_forms.specs.inner.OperatorCode.{callables_code};

    ghost Value = { List Callable };

    ghost coded = { callables_code };

    ghost use Rattle.clos_forms.specs.CallMethodView.{callables_in};

    ghost view = { λ a. callables_in a.shared a.from };
}

impl NextMethods {
    /// No methods, which take no memory.
    pub fn none() -> NextMethods
        ensures { result ≡ [] }
    {
        NextMethods {
            shared: None,
            from: 0,
        }
    }

    /// These methods.
    pub fn new(alloc: Global, methods: Vec<CalledMethod>) -> Result<NextMethods, AllocError>
        ensures { IfOk result (λ r. r ≡ map callable methods.items) }
    {
        let shared = Rc::new(alloc, methods)?;
        Ok(NextMethods {
            shared: Some(shared),
            from: 0,
        })
    }

    /// The first of them, if there is one.
    pub fn first(&self) -> Option<CalledMethod>
        ensures { MatchOption result (self.now ≡ []) (λ m. callable m ∷ drop 1 self.now ≡ self.now) }
    {
        match &self.shared {
            None => None,
            Some(methods) => methods.get(self.from).copied(),
        }
    }

    /// Those after the first.
    #[tactic(auto, using(crate::proofs::Next::after_first, crate::proofs::Next::none_after))]
    pub fn rest(&self) -> Result<NextMethods, AllocError>
        ensures { IfOk result (λ r. r ≡ drop 1 self.now) }
    {
        match &self.shared {
            Some(methods) if self.from < methods.len() => Ok(NextMethods {
                shared: Some(methods.clone()?),
                from: self.from + 1,
            }),
            _ => Ok(NextMethods::none()),
        }
    }

    /// The methods.
    #[tactic(auto, using(crate::proofs::Next::none_left))]
    pub fn as_slice(&self) -> &[CalledMethod]
        ensures { map callable result.now ≡ self.now }
    {
        match &self.shared {
            Some(methods) if self.from < methods.len() => &methods[self.from..],
            _ => &[],
        }
    }

    /// The same methods, in a few steps however many they are.
    pub fn copy(&self) -> Result<NextMethods, AllocError>
        ensures { IfOk result (λ r. r ≡ self.now) }
    {
        match &self.shared {
            None => Ok(NextMethods::none()),
            Some(methods) => Ok(NextMethods {
                shared: Some(methods.clone()?),
                from: self.from,
            }),
        }
    }
}
