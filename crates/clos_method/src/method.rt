//! Methods (HyperSpec 7.6.2, 7.6.3).
ghost use Rattle.std.specs.Prelude.{◌≡◌, ◌↔◌, IfOk, IsTrue, option_map, slice_get};
ghost use Rattle.clos_method.specs.Method.{is_alike, system_method};

use crate::origin::Origin;
use crate::qualifiers::Qualifiers;
use crate::shape::Shape;
use crate::specializer::Specializers;
use crate::system::SystemFunction;
use clos_forms::Forms;
use clos_lambda::LambdaList;
use lisp_data::{GenericId, MethodId, Name};
use std::alloc::{AllocError, Global};
use std::marker::Model;
use std::rc::Rc;

/// A lambda list that is copied by sharing it. Contracts see the lambda list.
#[derive(Drop)]
pub struct SharedLambdaList {
    shared: Rc<LambdaList>,
}

impl Model for SharedLambdaList {
    ghost use Rattle.clos_lambda.specs.contracts.lambda_list.LambdaList as lambda_list;
    ghost use Rattle.clos_lambda.specs.declared.lambda_list.LambdaList.{LambdaList};

    ghost Value = { LambdaList };

    ghost coded = { lambda_list.the_row.coded };

    ghost view = { λ a. a.shared.value };
}

impl SharedLambdaList {
    /// This one.
    pub fn new(alloc: Global, list: LambdaList) -> Result<SharedLambdaList, AllocError>
        ensures { IfOk result (λ r. r ≡ list) }
    {
        let shared = Rc::new(alloc, list)?;
        Ok(SharedLambdaList { shared })
    }

    /// The same, in a few steps.
    pub fn copy(&self) -> Result<SharedLambdaList, AllocError>
        ensures { IfOk result (λ r. r ≡ self.now) }
    {
        Ok(SharedLambdaList {
            shared: self.shared.clone()?,
        })
    }

    /// The lambda list.
    pub fn list(&self) -> &LambdaList
        ensures { result.now ≡ self.now }
    {
        self.shared.as_ref()
    }
}

/// What a method does with its arguments.
#[derive(Drop)]
pub enum MethodBody {
    /// The parameters of the lambda list are bound to them, and the forms are evaluated.
    Forms(SharedLambdaList, Forms),
    /// Reads the slot of this name (HyperSpec 7.5.2).
    Reader(Name),
    /// Writes it.
    Writer(Name),
    /// What the system's method of this function does.
    System(SystemFunction),
}

/// A method (HyperSpec 7.6.2).
#[derive(Drop)]
pub struct Method {
    pub generic: GenericId,
    pub qualifiers: Qualifiers,
    pub specializers: Specializers,
    pub shape: Shape,
    pub origin: Origin,
    pub body: MethodBody,
}

impl Method {
    /// The method that a function of the system has.
    pub fn of_system(alloc: Global, function: SystemFunction) -> Result<Method, AllocError>
        ensures { IfOk result (λ r. r ≡ system_method function) }
    {
        Ok(Method {
            generic: function.id(),
            qualifiers: Qualifiers::new(alloc),
            specializers: function.specializers(alloc)?,
            shape: function.method_shape(),
            origin: Origin::System,
            body: MethodBody::System(function),
        })
    }

    /// Whether it has these qualifiers and these specializers, so that a method that has them takes its place (HyperSpec
    /// 7.6.3).
    #[tactic(auto, using(crate::proofs::Same::both_told))]
    pub fn is_alike(&self, qualifiers: &Qualifiers, specializers: &Specializers) -> bool
        ensures test { result ≡ is_alike self.now qualifiers.now specializers.now }
        ensures only { IsTrue result ↔ ((self.now.qualifiers ≡ qualifiers.now) × (self.now.specializers ≡ specializers.now)) }
    {
        self.qualifiers.is(qualifiers) && self.specializers.is(specializers)
    }
}

/// The method of this number.
pub fn method_numbered(methods: &[Method], id: MethodId) -> Option<&Method>
    ensures { option_map (λ m. m.now) result ≡ slice_get methods.now id.0 }
{
    methods.get(id.0 as usize)
}
