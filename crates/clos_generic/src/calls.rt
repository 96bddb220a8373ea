//! What calls of a generic function ask of the table.
ghost use Rattle.std.specs.Prelude.{◌≡◌, IfOk, IsTrue, length, true};
ghost use Rattle.lisp_data.specs.ValueView.{value_of};
ghost use Rattle.clos_method.specs.Applicable as among;
ghost use Rattle.clos_method.specs.MethodIds.{method_numbers};
ghost use Rattle.clos_generic.specs.Calls.{IsInOrder, accepts, allows_all, checks_keywords, has_eql, ordered, required_of};
ghost use Rattle.clos_generic.specs.TableView.{function_of};

use crate::function::Function;
use crate::table::Generics;
use clos_method::{Arguments, MethodIds, ordered_methods};
use lisp_data::{GenericId, MethodId, Name, Value};
use std::alloc::{AllocError, Global};

impl Generics {
    /// The methods of a function that are applicable to these arguments, the most specific first (HyperSpec 7.6.6.1).
    pub fn ordered(
        &self,
        alloc: Global,
        id: GenericId,
        arguments: &Arguments<'_>,
    ) -> Result<MethodIds, AllocError>
        ensures is { IfOk result (λ r. r ≡ ordered self.now.table id.0 arguments.now) }
        ensures in_order { IfOk result (λ r. length arguments.now ≡ required_of self.now.table id.0
            → IsInOrder self.now.table id.0 arguments.now r) }
    {
        self.are_sound();
        match self.function(id) {
            None => Ok(MethodIds::new(alloc)),
            Some(function) => ordered_methods(
                alloc,
                self.methods(),
                function.precedence(),
                arguments,
                function.methods(),
            ),
        }
    }

    /// Whether a method of a function has an eql specializer of this object for the parameter at this place (HyperSpec
    /// 7.6.2).
    pub fn has_eql(&self, id: GenericId, place: usize, object: &Value) -> bool
        ensures { result ≡ has_eql self.now.table id.0 place (value_of object.now) }
    {
        if !self.may_have_eql(id, place, object) {
            return false;
        }
        match self.function(id) {
            None => false,
            Some(function) => {
                self.latest_has_eql(function, place, object)
                    || clos_method::has_eql(self.methods(), function.methods(), place, object)
            }
        }
    }

    /// Whether the latest method that was noted to have an eql specializer of this object is still there, and has it at this
    /// place. It looks at a few methods, however many there are.
    fn latest_has_eql(&self, function: &Function, place: usize, object: &Value) -> bool
        ensures { IsTrue result → among.has_eql self.now.table.methods (function_of function.now).methods place
            (value_of object.now) ≡ true }
    {
        match function.latest_eql(place, object) {
            None => false,
            Some(id) => {
                function.has(id) && clos_method::has_eql(self.methods(), &[id], place, object)
            }
        }
    }

    /// Whether the keyword arguments of a call of a function are checked, where these methods are applicable (HyperSpec
    /// 7.6.5).
    pub fn checks_keywords(&self, id: GenericId, applicable: &[MethodId]) -> bool
        ensures { result ≡ checks_keywords self.now.table id.0 (method_numbers applicable.now) }
    {
        match self.function(id) {
            None => false,
            Some(function) => clos_method::checks_keywords(
                function.shape(),
                self.methods(),
                applicable,
            ),
        }
    }

    /// Whether a call of a function may have any keyword arguments, where these methods are applicable (HyperSpec 7.6.5).
    pub fn allows_all(&self, id: GenericId, applicable: &[MethodId]) -> bool
        ensures { result ≡ allows_all self.now.table id.0 (method_numbers applicable.now) }
    {
        match self.function(id) {
            None => false,
            Some(function) => {
                clos_method::allows_all(function.shape(), self.methods(), applicable)
            }
        }
    }

    /// Whether a call of a function may have this keyword argument, where these methods are applicable (HyperSpec 7.6.5).
    pub fn accepts(&self, id: GenericId, applicable: &[MethodId], name: &Name) -> bool
        ensures { result ≡ accepts self.now.table id.0 (method_numbers applicable.now) name.now }
    {
        match self.function(id) {
            None => false,
            Some(function) => clos_method::accepts_keyword(
                function.shape(),
                self.methods(),
                applicable,
                name,
            ),
        }
    }
}
