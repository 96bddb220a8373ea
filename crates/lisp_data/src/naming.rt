//! What a session tells of its classes, generic functions, methods and instances, so that they print.
ghost use Rattle.std.specs.Prelude.{◌≡◌, option_copied, option_map, slice_get};
ghost use Rattle.lisp_data.specs.Print.{Names, qualifiers_of, specializers_of};
ghost use Rattle.lisp_data.specs.PrintView.{called, specializer_told, number_of_class, number_of_generic};
ghost use Rattle.lisp_data.specs.ValueView.{value_of};

use crate::ids::{ClassId, GenericId, InstanceId, MethodId};
use crate::name::Name;
use crate::value::Value;

/// What a function is called (HyperSpec glossary, "function name").
#[derive(Clone, Copy)]
pub enum FunctionName<'a> {
    Symbol(&'a Name),
    /// The list of SETF and this symbol.
    Setf(&'a Name),
}

/// What a method asks of one argument (HyperSpec 7.6.2).
#[derive(Clone, Copy)]
pub enum Specializer<'a> {
    Class(ClassId),
    /// To be EQL to this object.
    Eql(&'a Value),
}

/// The names behind the numbers in values. Each answers None where it knows no such number.
pub trait Naming {
    ghost names: { Self → Names };

    /// The name of a class.
    fn class_name(&self, id: ClassId) -> Option<&Name>
        ensures { option_copied result ≡ (names self.now).class id.0 };

    /// What a generic function is called.
    fn generic_name(&self, id: GenericId) -> Option<FunctionName<'_>>
        ensures { option_map called result ≡ (names self.now).generic id.0 };

    /// A method's generic function.
    fn method_generic(&self, id: MethodId) -> Option<GenericId>
        ensures { option_map number_of_generic result ≡ option_map (λ m. m.generic) ((names self.now).method id.0) };

    /// A method's qualifier at this place, or None where it has no more. A qualifier is an atom other than NIL.
    fn qualifier(&self, id: MethodId, place: usize) -> Option<&Value>
        ensures { option_map (λ v. value_of v.now) result ≡ slice_get (qualifiers_of ((names self.now).method id.0)) place };

    /// A method's specializer at this place, or None where it has no more. The methods that are objects of eql
    /// specializers of a method are fewer than its number: those that were there when it was made.
    fn specializer(&self, id: MethodId, place: usize) -> Option<Specializer<'_>>
        ensures { option_map specializer_told result ≡ slice_get (specializers_of ((names self.now).method id.0)) place };

    /// The class of an instance.
    fn class_of(&self, id: InstanceId) -> Option<ClassId>
        ensures { option_map number_of_class result ≡ (names self.now).class_of id.0 };
}
