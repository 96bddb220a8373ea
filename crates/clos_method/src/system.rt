//! The system's generic functions, with which a session begins, and the method that each has (HyperSpec 7.1, 7.3, 7.6.6.1,
//! 7.7).
ghost use Rattle.std.specs.Prelude.{◌≡◌, false, IfOk, map};
ghost use Rattle.lisp_data.specs.Print.{on_class};
ghost use Rattle.clos_method.specs.System.{system_classes, system_functions, system_keys, system_method_shape, system_number, system_optional, system_required, system_rest, system_shape, system_specializers, system_text};

use crate::shape::{Keywords, Shape, SharedNames};
use crate::specializer::{Specializer, Specializers};
use clos_hierarchy::numbers;
use lisp_data::{ClassId, GenericId, Name};
use std::alloc::{AllocError, Global};

/// A generic function of the system, each of which has one method of the system's.
#[derive(Clone, Copy, Debug, PartialEq, Eq)]
pub enum SystemFunction {
    InitializeInstance,
    ReinitializeInstance,
    SharedInitialize,
    UpdateInstanceForRedefinedClass,
    UpdateInstanceForDifferentClass,
    SlotUnbound,
    SlotMissing,
    NoApplicableMethod,
    NoNextMethod,
}

impl SystemFunction {
    /// How many they are.
    pub const COUNT: u64 = 9;

    /// All of them, by their numbers.
    pub fn all() -> &'static [SystemFunction]
        ensures { result.now ≡ system_functions }
    {
        &[
            SystemFunction::InitializeInstance,
            SystemFunction::ReinitializeInstance,
            SystemFunction::SharedInitialize,
            SystemFunction::UpdateInstanceForRedefinedClass,
            SystemFunction::UpdateInstanceForDifferentClass,
            SystemFunction::SlotUnbound,
            SystemFunction::SlotMissing,
            SystemFunction::NoApplicableMethod,
            SystemFunction::NoNextMethod,
        ]
    }

    /// Its number, the same in every session.
    pub fn id(self) -> GenericId
        ensures { result.0 ≡ system_number self }
    {
        GenericId(self.number())
    }

    /// Its place among all of them, which is also the number of its method.
    pub fn number(self) -> u64
        ensures { result ≡ system_number self }
    {
        match self {
            SystemFunction::InitializeInstance => 0,
            SystemFunction::ReinitializeInstance => 1,
            SystemFunction::SharedInitialize => 2,
            SystemFunction::UpdateInstanceForRedefinedClass => 3,
            SystemFunction::UpdateInstanceForDifferentClass => 4,
            SystemFunction::SlotUnbound => 5,
            SystemFunction::SlotMissing => 6,
            SystemFunction::NoApplicableMethod => 7,
            SystemFunction::NoNextMethod => 8,
        }
    }

    /// The symbol that names it.
    pub fn name(self) -> Name
        ensures { result ≡ record { text = system_text self; keyword = false } }
    {
        Name::fixed(match self {
            SystemFunction::InitializeInstance => &"INITIALIZE-INSTANCE",
            SystemFunction::ReinitializeInstance => &"REINITIALIZE-INSTANCE",
            SystemFunction::SharedInitialize => &"SHARED-INITIALIZE",
            SystemFunction::UpdateInstanceForRedefinedClass => {
                &"UPDATE-INSTANCE-FOR-REDEFINED-CLASS"
            }
            SystemFunction::UpdateInstanceForDifferentClass => {
                &"UPDATE-INSTANCE-FOR-DIFFERENT-CLASS"
            }
            SystemFunction::SlotUnbound => &"SLOT-UNBOUND",
            SystemFunction::SlotMissing => &"SLOT-MISSING",
            SystemFunction::NoApplicableMethod => &"NO-APPLICABLE-METHOD",
            SystemFunction::NoNextMethod => &"NO-NEXT-METHOD",
        })
    }

    /// The classes on which its method is specialized, one for each required parameter.
    pub fn classes(self) -> &'static [ClassId]
        ensures { map (λ c. c.0) result.now ≡ system_classes self }
    {
        match self {
            SystemFunction::InitializeInstance | SystemFunction::ReinitializeInstance => {
                &[numbers::STANDARD_OBJECT]
            }
            SystemFunction::SharedInitialize => &[numbers::STANDARD_OBJECT, numbers::T],
            SystemFunction::UpdateInstanceForRedefinedClass => {
                &[numbers::STANDARD_OBJECT, numbers::T, numbers::T, numbers::T]
            }
            SystemFunction::UpdateInstanceForDifferentClass => {
                &[numbers::STANDARD_OBJECT, numbers::STANDARD_OBJECT]
            }
            SystemFunction::SlotUnbound => &[numbers::T, numbers::T, numbers::T],
            SystemFunction::SlotMissing => &[numbers::T, numbers::T, numbers::T, numbers::T],
            SystemFunction::NoApplicableMethod => &[numbers::T],
            SystemFunction::NoNextMethod => {
                &[numbers::STANDARD_GENERIC_FUNCTION, numbers::STANDARD_METHOD]
            }
        }
    }

    fn required(self) -> u64
        ensures { result ≡ system_required self }
    {
        match self {
            SystemFunction::InitializeInstance => 1,
            SystemFunction::ReinitializeInstance => 1,
            SystemFunction::SharedInitialize => 2,
            SystemFunction::UpdateInstanceForRedefinedClass => 4,
            SystemFunction::UpdateInstanceForDifferentClass => 2,
            SystemFunction::SlotUnbound => 3,
            SystemFunction::SlotMissing => 4,
            SystemFunction::NoApplicableMethod => 1,
            SystemFunction::NoNextMethod => 2,
        }
    }

    fn optional(self) -> u64
        ensures { result ≡ system_optional self }
    {
        match self {
            SystemFunction::SlotMissing => 1,
            _ => 0,
        }
    }

    fn has_rest(self) -> bool
        ensures { result ≡ system_rest self }
    {
        match self {
            SystemFunction::SlotUnbound | SystemFunction::SlotMissing => false,
            _ => true,
        }
    }

    fn keys(self) -> Option<Keywords>
        ensures { result ≡ system_keys self }
    {
        match self {
            SystemFunction::SlotUnbound
            | SystemFunction::SlotMissing
            | SystemFunction::NoApplicableMethod
            | SystemFunction::NoNextMethod => None,
            _ => Some(Keywords {
                names: SharedNames::none(),
                allow_other_keys: true,
            }),
        }
    }

    /// The shape of its lambda list.
    pub fn shape(self) -> Shape
        ensures { result ≡ system_shape self }
    {
        Shape {
            required: self.required(),
            optional: self.optional(),
            rest: self.has_rest(),
            keys: self.keys(),
        }
    }

    /// The shape of its method's lambda list: the same without `&key`.
    pub fn method_shape(self) -> Shape
        ensures { result ≡ system_method_shape self }
    {
        Shape {
            required: self.required(),
            optional: self.optional(),
            rest: self.has_rest(),
            keys: None,
        }
    }

    /// The specializers of its method.
    pub fn specializers(self, alloc: Global) -> Result<Specializers, AllocError>
        ensures { IfOk result (λ r. r ≡ system_specializers self) }
    {
        let mut specializers = Specializers::new(alloc);
        for class in self.classes() {
            specializers.push(Specializer::Class(*class))?;
        }
        Ok(specializers)
    }
}
