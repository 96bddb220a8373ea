//! What makes methods.
ghost use Rattle.std.specs.Prelude.{◌≡◌};
ghost use Rattle.clos_method.specs.Origin.{is_method_option};

use lisp_data::ClassId;

/// What made a method.
#[derive(Clone, Copy, Debug, PartialEq, Eq)]
pub enum Origin {
    /// The system, for a function of its own.
    System,
    /// A `defmethod` of the program (HyperSpec 7.7).
    Defmethod,
    /// A `:method` option of its function's `defgeneric` (HyperSpec 7.7).
    MethodOption,
    /// A `:reader`, `:writer` or `:accessor` option of a slot of this class (HyperSpec 7.5.2).
    Accessor(ClassId),
}

impl Origin {
    /// Whether it is a `:method` option.
    pub fn is_method_option(self) -> bool
        ensures { result ≡ is_method_option self }
    {
        match self {
            Origin::MethodOption => true,
            _ => false,
        }
    }
}
