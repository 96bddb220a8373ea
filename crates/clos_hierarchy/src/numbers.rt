//! Predefined classes by their numbers: those that values are of, and those that code names (HyperSpec 4.3.7).
use lisp_data::ClassId;

/// The class that all others are below.
pub const T: ClassId = ClassId(0);

/// The class that all classes made by programs are below.
pub const STANDARD_OBJECT: ClassId = ClassId(1);

/// The class of whole numbers.
pub const INTEGER: ClassId = ClassId(2);

/// The class of NIL.
pub const NULL: ClassId = ClassId(6);

/// The class of symbols other than NIL.
pub const SYMBOL: ClassId = ClassId(7);

/// The class of conses.
pub const CONS: ClassId = ClassId(10);

/// The class of strings.
pub const STRING: ClassId = ClassId(11);

/// The class of generic functions.
pub const STANDARD_GENERIC_FUNCTION: ClassId = ClassId(16);

/// The class of STANDARD-OBJECT, and of classes that programs make.
pub const STANDARD_CLASS: ClassId = ClassId(18);

/// The class of the other predefined classes.
pub const BUILT_IN_CLASS: ClassId = ClassId(19);

/// The class of methods.
pub const STANDARD_METHOD: ClassId = ClassId(20);
