//! Names, data and values of the language, and how they are compared and printed.
#![tactic(auto)]

pub mod datum;
pub mod equality;
pub mod ids;
pub mod keys;
pub mod limits;
pub mod name;
pub mod naming;
pub mod print;
pub mod text;
pub mod value;

pub use datum::{Data, Datum, Dot};
pub use equality::{Unsupported, eql, equal, equal_data};
pub use ids::{CellId, ClassId, GenericId, InstanceId, MethodId};
pub use limits::{ListFault, MAX_ELEMENTS, MAX_NESTING};
pub use name::Name;
pub use naming::{FunctionName, Naming, Specializer};
pub use print::{prin1, princ};
pub use text::Text;
pub use value::{Items, Value};
