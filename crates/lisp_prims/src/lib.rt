//! Functions of values: numbers, tests and lists (HyperSpec 5.3, 12.2, 14.2, 17.3).
#![tactic(auto)]

pub mod arguments;
pub mod arithmetic;
pub mod comparison;
pub mod fault;
pub mod laws;
pub mod lists;
pub mod predicates;
pub mod primitive;
pub mod width;

pub use fault::PrimFault;
pub use lisp_functions::{Arithmetic, ListFunction, Primitive};
pub use primitive::{apply, call, serves};
pub use width::Integer;
