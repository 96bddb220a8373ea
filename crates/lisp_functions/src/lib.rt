//! Which functions of values there are, and their names (HyperSpec 5.3, 12.2, 14.2, 17.3). What they answer is of `lisp_prims`.
#![tactic(auto)]

pub mod arithmetic;
pub mod comparison;
pub mod lists;
pub mod predicates;
pub mod primitive;

pub use arithmetic::Arithmetic;
pub use comparison::Comparison;
pub use lists::ListFunction;
pub use predicates::{IntegerTest, Predicate, ValueTest};
pub use primitive::Primitive;
