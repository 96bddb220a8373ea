//! Circles of classes by a definition that is refused: of such as would be above each other, and of such as would have to come before
//! each other. What is answered is a circle, and there is none where none is answered.
#![tactic(auto)]

mod definition;
mod precedence;
mod relation;
mod superclasses;
mod upward;

pub use definition::Definition;
pub use precedence::{Edge, precedence_circle};
pub use superclasses::superclass_circle;
