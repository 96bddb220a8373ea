//! What a `defclass` says: superclasses, slots and default initargs (HyperSpec 7.7 defclass). How it is read from data is of
//! `clos_syntax`, what it makes of the classes is of `clos_class`.
#![tactic(auto)]

pub mod class;
pub mod names;
pub mod slot;

pub use class::{ClassDefinition, DefaultInitarg};
pub use names::{default_names, slot_names};
pub use slot::{Accessor, Allocation, SlotSpecifier};
