//! Classes (HyperSpec 7.7 `defclass`).
use crate::slot::SlotSpecifier;
use clos_forms::{Form, Sequence};
use lisp_data::Name;

/// The initialization argument that a class gives where a call does not (HyperSpec 7.1.3).
#[derive(Drop)]
pub struct DefaultInitarg {
    pub name: Name,
    pub form: Form,
}

/// What a `defclass` defines. Where it was read from data, no superclass, slot name or default initarg stands twice in it.
#[derive(Drop)]
pub struct ClassDefinition {
    pub name: Name,
    pub superclasses: Sequence<Name>,
    pub slots: Sequence<SlotSpecifier>,
    pub defaults: Sequence<DefaultInitarg>,
}
