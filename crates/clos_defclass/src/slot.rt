//! Slot specifiers (HyperSpec 7.7 `defclass`, 7.5.3).
use clos_forms::{Form, FunctionName, Sequence};
use lisp_data::Name;

/// Where the values of a slot are kept (HyperSpec 7.5.1).
#[derive(Clone, Copy, Debug, Drop, PartialEq, Eq)]
pub enum Allocation {
    Instance,
    Class,
}

/// A method that reads or writes a slot (HyperSpec 7.5.2).
#[derive(Drop)]
pub enum Accessor {
    Reader(Name),
    Writer(FunctionName),
}

/// A slot of a `defclass` (HyperSpec 7.5.3).
#[derive(Drop)]
pub struct SlotSpecifier {
    pub name: Name,
    pub initargs: Sequence<Name>,
    /// In written order. An `:accessor` is a reader and then a writer.
    pub accessors: Sequence<Accessor>,
    pub initform: Option<Form>,
    pub allocation: Allocation,
}
