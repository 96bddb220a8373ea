//! What the functions of the language are, by their names.
ghost use Rattle.std.specs.Prelude.{◌≡◌};
ghost use Rattle.clos_names.specs.Callee.{callee_of, class_function, class_function_of, slot_function, slot_function_of, value_function};

use crate::names::is_the;
use lisp_data::Name;
use lisp_functions::Primitive;

/// An output function of one argument (HyperSpec 22.4 `write`).
#[derive(Clone, Copy, Debug, Drop, PartialEq, Eq)]
pub enum Output {
    /// The text of the value, for people.
    Princ,
    /// The text of the value, as it can be read.
    Prin1,
    /// A newline, the text as it can be read, and a space.
    Print,
}

/// A function of classes (HyperSpec 4.3.7; AMOP 6 `class-precedence-list`).
#[derive(Clone, Copy, Debug, Drop, PartialEq, Eq)]
pub enum ClassFunction {
    /// The class of a value.
    ClassOf,
    /// The name of a class.
    ClassName,
    /// A class and its superclasses, the most specific first.
    ClassPrecedenceList,
    /// The class of a name.
    FindClass,
    /// Whether a value is of a class.
    Typep,
}

/// A function of an instance and the name of a slot (HyperSpec 7.5.2, 7.7).
#[derive(Clone, Copy, Debug, Drop, PartialEq, Eq)]
pub enum SlotFunction {
    /// The value of the slot.
    SlotValue,
    /// Whether it has a value.
    SlotBoundp,
    /// Takes its value away.
    SlotMakunbound,
    /// Whether there is such a slot.
    SlotExistsP,
}

/// What a call of a name calls.
#[derive(Clone, Copy, Debug, Drop, PartialEq, Eq)]
pub enum Callee {
    /// An output function of one argument.
    Output(Output),
    /// The function `terpri`, which writes a newline.
    Terpri,
    /// A function of values.
    Primitive(Primitive),
    MakeInstance,
    ChangeClass,
    FindMethod,
    /// The function `native-call`, which calls a function that the host stored.
    NativeCall,
    /// A function of classes.
    ClassFunction(ClassFunction),
    /// A function of slots.
    SlotFunction(SlotFunction),
    /// A function of the program's, if there is one.
    Defined,
}

/// What a call of this name calls.
pub(crate) fn callee_named(name: &Name) -> Callee
    ensures { result ≡ callee_of name.now }
{
    if is_the(name, "PRINC") {
        return Callee::Output(Output::Princ);
    }
    if is_the(name, "PRIN1") {
        return Callee::Output(Output::Prin1);
    }
    if is_the(name, "PRINT") {
        return Callee::Output(Output::Print);
    }
    if is_the(name, "TERPRI") {
        return Callee::Terpri;
    }
    if is_the(name, "MAKE-INSTANCE") {
        return Callee::MakeInstance;
    }
    if is_the(name, "CHANGE-CLASS") {
        return Callee::ChangeClass;
    }
    if is_the(name, "FIND-METHOD") {
        return Callee::FindMethod;
    }
    if is_the(name, "NATIVE-CALL") {
        return Callee::NativeCall;
    }
    match class_function_named(name) {
        Some(function) => Callee::ClassFunction(function),
        None => slot_function(name),
    }
}

fn slot_function(name: &Name) -> Callee
    ensures { result ≡ slot_function (slot_function_of name.now) name.now }
{
    match slot_function_named(name) {
        Some(function) => Callee::SlotFunction(function),
        None => value_function(Primitive::named(name)),
    }
}

/// The function of slots of this name.
fn slot_function_named(name: &Name) -> Option<SlotFunction>
    ensures { result ≡ slot_function_of name.now }
{
    if is_the(name, "SLOT-VALUE") {
        return Some(SlotFunction::SlotValue);
    }
    if is_the(name, "SLOT-BOUNDP") {
        return Some(SlotFunction::SlotBoundp);
    }
    if is_the(name, "SLOT-MAKUNBOUND") {
        return Some(SlotFunction::SlotMakunbound);
    }
    if is_the(name, "SLOT-EXISTS-P") {
        return Some(SlotFunction::SlotExistsP);
    }
    None
}

/// The function of classes of this name.
fn class_function_named(name: &Name) -> Option<ClassFunction>
    ensures { result ≡ class_function_of name.now }
{
    if is_the(name, "CLASS-OF") {
        return Some(ClassFunction::ClassOf);
    }
    if is_the(name, "CLASS-NAME") {
        return Some(ClassFunction::ClassName);
    }
    if is_the(name, "CLASS-PRECEDENCE-LIST") {
        return Some(ClassFunction::ClassPrecedenceList);
    }
    if is_the(name, "FIND-CLASS") {
        return Some(ClassFunction::FindClass);
    }
    if is_the(name, "TYPEP") {
        return Some(ClassFunction::Typep);
    }
    None
}

fn value_function(primitive: Option<Primitive>) -> Callee
    ensures { result ≡ value_function primitive }
{
    match primitive {
        Some(primitive) => Callee::Primitive(primitive),
        None => Callee::Defined,
    }
}
