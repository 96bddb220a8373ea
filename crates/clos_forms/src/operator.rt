//! The operators of forms.

use crate::bound::{Bindings, Names, SlotBindings};
use crate::call_method::{CalledMethod, NextMethods};
use crate::variable::Variable;
use clos_names::CalledName;
use lisp_data::{Name, Value};

/// What a function is called (HyperSpec glossary, "function name").
#[derive(Drop)]
pub enum FunctionName {
    Symbol(Name),
    /// The list of SETF and this symbol.
    Setf(Name),
}

/// A place (HyperSpec 5.1.2). Its subforms are the parts of the form.
#[derive(Drop)]
pub enum Place {
    /// It has no subforms.
    Variable(Name),
    /// Its subforms are the instance and the slot's name (HyperSpec 7.7, `slot-value`).
    SlotValue,
    /// A call of this function, whose value is set by another; its subforms are the arguments (HyperSpec 5.1.2.9).
    Call(CalledName),
}

/// What a form does with its parts (HyperSpec 3.1.2.1).
pub enum Operator {
    /// A self-evaluating object, or what a `quote` form quotes. No parts (HyperSpec 3.1.2.1.3, 3.8 `quote`).
    Constant(Value),
    /// A `quote` form of a datum that is no value: of a dotted list, of one past the limits, or of a method. No parts.
    NoValue,
    /// No parts (HyperSpec 3.1.2.1.1).
    Variable(Variable),
    /// What a `function` form names. No parts (HyperSpec 5.3).
    Function(FunctionName),
    /// The test, what is evaluated where it holds, and else where there is one (HyperSpec 5.3).
    If,
    /// The parts are all clauses (HyperSpec 5.3).
    Cond,
    /// A clause of `cond`: the test, then the forms. It is no form by itself.
    Clause,
    /// The test, then the forms (HyperSpec 5.3).
    When,
    /// The test, then the forms (HyperSpec 5.3).
    Unless,
    /// The forms (HyperSpec 5.3).
    And,
    /// The forms (HyperSpec 5.3).
    Or,
    /// The forms (HyperSpec 5.3).
    Progn,
    /// The form whose value is given, then the others; also `multiple-value-prog1` (HyperSpec 5.3).
    Prog1,
    /// The init forms of those variables that have one, in order, then the body (HyperSpec 5.3 `let`).
    Let(Bindings),
    /// The init forms of those variables that have one, in order, then the body (HyperSpec 5.3 `let*`).
    LetInOrder(Bindings),
    /// The new values, one for each name (HyperSpec 5.3).
    Setq(Names),
    /// Places and new values in turn (HyperSpec 5.3).
    Setf,
    /// The place and, where it is given, the amount (HyperSpec 12.2).
    Incf,
    /// The place and, where it is given, the amount (HyperSpec 12.2).
    Decf,
    /// The subforms of a place. It is no form by itself.
    Place(Place),
    /// The count, the result form where the flag says that there is one, then the body (HyperSpec 6.2).
    Dotimes(Name, bool),
    /// The instance, then the body (HyperSpec 7.7).
    WithSlots(SlotBindings),
    /// The arguments (HyperSpec 7.7).
    CallNextMethod,
    /// No parts (HyperSpec 7.7).
    NextMethodP,
    /// A call of a function: the arguments (HyperSpec 3.1.2.1.2.3).
    Call(CalledName),
    /// A call of a method with its next methods, of which only effective forms are made: the forms of those that are made
    /// (HyperSpec 7.6.6.2, 7.7 `call-method`).
    CallMethod(CalledMethod, NextMethods),
}

// Of its own, so that whoever owns an operator drops it by one call.
impl Drop for Operator {
    fn drop(self) {
        match self {
            Operator::Constant(value) => drop(value),
            Operator::Variable(variable) => drop(variable),
            Operator::Function(name) => drop(name),
            Operator::Let(bindings) => drop(bindings),
            Operator::LetInOrder(bindings) => drop(bindings),
            Operator::Setq(names) => drop(names),
            Operator::Place(place) => drop(place),
            Operator::Dotimes(name, _) => drop(name),
            Operator::WithSlots(bindings) => drop(bindings),
            Operator::Call(name) => drop(name),
            Operator::CallMethod(method, next) => {
                drop(method);
                drop(next);
            }
            Operator::NoValue => (),
            Operator::If => (),
            Operator::Cond => (),
            Operator::Clause => (),
            Operator::When => (),
            Operator::Unless => (),
            Operator::And => (),
            Operator::Or => (),
            Operator::Progn => (),
            Operator::Prog1 => (),
            Operator::Setf => (),
            Operator::Incf => (),
            Operator::Decf => (),
            Operator::CallNextMethod => (),
            Operator::NextMethodP => (),
        }
    }
}
