//! The operators of templates.

use clos_forms::{Bindings, Sequence};
use lisp_data::{Datum, Name};

/// A function of templates (HyperSpec 5.3, 14.2).
#[derive(Clone, Copy, Debug, Drop, PartialEq, Eq)]
pub enum Function {
    /// Also `null`.
    Not,
    Endp,
    Eq,
    /// Also `car`.
    First,
    Second,
    /// Also `cdr`.
    Rest,
    Reverse,
    Length,
    List,
    ListStar,
    Cons,
    Append,
}

/// What a template does with its parts, which are templates.
pub enum Operator {
    /// A constant, or what a `quote` form quotes. No parts.
    Constant(Datum),
    /// A group, a parameter or a variable of `let`, `let*` or `mapcar`. No parts.
    Variable(Name),
    /// The test, what is given where it holds, and else where there is one (HyperSpec 5.3).
    If,
    /// For each clause its test, and its body where it has one (HyperSpec 5.3).
    Cond(Sequence<bool>),
    /// HyperSpec 5.3.
    And,
    /// HyperSpec 5.3.
    Or,
    /// The values of those variables that have one, in order, then the body (HyperSpec 5.3 `let`).
    Let(Bindings),
    /// The values of those variables that have one, in order, then the body (HyperSpec 5.3 `let*`).
    LetInOrder(Bindings),
    /// The list, and what is given for each of its elements, which is this variable's value (HyperSpec 14.2 `mapcar`).
    MapCar(Name),
    /// The arguments.
    Call(Function),
    /// A backquoted list (HyperSpec 2.4.6): its elements, with whether the elements of each stand in its place, and the
    /// atom after its dot where it has one.
    Written(Sequence<bool>, Option<Datum>),
}

// Of its own, so that whoever owns an operator drops it by one call.
impl Drop for Operator {
    fn drop(self) {
        match self {
            Operator::Constant(datum) => drop(datum),
            Operator::Variable(name) => drop(name),
            Operator::Cond(bodies) => drop(bodies),
            Operator::Let(bindings) => drop(bindings),
            Operator::LetInOrder(bindings) => drop(bindings),
            Operator::MapCar(name) => drop(name),
            Operator::Written(spliced, last) => {
                drop(spliced);
                drop(last);
            }
            Operator::If => (),
            Operator::And => (),
            Operator::Or => (),
            Operator::Call(_) => (),
        }
    }
}
