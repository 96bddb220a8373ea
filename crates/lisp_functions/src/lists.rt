//! Lists (HyperSpec 14.2, 17.3).

/// The functions that give a list or an element.
#[derive(Clone, Copy, Debug, Drop, PartialEq, Eq)]
pub enum ListFunction {
    Car,
    Cdr,
    Second,
    Third,
    Nth,
    Cons,
    List,
    ListStar,
    Append,
    Reverse,
}
