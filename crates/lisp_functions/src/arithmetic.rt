//! Numbers of integers (HyperSpec 12.2).

/// The functions that give a number of integers.
#[derive(Clone, Copy, Debug, Drop, PartialEq, Eq)]
pub enum Arithmetic {
    Sum,
    Product,
    Difference,
    Greatest,
    Least,
    Increment,
    Decrement,
    Absolute,
    Floor,
    Truncate,
    Modulus,
    Remainder,
}
