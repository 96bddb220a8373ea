//! Tests of values (HyperSpec 5.3, 10.2, 12.2, 14.2, 16.2).

/// The functions that test one value of any type.
#[derive(Clone, Copy, Debug, Drop, PartialEq, Eq)]
pub enum ValueTest {
    Null,
    Atom,
    Consp,
    Listp,
    Symbolp,
    Integerp,
    Stringp,
}

/// The functions that test one integer.
#[derive(Clone, Copy, Debug, Drop, PartialEq, Eq)]
pub enum IntegerTest {
    Zerop,
    Plusp,
    Minusp,
    Evenp,
    Oddp,
}

/// The functions that test values.
#[derive(Clone, Copy, Debug, Drop, PartialEq, Eq)]
pub enum Predicate {
    /// It tests one value.
    Value(ValueTest),
    /// It tests one integer.
    Integer(IntegerTest),
    /// Whether two values are one object.
    Eql,
    /// Whether two values are alike.
    Equal,
}
