//! The functions of values, by their names.
ghost use Rattle.std.specs.Prelude.{◌≡◌, map};
ghost use Rattle.lisp_functions.specs.Primitive.{entry_of, primitive_of, told};

use crate::arithmetic::Arithmetic;
use crate::comparison::Comparison;
use crate::lists::ListFunction;
use crate::predicates::{IntegerTest, Predicate, ValueTest};
use lisp_data::Name;

/// A function of values.
#[derive(Clone, Copy, Debug, Drop, PartialEq, Eq)]
pub enum Primitive {
    /// It gives a number of integers.
    Number(Arithmetic),
    /// It compares integers.
    Order(Comparison),
    /// It tests values.
    Test(Predicate),
    /// The length of a list or a string.
    Length,
    /// It gives a list or an element.
    Listed(ListFunction),
}

/// Each name with its function.
const NAMES: [(&str, Primitive); 47] = [
    ("+", Primitive::Number(Arithmetic::Sum)),
    ("*", Primitive::Number(Arithmetic::Product)),
    ("-", Primitive::Number(Arithmetic::Difference)),
    ("MAX", Primitive::Number(Arithmetic::Greatest)),
    ("MIN", Primitive::Number(Arithmetic::Least)),
    ("1+", Primitive::Number(Arithmetic::Increment)),
    ("1-", Primitive::Number(Arithmetic::Decrement)),
    ("ABS", Primitive::Number(Arithmetic::Absolute)),
    (
        "ZEROP",
        Primitive::Test(Predicate::Integer(IntegerTest::Zerop)),
    ),
    (
        "PLUSP",
        Primitive::Test(Predicate::Integer(IntegerTest::Plusp)),
    ),
    (
        "MINUSP",
        Primitive::Test(Predicate::Integer(IntegerTest::Minusp)),
    ),
    (
        "EVENP",
        Primitive::Test(Predicate::Integer(IntegerTest::Evenp)),
    ),
    (
        "ODDP",
        Primitive::Test(Predicate::Integer(IntegerTest::Oddp)),
    ),
    ("FLOOR", Primitive::Number(Arithmetic::Floor)),
    ("TRUNCATE", Primitive::Number(Arithmetic::Truncate)),
    ("MOD", Primitive::Number(Arithmetic::Modulus)),
    ("REM", Primitive::Number(Arithmetic::Remainder)),
    ("=", Primitive::Order(Comparison::Same)),
    ("<", Primitive::Order(Comparison::Less)),
    (">", Primitive::Order(Comparison::Greater)),
    ("<=", Primitive::Order(Comparison::AtMost)),
    (">=", Primitive::Order(Comparison::AtLeast)),
    ("NOT", Primitive::Test(Predicate::Value(ValueTest::Null))),
    ("NULL", Primitive::Test(Predicate::Value(ValueTest::Null))),
    ("EQ", Primitive::Test(Predicate::Eql)),
    ("EQL", Primitive::Test(Predicate::Eql)),
    ("EQUAL", Primitive::Test(Predicate::Equal)),
    ("ATOM", Primitive::Test(Predicate::Value(ValueTest::Atom))),
    ("CONSP", Primitive::Test(Predicate::Value(ValueTest::Consp))),
    ("LISTP", Primitive::Test(Predicate::Value(ValueTest::Listp))),
    (
        "SYMBOLP",
        Primitive::Test(Predicate::Value(ValueTest::Symbolp)),
    ),
    (
        "INTEGERP",
        Primitive::Test(Predicate::Value(ValueTest::Integerp)),
    ),
    (
        "STRINGP",
        Primitive::Test(Predicate::Value(ValueTest::Stringp)),
    ),
    ("CAR", Primitive::Listed(ListFunction::Car)),
    ("CDR", Primitive::Listed(ListFunction::Cdr)),
    ("FIRST", Primitive::Listed(ListFunction::Car)),
    ("SECOND", Primitive::Listed(ListFunction::Second)),
    ("THIRD", Primitive::Listed(ListFunction::Third)),
    ("REST", Primitive::Listed(ListFunction::Cdr)),
    ("NTH", Primitive::Listed(ListFunction::Nth)),
    ("CONS", Primitive::Listed(ListFunction::Cons)),
    ("LIST", Primitive::Listed(ListFunction::List)),
    ("LIST*", Primitive::Listed(ListFunction::ListStar)),
    ("APPEND", Primitive::Listed(ListFunction::Append)),
    ("NCONC", Primitive::Listed(ListFunction::Append)),
    ("REVERSE", Primitive::Listed(ListFunction::Reverse)),
    ("LENGTH", Primitive::Length),
];

impl Primitive {
    /// The function of a name, if it has one.
    pub fn named(name: &Name) -> Option<Primitive>
        ensures { result ≡ primitive_of name.now }
    {
        if name.is_keyword() {
            return None;
        }
        entry_of(&NAMES, name.as_str())
    }
}

/// The function of these characters in a table.
fn entry_of(table: &[(&str, Primitive)], characters: &str) -> Option<Primitive>
    ensures { result ≡ entry_of (map told table.now) characters.now }
{
    for (text, primitive) in table {
        if *text == characters {
            return Some(*primitive);
        }
    }
    None
}
