//! Tests of values (HyperSpec 5.3, 10.2, 12.2, 14.2, 16.2).
ghost use Rattle.std.specs.Prelude.{◌≡◌, map};
ghost use Rattle.lisp_data.specs.ValueView.{value_of};
ghost use Rattle.lisp_prims.specs.Fault.{Answers};
ghost use Rattle.lisp_prims.specs.Predicates.{eql_of, holds_of, holds_of_integer, is_cons, is_even, is_nil, is_symbol, truth_of};

use crate::arguments::{one, one_integer, two};
use crate::fault::PrimFault;
use crate::width::Integer;
use lisp_data::{Value, eql, equal};
use lisp_functions::{IntegerTest, Predicate, ValueTest};

/// Whether the test holds.
pub fn call(predicate: Predicate, args: &[Value]) -> Result<bool, PrimFault>
    ensures { Answers result (truth_of predicate (map value_of args.now)) }
{
    match predicate {
        Predicate::Value(test) => {
            let value = one(args)?;
            Ok(holds_of(test, value))
        }
        Predicate::Integer(test) => {
            let number = one_integer(args)?;
            Ok(holds_of_integer(test, number))
        }
        Predicate::Eql => {
            let (left, right) = two(args)?;
            same_object(left, right)
        }
        Predicate::Equal => {
            let (left, right) = two(args)?;
            Ok(left == right)
        }
    }
}

fn holds_of(test: ValueTest, value: &Value) -> bool
    ensures { result ≡ holds_of test (value_of value.now) }
{
    match test {
        ValueTest::Null => is_nil(value),
        ValueTest::Atom => !is_cons(value),
        ValueTest::Consp => is_cons(value),
        ValueTest::Listp => matches!(value, Value::List(_)),
        ValueTest::Symbolp => is_symbol(value),
        ValueTest::Integerp => matches!(value, Value::Int(_)),
        ValueTest::Stringp => matches!(value, Value::Str(_)),
    }
}

fn holds_of_integer(test: IntegerTest, number: Integer) -> bool
    ensures { result ≡ holds_of_integer test number }
{
    match test {
        IntegerTest::Zerop => number == 0,
        IntegerTest::Plusp => number > 0,
        IntegerTest::Minusp => number < 0,
        IntegerTest::Evenp => is_even(number),
        IntegerTest::Oddp => !is_even(number),
    }
}

fn is_nil(value: &Value) -> bool
    ensures { result ≡ is_nil (value_of value.now) }
{
    match value {
        Value::List(items) => items.len() == 0,
        _ => false,
    }
}

fn is_cons(value: &Value) -> bool
    ensures { result ≡ is_cons (value_of value.now) }
{
    match value {
        Value::List(items) => items.len() != 0,
        _ => false,
    }
}

fn is_symbol(value: &Value) -> bool
    ensures { result ≡ is_symbol (value_of value.now) }
{
    match value {
        Value::Sym(_) => true,
        _ => is_nil(value),
    }
}

fn is_even(number: Integer) -> bool
    ensures { result ≡ is_even number }
{
    number % 2 == 0
}

/// Whether both are one object, where their values tell.
fn same_object(left: &Value, right: &Value) -> Result<bool, PrimFault>
    ensures { Answers result (eql_of (value_of left.now, value_of right.now)) }
{
    match eql(left, right) {
        Ok(same) => Ok(same),
        Err(_) => Err(PrimFault::Unsupported),
    }
}
