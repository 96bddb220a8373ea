//! When two values are the same (HyperSpec 5.3, functions EQL and EQUAL).
ghost use Rattle.std.specs.Prelude.{◌≡◌, ◌↔◌, IfOk, IsTrue, is_err};
ghost use Rattle.lisp_data.specs.DatumView.{datum_of};
ghost use Rattle.lisp_data.specs.ValueView.{value_of};
ghost use Rattle.lisp_data.specs.Equality.{is_by_object};

use crate::datum::{Data, Datum};
use crate::value::{Items, Value};

/// Two non-empty lists or two strings were compared by `eql`.
#[derive(Clone, Copy, Debug, PartialEq, Eq)]
pub struct Unsupported;

/// Whether both are one number, symbol or object. NIL is itself; other lists, and strings, are refused.
pub fn eql(a: &Value, b: &Value) -> Result<bool, Unsupported>
    ensures refused { is_err result ≡ is_by_object (value_of a.now) (value_of b.now) }
    ensures same { IfOk result (λ r. IsTrue r ↔ (value_of a.now ≡ value_of b.now)) }
{
    match (a, b) {
        (Value::Int(a), Value::Int(b)) => Ok(a == b),
        (Value::Sym(a), Value::Sym(b)) => Ok(a.is(b)),
        (Value::Str(_), Value::Str(_)) => Err(Unsupported),
        (Value::List(a), Value::List(b)) => match (a.split_first(), b.split_first()) {
            (Some(_), Some(_)) => Err(Unsupported),
            (None, None) => Ok(true),
            _ => Ok(false),
        },
        (Value::Class(a), Value::Class(b)) => Ok(a == b),
        (Value::Generic(a), Value::Generic(b)) => Ok(a == b),
        (Value::Method(a), Value::Method(b)) => Ok(a == b),
        (Value::Instance(a), Value::Instance(b)) => Ok(a == b),
        _ => Ok(false),
    }
}

/// Whether both have the same content: lists by their elements, strings by their characters.
#[cycle(equal)]
pub fn equal(a: &Value, b: &Value) -> bool
    ensures { IsTrue result ↔ (value_of a.now ≡ value_of b.now) }
{
    match (a, b) {
        (Value::Str(a), Value::Str(b)) => a.is(b),
        (Value::List(a), Value::List(b)) => equal_items(a, b),
        _ => eql(a, b).unwrap_or(false),
    }
}

#[cycle(equal)]
fn equal_items(a: &Items, b: &Items) -> bool
    ensures { IsTrue result ↔ (a.now ≡ b.now) }
{
    let mut left = a;
    let mut right = b;
    loop {
        match (left.split_first(), right.split_first()) {
            (None, None) => return true,
            (Some((x, xs)), Some((y, ys))) => {
                if !equal(x, y) {
                    return false;
                }
                left = xs;
                right = ys;
            }
            _ => return false,
        }
    }
}

/// Whether both are one datum.
#[cycle(equal_data)]
pub fn equal_data(a: &Datum, b: &Datum) -> bool
    ensures { IsTrue result ↔ (datum_of a.now ≡ datum_of b.now) }
{
    match (a, b) {
        (Datum::Int(a), Datum::Int(b)) => a == b,
        (Datum::Sym(a), Datum::Sym(b)) => a.is(b),
        (Datum::Str(a), Datum::Str(b)) => a.is(b),
        (Datum::List(a), Datum::List(b)) => equal_elements(a, b),
        (Datum::Dotted(a), Datum::Dotted(b)) => {
            equal_elements(a.front(), b.front()) && equal_data(a.last(), b.last())
        }
        (Datum::Method(a), Datum::Method(b)) => a == b,
        _ => false,
    }
}

#[cycle(equal_data)]
fn equal_elements(a: &Data, b: &Data) -> bool
    ensures { IsTrue result ↔ (a.now ≡ b.now) }
{
    let mut left = a;
    let mut right = b;
    loop {
        match (left.split_first(), right.split_first()) {
            (None, None) => return true,
            (Some((d, ds)), Some((e, es))) => {
                if !equal_data(d, e) {
                    return false;
                }
                left = ds;
                right = es;
            }
            _ => return false,
        }
    }
}
