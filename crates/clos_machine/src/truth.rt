//! Truth values (HyperSpec 5.1.3).
ghost use Rattle.std.specs.Prelude.{◌≡◌, true};
ghost use Rattle.lisp_data.specs.Value.{list, nil};
ghost use Rattle.lisp_data.specs.ValueView.{value_of};
ghost use Rattle.lisp_prims.specs.Primitive.{truth};
ghost use Rattle.clos_meaning.specs.Outcome.{is_true};

use lisp_data::{Items, Name, Value};

/// Whether a value is true: it is not NIL.
pub fn is_true(value: &Value) -> bool
    ensures { result ≡ is_true (value_of value.now) }
{
    match value {
        Value::List(items) => items.split_first().is_some(),
        Value::Int(_) => true,
        Value::Sym(_) => true,
        Value::Str(_) => true,
        Value::Class(_) => true,
        Value::Generic(_) => true,
        Value::Method(_) => true,
        Value::Instance(_) => true,
    }
}

/// The value T.
pub fn t() -> Value
    ensures { value_of result ≡ truth true }
{
    Value::Sym(Name::fixed(&"T"))
}

/// The value NIL, the empty list.
pub fn nil() -> Value
    ensures { value_of result ≡ list nil }
{
    Value::List(Items::new())
}
