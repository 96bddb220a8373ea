//! What the functions of values answer.
ghost use Rattle.std.specs.Prelude.{◌≡◌, Bool, true, map, Result, Ok, Some, is_some};
ghost use Rattle.lisp_data.specs.ValueView.{value_of};
ghost use Rattle.lisp_prims.specs.Fault.{Answers, AnswersAs, AnswersUnlessMemory, Condition, given};
ghost use Rattle.lisp_functions.specs.Primitive.{primitive_of};
ghost use Rattle.lisp_prims.specs.Primitive.{answer, gives_number_or_truth, truth};

use crate::fault::PrimFault;
use crate::lists::length;
use crate::{arithmetic, comparison, lists, predicates};
use lisp_data::{Items, Name, Value};
use lisp_functions::Primitive;
use std::alloc::Global;

/// The value of the function at these arguments.
pub fn apply(primitive: Primitive, alloc: Global, args: &[Value]) -> Result<Value, PrimFault>
    ensures answer { AnswersUnlessMemory value_of result (answer primitive (map value_of args.now)) }
    ensures memory { gives_number_or_truth primitive ≡ true → AnswersAs value_of result (answer primitive (map value_of args.now)) }
{
    match primitive {
        Primitive::Number(function) => Ok(Value::Int(arithmetic::call(function, args)?)),
        Primitive::Order(function) => as_truth(comparison::call(function, args)),
        Primitive::Test(function) => as_truth(predicates::call(function, args)),
        Primitive::Length => Ok(Value::Int(length(args)?)),
        Primitive::Listed(function) => lists::call(function, alloc, args),
    }
}

/// Whether a name is that of a function of values.
pub fn serves(name: &Name) -> bool
    ensures { result ≡ is_some (primitive_of name.now) }
{
    Primitive::named(name).is_some()
}

/// The value of the function of a name that is served.
pub fn call(alloc: Global, name: &Name, args: &[Value]) -> Result<Value, PrimFault>
    requires { is_some (primitive_of name.now) ≡ true }
    ensures answer { (p : Primitive) → primitive_of name.now ≡ Some p → AnswersUnlessMemory value_of result (answer p (map value_of args.now)) }
    ensures memory { (p : Primitive) → primitive_of name.now ≡ Some p → gives_number_or_truth p ≡ true → AnswersAs value_of result (answer p (map value_of args.now)) }
{
    match Primitive::named(name) {
        Some(primitive) => apply(primitive, alloc, args),
        None => unreachable!("the name is served"),
    }
}

fn as_truth(holds: Result<bool, PrimFault>) -> Result<Value, PrimFault>
    ensures { (x : Result Bool Condition) → Answers holds x → AnswersAs value_of result (given x (λ b. Ok (truth b))) }
{
    Ok(truth(holds?))
}

/// T or NIL.
fn truth(holds: bool) -> Value
    ensures { value_of result ≡ truth holds }
{
    if holds {
        Value::Sym(Name::fixed(&"T"))
    } else {
        Value::List(Items::new())
    }
}
