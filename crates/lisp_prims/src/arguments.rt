//! How functions take their arguments: first their number, then the leftmost of a wrong type.
ghost use Rattle.std.specs.Prelude.{map};
ghost use Rattle.lisp_data.specs.ValueView.{value_of};
ghost use Rattle.lisp_prims.specs.Arguments.{any, integer_of, one_of, two_of};
ghost use Rattle.lisp_prims.specs.Fault.{Answers, AnswersAs};

use crate::fault::PrimFault;
use crate::width::Integer;
use lisp_data::Value;

/// The integer that a value is.
pub fn integer(value: &Value) -> Result<Integer, PrimFault>
    ensures { Answers result (integer_of (value_of value.now)) }
{
    match value {
        Value::Int(number) => Ok(*number),
        _ => Err(PrimFault::wrong(value)),
    }
}

/// The only argument.
pub fn one(args: &[Value]) -> Result<&Value, PrimFault>
    ensures { AnswersAs (λ v. value_of v.now) result (one_of any (map value_of args.now)) }
{
    match args {
        [value] => Ok(value),
        _ => Err(PrimFault::ProgramError),
    }
}

/// The two arguments.
pub fn two(args: &[Value]) -> Result<(&Value, &Value), PrimFault>
    ensures { AnswersAs (λ p. (value_of p.0.now, value_of p.1.now)) result (two_of any any (map value_of args.now)) }
{
    match args {
        [left, right] => Ok((left, right)),
        _ => Err(PrimFault::ProgramError),
    }
}

/// The only argument, an integer.
pub fn one_integer(args: &[Value]) -> Result<Integer, PrimFault>
    ensures { Answers result (one_of integer_of (map value_of args.now)) }
{
    match args {
        [value] => integer(value),
        _ => Err(PrimFault::ProgramError),
    }
}

/// The two arguments, integers.
pub fn two_integers(args: &[Value]) -> Result<(Integer, Integer), PrimFault>
    ensures { Answers result (two_of integer_of integer_of (map value_of args.now)) }
{
    match args {
        [left, right] => {
            let left = integer(left)?;
            let right = integer(right)?;
            Ok((left, right))
        }
        _ => Err(PrimFault::ProgramError),
    }
}
