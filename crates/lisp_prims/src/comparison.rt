//! Orders of integers (HyperSpec 12.2).
ghost use Rattle.std.specs.Prelude.{◌≡◌, map, Ok};
ghost use Rattle.lisp_data.specs.ValueView.{value_of};
ghost use Rattle.lisp_prims.specs.Arguments.{integers_of};
ghost use Rattle.lisp_prims.specs.Comparison.{in_order, order_of, relation};
ghost use Rattle.lisp_prims.specs.Fault.{Answers, given};

use crate::arguments::integer;
use crate::fault::PrimFault;
use crate::width::Integer;
use lisp_data::Value;
use lisp_functions::Comparison;

/// Whether each number stands so to the next.
pub fn call(comparison: Comparison, args: &[Value]) -> Result<bool, PrimFault>
    ensures { Answers result (order_of comparison (map value_of args.now)) }
{
    match args {
        [] => Err(PrimFault::ProgramError),
        [first, rest @ ..] => orders(comparison, integer(first)?, rest),
    }
}

fn orders(comparison: Comparison, first: Integer, rest: &[Value]) -> Result<bool, PrimFault>
    ensures { Answers result (given (integers_of (map value_of rest.now)) (λ ns. Ok (in_order (relation comparison) first ns))) }
{
    let mut last = first;
    let mut holds = true;
    for value in rest {
        let number = integer(value)?;
        if holds {
            holds = is_so(comparison, last, number);
        }
        last = number;
    }
    Ok(holds)
}

/// Whether one number stands so to another.
fn is_so(comparison: Comparison, left: Integer, right: Integer) -> bool
    ensures { result ≡ relation comparison left right }
{
    match comparison {
        Comparison::Same => left == right,
        Comparison::Less => left < right,
        Comparison::Greater => left > right,
        Comparison::AtMost => left <= right,
        Comparison::AtLeast => left >= right,
    }
}
