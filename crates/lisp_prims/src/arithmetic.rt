//! Numbers of integers (HyperSpec 12.2).
ghost use Rattle.std.specs.Prelude.{map, IfOk, SomeIff, FitsSigned, ◌≡◌, ◌≢◌, ℤ, pos, true};
ghost use Rattle.lisp_data.specs.ValueView.{value_of};
ghost use Rattle.lisp_prims.specs.Arguments.{integers_of, some_integers_of};
ghost use Rattle.lisp_prims.specs.Arithmetic.{in_turn, operation, number_of, difference, divisible, floor_quotient, truncate_quotient, is_rounded_up, remainder};
ghost use Rattle.lisp_prims.specs.Fault.{Answers, given};
ghost use Rattle.lisp_prims.specs.Width.{fits, in_range, integer_width};

use crate::arguments::{integer, one_integer, two_integers};
use crate::fault::PrimFault;
use crate::width::Integer;
use lisp_data::Value;
use lisp_functions::Arithmetic;

/// An operation on two numbers that goes over all arguments.
#[derive(Clone, Copy, Debug, Drop, PartialEq, Eq)]
pub enum Step {
    Add,
    Multiply,
    Subtract,
    Maximum,
    Minimum,
}

/// The number that the function gives.
pub fn call(function: Arithmetic, args: &[Value]) -> Result<Integer, PrimFault>
    ensures { Answers result (number_of function (map value_of args.now)) }
{
    match function {
        Arithmetic::Sum => in_turn(Step::Add, 0, args),
        Arithmetic::Product => in_turn(Step::Multiply, 1, args),
        Arithmetic::Difference => difference(args),
        Arithmetic::Greatest => some_in_turn(Step::Maximum, args),
        Arithmetic::Least => some_in_turn(Step::Minimum, args),
        Arithmetic::Increment => within(one_integer(args)?.checked_add(1)),
        Arithmetic::Decrement => within(one_integer(args)?.checked_sub(1)),
        Arithmetic::Absolute => within(one_integer(args)?.checked_abs()),
        Arithmetic::Floor => {
            let (number, divisor) = divisible(args)?;
            within(floor(number, divisor))
        }
        Arithmetic::Truncate => {
            let (number, divisor) = divisible(args)?;
            within(number.checked_div(divisor))
        }
        Arithmetic::Modulus => {
            let (number, divisor) = divisible(args)?;
            Ok(modulus(number, divisor))
        }
        Arithmetic::Remainder => {
            let (number, divisor) = divisible(args)?;
            Ok(rest(number, divisor))
        }
    }
}

impl Step {
    /// The result, where it is in range.
    fn apply(self, left: Integer, right: Integer) -> Option<Integer>
        ensures { SomeIff result (fits (operation self left right) ≡ true) (operation self left right) }
    {
        match self {
            Step::Add => left.checked_add(right),
            Step::Multiply => left.checked_mul(right),
            Step::Subtract => left.checked_sub(right),
            Step::Maximum => Some(left.max(right)),
            Step::Minimum => Some(left.min(right)),
        }
    }
}

/// The result of all these numbers from left to right, from one to start with.
fn in_turn(step: Step, start: Integer, args: &[Value]) -> Result<Integer, PrimFault>
    ensures { Answers result (given (integers_of (map value_of args.now)) (in_turn (operation step) start)) }
{
    let mut total = Some(start);
    for value in args {
        let number = integer(value)?;
        if let Some(so_far) = total {
            total = step.apply(so_far, number);
        }
    }
    total.ok_or(PrimFault::IntegerRange)
}

/// The same of at least one number, from the first.
fn some_in_turn(step: Step, args: &[Value]) -> Result<Integer, PrimFault>
    ensures { Answers result (given (some_integers_of (map value_of args.now)) (λ p. in_turn (operation step) p.0 p.1)) }
{
    match args {
        [] => Err(PrimFault::ProgramError),
        [first, rest @ ..] => in_turn(step, integer(first)?, rest),
    }
}

/// The first number less the others, or the only one turned.
fn difference(args: &[Value]) -> Result<Integer, PrimFault>
    ensures { Answers result (given (some_integers_of (map value_of args.now)) (λ p. difference p.0 p.1)) }
{
    match args {
        [] => Err(PrimFault::ProgramError),
        [number] => within(integer(number)?.checked_neg()),
        [first, rest @ ..] => in_turn(Step::Subtract, integer(first)?, rest),
    }
}

/// A number and a divisor, which is not 0.
fn divisible(args: &[Value]) -> Result<(Integer, Integer), PrimFault>
    ensures value { Answers result (divisible (map value_of args.now)) }
    ensures divisor { IfOk result (λ p. p.1 ≢ pos 0) }
{
    let (number, divisor) = two_integers(args)?;
    if divisor == 0 {
        return Err(PrimFault::DivisionByZero);
    }
    Ok((number, divisor))
}

/// Whether the quotient rounded to zero is above the exact one.
fn is_rounded_up(number: Integer, divisor: Integer) -> bool
    requires { divisor ≢ pos 0 }
    ensures { result ≡ is_rounded_up number divisor }
{
    number.wrapping_rem(divisor) != 0 && (number < 0) != (divisor < 0)
}

/// The quotient rounded down, where it is in range.
#[tactic(auto, using(crate::proofs::OnQuotients::rounding))]
fn floor(number: Integer, divisor: Integer) -> Option<Integer>
    requires { divisor ≢ pos 0 }
    ensures { SomeIff result (FitsSigned integer_width (floor_quotient number divisor)) (floor_quotient number divisor) }
{
    let quotient = number.checked_div(divisor)?;
    if is_rounded_up(number, divisor) {
        quotient.checked_sub(1)
    } else {
        Some(quotient)
    }
}

/// What the quotient rounded down leaves.
#[tactic(auto, using(crate::proofs::OnQuotients::modulus_up, crate::proofs::OnQuotients::modulus_exact))]
fn modulus(number: Integer, divisor: Integer) -> Integer
    requires { divisor ≢ pos 0 }
    ensures { result ≡ remainder floor_quotient number divisor }
{
    let rest = number.wrapping_rem(divisor);
    if is_rounded_up(number, divisor) {
        rest + divisor
    } else {
        rest
    }
}

/// What the quotient rounded to zero leaves.
fn rest(number: Integer, divisor: Integer) -> Integer
    requires { divisor ≢ pos 0 }
    ensures { result ≡ remainder truncate_quotient number divisor }
{
    number.wrapping_rem(divisor)
}

/// A result, where it is in range.
fn within(number: Option<Integer>) -> Result<Integer, PrimFault>
    ensures { (z : ℤ) → SomeIff number (FitsSigned integer_width z) z → Answers result (in_range z) }
{
    number.ok_or(PrimFault::IntegerRange)
}
