//! Laws of the definitions.
ghost use Rattle.lisp_prims.specs.Rounding.{RoundsDown, RoundsToZero};

/// FLOOR's quotient is the greatest number at or below the exact one: what it leaves of the number is nearer to 0 than
/// the divisor, and on the divisor's side.
pub fn rounds_down()
    ensures { RoundsDown }
{}

/// TRUNCATE's quotient is the exact one without its fraction: what it leaves is nearer to 0 than the divisor, and on
/// the number's side.
pub fn rounds_to_zero()
    ensures { RoundsToZero }
{}
