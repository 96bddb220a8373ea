//! The functions that the program `clos` stores for the programs that it runs.
ghost use Rattle.std.specs.Prelude.{◌≡◌, ◌∷◌, [], pos, negsuc, false, int_lt, length, ◌+ℤ◌, ◌*ℤ◌};
ghost use Rattle.clos_ending.specs.clos_system.clos_session.clos_native.Relation.{clamped, weighed};

/// Three times the first, less two times the second, and 7, within -1000 and 1000.
#[tactic(auto, using(crate::proofs::Sums::weighed_two))]
pub fn affine(arguments: &[i64]) -> i64
    requires { length arguments.now ≡ 2 }
    ensures { result ≡ clamped (negsuc 999) (pos 1_000) (weighed (pos 3 ∷ negsuc 1 ∷ []) (pos 7) arguments.now) }
{
    within_thousands(affine_sum(arguments[0], arguments[1]))
}

/// Three times the first, less two times the second, and 7.
fn affine_sum(first: i64, second: i64) -> i128
    ensures { result ≡ (pos 3 *ℤ first) +ℤ ((negsuc 1 *ℤ second) +ℤ pos 7) }
{
    3 * i128::from(first) + (-2 * i128::from(second) + 7)
}

/// A number, or the bound of -1000 and 1000 that it passes.
fn within_thousands(number: i128) -> i64
    ensures { result ≡ clamped (negsuc 999) (pos 1_000) number }
{
    if number < -1_000 {
        -1_000
    } else if number > 1_000 {
        1_000
    } else {
        number as i64
    }
}

/// The four low bits, in two's complement: from 0 to 15.
pub fn low(arguments: &[i64]) -> i64
    requires { length arguments.now ≡ 1 }
    ensures { (int_lt result (pos 0) ≡ false) × (int_lt (pos 15) result ≡ false) }
{
    arguments[0] & 15
}
