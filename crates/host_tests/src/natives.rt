//! Stored functions answer as they are, by their names.
ghost use Rattle.std.specs.Prelude.{◌≡◌, ℤ, pos, negsuc, false, int_lt, length};

use clos_native::{Native, Relation, find};
use lisp_data::Name;
use std::alloc::{AllocError, Global};
use std::test::Fail;

/// The four low bits of an integer, in two's complement.
fn low(arguments: &[i64]) -> i64
    requires { length arguments.now ≡ 1 }
    ensures { (int_lt result (pos 0) ≡ false) × (int_lt (pos 15) result ≡ false) }
{
    arguments[0] & 15
}

#[test]
fn the_function_of_a_name_answers(rt: HostRuntime) -> Result<(), Fail> {
    let alloc = rt.alloc();
    let relation = Relation::Within { lo: 0, hi: 15 };
    let native = Native::new(Name::fixed(&"LOW"), 1, relation, Box::new(alloc, low)?);
    let mut natives = Vec::new(alloc);
    natives.push(native)?;
    let answer = match find(natives.as_slice(), &Name::fixed(&"LOW")) {
        None => None,
        Some(native) => {
            if native.arity() == 1 {
                Some(native.call(&[23]))
            } else {
                None
            }
        }
    };
    assert_eq!(rt; answer, Some(7));
    Ok(())
}
