//! What the program `clos` has hear of changes (AMOP chapter 6).
ghost use Rattle.std.specs.Prelude.{◌≡◌, pos};
ghost use Rattle.clos_program.specs.Dependents.{kind_number};

use clos_ending::{Listener, Notice};

/// Answers the number of a notice's kind.
#[derive(Drop)]
pub struct KindNumber;

/// The number of a notice's kind: 1 a class was defined again, 2 a method was added, 3 a method was removed, 4 a generic function
/// was defined again.
pub fn kind_number(notice: &Notice) -> i64
    ensures { result ≡ kind_number notice.now }
{
    match notice {
        Notice::ClassRedefined(_) => 1,
        Notice::MethodAdded(_, _) => 2,
        Notice::MethodRemoved(_, _) => 3,
        Notice::GenericRedefined(_) => 4,
    }
}

impl Listener for KindNumber {
    ghost lo = { λ it. pos 1 };

    ghost hi = { λ it. pos 4 };

    fn answer(&self, notice: &Notice) -> i64 {
        kind_number(notice)
    }
}
