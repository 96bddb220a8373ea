//! The order of the methods of a group (HyperSpec 7.7 `define-method-combination`).
ghost use Rattle.std.specs.Prelude.{◌≡◌};
ghost use Rattle.lisp_data.specs.DatumView.{datum_of};
ghost use Rattle.clos_groups.specs.clos_method.MethodIds.{method_numbers};
ghost use Rattle.clos_comb.specs.Direction.{directed, direction_in};

use clos_groups::is_key;
use lisp_data::{Datum, MethodId};

/// The order of the methods of a group.
#[derive(Clone, Copy, Debug, Drop, PartialEq, Eq)]
pub enum Direction {
    MostSpecificFirst,
    MostSpecificLast,
}

impl Direction {
    /// The order that a keyword says.
    pub(crate) fn of(datum: &Datum) -> Option<Direction>
        ensures { result ≡ direction_in (datum_of datum.now) }
    {
        if is_key("MOST-SPECIFIC-FIRST", datum) {
            return Some(Direction::MostSpecificFirst);
        }
        if is_key("MOST-SPECIFIC-LAST", datum) {
            return Some(Direction::MostSpecificLast);
        }
        None
    }

    /// Puts methods in this order, of which the most specific is the first.
    #[tactic(auto, using(crate::proofs::Lists::reversed_numbers))]
    pub(crate) fn direct(self, ids: &mut Vec<MethodId>)
        ensures { method_numbers ids.new.items ≡ directed self (method_numbers ids.old.items) }
    {
        match self {
            Direction::MostSpecificFirst => {}
            Direction::MostSpecificLast => ids.reverse(),
        }
    }
}
