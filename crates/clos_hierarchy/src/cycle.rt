//! Classes that would be their own superclasses (HyperSpec 4.3.4).
ghost use Rattle.std.specs.Prelude.{◌≡◌, IfOk, OnOk};
ghost use Rattle.clos_hierarchy.specs.Classes.{defined, is_circular};
ghost use Rattle.clos_precedence.specs.OrderView.{with_all_seen};

use crate::definitions::Definitions;
use clos_precedence::Seen;
use lisp_data::{ClassId, Name};
use std::alloc::{AllocError, Global};

/// Adds the classes of these names, those that are defined and not there yet.
fn add_defined(definitions: &Definitions, names: &[Name], seen: &mut Seen) -> Result<(), AllocError>
    ensures { OnOk result (seen.new ≡ with_all_seen seen.old (defined definitions.now names.now)) }
{
    let mut left = names;
    while let Some((name, others)) = left.split_first() {
        if let Some(class) = definitions.named(name) {
            seen.add_new(class)?;
        }
        left = others;
    }
    Ok(())
}

/// Whether a class is above itself. All that are above it are taken once, in the order in which they are met.
#[tactic(auto, using(crate::proofs::Climbing::climbed))]
pub fn is_circular(
    alloc: Global,
    definitions: &Definitions,
    class: ClassId,
) -> Result<bool, AllocError>
    ensures { IfOk result (λ r. r ≡ is_circular definitions.now class.0) }
{
    let mut above = Seen::new(alloc);
    add_defined(definitions, definitions.above(class), &mut above)?;
    let mut place = 0;
    while place < above.len() {
        let next = above.at(place);
        add_defined(definitions, definitions.above(next), &mut above)?;
        place += 1;
    }
    Ok(above.has(class))
}
