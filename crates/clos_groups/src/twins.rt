//! Methods of equal specializers.
ghost use Rattle.std.specs.Prelude.{◌≡◌, IfOk, option_map};
ghost use Rattle.clos_method.specs.MethodIds.{method_numbers};
ghost use Rattle.clos_groups.specs.Refusal.{twins};
ghost use Rattle.clos_groups.specs.RefusalView.{pair_of};

use crate::key::Key;
use clos_method::{Method, method_numbered};
use lisp_data::MethodId;
use std::alloc::{AllocError, Global};
use std::collections::HashMap;

/// Of the pairs of these methods whose specializers are equal the one whose earlier method, and then whose later one, comes
/// first: found in time that grows with the number of methods.
#[tactic(auto, using(crate::proofs::Ambiguity::alone))]
pub(crate) fn twins(
    alloc: Global,
    methods: &[Method],
    ids: &[MethodId],
) -> Result<Option<(MethodId, MethodId)>, AllocError>
    ensures { IfOk result (λ r. option_map pair_of r ≡ twins methods.now (method_numbers ids.now)) }
{
    if ids.len() < 2 {
        return Ok(None);
    }
    let mut next = HashMap::new(alloc);
    let mut found = None;
    let mut at = ids.len();
    while at > 0 {
        at -= 1;
        let id = ids[at];
        if let Some(method) = method_numbered(methods, id) {
            let key = Key::new(method.specializers.copy(alloc)?);
            if let Some(twin) = next.insert(key, id)? {
                found = Some((id, twin));
            }
        }
    }
    Ok(found)
}
