//! Names of which none may stand twice, and names that must be among others: found in time that grows with their number.
ghost use Rattle.std.specs.Prelude.{◌≡◌, IfOk};
ghost use Rattle.std.specs.HashSet.{contains};
ghost use Rattle.std.specs.List.{list_any};
ghost use Rattle.lisp_data.specs.Name.{Name, same_name};
ghost use Rattle.clos_forms.specs.Distinct.{are_among, are_distinct};

use lisp_data::Name;
use std::alloc::{AllocError, Global};
use std::collections::HashSet;

/// Whether no name stands twice.
pub fn are_distinct(alloc: Global, names: &[Name]) -> Result<bool, AllocError>
    ensures { IfOk result (λ r. r ≡ are_distinct names.now) }
{
    let mut seen = HashSet::new(alloc);
    let mut at = names.len();
    while at > 0 {
        at -= 1;
        let is_new = seen.insert(names[at].copy()?)?;
        if !is_new {
            return Ok(false);
        }
    }
    Ok(true)
}

/// Whether each of these names is one of the others.
pub fn are_among(alloc: Global, names: &[Name], others: &[Name]) -> Result<bool, AllocError>
    ensures { IfOk result (λ r. r ≡ are_among names.now others.now) }
{
    let known = set_of(alloc, others)?;
    let mut rest = names;
    while let Some((first, more)) = rest.split_first() {
        if !known.contains(first) {
            return Ok(false);
        }
        rest = more;
    }
    Ok(true)
}

fn set_of(alloc: Global, names: &[Name]) -> Result<HashSet<Name>, AllocError>
    ensures { IfOk result (λ s. (n : Name) → contains same_name s n ≡ list_any (λ m. same_name m n) names.now) }
{
    let mut set = HashSet::new(alloc);
    let mut at = names.len();
    while at > 0 {
        at -= 1;
        let _is_new = set.insert(names[at].copy()?)?;
    }
    Ok(set)
}
