//! What is wrong with a definition of a class by its names alone.
ghost use Rattle.std.specs.Prelude.{◌≡◌, ◌-◌, ◌&&◌, ◌||◌, ℕ, not, None, IfOk, IfErr, OnOk, length, nat_lt, nat_le};
ghost use Rattle.std.specs.List.{list_any};
ghost use Rattle.lisp_data.specs.Name.{same_name};
ghost use Rattle.clos_hierarchy.specs.Classes.{number_of};
ghost use Rattle.clos_hierarchy.specs.Table.{misnamed, or_standard, standard_object, is_predefined, has_twice, is_full, invalid_in};
ghost use Rattle.clos_hierarchy.specs.TableView.{Refuses};

use crate::definitions::Definitions;
use crate::fault::ClassFault;
use lisp_data::Name;
use std::alloc::{AllocError, Global};
use std::collections::HashSet;

const STANDARD_OBJECT: &str = "STANDARD-OBJECT";

/// These names, or STANDARD-OBJECT where there are none.
pub fn or_standard(alloc: Global, names: Vec<Name>) -> Result<Vec<Name>, AllocError>
    ensures { IfOk result (λ r. r.items ≡ or_standard names.items) }
{
    if names.len() > 0 {
        return Ok(names);
    }
    let mut standard = Vec::new(alloc);
    standard.push(Name::fixed(&STANDARD_OBJECT))?;
    Ok(standard)
}

fn is_standard(name: &Name) -> bool
    ensures { result ≡ same_name name.now standard_object }
{
    name.is(&Name::fixed(&STANDARD_OBJECT))
}

/// Whether a name stands twice.
#[tactic(auto, using(crate::proofs::Twice::none_seen))]
fn has_twice(alloc: Global, names: &[Name]) -> Result<bool, AllocError>
    ensures { IfOk result (λ r. r ≡ has_twice names.now) }
{
    let mut seen = HashSet::new(alloc);
    let mut left = names;
    while let Some((name, others)) = left.split_first() {
        let is_new = seen.insert(name.copy()?)?;
        if !is_new {
            return Ok(true);
        }
        left = others;
    }
    Ok(false)
}

/// Whether a name is one of the predefined classes', of which there are so many.
fn is_predefined(definitions: &Definitions, predefined: u64, name: &Name) -> bool
    ensures { result ≡ nat_lt (number_of definitions.now name.now) predefined }
{
    definitions.number_of(name) < predefined
}

/// Finds the first of these superclasses that is predefined and not STANDARD-OBJECT.
fn check_superclasses(
    definitions: &Definitions,
    predefined: u64,
    names: &[Name],
) -> Result<(), ClassFault>
    ensures ok { OnOk result ((limit : ℕ) → invalid_in (record { classes = definitions.now; predefined = predefined; limit = limit }) names.now ≡ None) }
    ensures fault { IfErr result (λ e. (limit : ℕ) → Refuses e (invalid_in (record { classes = definitions.now; predefined = predefined; limit = limit }) names.now)) }
{
    let mut left = names;
    while let Some((name, others)) = left.split_first() {
        if is_predefined(definitions, predefined, name) && !is_standard(name) {
            return Err(ClassFault::InvalidSuperclass(name.copy()?));
        }
        left = others;
    }
    Ok(())
}

/// Whether there is no room for a class of this name, which is new.
fn is_full(definitions: &Definitions, predefined: u64, limit: u64, name: &Name) -> bool
    ensures { result ≡ (not (list_any (same_name name.now) definitions.now.names) && nat_le limit (length definitions.now.names - predefined)) }
{
    !definitions.has(name) && limit <= (definitions.len() as u64).saturating_sub(predefined)
}

/// Finds what is wrong with a definition by its names alone.
pub fn check_names(
    alloc: Global,
    definitions: &Definitions,
    predefined: u64,
    limit: u64,
    name: &Name,
    above: &[Name],
) -> Result<(), ClassFault>
    ensures ok { OnOk result (misnamed (record { classes = definitions.now; predefined = predefined; limit = limit }) name.now above.now ≡ None) }
    ensures fault { IfErr result (λ e. Refuses e (misnamed (record { classes = definitions.now; predefined = predefined; limit = limit }) name.now above.now)) }
{
    if is_predefined(definitions, predefined, name) || has_twice(alloc, above)? {
        return Err(ClassFault::ProgramError);
    }
    if is_full(definitions, predefined, limit, name) {
        return Err(ClassFault::TableLimit);
    }
    check_superclasses(definitions, predefined, above)
}
