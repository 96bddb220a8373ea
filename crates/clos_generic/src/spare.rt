//! Memory that was taken beforehand for functions that are to be made, and for methods that are to be added.
ghost use Rattle.std.specs.Prelude.{◌≡◌, ◌==◌, ◌≤◌, [], ℕ, IfOk, map, slice_get, vec_capacity};
ghost use Rattle.clos_generic.specs.inner.Reserved.{HasSpare, first_if, ids_of, keys_of};
ghost use Rattle.clos_generic.specs.Held.{after_first};
ghost use Rattle.clos_generic.specs.Table.{same_function};

use crate::changes::{Addition, Definition};
use crate::eql_objects::EqlObjects;
use crate::names::{copy_name, is_same};
use clos_forms::FunctionName;
use lisp_data::{GenericId, MethodId};
use std::alloc::{AllocError, Global};
use std::collections::VecDeque;

/// What a new function takes memory for.
#[derive(Drop)]
pub struct Spare {
    /// Its name, by which it is found.
    pub(crate) key: FunctionName,
    /// Room for its methods.
    pub(crate) methods: Vec<MethodId>,
    pub(crate) eql_objects: EqlObjects,
}

impl Spare {
    /// For a function of this name, and so many methods.
    pub fn new(alloc: Global, name: &FunctionName, methods: usize) -> Result<Spare, AllocError>
        ensures key { IfOk result (λ r. r.key ≡ name.now) }
        ensures room { IfOk result (λ r. (r.methods.items ≡ []) × (methods ≤ vec_capacity r.methods)) }
    {
        Ok(Spare {
            key: copy_name(name)?,
            methods: Vec::with_capacity(alloc, methods)?,
            eql_objects: EqlObjects::new(alloc),
        })
    }
}

/// Takes the first one, if it is for this name, and lets all go if not.
pub fn take_spare(spares: &mut VecDeque<Spare>, name: &FunctionName) -> Option<Spare>
    ensures found { result ≡ first_if (λ s. same_function s.key name.now) spares.old.items }
    ensures rest { spares.new.items ≡ after_first (λ s. same_function s.key name.now) spares.old.items }
{
    match spares.pop_front() {
        None => None,
        Some(spare) => {
            if is_same(&spare.key, name) {
                Some(spare)
            } else {
                spares.clear();
                None
            }
        }
    }
}

/// Takes the first one off, if it is this function, and lets all go if not.
pub fn pass_addition(additions: &mut VecDeque<GenericId>, id: GenericId)
    ensures { additions.new.items ≡ after_first (λ h. h.0 == id.0) additions.old.items }
{
    match additions.pop_front() {
        None => {}
        Some(first) => {
            if first.0 != id.0 {
                additions.clear();
            }
        }
    }
}

/// Spares for these definitions, with room for so many methods of each.
pub fn spares_for(
    alloc: Global,
    definitions: &[Definition],
    methods: usize,
) -> Result<VecDeque<Spare>, AllocError>
    ensures keys { IfOk result (λ r. keys_of r.items ≡ map (λ d. d.name) definitions.now) }
    ensures rooms { IfOk result (λ r. (k : ℕ) → HasSpare methods (slice_get r.items k)) }
{
    let mut spares = VecDeque::new(alloc);
    for definition in definitions {
        spares.push_back(Spare::new(alloc, &definition.name, methods)?)?;
    }
    Ok(spares)
}

/// The functions of these additions.
pub fn functions_of(
    alloc: Global,
    additions: &[Addition],
) -> Result<VecDeque<GenericId>, AllocError>
    ensures { IfOk result (λ r. ids_of r.items ≡ map (λ a. a.generic.0) additions.now) }
{
    let mut ids = VecDeque::new(alloc);
    for addition in additions {
        ids.push_back(addition.generic)?;
    }
    Ok(ids)
}
