//! Numbers by the names of functions.
ghost use Rattle.std.specs.Prelude.{◌≡◌, ◌<◌, ◌≤◌, ◌+◌, IsOk, Some, None, OnOk, OnErr, IfOk, if◌then◌else◌};
ghost use Rattle.std.specs.Option.{option_or};
ghost use Rattle.std.specs.HashMap.{get, spare};
ghost use Rattle.lisp_data.specs.Name.{Name, same_name};
ghost use Rattle.clos_forms.specs.declared.operator.FunctionName.TheVariants.{Symbol, Setf};
ghost use Rattle.clos_generic.specs.Table.{same_function};
ghost use Rattle.clos_generic.specs.TableView.{noted};

use clos_forms::FunctionName;
use lisp_data::{GenericId, Name};
use std::alloc::AllocError;
use std::collections::HashMap;

/// The same name.
pub fn copy_name(name: &FunctionName) -> Result<FunctionName, AllocError>
    ensures { IfOk result (λ r. r ≡ name.now) }
{
    match name {
        FunctionName::Symbol(name) => Ok(FunctionName::Symbol(name.copy()?)),
        FunctionName::Setf(name) => Ok(FunctionName::Setf(name.copy()?)),
    }
}

/// Whether both are one name.
pub fn is_same(a: &FunctionName, b: &FunctionName) -> bool
    ensures { result ≡ same_function a.now b.now }
{
    match (a, b) {
        (FunctionName::Symbol(a), FunctionName::Symbol(b)) => a.is(b),
        (FunctionName::Setf(a), FunctionName::Setf(b)) => a.is(b),
        _ => false,
    }
}

/// Notes the number of a function under its name, unless the name has one.
pub fn note_function(
    symbols: &mut HashMap<Name, GenericId>,
    setters: &mut HashMap<Name, GenericId>,
    name: FunctionName,
    id: GenericId,
) -> Result<(), AllocError>
    ensures symbols { OnOk result ((n : Name) → get same_name symbols.new n ≡ option_or (get same_name symbols.old n) (noted name id (Symbol n))) }
    ensures setters { OnOk result ((n : Name) → get same_name setters.new n ≡ option_or (get same_name setters.old n) (noted name id (Setf n))) }
    ensures err_symbols { OnErr result ((n : Name) → get same_name symbols.new n ≡ get same_name symbols.old n) }
    ensures err_setters { OnErr result ((n : Name) → get same_name setters.new n ≡ get same_name setters.old n) }
    ensures succeeds { 0 < spare symbols.old → 0 < spare setters.old → IsOk result }
    ensures spare_symbols { spare symbols.old ≤ spare symbols.new + 1 }
    ensures spare_setters { spare setters.old ≤ spare setters.new + 1 }
{
    match name {
        FunctionName::Symbol(name) => note(symbols, name, id),
        FunctionName::Setf(name) => note(setters, name, id),
    }
}

/// Notes a number under a name, unless the name has one.
fn note(index: &mut HashMap<Name, GenericId>, name: Name, id: GenericId) -> Result<(), AllocError>
    ensures ok { OnOk result ((n : Name) → get same_name index.new n ≡ option_or (get same_name index.old n) (if same_name name n then Some id else None)) }
    ensures err { OnErr result ((n : Name) → get same_name index.new n ≡ get same_name index.old n) }
    ensures succeeds { 0 < spare index.old → IsOk result }
    ensures spare { spare index.old ≤ spare index.new + 1 }
{
    if !index.contains_key(&name) {
        index.insert(name, id)?;
    }
    Ok(())
}
