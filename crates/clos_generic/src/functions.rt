//! One of the functions in their list.
ghost use Rattle.std.specs.Prelude.{◌≡◌, ◌==◌, ◌<◌, ◌+◌, ℕ, false, true, IfOk, IsOk, OnOk, OnErr, option_map, slice_get, vec_len, vec_capacity};
ghost use Rattle.std.specs.List.{find};
ghost use Rattle.clos_generic.specs.inner.EqlObjects.{KeepNotes, NotesEql, is_noted_in};
ghost use Rattle.clos_generic.specs.inner.Reserved.{HasRoom, is_added};
ghost use Rattle.clos_generic.specs.Table.{added, is_alike_at, methods_in, redefined, with_changed, with_methods, without};
ghost use Rattle.clos_generic.specs.TableView.{functions_in};

use crate::function::Function;
use crate::options::Options;
use clos_method::Method;
use lisp_data::{GenericId, MethodId, Value};
use std::alloc::AllocError;
use std::collections::VecDeque;

/// A function takes on these options.
pub fn redefine_at(functions: &mut Vec<Function>, id: GenericId, options: Options)
    requires { id.0 < vec_len functions.old }
    ensures seen { functions_in functions.new.items ≡ with_changed (redefined options) id.0 (functions_in functions.old.items) }
    ensures rooms { (n g : ℕ) → HasRoom n (slice_get functions.old.items g) → HasRoom n (slice_get functions.new.items g) }
    ensures notes { KeepNotes functions.old.items functions.new.items }
    ensures len { vec_len functions.new ≡ vec_len functions.old }
    ensures capacity { vec_capacity functions.new ≡ vec_capacity functions.old }
{
    functions[id.0 as usize].redefine(options);
}

/// A function has the next method, which is this one; gives back the one whose place it takes. Where there is no function
/// of this number, nothing is changed.
pub fn put_at(
    functions: &mut Vec<Function>,
    id: GenericId,
    all: &[Method],
    method: &Method,
) -> Result<Option<MethodId>, AllocError>
    ensures ok { OnOk result (functions_in functions.new.items ≡ with_changed (with_methods (added all.now method.now)) id.0 (functions_in functions.old.items)) }
    ensures replaced { IfOk result (λ r. option_map (λ m. m.0) r ≡ find (is_alike_at all.now method.now.qualifiers method.now.specializers) (methods_in (slice_get (functions_in functions.old.items) id.0))) }
    ensures err { OnErr result (functions_in functions.new.items ≡ functions_in functions.old.items) }
    ensures succeeds { HasRoom 1 (slice_get functions.old.items id.0) → IsOk result }
    ensures rooms { OnOk result ((n g : ℕ) → HasRoom (n + 1) (slice_get functions.old.items g) → HasRoom n (slice_get functions.new.items g)) }
    ensures err_rooms { OnErr result ((n g : ℕ) → HasRoom n (slice_get functions.old.items g) → HasRoom n (slice_get functions.new.items g)) }
    ensures notes { KeepNotes functions.old.items functions.new.items }
    ensures eql { OnOk result (id.0 < vec_len functions.old
        → NotesEql method.now.specializers (is_noted_in (slice_get functions.new.items id.0))) }
    ensures len { vec_len functions.new ≡ vec_len functions.old }
    ensures capacity { vec_capacity functions.new ≡ vec_capacity functions.old }
{
    if id.0 < functions.len() as u64 {
        return functions[id.0 as usize].put(all, method);
    }
    Ok(None)
}

/// A method is taken out of a function.
pub fn take_out_at(functions: &mut Vec<Function>, id: GenericId, method: MethodId)
    requires { id.0 < vec_len functions.old }
    ensures seen { functions_in functions.new.items ≡ with_changed (with_methods (without (λ n. n == method.0))) id.0 (functions_in functions.old.items) }
    ensures rooms { (n g : ℕ) → HasRoom n (slice_get functions.old.items g) → HasRoom n (slice_get functions.new.items g) }
    ensures notes { KeepNotes functions.old.items functions.new.items }
    ensures len { vec_len functions.new ≡ vec_len functions.old }
    ensures capacity { vec_capacity functions.new ≡ vec_capacity functions.old }
{
    functions[id.0 as usize].take_out(method);
}

/// Takes the memory for so many more methods of a function, if there is one of this number.
fn reserve_at(
    functions: &mut Vec<Function>,
    id: GenericId,
    methods: usize,
) -> Result<(), AllocError>
    ensures same { functions_in functions.new.items ≡ functions_in functions.old.items }
    ensures ok { OnOk result (HasRoom methods (slice_get functions.new.items id.0)) }
    ensures rooms { (n g : ℕ) → HasRoom n (slice_get functions.old.items g) → HasRoom n (slice_get functions.new.items g) }
    ensures notes { KeepNotes functions.old.items functions.new.items }
    ensures len { vec_len functions.new ≡ vec_len functions.old }
    ensures capacity { vec_capacity functions.new ≡ vec_capacity functions.old }
{
    if id.0 < functions.len() as u64 {
        return functions[id.0 as usize].reserve(methods);
    }
    Ok(())
}

/// Takes the memory for so many more methods of each of these functions.
pub fn reserve_each(
    functions: &mut Vec<Function>,
    ids: &VecDeque<GenericId>,
    methods: usize,
) -> Result<(), AllocError>
    ensures same { functions_in functions.new.items ≡ functions_in functions.old.items }
    ensures ok { OnOk result ((g : ℕ) → is_added g ids.now.items ≡ true → HasRoom methods (slice_get functions.new.items g)) }
    ensures notes { KeepNotes functions.old.items functions.new.items }
    ensures len { vec_len functions.new ≡ vec_len functions.old }
    ensures capacity { vec_capacity functions.new ≡ vec_capacity functions.old }
{
    for place in 0..ids.len() {
        reserve_at(functions, ids[place], methods)?;
    }
    Ok(())
}

/// Whether a method of a function may have an eql specializer of this object for the parameter at this place.
pub fn may_have_eql(functions: &[Function], id: GenericId, place: usize, object: &Value) -> bool
    ensures { result ≡ false → is_noted_in (slice_get functions.now id.0) place object.now ≡ false }
{
    match functions.get(id.0 as usize) {
        None => false,
        Some(function) => function.may_have_eql(place, object),
    }
}
