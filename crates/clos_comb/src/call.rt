//! What effective forms are made of (HyperSpec 7.6.6.2, 7.7 `call-method`), as data.
ghost use Rattle.std.specs.Prelude.{◌≡◌, IfOk};
ghost use Rattle.lisp_data.specs.Datum.{cons, nil};
ghost use Rattle.lisp_data.specs.DatumView.{datum_of};
ghost use Rattle.clos_groups.specs.clos_method.MethodIds.{method_numbers};
ghost use Rattle.clos_comb.specs.Calls.{around, call_of, calls_before, made_of, methods_before, next_in};

use lisp_data::{Data, Datum, MethodId, Name};
use std::alloc::{AllocError, Global};

/// The list of this datum and those. No list that is made here nests deeper than the forms in it.
pub(crate) fn cons(alloc: Global, head: Datum, tail: Data) -> Result<Data, AllocError>
    ensures { IfOk result (λ l. l ≡ cons (datum_of head) tail) }
{
    match Data::cons(alloc, head, tail) {
        Ok(list) => Ok(list),
        Err(_) => Err(AllocError),
    }
}

/// These methods before those data.
pub(crate) fn methods_before(
    alloc: Global,
    ids: &[MethodId],
    tail: Data,
) -> Result<Data, AllocError>
    ensures { IfOk result (λ l. l ≡ methods_before (method_numbers ids.now) tail) }
{
    let mut list = tail;
    let mut left = ids.len();
    while left > 0 {
        left -= 1;
        list = cons(alloc, Datum::Method(ids[left]), list)?;
    }
    Ok(list)
}

/// The list of the next methods, where there are any.
fn next_in(alloc: Global, next: Data) -> Result<Data, AllocError>
    ensures { IfOk result (λ l. l ≡ next_in next) }
{
    if next.split_first().is_none() {
        return Ok(Data::new());
    }
    cons(alloc, Datum::List(next), Data::new())
}

/// A call of this method with these next methods.
pub(crate) fn call_of(alloc: Global, id: MethodId, next: Data) -> Result<Datum, AllocError>
    ensures { IfOk result (λ d. datum_of d ≡ call_of id.0 next) }
{
    let next = next_in(alloc, next)?;
    let parts = cons(alloc, Datum::Method(id), next)?;
    let call = Datum::Sym(Name::fixed(&"CALL-METHOD"));
    Ok(Datum::List(cons(alloc, call, parts)?))
}

/// Calls of these methods, which have no next methods, before those data.
pub(crate) fn calls_before(alloc: Global, ids: &[MethodId], tail: Data) -> Result<Data, AllocError>
    ensures { IfOk result (λ l. l ≡ calls_before (method_numbers ids.now) tail) }
{
    let mut list = tail;
    let mut left = ids.len();
    while left > 0 {
        left -= 1;
        let call = call_of(alloc, ids[left], Data::new())?;
        list = cons(alloc, call, list)?;
    }
    Ok(list)
}

/// A method that is made of this form.
fn made_of(alloc: Global, form: Datum) -> Result<Datum, AllocError>
    ensures { IfOk result (λ d. datum_of d ≡ made_of (datum_of form)) }
{
    let parts = cons(alloc, form, Data::new())?;
    let make = Datum::Sym(Name::fixed(&"MAKE-METHOD"));
    Ok(Datum::List(cons(alloc, make, parts)?))
}

/// A form within around methods, of which the last has it as its next method.
pub(crate) fn within(alloc: Global, methods: &[MethodId], form: Datum) -> Result<Datum, AllocError>
    ensures { IfOk result (λ d. datum_of d ≡ around (method_numbers methods.now) (datum_of form)) }
{
    match methods.split_first() {
        None => Ok(form),
        Some((first, others)) => {
            let made = cons(alloc, made_of(alloc, form)?, Data::new())?;
            let next = methods_before(alloc, others, made)?;
            call_of(alloc, *first, next)
        }
    }
}
