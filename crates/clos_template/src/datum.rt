//! Data that templates work on.
ghost use Rattle.std.specs.Prelude.{◌≡◌, ◌++◌, ◌∷◌, [], Some, OnOk, map, option_map, length};
ghost use Rattle.lisp_data.specs.Datum.{dotted, elements, length_of, nil};
ghost use Rattle.lisp_data.specs.DatumView.{datum_of};
ghost use Rattle.clos_lambda.specs.Lists.{ahead, list_in};
ghost use Rattle.clos_template.specs.Expansion.{Comes, built};
ghost use Rattle.clos_template.specs.Function.{from_elements, is_list, is_nil, nil_symbol, prepended, reversed, truth};
ghost use Rattle.clos_template.specs.FunctionView.{Builds, BuildsDatum, Has};
ghost use Rattle.clos_template.specs.Meaning.{ended};

use crate::fault::ExpansionFault;
use clos_forms::is_the;
use lisp_data::{Data, Datum, Dot, ListFault, Name};
use std::alloc::{AllocError, Global};

/// The symbol NIL.
pub fn nil_symbol() -> Datum
    ensures { datum_of result ≡ nil_symbol }
{
    Datum::Sym(Name::fixed(&"NIL"))
}

/// The symbol T, or NIL.
pub fn truth(holds: bool) -> Datum
    ensures { datum_of result ≡ truth holds }
{
    if holds {
        Datum::Sym(Name::fixed(&"T"))
    } else {
        nil_symbol()
    }
}

/// Whether a datum is NIL, which may be written as the empty list.
pub(crate) fn is_nil(datum: &Datum) -> bool
    ensures { result ≡ is_nil (datum_of datum.now) }
{
    match datum {
        Datum::Sym(name) => is_the(name, "NIL"),
        Datum::List(elements) => elements.split_first().is_none(),
        _ => false,
    }
}

pub(crate) fn is_list(datum: &Datum) -> bool
    ensures { result ≡ is_list (datum_of datum.now) }
{
    match datum {
        Datum::List(_) => true,
        Datum::Dotted(_) => true,
        _ => false,
    }
}

/// The elements of a list; another datum is a wrong type.
pub(crate) fn elements(datum: &Datum) -> Result<Data, ExpansionFault>
    ensures { Has result (list_in (datum_of datum.now)) }
{
    match datum {
        Datum::List(elements) => Ok(elements.copy()?),
        Datum::Sym(name) => {
            if is_the(name, "NIL") {
                return Ok(Data::new());
            }
            Err(ExpansionFault::Bad)
        }
        Datum::Int(_) => Err(ExpansionFault::Bad),
        Datum::Str(_) => Err(ExpansionFault::Bad),
        Datum::Dotted(_) => Err(ExpansionFault::Bad),
        Datum::Method(_) => Err(ExpansionFault::Bad),
    }
}

/// The list of these elements, which is the symbol NIL where there are none.
pub fn from_elements(elements: Data) -> Datum
    ensures { datum_of result ≡ from_elements elements }
{
    if elements.split_first().is_none() {
        return nil_symbol();
    }
    Datum::List(elements)
}

/// Adds the elements of a list.
pub(crate) fn push_elements(items: &mut Vec<Datum>, list: &Data) -> Result<(), AllocError>
    ensures { OnOk result (map datum_of items.new.items ≡ map datum_of items.old.items ++ elements list.now) }
{
    let mut rest = list;
    while let Some((first, others)) = rest.split_first() {
        push(items, first.copy()?)?;
        rest = others;
    }
    Ok(())
}

/// Adds a datum.
#[tactic(auto, using(clos_forms::proofs::Parts::pushed))]
pub(crate) fn push(items: &mut Vec<Datum>, datum: Datum) -> Result<(), AllocError>
    ensures { OnOk result (map datum_of items.new.items ≡ map datum_of items.old.items ++ datum_of datum ∷ []) }
{
    items.push(datum)?;
    Ok(())
}

/// A list of these data before those elements, for each of which a cons is made.
pub(crate) fn prepend(
    alloc: Global,
    front: Vec<Datum>,
    list: Data,
    left: &mut u64,
) -> Result<Datum, ExpansionFault>
    ensures { Comes result left.new (prepended (map datum_of front.items) list left.old) }
{
    let count = front.len() as u64;
    if count > *left {
        return Err(ExpansionFault::Beyond);
    }
    let list = prepend_all(alloc, front, list)?;
    *left -= count;
    Ok(from_elements(list))
}

/// These data before those elements.
#[tactic(auto, using(clos_lambda::proofs::Lists::one_ahead))]
fn prepend_all(alloc: Global, front: Vec<Datum>, list: Data) -> Result<Data, ExpansionFault>
    ensures { Builds result (ahead (map datum_of front.items) list) }
{
    let mut front = front;
    let mut built = list;
    while let Some(datum) = front.pop() {
        match Data::cons(alloc, datum, built) {
            Ok(longer) => built = longer,
            Err(ListFault::Limit) => return Err(ExpansionFault::Beyond),
            Err(ListFault::Memory) => return Err(ExpansionFault::Memory),
        }
    }
    let _nesting = built.nesting();
    Ok(built)
}

/// These elements, the last one first, for each of which a cons is made.
pub(crate) fn reverse(alloc: Global, list: &Data, left: &mut u64) -> Result<Datum, ExpansionFault>
    ensures { Comes result left.new (built (length_of list.now) (from_elements (reversed list.now nil)) left.old) }
{
    let count = list.len();
    if count > *left {
        return Err(ExpansionFault::Beyond);
    }
    let list = reverse_all(alloc, list)?;
    *left -= count;
    Ok(from_elements(list))
}

fn reverse_all(alloc: Global, list: &Data) -> Result<Data, ExpansionFault>
    ensures { Builds result (reversed list.now nil) }
{
    let mut rest = list;
    let mut built = Data::new();
    while let Some((first, others)) = rest.split_first() {
        match Data::cons(alloc, first.copy()?, built) {
            Ok(longer) => built = longer,
            Err(ListFault::Limit) => return Err(ExpansionFault::Beyond),
            Err(ListFault::Memory) => return Err(ExpansionFault::Memory),
        }
        rest = others;
    }
    let _nesting = built.nesting();
    Ok(built)
}

/// The list of these data, with this atom after its dot, for each of which a cons is made.
pub(crate) fn end(
    alloc: Global,
    front: Vec<Datum>,
    last: &Option<Datum>,
    left: &mut u64,
) -> Result<Datum, ExpansionFault>
    ensures { Comes result left.new (built (length front.items) (ended (map datum_of front.items) (option_map datum_of last.now)) left.old) }
{
    match last {
        None => prepend(alloc, front, Data::new(), left),
        Some(last) => end_with(alloc, front, last, left),
    }
}

fn end_with(
    alloc: Global,
    front: Vec<Datum>,
    last: &Datum,
    left: &mut u64,
) -> Result<Datum, ExpansionFault>
    ensures { Comes result left.new (built (length front.items) (ended (map datum_of front.items) (Some (datum_of last.now))) left.old) }
{
    let count = front.len() as u64;
    if count > *left {
        return Err(ExpansionFault::Beyond);
    }
    let last = last.copy()?;
    if count == 0 {
        let _nesting = last.nesting();
        return Ok(last);
    }
    let front = prepend_all(alloc, front, Data::new())?;
    let dotted = dot(alloc, front, last)?;
    *left -= count;
    Ok(dotted)
}

fn dot(alloc: Global, front: Data, last: Datum) -> Result<Datum, ExpansionFault>
    ensures { BuildsDatum result (dotted front (datum_of last)) }
{
    match Dot::new(alloc, front, last) {
        Ok(dot) => {
            let _nesting = dot.nesting();
            Ok(Datum::Dotted(dot))
        }
        Err(ListFault::Limit) => Err(ExpansionFault::Beyond),
        Err(ListFault::Memory) => Err(ExpansionFault::Memory),
    }
}
