//! Lists of data (HyperSpec 2.4.1).
ghost use Rattle.std.specs.Prelude.{◌≡◌, ◌≤◌, ◌<◌, ◌++◌, length, map, IfOk, MatchResult};
ghost use Rattle.lisp_data.specs.DatumView.{datum_of};
ghost use Rattle.lisp_data.specs.Datum.{cons, dotted, list_from, elements, nesting_of, nesting_in, nesting_of_dot};
ghost use Rattle.lisp_data.specs.Limits.{most_nesting};
ghost use Rattle.lisp_tokens.specs.Reading.{list_of, ending_in, is_nil, prefixed_by};

use lisp_data::{Data, Datum, Dot, ListFault, Name};
use std::alloc::{AllocError, Global};

/// The list of this symbol and this datum.
pub fn prefixed_by(alloc: Global, operator: &str, datum: Datum) -> Result<Datum, AllocError>
    requires { nesting_of (datum_of datum) < most_nesting }
    ensures { IfOk result (λ d. datum_of d ≡ prefixed_by operator.now (datum_of datum)) }
{
    let tail = longer(alloc, datum, Data::new())?;
    let items = longer(alloc, Datum::Sym(Name::new(alloc, operator, false)?), tail)?;
    Ok(Datum::List(items))
}

/// The list of these elements. With none it is the symbol NIL, which takes no memory.
pub fn list_of(alloc: Global, items: Vec<Datum>) -> Result<Datum, AllocError>
    requires { nesting_in (list_from (map datum_of items.items)) ≤ most_nesting }
    ensures { MatchResult result (λ d. datum_of d ≡ list_of (map datum_of items.items)) (λ e. 0 < length items.items) }
{
    if items.is_empty() {
        return Ok(Datum::Sym(Name::fixed(&"NIL")));
    }
    Ok(Datum::List(prepended(alloc, items, Data::new())?))
}

/// The list of these elements, of which there are some, whose last cell ends in this datum.
pub fn ending_in(alloc: Global, items: Vec<Datum>, last: Datum) -> Result<Datum, AllocError>
    requires front { nesting_in (list_from (map datum_of items.items)) ≤ most_nesting }
    requires tail { nesting_of (datum_of last) < most_nesting }
    ensures { IfOk result (λ d. datum_of d ≡ ending_in (map datum_of items.items) (datum_of last)) }
{
    match last {
        Datum::List(rest) => Ok(Datum::List(prepended(alloc, items, rest)?)),
        Datum::Dotted(dot) => before_dot(alloc, items, dot),
        Datum::Sym(name) => {
            if is_nil(&name) {
                Ok(Datum::List(prepended(alloc, items, Data::new())?))
            } else {
                dotted(alloc, items, Datum::Sym(name))
            }
        }
        atom => dotted(alloc, items, atom),
    }
}

/// The list of these elements and those of a dotted list, with its last atom.
fn before_dot(alloc: Global, items: Vec<Datum>, dot: Dot) -> Result<Datum, AllocError>
    requires front { nesting_in (list_from (map datum_of items.items)) ≤ most_nesting }
    requires tail { nesting_of_dot dot ≤ most_nesting }
    ensures { IfOk result (λ d. datum_of d ≡ dotted (list_from (map datum_of items.items ++ elements dot.front)) dot.last) }
{
    let front = dot.front().copy()?;
    let last = dot.last().copy()?;
    let all = prepended(alloc, items, front)?;
    Ok(Datum::Dotted(ended_by(alloc, all, last)?))
}

/// The list of these elements that ends in this atom.
fn dotted(alloc: Global, items: Vec<Datum>, atom: Datum) -> Result<Datum, AllocError>
    requires front { nesting_in (list_from (map datum_of items.items)) ≤ most_nesting }
    requires tail { nesting_of (datum_of atom) < most_nesting }
    ensures { IfOk result (λ d. datum_of d ≡ dotted (list_from (map datum_of items.items)) (datum_of atom)) }
{
    let all = prepended(alloc, items, Data::new())?;
    Ok(Datum::Dotted(ended_by(alloc, all, atom)?))
}

/// Whether a name is the symbol NIL.
fn is_nil(name: &Name) -> bool
    ensures { result ≡ is_nil name.now }
{
    name.is(&Name::fixed(&"NIL"))
}

/// These elements before those of the list.
fn prepended(alloc: Global, mut items: Vec<Datum>, mut list: Data) -> Result<Data, AllocError>
    requires { nesting_in (list_from (map datum_of items.items ++ elements list)) ≤ most_nesting }
    ensures { IfOk result (λ r. r ≡ list_from (map datum_of items.items ++ elements list)) }
{
    while let Some(item) = items.pop() {
        list = longer(alloc, item, list)?;
    }
    Ok(list)
}

/// The list with this element before the others. What is read nests far less than a list may.
fn longer(alloc: Global, head: Datum, tail: Data) -> Result<Data, AllocError>
    requires { nesting_in (cons (datum_of head) tail) ≤ most_nesting }
    ensures { IfOk result (λ r. r ≡ cons (datum_of head) tail) }
{
    match Data::cons(alloc, head, tail) {
        Ok(list) => Ok(list),
        Err(ListFault::Memory) => Err(AllocError),
        Err(ListFault::Limit) => unreachable!("the list is not too deep"),
    }
}

/// These elements and the atom after their dot.
fn ended_by(alloc: Global, front: Data, last: Datum) -> Result<Dot, AllocError>
    requires { nesting_of (dotted front (datum_of last)) ≤ most_nesting }
    ensures { IfOk result (λ r. r ≡ record { front = front; last = datum_of last }) }
{
    match Dot::new(alloc, front, last) {
        Ok(dot) => Ok(dot),
        Err(ListFault::Memory) => Err(AllocError),
        Err(ListFault::Limit) => unreachable!("the list is not too deep"),
    }
}
