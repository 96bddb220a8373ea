//! The functions of templates (HyperSpec 5.3, 14.2).
ghost use Rattle.std.specs.Prelude.{◌≡◌, ◌∷◌, [], ℕ, IfOk, length, map, option_map, pos, slice_get};
ghost use Rattle.std.specs.Str.{chars};
ghost use Rattle.lisp_data.specs.Datum.{integer, list};
ghost use Rattle.lisp_data.specs.DatumView.{datum_of};
ghost use Rattle.clos_lambda.specs.Lists.{list_in};
ghost use Rattle.clos_template.specs.Expansion.{Comes, made};
ghost use Rattle.clos_template.specs.Function.{answer, appended, argument, counted, elements_of_all, first_in, from_elements, is_nil, one_object, rest_in, split_last, starred, told, truth, with_elements};
ghost use Rattle.clos_template.specs.FunctionView.{HasAll};
ghost use Rattle.clos_template.specs.declared.operator.Function.TheVariants.{Reverse};

use crate::datum::{
    elements, from_elements, is_list, is_nil, nil_symbol, prepend, push_elements, reverse, truth,
};
use crate::fault::ExpansionFault;
use crate::operator::Function;
use clos_forms::is_string;
use lisp_data::{Data, Datum};
use std::alloc::{AllocError, Global};

/// What a function gives of its arguments, where so many conses may still be made.
pub(crate) fn answer(
    alloc: Global,
    function: Function,
    arguments: Vec<Datum>,
    left: &mut u64,
) -> Result<Datum, ExpansionFault>
    ensures { Comes result left.new (answer function (map datum_of arguments.items) left.old) }
{
    match function {
        Function::Not => Ok(truth(is_nil(&argument(&arguments, 0)?))),
        Function::Endp => is_end(&argument(&arguments, 0)?),
        Function::Eq => are_one(&argument(&arguments, 0)?, &argument(&arguments, 1)?),
        Function::First => first(&argument(&arguments, 0)?),
        Function::Second => second(&argument(&arguments, 0)?),
        Function::Rest => rest(&argument(&arguments, 0)?),
        Function::Reverse => reverse_list(alloc, &argument(&arguments, 0)?, left),
        Function::Length => count(&argument(&arguments, 0)?),
        Function::List => prepend(alloc, arguments, Data::new(), left),
        Function::ListStar => prepend_last(alloc, arguments, left),
        Function::Cons => prepend_last(alloc, arguments, left),
        Function::Append => append(alloc, arguments, left),
    }
}

/// The argument at a place.
fn argument(arguments: &[Datum], place: usize) -> Result<Datum, AllocError>
    ensures { IfOk result (λ d. datum_of d ≡ argument (map datum_of arguments.now) place) }
{
    match argument_at(arguments, place) {
        None => Ok(nil_symbol()),
        Some(datum) => Ok(datum.copy()?),
    }
}

fn argument_at(arguments: &[Datum], place: usize) -> Option<&Datum>
    ensures { option_map (λ d. datum_of d.now) result ≡ slice_get (map datum_of arguments.now) place }
{
    arguments.get(place)
}

/// Whether a list is empty.
fn is_end(datum: &Datum) -> Result<Datum, ExpansionFault>
    ensures { (n : ℕ) → Comes result n (with_elements (list_in (datum_of datum.now)) (λ l. made (truth (is_nil (list l))) n)) }
{
    let elements = elements(datum)?;
    Ok(truth(elements.split_first().is_none()))
}

/// Whether both are one number, symbol or method.
fn are_one(a: &Datum, b: &Datum) -> Result<Datum, ExpansionFault>
    ensures { (n : ℕ) → Comes result n (told (one_object (datum_of a.now) (datum_of b.now)) n) }
{
    match one_object(a, b) {
        None => Err(ExpansionFault::Bad),
        Some(same) => Ok(truth(same)),
    }
}

/// The same; of two strings, or of two lists that are not empty, EQ does not tell.
fn one_object(a: &Datum, b: &Datum) -> Option<bool>
    ensures { result ≡ one_object (datum_of a.now) (datum_of b.now) }
{
    if is_nil(a) || is_nil(b) {
        return Some(is_nil(a) && is_nil(b));
    }
    if (is_string(a) && is_string(b)) || (is_list(a) && is_list(b)) {
        return None;
    }
    Some(a == b)
}

/// The first element, or NIL.
fn first(datum: &Datum) -> Result<Datum, ExpansionFault>
    ensures { (n : ℕ) → Comes result n (with_elements (list_in (datum_of datum.now)) (λ l. made (first_in l) n)) }
{
    let elements = elements(datum)?;
    Ok(first_of(&elements)?)
}

fn first_of(elements: &Data) -> Result<Datum, AllocError>
    ensures { IfOk result (λ d. datum_of d ≡ first_in elements.now) }
{
    match elements.split_first() {
        None => Ok(nil_symbol()),
        Some((first, _)) => first.copy(),
    }
}

/// The second element, or NIL.
fn second(datum: &Datum) -> Result<Datum, ExpansionFault>
    ensures { (n : ℕ) → Comes result n (with_elements (list_in (datum_of datum.now)) (λ l. made (first_in (rest_in l)) n)) }
{
    let elements = elements(datum)?;
    let rest = rest_of(&elements)?;
    Ok(first_of(&rest)?)
}

/// The elements after the first.
fn rest(datum: &Datum) -> Result<Datum, ExpansionFault>
    ensures { (n : ℕ) → Comes result n (with_elements (list_in (datum_of datum.now)) (λ l. made (from_elements (rest_in l)) n)) }
{
    let elements = elements(datum)?;
    Ok(from_elements(rest_of(&elements)?))
}

fn rest_of(elements: &Data) -> Result<Data, AllocError>
    ensures { IfOk result (λ l. l ≡ rest_in elements.now) }
{
    match elements.split_first() {
        None => Ok(Data::new()),
        Some((_, rest)) => rest.copy(),
    }
}

fn reverse_list(alloc: Global, datum: &Datum, left: &mut u64) -> Result<Datum, ExpansionFault>
    ensures { Comes result left.new (answer Reverse (datum_of datum.now ∷ []) left.old) }
{
    let elements = elements(datum)?;
    reverse(alloc, &elements, left)
}

/// How many elements a list has, or characters a string.
fn count(datum: &Datum) -> Result<Datum, ExpansionFault>
    ensures { (n : ℕ) → Comes result n (counted (datum_of datum.now) n) }
{
    match datum {
        Datum::Str(text) => number(character_count(text.as_str()) as u64),
        _ => {
            let elements = elements(datum)?;
            number(elements.len())
        }
    }
}

fn character_count(text: &str) -> usize
    ensures { result ≡ length (chars text.now) }
{
    text.chars().count()
}

/// A number of things, which no memory holds where it is beyond the integers.
fn number(count: u64) -> Result<Datum, ExpansionFault>
    ensures { (n : ℕ) → Comes result n (made (integer (pos count)) n) }
{
    match count.try_into() {
        Ok(number) => Ok(Datum::Int(number)),
        Err(_) => Err(ExpansionFault::Memory),
    }
}

#[tactic(auto, using(crate::proofs::Arguments::last_of, crate::proofs::Arguments::starred_with))]
/// The arguments before the elements of the last one, which may be any datum where it is alone.
fn prepend_last(
    alloc: Global,
    mut arguments: Vec<Datum>,
    left: &mut u64,
) -> Result<Datum, ExpansionFault>
    ensures { Comes result left.new (starred (split_last (map datum_of arguments.items)) left.old) }
{
    let Some(last) = arguments.pop() else {
        return Ok(nil_symbol());
    };
    if arguments.is_empty() {
        return Ok(last);
    }
    let elements = elements(&last)?;
    prepend(alloc, arguments, elements, left)
}

/// The elements of all lists, one list after the other. The last one is shared.
#[tactic(auto, using(crate::proofs::Arguments::last_of))]
fn append(alloc: Global, mut lists: Vec<Datum>, left: &mut u64) -> Result<Datum, ExpansionFault>
    ensures { Comes result left.new (appended (split_last (map datum_of lists.items)) left.old) }
{
    let Some(last) = lists.pop() else {
        return Ok(nil_symbol());
    };
    let front = elements_of_all(alloc, &lists)?;
    let elements = elements(&last)?;
    prepend(alloc, front, elements, left)
}

#[tactic(auto, using(crate::proofs::Arguments::all_more, crate::proofs::Arguments::all_failed))]
fn elements_of_all(alloc: Global, lists: &[Datum]) -> Result<Vec<Datum>, ExpansionFault>
    ensures { HasAll result (elements_of_all (map datum_of lists.now)) }
{
    let mut all = Vec::new(alloc);
    for list in lists {
        let elements = elements(list)?;
        push_elements(&mut all, &elements)?;
    }
    Ok(all)
}
