//! Lists (HyperSpec 14.2, 17.3).
ghost use Rattle.std.specs.Prelude.{◌≡◌, map, IfOk, Result, Ok, length, reverse};
ghost use Rattle.std.specs.Result.{ForOk};
ghost use Rattle.std.specs.Str.{chars};
ghost use Rattle.lisp_data.specs.Value.{Vals, symbol, list, nil, elements};
ghost use Rattle.lisp_data.specs.ValueView.{value_of};
ghost use Rattle.lisp_prims.specs.Arguments.{one_of, two_of};
ghost use Rattle.lisp_prims.specs.Fault.{Answers, AnswersAs, AnswersOrMemory, AnswersUnlessMemory, Condition, given};
ghost use Rattle.lisp_prims.specs.Lists.{AreWithinLimits, appended, as_value, consed, element_at, end_of, length_from, list_of, list_star, list_value, listed_onto_last, position_of, put_before, rest_of, size_in, size_of, sized};

use crate::arguments::two;
use crate::fault::PrimFault;
use crate::width::{Integer, Natural};
use lisp_data::{Items, MAX_ELEMENTS, MAX_NESTING, Name, Value};
use lisp_functions::ListFunction;
use std::alloc::{AllocError, Global};

/// The list or the element.
pub fn call(function: ListFunction, alloc: Global, args: &[Value]) -> Result<Value, PrimFault>
    ensures { AnswersUnlessMemory value_of result (list_value function (map value_of args.now)) }
{
    match function {
        ListFunction::Car => element_at(0, one_list(args)?),
        ListFunction::Cdr => rest(one_list(args)?),
        ListFunction::Second => element_at(1, one_list(args)?),
        ListFunction::Third => element_at(2, one_list(args)?),
        ListFunction::Nth => {
            let (position, items) = position_and_list(args)?;
            element_at(position, items)
        }
        ListFunction::Cons => cons(alloc, args),
        ListFunction::List => list_before(alloc, args, &Items::new()),
        ListFunction::ListStar => list_star(alloc, args),
        ListFunction::Append => append(alloc, args),
        ListFunction::Reverse => reverse(alloc, one_list(args)?),
    }
}

// ---- arguments

fn list(value: &Value) -> Result<&Items, PrimFault>
    ensures { AnswersAs (λ l. l.now) result (list_of (value_of value.now)) }
{
    match value {
        Value::List(items) => Ok(items),
        _ => Err(PrimFault::wrong(value)),
    }
}

/// A last argument, which must be a list.
fn end(value: &Value) -> Result<&Items, PrimFault>
    ensures { AnswersAs (λ l. l.now) result (end_of (value_of value.now)) }
{
    match value {
        Value::List(items) => Ok(items),
        _ => Err(PrimFault::Unsupported),
    }
}

fn position(value: &Value) -> Result<Natural, PrimFault>
    ensures { Answers result (position_of (value_of value.now)) }
{
    match value {
        Value::Int(number) if *number >= 0 => Ok(number.unsigned_abs()),
        _ => Err(PrimFault::wrong(value)),
    }
}

fn one_list(args: &[Value]) -> Result<&Items, PrimFault>
    ensures { AnswersAs (λ l. l.now) result (one_of list_of (map value_of args.now)) }
{
    match args {
        [value] => list(value),
        _ => Err(PrimFault::ProgramError),
    }
}

fn position_and_list(args: &[Value]) -> Result<(Natural, &Items), PrimFault>
    ensures { AnswersAs (λ p. (p.0, p.1.now)) result (two_of position_of list_of (map value_of args.now)) }
{
    match args {
        [place, items] => {
            let place = position(place)?;
            let items = list(items)?;
            Ok((place, items))
        }
        _ => Err(PrimFault::ProgramError),
    }
}

// ---- parts of lists

/// The element at a position, from 0; NIL beyond the end.
fn element_at(position: Natural, items: &Items) -> Result<Value, PrimFault>
    ensures { AnswersUnlessMemory value_of result (Ok (element_at position items.now)) }
{
    let mut left = position;
    let mut rest = items;
    loop {
        match rest.split_first() {
            None => return Ok(Value::List(Items::new())),
            Some((first, more)) => {
                if left == 0 {
                    return copied(first);
                }
                left -= 1;
                rest = more;
            }
        }
    }
}

/// The list without its first element.
fn rest(items: &Items) -> Result<Value, PrimFault>
    ensures { AnswersUnlessMemory value_of result (Ok (list (rest_of items.now))) }
{
    match items.split_first() {
        None => Ok(Value::List(Items::new())),
        Some((_, rest)) => copied_list(rest),
    }
}

/// The same value.
fn copied(value: &Value) -> Result<Value, PrimFault>
    ensures { AnswersUnlessMemory value_of result (Ok (value_of value.now)) }
{
    match value {
        Value::Int(number) => Ok(Value::Int(*number)),
        Value::Sym(name) => copied_symbol(name),
        Value::Str(text) => Ok(Value::Str(text.copy()?)),
        Value::List(items) => copied_list(items),
        Value::Class(id) => Ok(Value::Class(*id)),
        Value::Generic(id) => Ok(Value::Generic(*id)),
        Value::Method(id) => Ok(Value::Method(*id)),
        Value::Instance(id) => Ok(Value::Instance(*id)),
    }
}

/// The same symbol. T takes no memory.
fn copied_symbol(name: &Name) -> Result<Value, PrimFault>
    ensures { AnswersUnlessMemory value_of result (Ok (symbol name.now)) }
{
    if let Ok(copy) = name.copy() {
        return Ok(Value::Sym(copy));
    }
    let truth = Name::fixed(&"T");
    if name.is(&truth) {
        Ok(Value::Sym(truth))
    } else {
        Err(PrimFault::Memory)
    }
}

/// The same list. NIL takes no memory.
fn copied_list(items: &Items) -> Result<Value, PrimFault>
    ensures { AnswersUnlessMemory value_of result (Ok (list items.now)) }
{
    match items.split_first() {
        None => Ok(Value::List(Items::new())),
        Some(_) => Ok(Value::List(items.copy()?)),
    }
}

/// How many elements a list has, or characters a string.
pub fn length(args: &[Value]) -> Result<Integer, PrimFault>
    ensures { Answers result (length_from (map value_of args.now)) }
{
    let size = match args {
        [value] => size(value)?,
        _ => return Err(PrimFault::ProgramError),
    };
    match Integer::try_from(size) {
        Ok(size) => Ok(size),
        Err(_) => Err(PrimFault::IntegerRange),
    }
}

fn size(value: &Value) -> Result<u64, PrimFault>
    ensures { Answers result (size_of (value_of value.now)) }
{
    match value {
        Value::List(items) => Ok(items.len()),
        Value::Str(text) => Ok(character_count(text.as_str()) as u64),
        _ => Err(PrimFault::wrong(value)),
    }
}

fn character_count(text: &str) -> usize
    ensures { result ≡ length (chars text.now) }
{
    text.chars().count()
}

// ---- how large a list would be

/// This length and nesting, where both are within the limits.
fn sized(length: u64, nesting: u64) -> Result<(u64, u64), PrimFault>
    ensures size { Answers result (sized length nesting) }
    ensures most { IfOk result (λ s. AreWithinLimits s) }
{
    if length > MAX_ELEMENTS || nesting > MAX_NESTING {
        return Err(PrimFault::Unsupported);
    }
    Ok((length, nesting))
}

/// The length and the nesting of these values before a list.
#[tactic(auto, using(crate::proofs::OnSizes::sizes))]
fn size_before(values: &[Value], tail: &Items) -> Result<(u64, u64), PrimFault>
    ensures { Answers result (given (put_before (map value_of values.now) tail.now) size_in) }
{
    let mut nesting = tail.nesting();
    for value in values {
        nesting = (value.nesting() + 1).max(nesting);
    }
    sized(values.len() as u64 + tail.len(), nesting)
}

/// The length and the nesting of a list in the other order, which are those that it has.
#[tactic(auto, using(crate::proofs::OnSizes::sizes))]
fn size_of_reversed(items: &Items) -> Result<(u64, u64), PrimFault>
    ensures { Answers result (given (put_before (reverse (elements items.now)) nil) size_in) }
{
    sized(items.len(), items.nesting())
}

/// The length and the nesting of the list that APPEND gives.
#[tactic(auto, using(crate::proofs::OnMaking::making))]
fn size_of_appended(args: &[Value]) -> Result<(u64, u64), PrimFault>
    ensures { Answers result (given (appended (map value_of args.now)) size_in) }
{
    if args.is_empty() {
        return Ok((0, 0));
    }
    let mut at = args.len() - 1;
    let mut size = size_of_last(&args[at]);
    while at > 0 {
        at -= 1;
        size = size_with(&args[at], size);
    }
    size
}

fn size_of_last(value: &Value) -> Result<(u64, u64), PrimFault>
    ensures size { Answers result (given (end_of (value_of value.now)) size_in) }
    ensures most { IfOk result (λ s. AreWithinLimits s) }
{
    let items = end(value)?;
    Ok((items.len(), items.nesting()))
}

/// The length and the nesting of a list before what the later ones gave.
#[tactic(auto, using(crate::proofs::OnSizes::sizes))]
fn size_with(value: &Value, later: Result<(u64, u64), PrimFault>) -> Result<(u64, u64), PrimFault>
    requires { ForOk later (λ s. AreWithinLimits s) }
    ensures size { (x : Result Vals Condition) → Answers later (given x size_in)
        → Answers result (given (given (list_of (value_of value.now)) (λ l. given x (put_before (elements l)))) size_in) }
    ensures most { IfOk result (λ s. AreWithinLimits s) }
{
    let front = list(value)?;
    let (length, nesting) = later?;
    sized(front.len() + length, front.nesting().max(nesting))
}

// ---- lists that are made: first their size is worked out, so that memory runs out only for lists within the limits

/// The list with one element more.
fn consed(alloc: Global, head: Value, tail: Items) -> Result<Items, PrimFault>
    ensures { AnswersOrMemory (λ l. l) result (consed (value_of head) tail) }
{
    Ok(Items::cons(alloc, head, tail)?)
}

fn cons(alloc: Global, args: &[Value]) -> Result<Value, PrimFault>
    ensures { AnswersUnlessMemory value_of result (list_value ListFunction.Cons (map value_of args.now)) }
{
    let (head, tail) = two(args)?;
    let tail = end(tail)?;
    let _size = sized(tail.len() + 1, (head.nesting() + 1).max(tail.nesting()))?;
    let items = consed(alloc, head.copy()?, tail.copy()?)?;
    Ok(Value::List(items))
}

/// The list of these values as elements before a list.
#[tactic(auto, using(crate::proofs::OnSizes::sizes))]
fn list_before(alloc: Global, values: &[Value], tail: &Items) -> Result<Value, PrimFault>
    ensures { AnswersUnlessMemory value_of result (given (put_before (map value_of values.now) tail.now) as_value) }
{
    let (length, _) = size_before(values, tail)?;
    if length == 0 {
        return Ok(Value::List(Items::new()));
    }
    Ok(Value::List(put_before(alloc, values, tail.copy()?)?))
}

/// These values as elements before a list.
#[tactic(auto, using(crate::proofs::OnMaking::making))]
fn put_before(alloc: Global, values: &[Value], tail: Items) -> Result<Items, PrimFault>
    ensures { AnswersOrMemory (λ l. l) result (put_before (map value_of values.now) tail) }
{
    let mut items = tail;
    let mut left = values;
    while let Some((last, front)) = left.split_last() {
        items = consed(alloc, last.copy()?, items)?;
        left = front;
    }
    Ok(items)
}

#[tactic(auto, using(crate::proofs::OnMaking::making))]
fn list_star(alloc: Global, args: &[Value]) -> Result<Value, PrimFault>
    ensures { AnswersUnlessMemory value_of result (list_star (map value_of args.now)) }
{
    let Some((last, front)) = args.split_last() else {
        return Err(PrimFault::ProgramError);
    };
    if front.is_empty() {
        return copied(last);
    }
    list_before(alloc, front, end(last)?)
}

#[tactic(auto, using(crate::proofs::OnSizes::sizes))]
fn append(alloc: Global, args: &[Value]) -> Result<Value, PrimFault>
    ensures { AnswersUnlessMemory value_of result (given (appended (map value_of args.now)) as_value) }
{
    let (length, _) = size_of_appended(args)?;
    if length == 0 {
        return Ok(Value::List(Items::new()));
    }
    Ok(Value::List(joined(alloc, args)?))
}

/// The elements of all lists before the last one.
#[tactic(auto, using(crate::proofs::OnMaking::making))]
fn joined(alloc: Global, args: &[Value]) -> Result<Items, PrimFault>
    ensures { AnswersOrMemory (λ l. l) result (appended (map value_of args.now)) }
{
    if args.is_empty() {
        return Ok(Items::new());
    }
    let mut at = args.len() - 1;
    let mut joined = last_list(&args[at]);
    while at > 0 {
        at -= 1;
        joined = append_before(alloc, &args[at], joined);
    }
    joined
}

fn last_list(value: &Value) -> Result<Items, PrimFault>
    ensures { AnswersOrMemory (λ l. l) result (end_of (value_of value.now)) }
{
    Ok(end(value)?.copy()?)
}

/// The elements of a list before what the later ones gave.
fn append_before(
    alloc: Global,
    value: &Value,
    later: Result<Items, PrimFault>,
) -> Result<Items, PrimFault>
    ensures { (x : Result Vals Condition) → AnswersOrMemory (λ l. l) later x
        → AnswersOrMemory (λ l. l) result (given (list_of (value_of value.now)) (λ l. given x (put_before (elements l)))) }
{
    let items = list(value)?;
    let tail = later?;
    let values = values_of(alloc, items)?;
    put_before(alloc, &values, tail)
}

/// The elements of a list.
fn values_of(alloc: Global, items: &Items) -> Result<Vec<Value>, AllocError>
    ensures { IfOk result (λ r. map value_of r.items ≡ elements items.now) }
{
    let mut values = Vec::new(alloc);
    let mut rest = items;
    while let Some((first, more)) = rest.split_first() {
        values.push(first.copy()?)?;
        rest = more;
    }
    Ok(values)
}

/// The list of the elements in the other order.
#[tactic(auto, using(crate::proofs::OnSizes::sizes))]
fn reverse(alloc: Global, items: &Items) -> Result<Value, PrimFault>
    ensures { AnswersUnlessMemory value_of result (given (put_before (reverse (elements items.now)) nil) as_value) }
{
    let (length, _) = size_of_reversed(items)?;
    if length == 0 {
        return Ok(Value::List(Items::new()));
    }
    Ok(Value::List(reversed(alloc, items)?))
}

#[tactic(auto, using(crate::proofs::OnMaking::making))]
fn reversed(alloc: Global, items: &Items) -> Result<Items, PrimFault>
    ensures { AnswersOrMemory (λ l. l) result (put_before (reverse (elements items.now)) nil) }
{
    let mut reversed = Items::new();
    let mut rest = items;
    while let Some((first, more)) = rest.split_first() {
        reversed = consed(alloc, first.copy()?, reversed)?;
        rest = more;
    }
    Ok(reversed)
}
