//! What the tests share: data and values as texts, and large values.
use lisp_data::{
    ClassId, Data, Datum, GenericId, InstanceId, Items, ListFault, MethodId, Name, Value,
};
use lisp_reader::read_form;
use std::alloc::{AllocError, Global};

/// How many elements a list may have.
pub const LONG: u64 = 1_048_576;

/// How deep lists may nest.
pub const DEEP: u64 = 1_000;

/// The datum of a text that holds one.
pub fn datum(alloc: Global, text: &str) -> Option<Datum> {
    let (datum, end) = read_form(alloc, text.as_bytes(), 0).ok().flatten()?;
    (end == text.len()).then_some(datum)
}

/// The value of the datum of a text.
pub fn value(alloc: Global, text: &str) -> Option<Value> {
    match &datum(alloc, text) {
        Some(datum) => as_value(alloc, datum),
        None => None,
    }
}

/// The values of the elements of the list of a text.
pub fn values(alloc: Global, text: &str) -> Option<Vec<Value>> {
    match &datum(alloc, text) {
        Some(Datum::List(data)) => values_of(alloc, data),
        _ => None,
    }
}

fn values_of(alloc: Global, data: &Data) -> Option<Vec<Value>> {
    let mut values = Vec::new(alloc);
    let mut rest = data;
    for _ in 0..data.len() {
        let (first, others) = rest.split_first()?;
        values.push(as_value(alloc, first)?).ok()?;
        rest = others;
    }
    Some(values)
}

/// The value that a datum of a text stands for. A dot stands as a symbol before the last element.
#[cycle(reading)]
fn as_value(alloc: Global, datum: &Datum) -> Option<Value> {
    match datum {
        Datum::Int(number) => Some(Value::Int(*number)),
        Datum::Sym(name) => symbol(name),
        Datum::Str(text) => text.copy().ok().map(Value::Str),
        Datum::List(data) if data.len() > 0 => {
            as_items(alloc, data, Items::new()).map(Value::List)
        }
        Datum::Dotted(dot) => {
            let end = dotted(alloc, as_value(alloc, dot.last())?)?;
            as_items(alloc, dot.front(), end).map(Value::List)
        }
        Datum::List(_) | Datum::Method(_) => None,
    }
}

/// The values of these data before these.
#[cycle(reading)]
fn as_items(alloc: Global, data: &Data, end: Items) -> Option<Items> {
    match data.split_first() {
        None => Some(end),
        Some((first, rest)) => {
            let rest = as_items(alloc, rest, end)?;
            Items::cons(alloc, as_value(alloc, first)?, rest).ok()
        }
    }
}

fn dotted(alloc: Global, last: Value) -> Option<Items> {
    let end = Items::cons(alloc, last, Items::new()).ok()?;
    Items::cons(alloc, Value::Sym(Name::fixed(&".")), end).ok()
}

/// The value of a name: NIL is the empty list, and names such as CLASS/1 stand for objects.
fn symbol(name: &Name) -> Option<Value> {
    if name.as_str() == "NIL" && !name.is_keyword() {
        return Some(Value::List(Items::new()));
    }
    match object(name.as_str()) {
        None => name.copy().ok().map(Value::Sym),
        object => object,
    }
}

fn object(name: &str) -> Option<Value> {
    let (kind, number) = name.split_once('/')?;
    let number = number.parse::<u64>().ok()?;
    match kind {
        "CLASS" => Some(Value::Class(ClassId(number))),
        "GENERIC" => Some(Value::Generic(GenericId(number))),
        "METHOD" => Some(Value::Method(MethodId(number))),
        "INSTANCE" => Some(Value::Instance(InstanceId(number))),
        _ => None,
    }
}

pub fn is_text(found: Option<Vec<u8>>, text: &str) -> bool {
    match &found {
        Some(found) => found.as_slice() == text.as_bytes(),
        None => false,
    }
}

/// One text, another so many times, and one more.
pub fn repeated(
    alloc: Global,
    beginning: &str,
    piece: &str,
    times: u64,
    end: &str,
) -> Result<String, AllocError> {
    let mut text = String::from_str(alloc, beginning)?;
    for _ in 0..times {
        text.push_str(piece)?;
    }
    text.push_str(end)?;
    Ok(text)
}

/// A list of so many elements, or so many lists of one element, each in the next.
#[derive(Clone, Copy)]
pub enum Sevens {
    Long(u64),
    Deep(u64),
}

/// Sevens, but for this number at the end or inmost.
pub fn large(alloc: Global, sevens: Sevens, last: i64) -> Result<Value, ListFault> {
    match sevens {
        Sevens::Long(count) => long(alloc, count, last).map(Value::List),
        Sevens::Deep(depth) => deep(alloc, depth, last),
    }
}

pub fn long(alloc: Global, count: u64, last: i64) -> Result<Items, ListFault> {
    let mut items = Items::new();
    for after in 0..count {
        let number = if after == 0 { last } else { 7 };
        items = Items::cons(alloc, Value::Int(number), items)?;
    }
    Ok(items)
}

pub fn deep(alloc: Global, depth: u64, inmost: i64) -> Result<Value, ListFault> {
    let mut value = Value::Int(inmost);
    for _ in 0..depth {
        value = Value::List(Items::cons(alloc, value, Items::new())?);
    }
    Ok(value)
}
