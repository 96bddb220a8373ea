//! Data: what texts spell, and what no text can.
use lisp_data::{Data, Datum, MAX_NESTING, Name};
use lisp_reader::read_form;
use std::alloc::Global;
use std::test::Fail;

/// The first datum of a text.
pub fn datum(alloc: Global, text: &str) -> Result<Datum, Fail> {
    let (datum, _) = read_form(alloc, text.as_bytes(), 0)?.ok_or("a datum")?;
    Ok(datum)
}

/// The first datum of a text, which is a list.
pub fn list(alloc: Global, text: &str) -> Result<Data, Fail> {
    match datum(alloc, text)? {
        Datum::List(list) => Ok(list),
        _ => Err(Fail::new("no list")),
    }
}

/// The list of a symbol, a datum and others.
pub fn list_of(alloc: Global, symbol: &str, datum: Datum, others: Data) -> Result<Datum, Fail> {
    let rest = Data::cons(alloc, datum, others)?;
    let list = Data::cons(alloc, Datum::Sym(Name::new(alloc, symbol, false)?), rest)?;
    Ok(Datum::List(list))
}

/// Lists of a symbol and such a list, as many in one another as may nest.
pub fn deepest(alloc: Global, symbol: &'static str) -> Result<Datum, Fail> {
    let mut datum = Datum::Int(7);
    for _ in 0..MAX_NESTING {
        datum = list_of(alloc, symbol, datum, Data::new())?;
    }
    Ok(datum)
}
