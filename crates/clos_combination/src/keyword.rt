//! Keywords among data, and the flags that they are given.
ghost use Rattle.std.specs.Prelude.{◌≡◌};
ghost use Rattle.lisp_data.specs.DatumView.{datum_of};
ghost use Rattle.clos_forms.specs.Fault.{Gives};
ghost use Rattle.clos_combination.specs.Keyword.{flag_in, from_keyword, is_keyword, is_true, or_false};

use clos_forms::{SyntaxFault, is_the};
use clos_lambda::Kind;
use lisp_data::{Data, Datum};
use std::alloc::Global;

/// Flags.
pub(crate) struct Flags;

impl Kind for Flags {
    type Item = bool;

    ghost item_in = { flag_in };

    fn parse(_alloc: Global, datum: &Datum) -> Result<bool, SyntaxFault> {
        Ok(is_true(datum))
    }
}

/// Whether a datum is anything but NIL.
fn is_true(datum: &Datum) -> bool
    ensures { result ≡ is_true (datum_of datum.now) }
{
    match datum {
        Datum::Sym(name) => !is_the(name, "NIL"),
        Datum::List(elements) => elements.split_first().is_some(),
        Datum::Int(_) => true,
        Datum::Str(_) => true,
        Datum::Dotted(_) => true,
        Datum::Method(_) => true,
    }
}

/// A flag that may not be given.
pub(crate) fn or_false(flag: Option<bool>) -> bool
    ensures { result ≡ or_false flag }
{
    match flag {
        None => false,
        Some(flag) => flag,
    }
}

pub(crate) fn is_keyword(datum: &Datum) -> bool
    ensures { result ≡ is_keyword (datum_of datum.now) }
{
    match datum {
        Datum::Sym(name) => name.is_keyword(),
        _ => false,
    }
}

/// The data from the first keyword on.
pub(crate) fn from_keyword(elements: &Data) -> &Data
    ensures { result.now ≡ from_keyword elements.now }
{
    let mut rest = elements;
    while let Some((first, others)) = rest.split_first() {
        if is_keyword(first) {
            return rest;
        }
        rest = others;
    }
    rest
}
