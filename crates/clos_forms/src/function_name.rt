//! Names of functions, and symbols where one is wanted.
ghost use Rattle.std.specs.Prelude.{◌≡◌, option_copied};
ghost use Rattle.lisp_data.specs.DatumView.{datum_of};
ghost use Rattle.clos_forms.specs.Fault.{Gives};
ghost use Rattle.clos_forms.specs.FunctionName.{function_named, listed_name, only_symbol_in, setf_name, symbol_in, unless_constant, variable_in};
ghost use Rattle.clos_forms.specs.OperatorView.{called_of};

use crate::fault::SyntaxFault;
use crate::operator::FunctionName;
use crate::part::only;
use clos_names::{is_the, names_constant};
use lisp_data::{Data, Datum, Name};

/// The name of the symbol that a datum is.
pub fn symbol_name(datum: &Datum) -> Option<&Name>
    ensures { option_copied result ≡ symbol_in (datum_of datum.now) }
{
    match datum {
        Datum::Sym(name) => Some(name),
        _ => None,
    }
}

/// The name of the symbol that a datum is, where it may be bound or set: no keyword, T or NIL.
pub fn variable_name(datum: &Datum) -> Option<&Name>
    ensures { option_copied result ≡ variable_in (datum_of datum.now) }
{
    unless_constant(symbol_name(datum)?)
}

/// A name that may be bound or set.
pub(crate) fn unless_constant(name: &Name) -> Option<&Name>
    ensures { option_copied result ≡ unless_constant name.now }
{
    if names_constant(name) {
        return None;
    }
    Some(name)
}

/// What a datum names as a function: a symbol, or a list of SETF and a symbol.
pub fn parse_function_name(datum: &Datum) -> Result<FunctionName, SyntaxFault>
    ensures { Gives called_of result (function_named (datum_of datum.now)) }
{
    match datum {
        Datum::Sym(name) => Ok(FunctionName::Symbol(name.copy()?)),
        Datum::List(elements) => parse_listed_name(elements),
        Datum::Int(_) => Err(SyntaxFault::Program),
        Datum::Str(_) => Err(SyntaxFault::Program),
        Datum::Dotted(_) => Err(SyntaxFault::Program),
        Datum::Method(_) => Err(SyntaxFault::Program),
    }
}

fn parse_listed_name(elements: &Data) -> Result<FunctionName, SyntaxFault>
    ensures { Gives called_of result (listed_name elements.now) }
{
    let Some((head, rest)) = elements.split_first() else {
        return Err(SyntaxFault::Program);
    };
    match symbol_name(head) {
        None => Err(SyntaxFault::Program),
        Some(name) => parse_setf_name(name, rest),
    }
}

fn parse_setf_name(head: &Name, rest: &Data) -> Result<FunctionName, SyntaxFault>
    ensures { Gives called_of result (setf_name head.now rest.now) }
{
    if !is_the(head, "SETF") {
        return Err(SyntaxFault::Program);
    }
    match only_symbol(rest) {
        None => Err(SyntaxFault::Program),
        Some(name) => Ok(FunctionName::Setf(name.copy()?)),
    }
}

/// The one symbol of a list.
pub(crate) fn only_symbol(elements: &Data) -> Option<&Name>
    ensures { option_copied result ≡ only_symbol_in elements.now }
{
    symbol_name(only(elements)?)
}
