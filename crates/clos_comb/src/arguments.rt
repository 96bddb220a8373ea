//! Arguments of method combinations (HyperSpec 7.6.6.4, 7.7 `define-method-combination`).
ghost use Rattle.std.specs.Prelude.{◌≡◌, ◌++◌, OnOk, IfOk, is_some};
ghost use Rattle.lisp_data.specs.Datum.{nil};
ghost use Rattle.lisp_data.specs.DatumView.{datum_of};
ghost use Rattle.clos_groups.specs.clos_combination.Parameter.{init_in};
ghost use Rattle.clos_comb.specs.Arguments.{after_required, are_constants, given_bound, is_no_data, optional_bound, optional_entry, parameters_bound, required_bound, short_direction, takes, takes_count};

use crate::direction::Direction;
use clos_forms::names_constant;
use clos_groups::{OptionalParameter, Parameters, Scope, truth};
use lisp_data::{Data, Datum, Name};
use std::alloc::{AllocError, Global};

pub(crate) fn is_no_data(list: &Data) -> bool
    ensures { result ≡ is_no_data list.now }
{
    list.split_first().is_none()
}

/// The order that a short form is given: a keyword's, or most specific first where there are no arguments.
pub(crate) fn short_direction(arguments: &Data) -> Option<Direction>
    ensures { result ≡ short_direction arguments.now }
{
    match arguments.split_first() {
        None => Some(Direction::MostSpecificFirst),
        Some((order, others)) => {
            if !is_no_data(others) {
                return None;
            }
            Direction::of(order)
        }
    }
}

/// Whether a datum is a constant: an integer, a string, a keyword, T or NIL.
fn is_constant(datum: &Datum) -> bool
    ensures { result ≡ is_some (init_in (datum_of datum.now)) }
{
    match datum {
        Datum::Int(_) => true,
        Datum::Sym(name) => names_constant(name),
        Datum::Str(_) => true,
        Datum::List(_) => false,
        Datum::Dotted(_) => false,
        Datum::Method(_) => false,
    }
}

fn are_constants(arguments: &Data) -> bool
    ensures { result ≡ are_constants arguments.now }
{
    let mut rest = arguments;
    while let Some((first, others)) = rest.split_first() {
        if !is_constant(first) {
            return false;
        }
        rest = others;
    }
    true
}

/// Whether these parameters take so many arguments.
fn takes_count(parameters: &Parameters, count: u64) -> bool
    ensures { result ≡ takes_count parameters.now count }
{
    let required = parameters.required.len() as u64;
    let optional = parameters.optional.len() as u64;
    required <= count && count - required <= optional
}

/// Whether these parameters take these arguments: constants, for each required one, and for optional ones from left to right.
pub(crate) fn takes(parameters: &Parameters, arguments: &Data) -> bool
    ensures { result ≡ takes parameters.now arguments.now }
{
    takes_count(parameters, arguments.len()) && are_constants(arguments)
}

/// Binds required parameters, each to its argument.
fn bind_required(scope: &mut Scope, names: &[Name], arguments: &Data) -> Result<(), AllocError>
    ensures { OnOk result (scope.new ≡ scope.old ++ required_bound names.now arguments.now) }
{
    let mut rest = arguments;
    for name in names {
        match rest.split_first() {
            None => return Ok(()),
            Some((argument, others)) => {
                scope.bind(name.copy()?, argument.copy()?)?;
                rest = others;
            }
        }
    }
    Ok(())
}

/// The arguments after those of required parameters.
fn after_required<'a>(names: &[Name], arguments: &'a Data) -> &'a Data
    ensures { result.now ≡ after_required names.now arguments.now }
{
    let mut rest = arguments;
    for _name in names {
        match rest.split_first() {
            None => return rest,
            Some((_, others)) => rest = others,
        }
    }
    rest
}

/// Binds the variable that tells whether an argument is given, where there is one.
fn bind_given(scope: &mut Scope, name: &Option<Name>, given: bool) -> Result<(), AllocError>
    ensures { OnOk result (scope.new ≡ scope.old ++ given_bound name.now given) }
{
    match name {
        None => Ok(()),
        Some(name) => scope.bind(name.copy()?, truth(given)),
    }
}

/// Binds an optional parameter, and the variable that tells whether its argument is given.
fn bind_entry(
    scope: &mut Scope,
    parameter: &OptionalParameter,
    datum: &Datum,
    given: bool,
) -> Result<(), AllocError>
    ensures { OnOk result (scope.new ≡ scope.old ++ optional_entry parameter.now (datum_of datum.now) given) }
{
    scope.bind(parameter.name.copy()?, datum.copy()?)?;
    bind_given(scope, &parameter.given, given)
}

/// Binds optional parameters, each to its argument or, where none is given, to its constant.
fn bind_optional(
    scope: &mut Scope,
    parameters: &[OptionalParameter],
    arguments: &Data,
) -> Result<(), AllocError>
    ensures { OnOk result (scope.new ≡ scope.old ++ optional_bound parameters.now arguments.now) }
{
    let mut rest = arguments;
    for parameter in parameters {
        match rest.split_first() {
            None => bind_entry(scope, parameter, &parameter.init, false)?,
            Some((argument, others)) => {
                bind_entry(scope, parameter, argument, true)?;
                rest = others;
            }
        }
    }
    Ok(())
}

/// What the parameters stand for.
pub(crate) fn bind_parameters(
    alloc: Global,
    parameters: &Parameters,
    arguments: &Data,
) -> Result<Scope, AllocError>
    ensures { IfOk result (λ r. r ≡ parameters_bound parameters.now arguments.now) }
{
    let mut scope = Scope::new(alloc);
    let required = parameters.required.as_slice();
    bind_required(&mut scope, required, arguments)?;
    let rest = after_required(required, arguments);
    bind_optional(&mut scope, parameters.optional.as_slice(), rest)?;
    Ok(scope)
}
