//! Parameters of long forms (HyperSpec 7.7 `define-method-combination`).
ghost use Rattle.std.specs.Prelude.{◌≡◌, ◌++◌, OnOk, IfOk};
ghost use Rattle.lisp_data.specs.DatumView.{datum_of};
ghost use Rattle.clos_forms.specs.Fault.{Gives};
ghost use Rattle.clos_combination.specs.Parameter.{bare, if_distinct, init_in, listed_parameter, optional_names, optional_parameter_in, optional_parameters_in, parameter_names, parameter_with, parameters_in, variables_in};

use clos_forms::{Sequence, SyntaxFault, are_distinct, at_most_one, names_constant};
use clos_lambda::{
    Kind, Variables, back, is_symbol_called, parse_each, parse_front, parse_given, parse_list,
    parse_parameter, push_name, push_names,
};
use lisp_data::{Data, Datum, Name};
use std::alloc::{AllocError, Global};

/// A variable with the constant that it is bound to where no datum is given, and the variable that tells whether one is.
#[derive(Drop)]
pub struct OptionalParameter {
    pub name: Name,
    pub init: Datum,
    pub given: Option<Name>,
}

/// The parameters of a long form. No variable stands twice in it.
#[derive(Drop)]
pub struct Parameters {
    pub required: Sequence<Name>,
    pub optional: Sequence<OptionalParameter>,
}

/// Entries of `&optional`.
struct OptionalParameters;

impl Kind for OptionalParameters {
    type Item = OptionalParameter;

    ghost item_in = { optional_parameter_in };

    fn parse(_alloc: Global, datum: &Datum) -> Result<OptionalParameter, SyntaxFault> {
        parse_optional_parameter(datum)
    }
}

/// A constant: an integer, a string, a keyword, T or NIL.
fn parse_init(datum: &Datum) -> Result<Datum, SyntaxFault>
    ensures { Gives (λ d. d) result (init_in (datum_of datum.now)) }
{
    match datum {
        Datum::Int(number) => Ok(Datum::Int(*number)),
        Datum::Sym(name) => {
            if !names_constant(name) {
                return Err(SyntaxFault::Program);
            }
            Ok(Datum::Sym(name.copy()?))
        }
        Datum::Str(text) => Ok(Datum::Str(text.copy()?)),
        Datum::List(_) => Err(SyntaxFault::Program),
        Datum::Dotted(_) => Err(SyntaxFault::Program),
        Datum::Method(_) => Err(SyntaxFault::Program),
    }
}

/// A variable that is bound to NIL where no datum is given.
fn bare(name: Name) -> OptionalParameter
    ensures { result ≡ bare name }
{
    OptionalParameter {
        name,
        init: Datum::Sym(Name::fixed(&"NIL")),
        given: None,
    }
}

/// `v`, `(v)`, `(v init)` or `(v init given)`.
fn parse_optional_parameter(datum: &Datum) -> Result<OptionalParameter, SyntaxFault>
    ensures { Gives (λ p. p) result (optional_parameter_in (datum_of datum.now)) }
{
    match datum {
        Datum::Sym(_) => {
            let name = parse_parameter(datum)?;
            Ok(bare(name))
        }
        Datum::List(elements) => parse_listed_parameter(elements),
        Datum::Int(_) => Err(SyntaxFault::Program),
        Datum::Str(_) => Err(SyntaxFault::Program),
        Datum::Dotted(_) => Err(SyntaxFault::Program),
        Datum::Method(_) => Err(SyntaxFault::Program),
    }
}

fn parse_listed_parameter(elements: &Data) -> Result<OptionalParameter, SyntaxFault>
    ensures { Gives (λ p. p) result (listed_parameter elements.now) }
{
    match elements.split_first() {
        None => Err(SyntaxFault::Program),
        Some((variable, rest)) => {
            let name = parse_parameter(variable)?;
            parse_parameter_with(name, rest)
        }
    }
}

/// What may follow the variable: a constant, and then a variable that tells whether a datum is given.
fn parse_parameter_with(name: Name, rest: &Data) -> Result<OptionalParameter, SyntaxFault>
    ensures { Gives (λ p. p) result (parameter_with name rest.now) }
{
    match rest.split_first() {
        None => Ok(bare(name)),
        Some((init, rest)) => {
            let init = parse_init(init)?;
            match at_most_one(rest) {
                None => Err(SyntaxFault::Program),
                Some(given) => {
                    let given = parse_given(given)?;
                    Ok(OptionalParameter { name, init, given })
                }
            }
        }
    }
}

/// `&optional` and its entries, where anything follows the required parameters.
fn parse_optional_parameters(
    alloc: Global,
    rest: &Data,
) -> Result<Sequence<OptionalParameter>, SyntaxFault>
    ensures { Gives (λ ps. ps) result (optional_parameters_in rest.now) }
{
    match rest.split_first() {
        None => Ok(Sequence::new(alloc)),
        Some((keyword, entries)) => {
            if !is_symbol_called("&OPTIONAL", keyword) {
                return Err(SyntaxFault::Program);
            }
            parse_each::<OptionalParameters>(alloc, entries)
        }
    }
}

fn push_variables(names: &mut Vec<Name>, parameter: &OptionalParameter) -> Result<(), AllocError>
    ensures { OnOk result (names.new.items ≡ names.old.items ++ variables_in parameter.now) }
{
    names.push(parameter.name.copy()?)?;
    push_name(names, &parameter.given)
}

fn push_optional_names(
    names: &mut Vec<Name>,
    parameters: &[OptionalParameter],
) -> Result<(), AllocError>
    ensures { OnOk result (names.new.items ≡ names.old.items ++ optional_names parameters.now) }
{
    for parameter in parameters {
        push_variables(names, parameter)?;
    }
    Ok(())
}

/// All variables, in order.
pub(crate) fn parameter_names(
    alloc: Global,
    parameters: &Parameters,
) -> Result<Vec<Name>, AllocError>
    ensures { IfOk result (λ ns. ns.items ≡ parameter_names parameters.now) }
{
    let mut names = Vec::new(alloc);
    push_names(&mut names, parameters.required.as_slice())?;
    push_optional_names(&mut names, parameters.optional.as_slice())?;
    Ok(names)
}

/// The same parameters, where no variable stands twice.
fn if_distinct(alloc: Global, parameters: Parameters) -> Result<Parameters, SyntaxFault>
    ensures { Gives (λ ps. ps) result (if_distinct parameters) }
{
    let names = parameter_names(alloc, &parameters)?;
    if !are_distinct(alloc, &names)? {
        return Err(SyntaxFault::Program);
    }
    Ok(parameters)
}

/// The parameters of a long form: required ones, and then perhaps `&optional` and its entries.
pub(crate) fn parse_parameters(alloc: Global, datum: &Datum) -> Result<Parameters, SyntaxFault>
    ensures { Gives (λ ps. ps) result (parameters_in (datum_of datum.now)) }
{
    let elements = parse_list(datum)?;
    let required = parse_front::<Variables>(alloc, &elements)?;
    let optional = parse_optional_parameters(alloc, back(&elements))?;
    if_distinct(alloc, Parameters { required, optional })
}
