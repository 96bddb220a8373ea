//! Generic functions (HyperSpec 7.7 `defgeneric`).
ghost use Rattle.std.specs.Prelude.{◌≡◌, IfOk};
ghost use Rattle.std.specs.Option.{option_copied};
ghost use Rattle.lisp_data.specs.DatumView.{datum_of};
ghost use Rattle.clos_forms.specs.Fault.{Gives};
ghost use Rattle.clos_syntax.specs.Generic.{combination_use_in, combination_with, fits, generic_in, generic_option_in, generic_options_in, generic_with, method_option_in, orders, symbols_in};

use crate::class::DocumentationOptions;
use crate::function_name::parse_new_function;
use crate::method::{MethodDefinition, parse_method};
use clos_forms::{FunctionName, Sequence, SyntaxFault, are_among, are_distinct, is_declaration};
use clos_lambda::{
    Kind, LambdaList, Symbols, arguments, is_option, parse_each, parse_generic_lambda_list,
    parse_option, parse_options, parse_symbol,
};
use lisp_data::{Data, Datum, Name};
use std::alloc::{AllocError, Global};

/// The method combination of a generic function, and what it is given (HyperSpec 7.6.6.4).
#[derive(Drop)]
pub struct CombinationUse {
    pub name: Name,
    pub arguments: Data,
}

/// What a `defgeneric` defines.
#[derive(Drop)]
pub struct GenericDefinition {
    pub name: FunctionName,
    /// Without init forms (HyperSpec 3.4.2).
    pub lambda_list: LambdaList,
    /// The required parameters in their `:argument-precedence-order`, where it is written.
    pub precedence: Option<Sequence<Name>>,
    pub combination: Option<CombinationUse>,
    pub methods: Sequence<MethodDefinition>,
}

/// The options of a `defgeneric`.
#[derive(Drop)]
struct GenericOptions {
    precedence: Option<Sequence<Name>>,
    combination: Option<CombinationUse>,
    methods: Sequence<MethodDefinition>,
}

/// Options of a `defgeneric`.
struct KnownOptions;

/// `:argument-precedence-order` options.
struct Precedences;

/// `:method-combination` options.
struct Combinations;

/// `:method` options.
struct Methods;

impl Kind for KnownOptions {
    type Item = ();

    ghost item_in = { generic_option_in };

    fn parse(_alloc: Global, datum: &Datum) -> Result<(), SyntaxFault> {
        parse_known_option(datum)
    }
}

impl Kind for Precedences {
    type Item = Sequence<Name>;

    ghost item_in = { symbols_in };

    fn parse(alloc: Global, datum: &Datum) -> Result<Sequence<Name>, SyntaxFault> {
        parse_symbols(alloc, datum)
    }
}

impl Kind for Combinations {
    type Item = CombinationUse;

    ghost item_in = { combination_use_in };

    fn parse(_alloc: Global, datum: &Datum) -> Result<CombinationUse, SyntaxFault> {
        parse_combination(datum)
    }
}

impl Kind for Methods {
    type Item = MethodDefinition;

    ghost item_in = { method_option_in };

    fn parse(alloc: Global, datum: &Datum) -> Result<MethodDefinition, SyntaxFault> {
        parse_method_option(alloc, datum)
    }
}

fn parse_known_option(datum: &Datum) -> Result<(), SyntaxFault>
    ensures { Gives (λ u. u) result (generic_option_in (datum_of datum.now)) }
{
    if is_declaration(datum)
        || is_option("ARGUMENT-PRECEDENCE-ORDER", datum)
        || is_option("METHOD-COMBINATION", datum)
        || is_option("DOCUMENTATION", datum)
        || is_option("METHOD", datum)
    {
        return Ok(());
    }
    Err(SyntaxFault::Program)
}

fn parse_symbols(alloc: Global, option: &Datum) -> Result<Sequence<Name>, SyntaxFault>
    ensures { Gives (λ ns. ns) result (symbols_in (datum_of option.now)) }
{
    match arguments(option) {
        None => Err(SyntaxFault::Program),
        Some(arguments) => parse_each::<Symbols>(alloc, arguments),
    }
}

/// A name, and any data.
fn parse_combination_with(arguments: &Data) -> Result<CombinationUse, SyntaxFault>
    ensures { Gives (λ c. c) result (combination_with arguments.now) }
{
    match arguments.split_first() {
        None => Err(SyntaxFault::Program),
        Some((name, rest)) => {
            let name = parse_symbol(name)?;
            let arguments = rest.copy()?;
            Ok(CombinationUse { name, arguments })
        }
    }
}

fn parse_combination(option: &Datum) -> Result<CombinationUse, SyntaxFault>
    ensures { Gives (λ c. c) result (combination_use_in (datum_of option.now)) }
{
    match arguments(option) {
        None => Err(SyntaxFault::Program),
        Some(arguments) => parse_combination_with(arguments),
    }
}

fn parse_method_option(alloc: Global, option: &Datum) -> Result<MethodDefinition, SyntaxFault>
    ensures { Gives (λ m. m) result (method_option_in (datum_of option.now)) }
{
    match arguments(option) {
        None => Err(SyntaxFault::Program),
        Some(arguments) => parse_method(alloc, arguments),
    }
}

fn parse_generic_options(alloc: Global, options: &Data) -> Result<GenericOptions, SyntaxFault>
    ensures { Gives (λ os. os) result (generic_options_in options.now) }
{
    parse_each::<KnownOptions>(alloc, options)?;
    parse_option::<DocumentationOptions>(alloc, "DOCUMENTATION", options)?;
    let precedence = parse_option::<Precedences>(alloc, "ARGUMENT-PRECEDENCE-ORDER", options)?;
    let combination = parse_option::<Combinations>(alloc, "METHOD-COMBINATION", options)?;
    let methods = parse_options::<Methods>(alloc, "METHOD", options)?;
    Ok(GenericOptions {
        precedence,
        combination,
        methods,
    })
}

/// Whether these are the required parameters, each exactly once.
fn orders(alloc: Global, required: &[Name], names: &[Name]) -> Result<bool, AllocError>
    ensures { IfOk result (λ r. r ≡ orders required.now names.now) }
{
    Ok(
        are_distinct(alloc, names)?
            && are_among(alloc, names, required)?
            && are_among(alloc, required, names)?,
    )
}

fn fits(
    alloc: Global,
    required: &[Name],
    precedence: &Option<Sequence<Name>>,
) -> Result<bool, AllocError>
    ensures { IfOk result (λ r. r ≡ fits required.now precedence.now) }
{
    match precedence {
        None => Ok(true),
        Some(names) => orders(alloc, required, names.as_slice()),
    }
}

/// The generic function of the data after `defgeneric`: a name, a lambda list, and options (HyperSpec 7.7, DEFGENERIC).
/// `Program` where they are none.
pub fn parse_generic(alloc: Global, elements: &Data) -> Result<GenericDefinition, SyntaxFault>
    ensures { Gives (λ g. g) result (generic_in elements.now) }
{
    match elements.split_first() {
        None => Err(SyntaxFault::Program),
        Some((name, rest)) => match rest.split_first() {
            None => Err(SyntaxFault::Program),
            Some((parameters, options)) => parse_generic_with(alloc, name, parameters, options),
        },
    }
}

fn parse_generic_with(
    alloc: Global,
    name: &Datum,
    parameters: &Datum,
    options: &Data,
) -> Result<GenericDefinition, SyntaxFault>
    ensures { Gives (λ g. g) result (generic_with (datum_of name.now) (datum_of parameters.now) options.now) }
{
    let name = parse_new_function(name)?;
    let lambda_list = parse_generic_lambda_list(alloc, parameters)?;
    let options = parse_generic_options(alloc, options)?;
    if !fits(alloc, lambda_list.required.as_slice(), &options.precedence)? {
        return Err(SyntaxFault::Program);
    }
    let GenericOptions {
        precedence,
        combination,
        methods,
    } = options;
    Ok(GenericDefinition {
        name,
        lambda_list,
        precedence,
        combination,
        methods,
    })
}
