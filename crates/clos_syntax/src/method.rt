//! Methods (HyperSpec 7.6.2, 3.4.3, 7.7 `defmethod`).
ghost use Rattle.std.specs.Prelude.{◌≡◌, IfOk, map};
ghost use Rattle.lisp_data.specs.Datum.{nil};
ghost use Rattle.lisp_data.specs.DatumView.{datum_of};
ghost use Rattle.clos_forms.specs.Fault.{Gives};
ghost use Rattle.clos_lambda.specs.Lists.{ahead};
ghost use Rattle.clos_syntax.specs.Method.{eql_specializer, is_qualifier, listed_specializer, method_in, method_with, past_qualifiers, qualified, qualifiers_in, required_in, specialized, specialized_name, specializer_in, specializer_named, specializers_in, t_name};

use clos_forms::{Context, Form, Forms, Scope, Sequence, SyntaxFault, is_the, only, parse_body};
use clos_lambda::{
    Kind, LambdaList, back, is_symbol_called, parse_front, parse_list, parse_parameter,
    parse_plain_form, parse_with_optionals,
};
use lisp_data::{Data, Datum, Name};
use std::alloc::{AllocError, Global};

/// What a method asks of the argument of a required parameter (HyperSpec 7.6.2).
#[derive(Drop)]
pub enum ParameterSpecializer {
    /// To be of the class of this name.
    Class(Name),
    /// To be EQL to the value of this form.
    Eql(Form),
}

/// A method of a `defmethod`, or of a `:method` option of a `defgeneric`.
#[derive(Drop)]
pub struct MethodDefinition {
    /// Atoms other than NIL.
    pub qualifiers: Data,
    pub lambda_list: LambdaList,
    /// One for each required parameter.
    pub specializers: Sequence<ParameterSpecializer>,
    pub body: Forms,
}

/// Variables of required parameters.
struct RequiredNames;

/// Specializers of required parameters.
struct Specializers;

impl Kind for RequiredNames {
    type Item = Name;

    ghost item_in = { required_in };

    fn parse(_alloc: Global, datum: &Datum) -> Result<Name, SyntaxFault> {
        parse_required(datum)
    }
}

impl Kind for Specializers {
    type Item = ParameterSpecializer;

    ghost item_in = { specializer_in };

    fn parse(alloc: Global, datum: &Datum) -> Result<ParameterSpecializer, SyntaxFault> {
        parse_specializer(alloc, datum)
    }
}

/// The variable of `v`, or of `(v specializer)`.
fn parse_required(datum: &Datum) -> Result<Name, SyntaxFault>
    ensures { Gives (λ n. n) result (required_in (datum_of datum.now)) }
{
    match datum {
        Datum::Sym(_) => parse_parameter(datum),
        Datum::List(elements) => parse_specialized_name(elements),
        Datum::Int(_) => Err(SyntaxFault::Program),
        Datum::Str(_) => Err(SyntaxFault::Program),
        Datum::Dotted(_) => Err(SyntaxFault::Program),
        Datum::Method(_) => Err(SyntaxFault::Program),
    }
}

fn parse_specialized_name(elements: &Data) -> Result<Name, SyntaxFault>
    ensures { Gives (λ n. n) result (specialized_name elements.now) }
{
    match elements.split_first() {
        None => Err(SyntaxFault::Program),
        Some((variable, rest)) => match only(rest) {
            None => Err(SyntaxFault::Program),
            Some(_) => parse_parameter(variable),
        },
    }
}

/// The specializer of `v`, or of `(v specializer)`.
fn parse_specializer(alloc: Global, datum: &Datum) -> Result<ParameterSpecializer, SyntaxFault>
    ensures { Gives (λ s. s) result (specializer_in (datum_of datum.now)) }
{
    match datum {
        Datum::Sym(_) => Ok(ParameterSpecializer::Class(Name::fixed(&"T"))),
        Datum::List(elements) => parse_listed_specializer(alloc, elements),
        Datum::Int(_) => Err(SyntaxFault::Program),
        Datum::Str(_) => Err(SyntaxFault::Program),
        Datum::Dotted(_) => Err(SyntaxFault::Program),
        Datum::Method(_) => Err(SyntaxFault::Program),
    }
}

fn parse_listed_specializer(
    alloc: Global,
    elements: &Data,
) -> Result<ParameterSpecializer, SyntaxFault>
    ensures { Gives (λ s. s) result (listed_specializer elements.now) }
{
    match elements.split_first() {
        None => Err(SyntaxFault::Program),
        Some((_, rest)) => match only(rest) {
            None => Err(SyntaxFault::Program),
            Some(specializer) => parse_specializer_named(alloc, specializer),
        },
    }
}

/// The name of a class, or `(eql form)`.
fn parse_specializer_named(
    alloc: Global,
    datum: &Datum,
) -> Result<ParameterSpecializer, SyntaxFault>
    ensures { Gives (λ s. s) result (specializer_named (datum_of datum.now)) }
{
    match datum {
        Datum::Sym(name) => Ok(ParameterSpecializer::Class(name.copy()?)),
        Datum::List(elements) => parse_eql_specializer(alloc, elements),
        Datum::Int(_) => Err(SyntaxFault::Program),
        Datum::Str(_) => Err(SyntaxFault::Program),
        Datum::Dotted(_) => Err(SyntaxFault::Program),
        Datum::Method(_) => Err(SyntaxFault::Program),
    }
}

fn parse_eql_specializer(
    alloc: Global,
    elements: &Data,
) -> Result<ParameterSpecializer, SyntaxFault>
    ensures { Gives (λ s. s) result (eql_specializer elements.now) }
{
    match elements.split_first() {
        None => Err(SyntaxFault::Program),
        Some((head, rest)) => {
            if !is_symbol_called("EQL", head) {
                return Err(SyntaxFault::Program);
            }
            match only(rest) {
                None => Err(SyntaxFault::Program),
                Some(object) => {
                    let form = parse_plain_form(alloc, object)?;
                    Ok(ParameterSpecializer::Eql(form))
                }
            }
        }
    }
}

/// Whether a datum is an atom other than NIL.
fn is_qualifier(datum: &Datum) -> bool
    ensures { result ≡ is_qualifier (datum_of datum.now) }
{
    match datum {
        Datum::Int(_) => true,
        Datum::Sym(name) => !is_the(name, "NIL"),
        Datum::Str(_) => true,
        Datum::List(_) => false,
        Datum::Dotted(_) => false,
        Datum::Method(_) => false,
    }
}

/// The qualifiers that lead a method's data.
#[tactic(auto, using(clos_lambda::proofs::Lists::one_ahead))]
fn leading_qualifiers(alloc: Global, elements: &Data) -> Result<Vec<Datum>, AllocError>
    ensures { IfOk result (λ ds. ahead (map datum_of ds.items) nil ≡ qualifiers_in elements.now) }
{
    let mut qualifiers = Vec::new(alloc);
    let mut rest = elements;
    while let Some((first, others)) = rest.split_first() {
        if !is_qualifier(first) {
            return Ok(qualifiers);
        }
        qualifiers.push(first.copy()?)?;
        rest = others;
    }
    Ok(qualifiers)
}

/// The list of these atoms.
#[tactic(auto, using(clos_lambda::proofs::Lists::one_ahead))]
fn data_from(alloc: Global, mut atoms: Vec<Datum>) -> Result<Data, AllocError>
    ensures { IfOk result (λ l. l ≡ ahead (map datum_of atoms.items) nil) }
{
    let mut list = Data::new();
    while let Some(last) = atoms.pop() {
        match Data::cons(alloc, last, list) {
            Ok(longer) => list = longer,
            // Atoms nest in no list, so only memory is refused.
            Err(_) => return Err(AllocError),
        }
    }
    Ok(list)
}

/// What follows the qualifiers: a specialized lambda list, and a body.
fn past_qualifiers(elements: &Data) -> &Data
    ensures { result.now ≡ past_qualifiers elements.now }
{
    let mut rest = elements;
    while let Some((first, others)) = rest.split_first() {
        if !is_qualifier(first) {
            return rest;
        }
        rest = others;
    }
    rest
}

/// The method of the data after its function's name: qualifiers, a specialized lambda list, and a body (HyperSpec 7.7,
/// DEFMETHOD). `Program` where they are none.
pub fn parse_method(alloc: Global, elements: &Data) -> Result<MethodDefinition, SyntaxFault>
    ensures { Gives (λ m. m) result (method_in elements.now) }
{
    let qualifiers = leading_qualifiers(alloc, elements)?;
    let qualifiers = data_from(alloc, qualifiers)?;
    match past_qualifiers(elements).split_first() {
        None => Err(SyntaxFault::Program),
        Some((parameters, body)) => {
            let parameters = parse_list(parameters)?;
            parse_method_with(alloc, qualifiers, &parameters, body)
        }
    }
}

fn parse_method_with(
    alloc: Global,
    qualifiers: Data,
    parameters: &Data,
    body: &Data,
) -> Result<MethodDefinition, SyntaxFault>
    ensures { Gives (λ m. m) result (method_with qualifiers parameters.now body.now) }
{
    let mut scope = Scope::new(alloc);
    let lambda_list = parse_specialized(alloc, &mut scope, parameters)?;
    let specializers = parse_front::<Specializers>(alloc, parameters)?;
    let body = parse_body(alloc, Context::Method, &mut scope, body)?;
    Ok(MethodDefinition {
        qualifiers,
        lambda_list,
        specializers,
        body,
    })
}

/// The lambda list without the specializers (HyperSpec 3.4.3). Its variables come into scope.
fn parse_specialized(
    alloc: Global,
    scope: &mut Scope,
    parameters: &Data,
) -> Result<LambdaList, SyntaxFault>
    ensures { Gives (λ l. l) result (specialized parameters.now) }
{
    let required = parse_front::<RequiredNames>(alloc, parameters)?;
    parse_with_optionals(alloc, scope, required, back(parameters))
}
