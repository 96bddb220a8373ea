//! The definitions of method combinations (HyperSpec 7.7 `define-method-combination`).
ghost use Rattle.std.specs.Prelude.{◌≡◌, Some};
ghost use Rattle.lisp_data.specs.DatumView.{datum_of};
ghost use Rattle.clos_forms.specs.Fault.{Gives};
ghost use Rattle.clos_combination.specs.Combination.{combination_in, combination_with, is_short, long_from, long_with, or_name, short_from, short_with};

use crate::group::{GroupSpecifier, are_ordered, parse_groups};
use crate::keyword::{Flags, is_keyword, or_false};
use crate::parameter::{Parameters, parameter_names, parse_parameters};
use clos_forms::{Sequence, SyntaxFault};
use clos_lambda::{Documentation, Symbols, are_properties, parse_symbol, parse_value};
use clos_template::{Template, parse_template};
use lisp_data::{Data, Datum, Name};
use std::alloc::Global;

/// A combination whose effective form is a form of an operator on the calls of the methods.
#[derive(Drop)]
pub struct ShortForm {
    pub name: Name,
    pub operator: Name,
    /// Whether the call of a method stands alone where it is the only one.
    pub identity: bool,
}

/// A combination whose effective form a template gives, for the methods of groups.
#[derive(Drop)]
pub struct LongForm {
    pub name: Name,
    pub parameters: Parameters,
    /// No name stands twice. An order is a keyword's or a parameter's.
    pub groups: Sequence<GroupSpecifier>,
    pub template: Template,
}

/// What a `define-method-combination` defines.
#[derive(Drop)]
pub enum CombinationDefinition {
    Short(ShortForm),
    Long(LongForm),
}

/// The options of a short form.
const SHORT_KEYS: [&str; 3] = ["DOCUMENTATION", "IDENTITY-WITH-ONE-ARGUMENT", "OPERATOR"];

/// The operator, which is the name of the combination where none is given.
fn or_name(name: &Name, operator: Option<Name>) -> Result<Name, SyntaxFault>
    ensures { Gives (λ n. n) result (Some (or_name name.now operator)) }
{
    match operator {
        None => Ok(name.copy()?),
        Some(operator) => Ok(operator),
    }
}

fn parse_short_from(alloc: Global, name: Name, options: &Data) -> Result<ShortForm, SyntaxFault>
    ensures { Gives (λ s. s) result (short_from name options.now) }
{
    parse_value::<Documentation>(alloc, "DOCUMENTATION", options)?;
    let operator = parse_value::<Symbols>(alloc, "OPERATOR", options)?;
    let identity = parse_value::<Flags>(alloc, "IDENTITY-WITH-ONE-ARGUMENT", options)?;
    let operator = or_name(&name, operator)?;
    Ok(ShortForm {
        name,
        operator,
        identity: or_false(identity),
    })
}

/// Keywords and values in turn.
fn parse_short_with(alloc: Global, name: Name, options: &Data) -> Result<ShortForm, SyntaxFault>
    ensures { Gives (λ s. s) result (short_with name options.now) }
{
    if !are_properties(&SHORT_KEYS, options) {
        return Err(SyntaxFault::Program);
    }
    parse_short_from(alloc, name, options)
}

fn parse_long_from(
    alloc: Global,
    name: Name,
    parameters: &Datum,
    groups: &Datum,
    body: &Data,
) -> Result<LongForm, SyntaxFault>
    ensures { Gives (λ l. l) result (long_from name (datum_of parameters.now) (datum_of groups.now) body.now) }
{
    let parameters = parse_parameters(alloc, parameters)?;
    let groups = parse_groups(alloc, groups)?;
    let names = parameter_names(alloc, &parameters)?;
    if !are_ordered(&names, groups.as_slice()) {
        return Err(SyntaxFault::Program);
    }
    let template = parse_template(alloc, body)?;
    Ok(LongForm {
        name,
        parameters,
        groups,
        template,
    })
}

/// Parameters, groups, and templates.
fn parse_long_with(alloc: Global, name: Name, rest: &Data) -> Result<LongForm, SyntaxFault>
    ensures { Gives (λ l. l) result (long_with name rest.now) }
{
    match rest.split_first() {
        None => Err(SyntaxFault::Program),
        Some((parameters, rest)) => match rest.split_first() {
            None => Err(SyntaxFault::Program),
            Some((groups, body)) => parse_long_from(alloc, name, parameters, groups, body),
        },
    }
}

/// Whether nothing or a keyword follows the name.
fn is_short(rest: &Data) -> bool
    ensures { result ≡ is_short rest.now }
{
    match rest.split_first() {
        None => true,
        Some((first, _)) => is_keyword(first),
    }
}

fn parse_combination_with(
    alloc: Global,
    name: Name,
    rest: &Data,
) -> Result<CombinationDefinition, SyntaxFault>
    ensures { Gives (λ c. c) result (combination_with name rest.now) }
{
    if is_short(rest) {
        let short = parse_short_with(alloc, name, rest)?;
        return Ok(CombinationDefinition::Short(short));
    }
    let long = parse_long_with(alloc, name, rest)?;
    Ok(CombinationDefinition::Long(long))
}

/// The definition that follows `define-method-combination`: a name, and a short or a long form.
pub fn parse_combination(alloc: Global, rest: &Data) -> Result<CombinationDefinition, SyntaxFault>
    ensures { Gives (λ c. c) result (combination_in rest.now) }
{
    match rest.split_first() {
        None => Err(SyntaxFault::Program),
        Some((name, rest)) => {
            let name = parse_symbol(name)?;
            parse_combination_with(alloc, name, rest)
        }
    }
}
