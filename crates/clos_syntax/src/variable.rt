//! Global variables (HyperSpec 5.3 `defvar`, `defparameter`).
ghost use Rattle.std.specs.Prelude.{◌≡◌, option_map};
ghost use Rattle.lisp_data.specs.DatumView.{datum_of};
ghost use Rattle.clos_forms.specs.Fault.{Gives};
ghost use Rattle.clos_syntax.specs.Variable.{documented, init_in, is_documentation, variable_definition_in};

use clos_forms::{Form, SyntaxFault, at_most_one, is_string, variable_name};
use clos_lambda::parse_plain_form;
use lisp_data::{Data, Datum, Name};
use std::alloc::Global;

/// Which operator defines a variable.
#[derive(Clone, Copy, Debug, Drop, PartialEq, Eq)]
pub enum Definer {
    /// The form is evaluated only where the variable has no value.
    DefVar,
    /// The form is evaluated each time.
    DefParameter,
}

/// What a `defvar` or `defparameter` defines. Only a `defvar` may have no form.
#[derive(Drop)]
pub struct VariableDefinition {
    pub definer: Definer,
    pub name: Name,
    pub form: Option<Form>,
}

/// The variable of the data after `defvar` or `defparameter`: a name, and what is written after it (HyperSpec 5.3, DEFVAR).
/// `Program` where they are none.
pub fn parse_variable(
    alloc: Global,
    definer: Definer,
    elements: &Data,
) -> Result<VariableDefinition, SyntaxFault>
    ensures { Gives (λ d. d) result (variable_definition_in definer elements.now) }
{
    match elements.split_first() {
        None => Err(SyntaxFault::Program),
        Some((name, rest)) => match variable_name(name) {
            None => Err(SyntaxFault::Program),
            Some(name) => {
                let form = parse_init(alloc, definer, rest)?;
                let name = name.copy()?;
                Ok(VariableDefinition {
                    definer,
                    name,
                    form,
                })
            }
        },
    }
}

/// A form, and then a string or nothing. A `defvar` may have neither.
fn parse_init(alloc: Global, definer: Definer, rest: &Data) -> Result<Option<Form>, SyntaxFault>
    ensures { Gives (λ f. f) result (init_in definer rest.now) }
{
    match rest.split_first() {
        None => match definer {
            Definer::DefVar => Ok(None),
            Definer::DefParameter => Err(SyntaxFault::Program),
        },
        Some((init, rest)) => {
            let form = parse_documented(alloc, rest, init)?;
            Ok(Some(form))
        }
    }
}

fn parse_documented(alloc: Global, rest: &Data, init: &Datum) -> Result<Form, SyntaxFault>
    ensures { Gives (λ f. f) result (documented rest.now (datum_of init.now)) }
{
    match at_most_one(rest) {
        None => Err(SyntaxFault::Program),
        Some(documentation) => {
            if !is_documentation(documentation) {
                return Err(SyntaxFault::Program);
            }
            parse_plain_form(alloc, init)
        }
    }
}

fn is_documentation(datum: Option<&Datum>) -> bool
    ensures { result ≡ is_documentation (option_map (λ d. datum_of d.now) datum.entry) }
{
    match datum {
        None => true,
        Some(datum) => is_string(datum),
    }
}
