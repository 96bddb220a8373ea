//! Functions (HyperSpec 5.3 `defun`).
ghost use Rattle.std.specs.Prelude.{◌≡◌};
ghost use Rattle.lisp_data.specs.DatumView.{datum_of};
ghost use Rattle.clos_forms.specs.Fault.{Gives};
ghost use Rattle.clos_syntax.specs.Function.{function_in, function_with};

use crate::function_name::parse_new_function;
use clos_forms::{Context, Forms, FunctionName, Scope, SyntaxFault, parse_body};
use clos_lambda::{LambdaList, parse_lambda_list};
use lisp_data::{Data, Datum};
use std::alloc::Global;

/// What a `defun` defines.
#[derive(Drop)]
pub struct FunctionDefinition {
    pub name: FunctionName,
    pub lambda_list: LambdaList,
    pub body: Forms,
}

/// The function of the data after `defun`: a name, a lambda list, and a body (HyperSpec 5.3, DEFUN). `Program` where they are
/// none.
pub fn parse_function(alloc: Global, elements: &Data) -> Result<FunctionDefinition, SyntaxFault>
    ensures { Gives (λ d. d) result (function_in elements.now) }
{
    match elements.split_first() {
        None => Err(SyntaxFault::Program),
        Some((name, rest)) => match rest.split_first() {
            None => Err(SyntaxFault::Program),
            Some((parameters, body)) => parse_function_with(alloc, name, parameters, body),
        },
    }
}

fn parse_function_with(
    alloc: Global,
    name: &Datum,
    parameters: &Datum,
    body: &Data,
) -> Result<FunctionDefinition, SyntaxFault>
    ensures { Gives (λ d. d) result (function_with (datum_of name.now) (datum_of parameters.now) body.now) }
{
    let name = parse_new_function(name)?;
    let mut scope = Scope::new(alloc);
    let lambda_list = parse_lambda_list(alloc, &mut scope, parameters)?;
    let body = parse_body(alloc, Context::Plain, &mut scope, body)?;
    Ok(FunctionDefinition {
        name,
        lambda_list,
        body,
    })
}
