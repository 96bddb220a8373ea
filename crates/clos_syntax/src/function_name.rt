//! Names that a program may give its functions (HyperSpec 11.1.2.1.2).
ghost use Rattle.std.specs.Prelude.{◌≡◌};
ghost use Rattle.std.specs.Option.{option_copied};
ghost use Rattle.lisp_data.specs.DatumView.{datum_of};
ghost use Rattle.clos_forms.specs.Fault.{Gives};
ghost use Rattle.clos_forms.specs.OperatorView.{called_of};
ghost use Rattle.clos_syntax.specs.FunctionName.{if_free, is_taken, method_function_in, method_symbol_in, new_function_in, unless_system, unless_taken};

use clos_forms::{
    FunctionName, SyntaxFault, is_closed_function, is_function, is_special_operator,
    is_system_function, parse_function_name,
};
use clos_lambda::parse_symbol;
use lisp_data::{Datum, Name};

/// Whether a program has no methods on this name.
fn is_taken(name: &Name) -> bool
    ensures { result ≡ is_taken name.now }
{
    is_special_operator(name) || is_function(name) || is_closed_function(name)
}

fn unless_taken(name: Name) -> Result<Name, SyntaxFault>
    ensures { Gives (λ n. n) result (unless_taken name) }
{
    if is_taken(&name) {
        return Err(SyntaxFault::Program);
    }
    Ok(name)
}

fn unless_system(name: Name) -> Result<Name, SyntaxFault>
    ensures { Gives (λ n. n) result (unless_system name) }
{
    if is_system_function(&name) {
        return Err(SyntaxFault::Program);
    }
    unless_taken(name)
}

/// The name of a function that gets methods (HyperSpec 11.1.2.1.2). `Program` where a program may not give it methods, or
/// the datum is no name of a function.
pub fn parse_method_function(datum: &Datum) -> Result<FunctionName, SyntaxFault>
    ensures { Gives (λ n. n) result (method_function_in (datum_of datum.now)) }
{
    let name = parse_function_name(datum)?;
    match name {
        FunctionName::Symbol(name) => {
            let name = unless_taken(name)?;
            Ok(FunctionName::Symbol(name))
        }
        FunctionName::Setf(name) => Ok(FunctionName::Setf(name)),
    }
}

/// The name of a function that is defined.
pub(crate) fn parse_new_function(datum: &Datum) -> Result<FunctionName, SyntaxFault>
    ensures { Gives (λ n. n) result (new_function_in (datum_of datum.now)) }
{
    let name = parse_function_name(datum)?;
    match name {
        FunctionName::Symbol(name) => {
            let name = unless_system(name)?;
            Ok(FunctionName::Symbol(name))
        }
        FunctionName::Setf(name) => Ok(FunctionName::Setf(name)),
    }
}

/// A symbol that names a function that gets methods.
pub(crate) fn parse_method_symbol(datum: &Datum) -> Result<Name, SyntaxFault>
    ensures { Gives (λ n. n) result (method_symbol_in (datum_of datum.now)) }
{
    let name = parse_symbol(datum)?;
    unless_taken(name)
}
