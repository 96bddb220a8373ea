//! Lists, where one is wanted.
ghost use Rattle.std.specs.Prelude.{◌≡◌};
ghost use Rattle.lisp_data.specs.DatumView.{datum_of};
ghost use Rattle.clos_forms.specs.Fault.{Gives};
ghost use Rattle.clos_lambda.specs.Lists.{list_in};

use clos_forms::{SyntaxFault, is_the};
use lisp_data::{Data, Datum};

/// The elements of a list, which may be written NIL.
pub fn parse_list(datum: &Datum) -> Result<Data, SyntaxFault>
    ensures { Gives (λ l. l) result (list_in (datum_of datum.now)) }
{
    match datum {
        Datum::List(elements) => Ok(elements.copy()?),
        Datum::Sym(name) => {
            if is_the(name, "NIL") {
                return Ok(Data::new());
            }
            Err(SyntaxFault::Program)
        }
        Datum::Int(_) => Err(SyntaxFault::Program),
        Datum::Str(_) => Err(SyntaxFault::Program),
        Datum::Dotted(_) => Err(SyntaxFault::Program),
        Datum::Method(_) => Err(SyntaxFault::Program),
    }
}
