//! Parameters whose init forms see the parameters before them (HyperSpec 3.4.1).
ghost use Rattle.std.specs.Prelude.{Option};
ghost use Rattle.lisp_data.specs.Datum.{Dat};
ghost use Rattle.lisp_data.specs.DatumView.{datum_of};
ghost use Rattle.clos_forms.specs.Binding.{each};
ghost use Rattle.clos_forms.specs.Fault.{Gives};
ghost use Rattle.clos_lambda.specs.Sections.{front};

use crate::section::ends_section;
use clos_forms::{Scope, Sequence, SyntaxFault};
use lisp_data::{Data, Datum};
use std::alloc::Global;

/// A kind of parameter, which may have an init form.
pub(crate) trait Parameter {
    type Item: Drop;

    ghost item_in: { Dat → Option Self.Item };

    /// What a datum stands for where these names are in scope, among which the parameter's come.
    fn parse(alloc: Global, scope: &mut Scope, datum: &Datum) -> Result<Self::Item, SyntaxFault>
        ensures { Gives (λ x. x) result (item_in (datum_of datum.now)) };
}

/// What each element of a section of a lambda list stands for.
#[tactic(auto, using(crate::proofs::Lists::one_more))]
pub(crate) fn parse_parameters<P: Parameter>(
    alloc: Global,
    scope: &mut Scope,
    elements: &Data,
) -> Result<Sequence<P::Item>, SyntaxFault>
    ensures { Gives (λ xs. xs) result (each P.item_in (front elements.now)) }
{
    let mut items = Sequence::new(alloc);
    let mut rest = elements;
    while let Some((first, others)) = rest.split_first() {
        if ends_section(first) {
            return Ok(items);
        }
        match P::parse(alloc, scope, first) {
            Err(fault) => return Err(fault),
            Ok(item) => items.push(item)?,
        }
        rest = others;
    }
    Ok(items)
}
