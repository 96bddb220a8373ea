//! The form that a datum is: its shape, with each part's form.
ghost use Rattle.std.specs.Prelude.{◌≡◌, ℕ, true, map, IfOk};
ghost use Rattle.lisp_data.specs.DatumView.{datum_of};
ghost use Rattle.clos_forms.specs.Fault.{Gives};
ghost use Rattle.clos_forms.specs.Grammar.{body_forms_of, form_of, forms_of, tree_at, trees_at};
ghost use Rattle.clos_forms.specs.PartView.{part_of};
ghost use Rattle.clos_forms.specs.WellFormed.{are_well_formed, is_well_formed};

use crate::body::push_body;
use crate::fault::SyntaxFault;
use crate::form::{Form, Forms};
use crate::part::{Context, Part, Role, push_parts};
use crate::scope::Scope;
use crate::shape::shape_of;
use lisp_data::{Data, Datum, MAX_NESTING};
use std::alloc::Global;

/// No datum nests so deep.
const ROOM: u64 = MAX_NESTING + 1;

/// The form that a datum is (HyperSpec 3.1.2.1).
pub fn parse_form(alloc: Global, context: Context, datum: &Datum) -> Result<Form, SyntaxFault>
    ensures form { Gives (λ f. f) result (form_of context (datum_of datum.now)) }
    ensures well_formed { IfOk result (λ f. is_well_formed context f ≡ true) }
{
    parse_form_within(alloc, context, &mut Scope::new(alloc), datum)
}

/// The form that a datum is where these names are in scope (HyperSpec 3.1.2.1).
pub fn parse_form_within(
    alloc: Global,
    context: Context,
    scope: &mut Scope,
    datum: &Datum,
) -> Result<Form, SyntaxFault>
    ensures form { Gives (λ f. f) result (form_of context (datum_of datum.now)) }
    ensures well_formed { IfOk result (λ f. is_well_formed context f ≡ true) }
{
    let role = Role::Expression;
    tree_at(alloc, ROOM, context, scope, Part { role, datum })
}

/// The forms that the data of a list are, in order.
pub fn parse_forms<'a>(
    alloc: Global,
    context: Context,
    elements: &'a Data,
) -> Result<Forms, SyntaxFault>
    ensures forms { Gives (λ fs. fs) result (forms_of context elements.now) }
    ensures well_formed { IfOk result (λ fs. are_well_formed context fs ≡ true) }
{
    let mut parts: Vec<Part<'a>> = Vec::new(alloc);
    push_parts(&mut parts, Role::Expression, elements)?;
    trees_at(
        alloc,
        ROOM,
        context,
        &mut Scope::new(alloc),
        parts,
        Vec::new(alloc),
    )
}

/// The forms of a body, without its leading declarations, and without the leading strings that a form follows
/// (HyperSpec 3.4.11). These names are in scope.
pub fn parse_body<'a>(
    alloc: Global,
    context: Context,
    scope: &mut Scope,
    forms: &'a Data,
) -> Result<Forms, SyntaxFault>
    ensures forms { Gives (λ fs. fs) result (body_forms_of context forms.now) }
    ensures well_formed { IfOk result (λ fs. are_well_formed context fs ≡ true) }
{
    let mut parts: Vec<Part<'a>> = Vec::new(alloc);
    push_body(&mut parts, forms)?;
    trees_at(alloc, ROOM, context, scope, parts, Vec::new(alloc))
}

/// The form of a datum in its role, where there is so much room. The names in scope are the same after it.
#[cycle(tree)]
fn tree_at(
    alloc: Global,
    room: u64,
    context: Context,
    scope: &mut Scope,
    part: Part<'_>,
) -> Result<Form, SyntaxFault>
    ensures { Gives (λ f. f) result (tree_at room context (part_of part.entry)) }
{
    if room == 0 {
        return Err(SyntaxFault::Program);
    }
    match shape_of(alloc, context, scope, part) {
        Err(fault) => Err(fault),
        Ok(shape) => {
            let outer = scope.len();
            let counts = scope.enter(alloc, &shape.operator, shape.parts.len())?;
            match trees_at(alloc, room - 1, context, scope, shape.parts, counts) {
                Err(fault) => Err(fault),
                Ok(forms) => {
                    scope.leave(outer)?;
                    Ok(Form::new(alloc, shape.operator, forms)?)
                }
            }
        }
    }
}

/// The forms of some parts, where there is so much room. For each so many names are in scope; all where none are counted.
#[cycle(tree)]
fn trees_at(
    alloc: Global,
    room: u64,
    context: Context,
    scope: &mut Scope,
    mut parts: Vec<Part<'_>>,
    mut counts: Vec<usize>,
) -> Result<Forms, SyntaxFault>
    ensures { Gives (λ fs. fs) result (trees_at room context (map part_of parts.entry.items)) }
{
    let mut forms = Forms::new();
    while let Some(part) = parts.pop() {
        if let Some(count) = counts.pop() {
            scope.leave(count)?;
        }
        match tree_at(alloc, room, context, scope, part) {
            Err(fault) => return Err(fault),
            Ok(form) => forms = Forms::cons(alloc, form, forms)?,
        }
    }
    Ok(forms)
}
