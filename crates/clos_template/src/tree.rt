//! The template that a datum is: its shape, with each part's template.
ghost use Rattle.std.specs.Prelude.{◌≡◌, map};
ghost use Rattle.lisp_data.specs.DatumView.{datum_of};
ghost use Rattle.clos_forms.specs.Fault.{Gives};
ghost use Rattle.clos_template.specs.Grammar.{body_template_of, tree_at, trees_at};
ghost use Rattle.clos_template.specs.PartView.{part_of};

use crate::operator::Operator;
use crate::part::{Part, push_body};
use crate::shape::shape_of;
use crate::template::{Template, Templates};
use clos_forms::{Bindings, SyntaxFault};
use lisp_data::{Data, MAX_NESTING};
use std::alloc::Global;

/// No datum nests so deep.
const ROOM: u64 = MAX_NESTING + 1;

/// The template that the body of a long form is: it gives what the last of its templates gives.
pub fn parse_template<'a>(alloc: Global, body: &'a Data) -> Result<Template, SyntaxFault>
    ensures { Gives (λ t. t) result (body_template_of body.now) }
{
    let mut parts: Vec<Part<'a>> = Vec::new(alloc);
    push_body(&mut parts, body)?;
    let templates = trees_at(alloc, ROOM, parts)?;
    let operator = Operator::Let(Bindings::new(Vec::new(alloc)));
    Ok(Template::new(alloc, operator, templates)?)
}

/// The template of a datum in its role, where there is so much room.
#[cycle(tree)]
fn tree_at(alloc: Global, room: u64, part: Part<'_>) -> Result<Template, SyntaxFault>
    ensures { Gives (λ t. t) result (tree_at room (part_of part.entry)) }
{
    if room == 0 {
        return Err(SyntaxFault::Program);
    }
    match shape_of(alloc, part) {
        Err(fault) => Err(fault),
        Ok(shape) => match trees_at(alloc, room - 1, shape.parts) {
            Err(fault) => Err(fault),
            Ok(templates) => Ok(Template::new(alloc, shape.operator, templates)?),
        },
    }
}

/// The templates of some parts, where there is so much room.
#[cycle(tree)]
fn trees_at(alloc: Global, room: u64, mut parts: Vec<Part<'_>>) -> Result<Templates, SyntaxFault>
    ensures { Gives (λ ts. ts) result (trees_at room (map part_of parts.entry.items)) }
{
    let mut templates = Templates::new();
    while let Some(part) = parts.pop() {
        match tree_at(alloc, room, part) {
            Err(fault) => return Err(fault),
            Ok(template) => templates = Templates::cons(alloc, template, templates)?,
        }
    }
    Ok(templates)
}
