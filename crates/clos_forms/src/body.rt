//! Bodies: what leads one and is ignored (HyperSpec 3.4.11, 3.3).
ghost use Rattle.std.specs.Prelude.{◌≡◌, ◌++◌, OnOk, map, option_map};
ghost use Rattle.lisp_data.specs.DatumView.{datum_of};
ghost use Rattle.clos_forms.specs.Body.{after_string, body_of, body_parts, heads_declaration, is_declaration, is_declare, is_string};
ghost use Rattle.clos_forms.specs.PartView.{part_of};

use crate::part::{Part, Role, push_optional, push_parts};
use clos_names::is_the;
use lisp_data::{Data, Datum};
use std::alloc::AllocError;

/// Adds the forms of a body, without what leads it and is ignored: declarations, and the strings that a form follows.
pub(crate) fn push_body<'a>(parts: &mut Vec<Part<'a>>, forms: &'a Data) -> Result<(), AllocError>
    ensures { OnOk result (map part_of parts.new.items ≡ map part_of parts.old.items ++ body_parts forms.now) }
{
    let (last, rest) = past_declarations(forms);
    match rest.split_first() {
        None => push_optional(parts, last),
        Some(_) => push_parts(parts, Role::Expression, rest),
    }
}

/// The last of the strings that lead a body, and what follows the strings and declarations that do.
pub fn past_declarations(forms: &Data) -> (Option<&Datum>, &Data)
    ensures { after_string (option_map (λ d. datum_of d.now) result.0) result.1.now ≡ body_of forms.now }
{
    let mut last = None;
    let mut rest = forms;
    while let Some((first, others)) = rest.split_first() {
        if !is_declaration(first) {
            if !is_string(first) {
                return (last, rest);
            }
            last = Some(first);
        }
        rest = others;
    }
    (last, rest)
}

pub fn is_declaration(datum: &Datum) -> bool
    ensures { result ≡ is_declaration (datum_of datum.now) }
{
    match datum {
        Datum::List(elements) => heads_declaration(elements),
        _ => false,
    }
}

fn heads_declaration(elements: &Data) -> bool
    ensures { result ≡ heads_declaration elements.now }
{
    match elements.split_first() {
        None => false,
        Some((head, _)) => is_declare(head),
    }
}

fn is_declare(datum: &Datum) -> bool
    ensures { result ≡ is_declare (datum_of datum.now) }
{
    match datum {
        Datum::Sym(name) => is_the(name, "DECLARE"),
        _ => false,
    }
}

pub fn is_string(datum: &Datum) -> bool
    ensures { result ≡ is_string (datum_of datum.now) }
{
    matches!(datum, Datum::Str(_))
}
