//! The sections of a lambda list, which lambda list keywords part (HyperSpec 3.4).
ghost use Rattle.std.specs.Prelude.{◌≡◌, map};
ghost use Rattle.std.specs.Option.{option_copied};
ghost use Rattle.lisp_data.specs.DatumView.{datum_of};
ghost use Rattle.clos_lambda.specs.Sections.{after, back, ends_section, is_lambda_list_keyword, is_symbol_called, past};

use clos_forms::{is_among, is_the};
use lisp_data::{Data, Datum, Name};

/// The language serves the first four.
const LAMBDA_LIST_KEYWORDS: [&str; 8] = [
    "&OPTIONAL",
    "&REST",
    "&KEY",
    "&ALLOW-OTHER-KEYS",
    "&AUX",
    "&BODY",
    "&WHOLE",
    "&ENVIRONMENT",
];

pub(crate) fn is_lambda_list_keyword(name: &Name) -> bool
    ensures { result ≡ is_lambda_list_keyword name.now }
{
    is_among(&LAMBDA_LIST_KEYWORDS, name)
}

pub(crate) fn ends_section(datum: &Datum) -> bool
    ensures { result ≡ ends_section (datum_of datum.now) }
{
    match datum {
        Datum::Sym(name) => is_lambda_list_keyword(name),
        _ => false,
    }
}

/// The data from the first lambda list keyword on.
pub fn back(elements: &Data) -> &Data
    ensures { result.now ≡ back elements.now }
{
    let mut rest = elements;
    while let Some((first, others)) = rest.split_first() {
        if ends_section(first) {
            return rest;
        }
        rest = others;
    }
    rest
}

/// Whether a datum is the symbol of these characters.
pub fn is_symbol_called(text: &str, datum: &Datum) -> bool
    ensures { result ≡ is_symbol_called text.now (datum_of datum.now) }
{
    match datum {
        Datum::Sym(name) => is_the(name, text),
        _ => false,
    }
}

/// The data after this symbol, where it comes first.
pub(crate) fn after<'a>(text: &str, elements: &'a Data) -> Option<&'a Data>
    ensures { option_copied result ≡ after text.now elements.now }
{
    let (first, others) = elements.split_first()?;
    if !is_symbol_called(text, first) {
        return None;
    }
    Some(others)
}

/// What is left of a lambda list after a section, where it has that section.
pub(crate) fn past<'a>(elements: &'a Data, section: Option<&'a Data>) -> &'a Data
    ensures { result.now ≡ past elements.now (option_copied section.entry) }
{
    match section {
        None => elements,
        Some(section) => back(section),
    }
}
