//! Keywords and values in turn, and options that their heads name.
ghost use Rattle.std.specs.Prelude.{◌≡◌, map};
ghost use Rattle.std.specs.List.{list_any};
ghost use Rattle.std.specs.Option.{option_copied};
ghost use Rattle.lisp_data.specs.DatumView.{datum_of};
ghost use Rattle.clos_lambda.specs.Property.{are_properties, arguments_in, heads_option, is_any_key, is_key, is_keyword_called, is_option, tail_of};

use lisp_data::{Data, Datum, Name};

/// Whether a name is the keyword of these characters.
fn is_keyword_called(text: &str, name: &Name) -> bool
    ensures { result ≡ is_keyword_called text.now name.now }
{
    name.is_keyword() && name.as_str() == text
}

/// Whether a datum is the keyword of these characters.
pub fn is_key(text: &str, datum: &Datum) -> bool
    ensures { result ≡ is_key text.now (datum_of datum.now) }
{
    match datum {
        Datum::Sym(name) => is_keyword_called(text, name),
        _ => false,
    }
}

fn has_key(texts: &[&str], datum: &Datum) -> bool
    ensures { result ≡ list_any (λ text. is_key text.now (datum_of datum.now)) texts.now }
{
    texts.iter().any(|text| is_key(text, datum))
}

/// Whether a datum is the keyword of one of these texts.
#[tactic(auto, using(crate::proofs::Lists::any_of_map))]
fn is_any_key(texts: &[&str], datum: &Datum) -> bool
    ensures { result ≡ is_any_key (map (λ t. t.now) texts.now) (datum_of datum.now) }
{
    has_key(texts, datum)
}

/// Whether these are keywords of these texts and values in turn.
pub fn are_properties(texts: &[&str], properties: &Data) -> bool
    ensures { result ≡ are_properties (map (λ t. t.now) texts.now) properties.now }
{
    let mut rest = properties;
    while let Some((key, others)) = rest.split_first() {
        match others.split_first() {
            None => return false,
            Some((_, others)) => {
                if !is_any_key(texts, key) {
                    return false;
                }
                rest = others;
            }
        }
    }
    true
}

fn heads_option(text: &str, elements: &Data) -> bool
    ensures { result ≡ heads_option text.now elements.now }
{
    match elements.split_first() {
        None => false,
        Some((head, _)) => is_key(text, head),
    }
}

/// Whether a datum is a list that begins with this keyword.
pub fn is_option(text: &str, datum: &Datum) -> bool
    ensures { result ≡ is_option text.now (datum_of datum.now) }
{
    match datum {
        Datum::List(elements) => heads_option(text, elements),
        _ => false,
    }
}

fn tail_of(elements: &Data) -> Option<&Data>
    ensures { option_copied result ≡ tail_of elements.now }
{
    let (_, others) = elements.split_first()?;
    Some(others)
}

/// What an option has after its keyword.
pub fn arguments(option: &Datum) -> Option<&Data>
    ensures { option_copied result ≡ arguments_in (datum_of option.now) }
{
    match option {
        Datum::List(elements) => tail_of(elements),
        _ => None,
    }
}
