//! Kinds of things that data stand for, and lists of things of one kind.
ghost use Rattle.std.specs.Prelude.{◌≡◌, Option};
ghost use Rattle.lisp_data.specs.Datum.{Dat};
ghost use Rattle.lisp_data.specs.DatumView.{datum_of};
ghost use Rattle.clos_forms.specs.Binding.{each};
ghost use Rattle.clos_forms.specs.Fault.{Gives};
ghost use Rattle.clos_forms.specs.FunctionName.{symbol_in};
ghost use Rattle.clos_lambda.specs.PlainForm.{form_in};
ghost use Rattle.clos_lambda.specs.Property.{anything, documentation_in, option_in, options_of, value_in, values_of};
ghost use Rattle.clos_lambda.specs.Sections.{front};

use crate::property::{is_key, is_option};
use crate::section::ends_section;
use clos_forms::{Context, Form, Sequence, SyntaxFault, is_string, parse_form, symbol_name};
use lisp_data::{Data, Datum, Name};
use std::alloc::Global;

/// A kind of thing that a datum may stand for.
pub trait Kind {
    type Item: Drop;

    ghost item_in: { Dat → Option Self.Item };

    /// What a datum stands for.
    fn parse(alloc: Global, datum: &Datum) -> Result<Self::Item, SyntaxFault>
        ensures { Gives (λ x. x) result (item_in (datum_of datum.now)) };
}

/// Symbols.
pub struct Symbols;

/// Forms that stand in no method.
pub struct PlainForms;

/// Values that are read and ignored.
pub struct Ignored;

/// Documentation strings, which are ignored.
pub struct Documentation;

impl Kind for Symbols {
    type Item = Name;

    ghost item_in = { symbol_in };

    fn parse(_alloc: Global, datum: &Datum) -> Result<Name, SyntaxFault> {
        parse_symbol(datum)
    }
}

impl Kind for PlainForms {
    type Item = Form;

    ghost item_in = { form_in };

    fn parse(alloc: Global, datum: &Datum) -> Result<Form, SyntaxFault> {
        parse_plain_form(alloc, datum)
    }
}

impl Kind for Ignored {
    type Item = ();

    ghost item_in = { anything };

    fn parse(_alloc: Global, _datum: &Datum) -> Result<(), SyntaxFault> {
        Ok(())
    }
}

impl Kind for Documentation {
    type Item = ();

    ghost item_in = { documentation_in };

    fn parse(_alloc: Global, datum: &Datum) -> Result<(), SyntaxFault> {
        parse_documentation(datum)
    }
}

/// The name of the symbol that a datum is.
pub fn parse_symbol(datum: &Datum) -> Result<Name, SyntaxFault>
    ensures { Gives (λ n. n) result (symbol_in (datum_of datum.now)) }
{
    match symbol_name(datum) {
        None => Err(SyntaxFault::Program),
        Some(name) => Ok(name.copy()?),
    }
}

/// The form that a datum is in no method.
pub fn parse_plain_form(alloc: Global, datum: &Datum) -> Result<Form, SyntaxFault>
    ensures { Gives (λ f. f) result (form_in (datum_of datum.now)) }
{
    parse_form(alloc, Context::Plain, datum)
}

/// A documentation string.
pub fn parse_documentation(datum: &Datum) -> Result<(), SyntaxFault>
    ensures { Gives (λ u. u) result (documentation_in (datum_of datum.now)) }
{
    if !is_string(datum) {
        return Err(SyntaxFault::Program);
    }
    Ok(())
}

/// What each element of a section of a lambda list stands for.
#[tactic(auto, using(crate::proofs::Lists::one_more))]
pub fn parse_front<K: Kind>(
    alloc: Global,
    elements: &Data,
) -> Result<Sequence<K::Item>, SyntaxFault>
    ensures { Gives (λ xs. xs) result (each K.item_in (front elements.now)) }
{
    let mut items = Sequence::new(alloc);
    let mut rest = elements;
    while let Some((first, others)) = rest.split_first() {
        if ends_section(first) {
            return Ok(items);
        }
        match K::parse(alloc, first) {
            Err(fault) => return Err(fault),
            Ok(item) => items.push(item)?,
        }
        rest = others;
    }
    Ok(items)
}

/// What each element of a list stands for.
#[tactic(auto, using(crate::proofs::Lists::one_more))]
pub fn parse_each<K: Kind>(alloc: Global, elements: &Data) -> Result<Sequence<K::Item>, SyntaxFault>
    ensures { Gives (λ xs. xs) result (each K.item_in elements.now) }
{
    let mut items = Sequence::new(alloc);
    let mut rest = elements;
    while let Some((first, others)) = rest.split_first() {
        match K::parse(alloc, first) {
            Err(fault) => return Err(fault),
            Ok(item) => items.push(item)?,
        }
        rest = others;
    }
    Ok(items)
}

/// What each value of a keyword stands for, of keywords and values in turn.
#[tactic(auto, using(crate::proofs::Lists::one_more))]
pub fn parse_values<K: Kind>(
    alloc: Global,
    key: &str,
    properties: &Data,
) -> Result<Sequence<K::Item>, SyntaxFault>
    ensures { Gives (λ xs. xs) result (each K.item_in (values_of key.now properties.now)) }
{
    let mut items = Sequence::new(alloc);
    let mut rest = properties;
    while let Some((name, others)) = rest.split_first() {
        match others.split_first() {
            None => return Ok(items),
            Some((value, others)) => {
                if is_key(key, name) {
                    match K::parse(alloc, value) {
                        Err(fault) => return Err(fault),
                        Ok(item) => items.push(item)?,
                    }
                }
                rest = others;
            }
        }
    }
    Ok(items)
}

/// What the only value of a keyword stands for, where it has one.
pub fn parse_value<K: Kind>(
    alloc: Global,
    key: &str,
    properties: &Data,
) -> Result<Option<K::Item>, SyntaxFault>
    ensures { Gives (λ x. x) result (value_in K.item_in key.now properties.now) }
{
    let items = parse_values::<K>(alloc, key, properties)?;
    items.into_single()
}

/// What each option of a keyword stands for.
#[tactic(auto, using(crate::proofs::Lists::one_more))]
pub fn parse_options<K: Kind>(
    alloc: Global,
    key: &str,
    options: &Data,
) -> Result<Sequence<K::Item>, SyntaxFault>
    ensures { Gives (λ xs. xs) result (each K.item_in (options_of key.now options.now)) }
{
    let mut items = Sequence::new(alloc);
    let mut rest = options;
    while let Some((option, others)) = rest.split_first() {
        if is_option(key, option) {
            match K::parse(alloc, option) {
                Err(fault) => return Err(fault),
                Ok(item) => items.push(item)?,
            }
        }
        rest = others;
    }
    Ok(items)
}

/// What the only option of a keyword stands for, where there is one.
pub fn parse_option<K: Kind>(
    alloc: Global,
    key: &str,
    options: &Data,
) -> Result<Option<K::Item>, SyntaxFault>
    ensures { Gives (λ x. x) result (option_in K.item_in key.now options.now) }
{
    let items = parse_options::<K>(alloc, key, options)?;
    items.into_single()
}
