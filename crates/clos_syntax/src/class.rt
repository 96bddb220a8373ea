//! Classes (HyperSpec 7.7 `defclass`).
ghost use Rattle.std.specs.Prelude.{◌≡◌, option_map};
ghost use Rattle.lisp_data.specs.DatumView.{datum_of};
ghost use Rattle.clos_forms.specs.Fault.{Gives};
ghost use Rattle.clos_forms.specs.clos_names.Names.{is_one_of};
ghost use Rattle.clos_lambda.specs.Lists.{or_none};
ghost use Rattle.clos_syntax.specs.Class.{class_in, class_option_in, class_options_in, class_with, default_with, defaults_from, defaults_in, documentation_option_in, if_distinct_defaults, metaclass_in, new_class_in, only_argument_in, predefined_classes, slots_in, standard_class_in, superclasses_in};

use crate::slot::Slots;
use clos_defclass::{ClassDefinition, DefaultInitarg, SlotSpecifier, default_names, slot_names};
use clos_forms::{Sequence, SyntaxFault, are_distinct, is_among, only};
use clos_lambda::{
    Kind, Symbols, arguments, is_option, is_symbol_called, parse_documentation, parse_each,
    parse_list, parse_option, parse_plain_form, parse_symbol,
};
use lisp_data::{Data, Datum, Name};
use std::alloc::Global;

/// The classes that there are from the start (HyperSpec 4.3.7).
#[rattlefmt::skip]
const PREDEFINED_CLASSES: [&str; 22] = [
    "T", "STANDARD-OBJECT", "INTEGER", "RATIONAL", "REAL", "NUMBER", "NULL", "SYMBOL",
    "LIST", "SEQUENCE", "CONS", "STRING", "VECTOR", "ARRAY", "FUNCTION", "GENERIC-FUNCTION",
    "STANDARD-GENERIC-FUNCTION", "CLASS", "STANDARD-CLASS", "BUILT-IN-CLASS", "STANDARD-METHOD", "METHOD",
];

/// Options of a `defclass`.
struct ClassOptions;

/// `:default-initargs` options.
struct Defaults;

/// `:documentation` options.
pub(crate) struct DocumentationOptions;

/// `:metaclass` options.
struct Metaclasses;

impl Kind for ClassOptions {
    type Item = ();

    ghost item_in = { class_option_in };

    fn parse(_alloc: Global, datum: &Datum) -> Result<(), SyntaxFault> {
        parse_class_option(datum)
    }
}

impl Kind for Defaults {
    type Item = Sequence<DefaultInitarg>;

    ghost item_in = { defaults_in };

    fn parse(alloc: Global, datum: &Datum) -> Result<Sequence<DefaultInitarg>, SyntaxFault> {
        parse_defaults(alloc, datum)
    }
}

impl Kind for DocumentationOptions {
    type Item = ();

    ghost item_in = { documentation_option_in };

    fn parse(_alloc: Global, datum: &Datum) -> Result<(), SyntaxFault> {
        parse_documentation_option(datum)
    }
}

impl Kind for Metaclasses {
    type Item = ();

    ghost item_in = { metaclass_in };

    fn parse(_alloc: Global, datum: &Datum) -> Result<(), SyntaxFault> {
        parse_metaclass(datum)
    }
}

fn is_predefined_class(name: &Name) -> bool
    ensures { result ≡ is_one_of predefined_classes name.now }
{
    is_among(&PREDEFINED_CLASSES, name)
}

fn parse_new_class(datum: &Datum) -> Result<Name, SyntaxFault>
    ensures { Gives (λ n. n) result (new_class_in (datum_of datum.now)) }
{
    let name = parse_symbol(datum)?;
    if is_predefined_class(&name) {
        return Err(SyntaxFault::Program);
    }
    Ok(name)
}

/// Symbols, none twice.
fn parse_superclasses(alloc: Global, datum: &Datum) -> Result<Sequence<Name>, SyntaxFault>
    ensures { Gives (λ ns. ns) result (superclasses_in (datum_of datum.now)) }
{
    let elements = parse_list(datum)?;
    let names = parse_each::<Symbols>(alloc, &elements)?;
    if !are_distinct(alloc, names.as_slice())? {
        return Err(SyntaxFault::Program);
    }
    Ok(names)
}

/// Slots, no name twice.
fn parse_slots(alloc: Global, datum: &Datum) -> Result<Sequence<SlotSpecifier>, SyntaxFault>
    ensures { Gives (λ ss. ss) result (slots_in (datum_of datum.now)) }
{
    let elements = parse_list(datum)?;
    let slots = parse_each::<Slots>(alloc, &elements)?;
    let names = slot_names(alloc, slots.as_slice())?;
    if !are_distinct(alloc, &names)? {
        return Err(SyntaxFault::Program);
    }
    Ok(slots)
}

fn parse_class_option(datum: &Datum) -> Result<(), SyntaxFault>
    ensures { Gives (λ u. u) result (class_option_in (datum_of datum.now)) }
{
    if is_option("DEFAULT-INITARGS", datum)
        || is_option("DOCUMENTATION", datum)
        || is_option("METACLASS", datum)
    {
        return Ok(());
    }
    Err(SyntaxFault::Program)
}

fn parse_default(alloc: Global, name: &Datum, form: &Datum) -> Result<DefaultInitarg, SyntaxFault>
    ensures { Gives (λ d. d) result (default_with (datum_of name.now) (datum_of form.now)) }
{
    let name = parse_symbol(name)?;
    let form = parse_plain_form(alloc, form)?;
    Ok(DefaultInitarg { name, form })
}

/// Names and forms in turn.
#[tactic(auto, using(clos_lambda::proofs::Lists::one_more))]
fn parse_defaults_from(
    alloc: Global,
    arguments: &Data,
) -> Result<Sequence<DefaultInitarg>, SyntaxFault>
    ensures { Gives (λ ds. ds) result (defaults_from arguments.now) }
{
    let mut defaults = Sequence::new(alloc);
    let mut rest = arguments;
    while let Some((name, others)) = rest.split_first() {
        match others.split_first() {
            None => return Err(SyntaxFault::Program),
            Some((form, others)) => {
                match parse_default(alloc, name, form) {
                    Err(fault) => return Err(fault),
                    Ok(default) => defaults.push(default)?,
                }
                rest = others;
            }
        }
    }
    Ok(defaults)
}

/// The initargs of a `:default-initargs` option, none twice.
fn parse_defaults(alloc: Global, option: &Datum) -> Result<Sequence<DefaultInitarg>, SyntaxFault>
    ensures { Gives (λ ds. ds) result (defaults_in (datum_of option.now)) }
{
    match arguments(option) {
        None => Err(SyntaxFault::Program),
        Some(arguments) => {
            let defaults = parse_defaults_from(alloc, arguments)?;
            let names = default_names(alloc, defaults.as_slice())?;
            if !are_distinct(alloc, &names)? {
                return Err(SyntaxFault::Program);
            }
            Ok(defaults)
        }
    }
}

/// What an option has after its keyword, where that is one datum.
fn only_argument(option: &Datum) -> Option<&Datum>
    ensures { option_map (λ d. datum_of d.now) result ≡ only_argument_in (datum_of option.now) }
{
    only(arguments(option)?)
}

/// A string alone.
fn parse_documentation_option(option: &Datum) -> Result<(), SyntaxFault>
    ensures { Gives (λ u. u) result (documentation_option_in (datum_of option.now)) }
{
    match only_argument(option) {
        None => Err(SyntaxFault::Program),
        Some(datum) => parse_documentation(datum),
    }
}

/// `standard-class` alone.
fn parse_metaclass(option: &Datum) -> Result<(), SyntaxFault>
    ensures { Gives (λ u. u) result (metaclass_in (datum_of option.now)) }
{
    match only_argument(option) {
        None => Err(SyntaxFault::Program),
        Some(datum) => {
            if !is_symbol_called("STANDARD-CLASS", datum) {
                return Err(SyntaxFault::Program);
            }
            Ok(())
        }
    }
}

/// The default initargs of a `defclass`'s options.
fn parse_class_options(
    alloc: Global,
    options: &Data,
) -> Result<Sequence<DefaultInitarg>, SyntaxFault>
    ensures { Gives (λ ds. ds) result (class_options_in options.now) }
{
    parse_each::<ClassOptions>(alloc, options)?;
    parse_option::<DocumentationOptions>(alloc, "DOCUMENTATION", options)?;
    parse_option::<Metaclasses>(alloc, "METACLASS", options)?;
    let defaults = parse_option::<Defaults>(alloc, "DEFAULT-INITARGS", options)?;
    Ok(or_none(alloc, defaults))
}

fn or_none(alloc: Global, defaults: Option<Sequence<DefaultInitarg>>) -> Sequence<DefaultInitarg>
    ensures { result ≡ or_none defaults }
{
    match defaults {
        None => Sequence::new(alloc),
        Some(defaults) => defaults,
    }
}

/// The class of the data after `defclass`: a name, superclasses, slots, and options (HyperSpec 7.7, DEFCLASS). `Program` where
/// they are none.
pub fn parse_class(alloc: Global, elements: &Data) -> Result<ClassDefinition, SyntaxFault>
    ensures { Gives (λ c. c) result (class_in elements.now) }
{
    match elements.split_first() {
        None => Err(SyntaxFault::Program),
        Some((name, rest)) => match rest.split_first() {
            None => Err(SyntaxFault::Program),
            Some((superclasses, rest)) => match rest.split_first() {
                None => Err(SyntaxFault::Program),
                Some((slots, options)) => {
                    parse_class_with(alloc, name, superclasses, slots, options)
                }
            },
        },
    }
}

fn parse_class_with(
    alloc: Global,
    name: &Datum,
    superclasses: &Datum,
    slots: &Datum,
    options: &Data,
) -> Result<ClassDefinition, SyntaxFault>
    ensures { Gives (λ c. c) result (class_with (datum_of name.now) (datum_of superclasses.now) (datum_of slots.now) options.now) }
{
    let name = parse_new_class(name)?;
    let superclasses = parse_superclasses(alloc, superclasses)?;
    let slots = parse_slots(alloc, slots)?;
    let defaults = parse_class_options(alloc, options)?;
    Ok(ClassDefinition {
        name,
        superclasses,
        slots,
        defaults,
    })
}
