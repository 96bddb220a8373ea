//! Slot specifiers (HyperSpec 7.7 `defclass`, 7.5.3).
ghost use Rattle.std.specs.Prelude.{◌≡◌, ◌∷◌, [], Option, IfOk};
ghost use Rattle.lisp_data.specs.DatumView.{datum_of};
ghost use Rattle.clos_forms.specs.Fault.{Gives};
ghost use Rattle.clos_syntax.specs.Slot.{accessor_in, accessors_at, accessors_in, allocation_in, are_slot_options, is_slot_key, listed_slot, or_instance, reader_in, slot_from, slot_in, slot_with, writer_in};

use crate::function_name::{parse_method_function, parse_method_symbol};
use clos_defclass::{Accessor, Allocation, SlotSpecifier};
use clos_forms::{FunctionName, Sequence, SyntaxFault};
use clos_lambda::{
    Documentation, Ignored, Kind, PlainForms, Symbols, is_key, parse_symbol, parse_value,
    parse_values,
};
use lisp_data::{Data, Datum, Name};
use std::alloc::{AllocError, Global};

/// Slot specifiers.
pub(crate) struct Slots;

/// Values of `:allocation`.
struct Allocations;

impl Kind for Slots {
    type Item = SlotSpecifier;

    ghost item_in = { slot_in };

    fn parse(alloc: Global, datum: &Datum) -> Result<SlotSpecifier, SyntaxFault> {
        parse_slot(alloc, datum)
    }
}

impl Kind for Allocations {
    type Item = Allocation;

    ghost item_in = { allocation_in };

    fn parse(_alloc: Global, datum: &Datum) -> Result<Allocation, SyntaxFault> {
        parse_allocation(datum)
    }
}

fn parse_allocation(datum: &Datum) -> Result<Allocation, SyntaxFault>
    ensures { Gives (λ a. a) result (allocation_in (datum_of datum.now)) }
{
    if is_key("INSTANCE", datum) {
        return Ok(Allocation::Instance);
    }
    if is_key("CLASS", datum) {
        return Ok(Allocation::Class);
    }
    Err(SyntaxFault::Program)
}

fn one_accessor(alloc: Global, accessor: Accessor) -> Result<Sequence<Accessor>, AllocError>
    ensures { IfOk result (λ xs. xs ≡ accessor ∷ []) }
{
    let mut accessors = Sequence::new(alloc);
    accessors.push(accessor)?;
    Ok(accessors)
}

fn parse_reader(alloc: Global, datum: &Datum) -> Result<Sequence<Accessor>, SyntaxFault>
    ensures { Gives (λ xs. xs) result (reader_in (datum_of datum.now)) }
{
    let name = parse_method_symbol(datum)?;
    Ok(one_accessor(alloc, Accessor::Reader(name))?)
}

fn parse_writer(alloc: Global, datum: &Datum) -> Result<Sequence<Accessor>, SyntaxFault>
    ensures { Gives (λ xs. xs) result (writer_in (datum_of datum.now)) }
{
    let name = parse_method_function(datum)?;
    Ok(one_accessor(alloc, Accessor::Writer(name))?)
}

/// A reader and a writer.
fn parse_accessor(alloc: Global, datum: &Datum) -> Result<Sequence<Accessor>, SyntaxFault>
    ensures { Gives (λ xs. xs) result (accessor_in (datum_of datum.now)) }
{
    let name = parse_method_symbol(datum)?;
    let written = FunctionName::Setf(name.copy()?);
    let mut accessors = one_accessor(alloc, Accessor::Reader(name))?;
    accessors.push(Accessor::Writer(written))?;
    Ok(accessors)
}

/// The accessors that an option asks for.
fn accessors_at(
    alloc: Global,
    key: &Datum,
    value: &Datum,
) -> Result<Sequence<Accessor>, SyntaxFault>
    ensures { Gives (λ xs. xs) result (accessors_at (datum_of key.now) (datum_of value.now)) }
{
    if is_key("READER", key) {
        return parse_reader(alloc, value);
    }
    if is_key("WRITER", key) {
        return parse_writer(alloc, value);
    }
    if is_key("ACCESSOR", key) {
        return parse_accessor(alloc, value);
    }
    Ok(Sequence::new(alloc))
}

/// The accessors that options ask for, in the order of the options.
#[tactic(auto, using(clos_lambda::proofs::Lists::some_more))]
fn parse_accessors(alloc: Global, options: &Data) -> Result<Sequence<Accessor>, SyntaxFault>
    ensures { Gives (λ xs. xs) result (accessors_in options.now) }
{
    let mut accessors = Sequence::new(alloc);
    let mut rest = options;
    while let Some((key, others)) = rest.split_first() {
        match others.split_first() {
            None => return Ok(accessors),
            Some((value, others)) => {
                match accessors_at(alloc, key, value) {
                    Err(fault) => return Err(fault),
                    Ok(more) => accessors.append(more)?,
                }
                rest = others;
            }
        }
    }
    Ok(accessors)
}

fn is_slot_key(datum: &Datum) -> bool
    ensures { result ≡ is_slot_key (datum_of datum.now) }
{
    is_key("INITARG", datum)
        || is_key("READER", datum)
        || is_key("WRITER", datum)
        || is_key("ACCESSOR", datum)
        || is_key("INITFORM", datum)
        || is_key("ALLOCATION", datum)
        || is_key("TYPE", datum)
        || is_key("DOCUMENTATION", datum)
}

/// Whether these are keywords of slot options and values in turn.
fn are_slot_options(options: &Data) -> bool
    ensures { result ≡ are_slot_options options.now }
{
    let mut rest = options;
    while let Some((key, others)) = rest.split_first() {
        match others.split_first() {
            None => return false,
            Some((_, others)) => {
                if !is_slot_key(key) {
                    return false;
                }
                rest = others;
            }
        }
    }
    true
}

/// A name, or a list of a name and options.
fn parse_slot(alloc: Global, datum: &Datum) -> Result<SlotSpecifier, SyntaxFault>
    ensures { Gives (λ s. s) result (slot_in (datum_of datum.now)) }
{
    match datum {
        Datum::Sym(name) => parse_slot_with(alloc, name.copy()?, &Data::new()),
        Datum::List(elements) => parse_listed_slot(alloc, elements),
        Datum::Int(_) => Err(SyntaxFault::Program),
        Datum::Str(_) => Err(SyntaxFault::Program),
        Datum::Dotted(_) => Err(SyntaxFault::Program),
        Datum::Method(_) => Err(SyntaxFault::Program),
    }
}

fn parse_listed_slot(alloc: Global, elements: &Data) -> Result<SlotSpecifier, SyntaxFault>
    ensures { Gives (λ s. s) result (listed_slot elements.now) }
{
    match elements.split_first() {
        None => Err(SyntaxFault::Program),
        Some((name, options)) => {
            let name = parse_symbol(name)?;
            parse_slot_with(alloc, name, options)
        }
    }
}

fn parse_slot_with(alloc: Global, name: Name, options: &Data) -> Result<SlotSpecifier, SyntaxFault>
    ensures { Gives (λ s. s) result (slot_with name options.now) }
{
    if !are_slot_options(options) {
        return Err(SyntaxFault::Program);
    }
    parse_slot_from(alloc, name, options)
}

fn parse_slot_from(alloc: Global, name: Name, options: &Data) -> Result<SlotSpecifier, SyntaxFault>
    ensures { Gives (λ s. s) result (slot_from name options.now) }
{
    let initargs = parse_values::<Symbols>(alloc, "INITARG", options)?;
    let accessors = parse_accessors(alloc, options)?;
    let initform = parse_value::<PlainForms>(alloc, "INITFORM", options)?;
    let allocation = parse_value::<Allocations>(alloc, "ALLOCATION", options)?;
    parse_value::<Ignored>(alloc, "TYPE", options)?;
    parse_value::<Documentation>(alloc, "DOCUMENTATION", options)?;
    Ok(SlotSpecifier {
        name,
        initargs,
        accessors,
        initform,
        allocation: or_instance(allocation),
    })
}

fn or_instance(allocation: Option<Allocation>) -> Allocation
    ensures { result ≡ or_instance allocation }
{
    match allocation {
        None => Allocation::Instance,
        Some(allocation) => allocation,
    }
}
