//! What stands in a `call-method` form: the methods that it names (HyperSpec 7.6.6.2, 7.7 `call-method`).
ghost use Rattle.std.specs.Prelude.{◌≡◌, ◌++◌, IfOk, OnOk, map, option_map};
ghost use Rattle.lisp_data.specs.DatumView.{datum_of};
ghost use Rattle.clos_forms.specs.Binding.{each, each_in};
ghost use Rattle.clos_forms.specs.CallMethodView.{callable};
ghost use Rattle.clos_forms.specs.Fault.{Gives};
ghost use Rattle.clos_forms.specs.NamedMethods.{call_method_shape, callable_of, callables_of, calling, form_in, headed_method, listed_method, made_parts, method_in, methods_if_any, next_methods_in};
ghost use Rattle.clos_forms.specs.NamedMethodsView.{named_of};
ghost use Rattle.clos_forms.specs.PartView.{part_of, shape_told};

use crate::call_method::{CalledMethod, NextMethods};
use crate::fault::SyntaxFault;
use crate::function_name::symbol_name;
use crate::operator::Operator;
use crate::part::{Part, Shape, at_most_one, only, push_optional};
use clos_names::is_the;
use lisp_data::{Data, Datum, MethodId, Name};
use std::alloc::{AllocError, Global};

/// A method that a `call-method` form names.
#[derive(Clone, Copy)]
enum NamedMethod<'a> {
    /// The method of this number.
    Numbered(MethodId),
    /// One that is made of the form of this datum (`make-method`).
    MadeOf(&'a Datum),
}

impl<'a> NamedMethod<'a> {
    /// What is called.
    fn called(self) -> CalledMethod
        ensures { callable result ≡ callable_of (named_of self.entry) }
    {
        match self {
            NamedMethod::Numbered(id) => CalledMethod::Method(id),
            NamedMethod::MadeOf(_) => CalledMethod::Made,
        }
    }

    /// The datum of the form of which the method is made, where it is.
    fn form(self) -> Option<&'a Datum>
        ensures { option_map (λ d. datum_of d.now) result ≡ form_in (named_of self.entry) }
    {
        match self {
            NamedMethod::Numbered(_) => None,
            NamedMethod::MadeOf(datum) => Some(datum),
        }
    }
}

/// The method that is called, and its next methods.
pub(crate) fn call_method_shape<'a>(alloc: Global, rest: &'a Data) -> Result<Shape<'a>, SyntaxFault>
    ensures { Gives shape_told result (call_method_shape rest.now) }
{
    match rest.split_first() {
        None => Err(SyntaxFault::Program),
        Some((datum, rest)) => match parse_method(datum) {
            None => Err(SyntaxFault::Program),
            Some(method) => {
                let next = parse_next_methods(alloc, rest)?;
                Ok(calling(alloc, method, &next)?)
            }
        },
    }
}

/// A call of a method with its next methods, and the forms of those that are made.
fn calling<'a>(
    alloc: Global,
    method: NamedMethod<'a>,
    next: &[NamedMethod<'a>],
) -> Result<Shape<'a>, AllocError>
    ensures { IfOk result (λ s. shape_told s ≡ calling (named_of method.entry) (map named_of next.now)) }
{
    let called = NextMethods::new(alloc, callables_of(alloc, next)?)?;
    let mut parts: Vec<Part<'a>> = Vec::new(alloc);
    push_optional(&mut parts, method.form())?;
    push_made(&mut parts, next)?;
    Ok(Shape {
        operator: Operator::CallMethod(method.called(), called),
        parts,
    })
}

fn callables_of(alloc: Global, methods: &[NamedMethod<'_>]) -> Result<Vec<CalledMethod>, AllocError>
    ensures { IfOk result (λ ms. map callable ms.items ≡ callables_of (map named_of methods.now)) }
{
    let mut called = Vec::new(alloc);
    for method in methods {
        called.push(method.called())?;
    }
    Ok(called)
}

/// Adds the forms of those that are made.
fn push_made<'a>(parts: &mut Vec<Part<'a>>, methods: &[NamedMethod<'a>]) -> Result<(), AllocError>
    ensures { OnOk result (map part_of parts.new.items ≡ map part_of parts.old.items ++ made_parts (map named_of methods.now)) }
{
    for method in methods {
        push_optional(parts, method.form())?;
    }
    Ok(())
}

/// One list of next methods at most.
fn parse_next_methods<'a>(
    alloc: Global,
    rest: &'a Data,
) -> Result<Vec<NamedMethod<'a>>, SyntaxFault>
    ensures { Gives (λ ms. map named_of ms.items) result (next_methods_in rest.now) }
{
    match at_most_one(rest) {
        None => Err(SyntaxFault::Program),
        Some(methods) => parse_methods_if_any(alloc, methods),
    }
}

fn parse_methods_if_any<'a>(
    alloc: Global,
    methods: Option<&'a Datum>,
) -> Result<Vec<NamedMethod<'a>>, SyntaxFault>
    ensures { Gives (λ ms. map named_of ms.items) result
        (methods_if_any (option_map (λ d. datum_of d.now) methods.entry)) }
{
    match methods {
        None => Ok(Vec::new(alloc)),
        Some(methods) => parse_methods(alloc, methods),
    }
}

/// The methods of a list, which may be written NIL.
fn parse_methods<'a>(alloc: Global, methods: &'a Datum) -> Result<Vec<NamedMethod<'a>>, SyntaxFault>
    ensures { Gives (λ ms. map named_of ms.items) result (each_in method_in (datum_of methods.now)) }
{
    match methods {
        Datum::List(elements) => parse_each_method(alloc, elements),
        Datum::Sym(name) => {
            if is_the(name, "NIL") {
                return Ok(Vec::new(alloc));
            }
            Err(SyntaxFault::Program)
        }
        Datum::Int(_) => Err(SyntaxFault::Program),
        Datum::Str(_) => Err(SyntaxFault::Program),
        Datum::Dotted(_) => Err(SyntaxFault::Program),
        Datum::Method(_) => Err(SyntaxFault::Program),
    }
}

fn parse_each_method<'a>(
    alloc: Global,
    elements: &'a Data,
) -> Result<Vec<NamedMethod<'a>>, SyntaxFault>
    ensures { Gives (λ ms. map named_of ms.items) result (each method_in elements.now) }
{
    let mut methods = Vec::new(alloc);
    let mut rest = elements;
    while let Some((first, others)) = rest.split_first() {
        match parse_method(first) {
            None => return Err(SyntaxFault::Program),
            Some(method) => methods.push(method)?,
        }
        rest = others;
    }
    Ok(methods)
}

/// A method, or `(make-method form)`.
fn parse_method(datum: &Datum) -> Option<NamedMethod<'_>>
    ensures { option_map named_of result ≡ method_in (datum_of datum.now) }
{
    match datum {
        Datum::Method(id) => Some(NamedMethod::Numbered(*id)),
        Datum::List(elements) => parse_listed_method(elements),
        Datum::Int(_) => None,
        Datum::Sym(_) => None,
        Datum::Str(_) => None,
        Datum::Dotted(_) => None,
    }
}

fn parse_listed_method(elements: &Data) -> Option<NamedMethod<'_>>
    ensures { option_map named_of result ≡ listed_method elements.now }
{
    let (head, rest) = elements.split_first()?;
    let name = symbol_name(head)?;
    parse_headed_method(name, rest)
}

/// MAKE-METHOD, and exactly one form.
fn parse_headed_method<'a>(head: &Name, rest: &'a Data) -> Option<NamedMethod<'a>>
    ensures { option_map named_of result ≡ headed_method head.now rest.now }
{
    if !is_the(head, "MAKE-METHOD") {
        return None;
    }
    let form = only(rest)?;
    Some(NamedMethod::MadeOf(form))
}
