//! The forms that method combinations expand to (HyperSpec 7.6.6.2, 7.7 `call-method`).
ghost use Rattle.std.specs.Prelude.{◌≡◌, ◌++◌, true, IfOk, OnOk, map};
ghost use Rattle.lisp_data.specs.DatumView.{datum_of};
ghost use Rattle.clos_forms.specs.CallMethodView.{callable};
ghost use Rattle.clos_forms.specs.Effective.{called_at, called_by, called_by_all, effective_form, methods_in_all, methods_of, number_of, numbers_of};
ghost use Rattle.clos_forms.specs.Fault.{Gives};
ghost use Rattle.clos_forms.specs.OperatorView.{operator_of};
ghost use Rattle.clos_forms.specs.WellFormed.{is_well_formed};
ghost use Rattle.clos_forms.specs.declared.part.Context.TheVariants.{Effective};

use crate::call_method::{CalledMethod, NextMethods};
use crate::fault::SyntaxFault;
use crate::form::{Form, Forms};
use crate::operator::Operator;
use crate::part::Context;
use crate::tree::parse_form;
use lisp_data::{Data, Datum, MethodId};
use std::alloc::{AllocError, Global};

/// The form that an expansion is, whichever methods it names, where each of them stands where it is called.
pub fn parse_effective(alloc: Global, datum: &Datum) -> Result<Form, SyntaxFault>
    ensures form { Gives (λ f. f) result (effective_form (datum_of datum.now)) }
    ensures well_formed { IfOk result (λ f. is_well_formed Effective f ≡ true) }
{
    let form = parse_form(alloc, Context::Effective, datum)?;
    let called = called_methods(alloc, &form)?;
    let named = methods_of(alloc, datum)?;
    if called.len() != named.len() {
        return Err(SyntaxFault::Program);
    }
    Ok(form)
}

/// The methods that a form calls or has as next methods.
pub fn called_methods(alloc: Global, form: &Form) -> Result<Vec<MethodId>, AllocError>
    ensures { IfOk result (λ r. map (λ m. m.0) r.items ≡ called_by form.now) }
{
    let mut methods = Vec::new(alloc);
    push_called(&mut methods, form)?;
    Ok(methods)
}

#[cycle(called)]
fn push_called(methods: &mut Vec<MethodId>, form: &Form) -> Result<(), AllocError>
    ensures { OnOk result (map (λ m. m.0) methods.new.items ≡ map (λ m. m.0) methods.old.items ++ called_by form.now) }
{
    push_called_at(methods, form.operator())?;
    push_called_by_all(methods, form.parts())
}

#[cycle(called)]
fn push_called_by_all(methods: &mut Vec<MethodId>, forms: &Forms) -> Result<(), AllocError>
    ensures { OnOk result (map (λ m. m.0) methods.new.items ≡ map (λ m. m.0) methods.old.items ++ called_by_all forms.now) }
{
    let mut rest = forms;
    while let Some((first, others)) = rest.split_first() {
        push_called(methods, first)?;
        rest = others;
    }
    Ok(())
}

/// Adds the methods that an operator calls or has as next methods.
fn push_called_at(methods: &mut Vec<MethodId>, operator: &Operator) -> Result<(), AllocError>
    ensures { OnOk result (map (λ m. m.0) methods.new.items
        ≡ map (λ m. m.0) methods.old.items ++ called_at (operator_of operator.now)) }
{
    match operator {
        Operator::CallMethod(method, next) => {
            push_number(methods, *method)?;
            push_numbers(methods, next)
        }
        _ => Ok(()),
    }
}

fn push_numbers(methods: &mut Vec<MethodId>, next: &NextMethods) -> Result<(), AllocError>
    ensures { OnOk result (map (λ m. m.0) methods.new.items ≡ map (λ m. m.0) methods.old.items ++ numbers_of next.now) }
{
    for method in next.as_slice() {
        push_number(methods, *method)?;
    }
    Ok(())
}

/// Adds the method that it is, where it is not made of a form.
fn push_number(methods: &mut Vec<MethodId>, method: CalledMethod) -> Result<(), AllocError>
    ensures { OnOk result (map (λ m. m.0) methods.new.items ≡ map (λ m. m.0) methods.old.items ++ number_of (callable method)) }
{
    match method {
        CalledMethod::Made => Ok(()),
        CalledMethod::Method(id) => {
            methods.push(id)?;
            Ok(())
        }
    }
}

/// The methods that stand in a datum, wherever they stand.
fn methods_of(alloc: Global, datum: &Datum) -> Result<Vec<MethodId>, AllocError>
    ensures { IfOk result (λ r. map (λ m. m.0) r.items ≡ methods_of (datum_of datum.now)) }
{
    let mut methods = Vec::new(alloc);
    push_methods(&mut methods, datum)?;
    Ok(methods)
}

#[cycle(methods)]
fn push_methods(methods: &mut Vec<MethodId>, datum: &Datum) -> Result<(), AllocError>
    ensures { OnOk result (map (λ m. m.0) methods.new.items
        ≡ map (λ m. m.0) methods.old.items ++ methods_of (datum_of datum.now)) }
{
    match datum {
        Datum::List(elements) => push_methods_in_all(methods, elements),
        Datum::Dotted(dot) => {
            push_methods_in_all(methods, dot.front())?;
            push_methods(methods, dot.last())
        }
        Datum::Method(id) => {
            methods.push(*id)?;
            Ok(())
        }
        Datum::Int(_) => Ok(()),
        Datum::Sym(_) => Ok(()),
        Datum::Str(_) => Ok(()),
    }
}

#[cycle(methods)]
fn push_methods_in_all(methods: &mut Vec<MethodId>, elements: &Data) -> Result<(), AllocError>
    ensures { OnOk result (map (λ m. m.0) methods.new.items ≡ map (λ m. m.0) methods.old.items ++ methods_in_all elements.now) }
{
    let mut rest = elements;
    while let Some((first, others)) = rest.split_first() {
        push_methods(methods, first)?;
        rest = others;
    }
    Ok(())
}
