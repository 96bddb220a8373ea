//! Standard method combination (HyperSpec 7.6.6.2). Its forms are made at once: each is that of its datum.
ghost use Rattle.std.specs.Prelude.{◌≡◌, ◌++◌, ◌∷◌, [], true, IfOk, IsOk, map, reverse};
ghost use Rattle.clos_forms.specs.Form.{nil};
ghost use Rattle.clos_forms.specs.Operator.{made, the_method};
ghost use Rattle.clos_groups.specs.clos_method.MethodIds.{method_numbers};
ghost use Rattle.clos_comb.specs.Effective.{combined_by, groups_refusal, is_free};
ghost use Rattle.clos_comb.specs.Groups.{standard_groups};
ghost use Rattle.clos_comb.specs.OutcomeView.{combined_of};
ghost use Rattle.clos_comb.specs.Standard.{standard_combined};
ghost use Rattle.clos_comb.specs.Table.{standard};
ghost use Rattle.clos_comb.specs.Tree.{alone, around_tree, called_before, main_tree, method_called, primary_called, standard_tree};

use crate::arguments::is_no_data;
use crate::outcome::Outcome;
use clos_forms::{CalledMethod, Form, Forms, NextMethods, Operator};
use clos_groups::{GroupSpecifier, Method, find_refusal, members};
use lisp_data::{Data, MethodId};
use std::alloc::{AllocError, Global};

/// A call of this method with these next methods, of which one may be made of a form.
fn call_method(
    alloc: Global,
    method: MethodId,
    next: NextMethods,
    forms: Forms,
) -> Result<Form, AllocError>
    ensures { IfOk result (λ r. r ≡ method_called method.0 next forms) }
{
    let called = CalledMethod::Method(method);
    Form::new(alloc, Operator::CallMethod(called, next), forms)
}

/// Calls of these methods, which have no next methods, in order, and then these forms.
fn call_before(alloc: Global, methods: &[MethodId], forms: Forms) -> Result<Forms, AllocError>
    ensures { IfOk result (λ r. r ≡ called_before (method_numbers methods.now) forms) }
{
    let mut calls = forms;
    let mut left = methods.len();
    while left > 0 {
        left -= 1;
        let call = call_method(alloc, methods[left], NextMethods::none(), Forms::new())?;
        calls = Forms::cons(alloc, call, calls)?;
    }
    Ok(calls)
}

/// Calls of these methods, which have no next methods, the last one first.
fn call_reversed(alloc: Global, methods: &[MethodId]) -> Result<Forms, AllocError>
    ensures { IfOk result (λ r. r ≡ called_before (reverse (method_numbers methods.now)) nil) }
{
    let mut calls = Forms::new();
    for method in methods {
        let call = call_method(alloc, *method, NextMethods::none(), Forms::new())?;
        calls = Forms::cons(alloc, call, calls)?;
    }
    Ok(calls)
}

/// These methods as next methods.
fn next_methods(alloc: Global, methods: &[MethodId]) -> Result<NextMethods, AllocError>
    ensures { IfOk result (λ r. r ≡ map the_method (method_numbers methods.now)) }
{
    if methods.is_empty() {
        return Ok(NextMethods::none());
    }
    let mut next = Vec::new(alloc);
    for method in methods {
        next.push(CalledMethod::Method(*method))?;
    }
    NextMethods::new(alloc, next)
}

/// These methods as next methods, and then one that is made of a form.
fn next_methods_and_made(alloc: Global, methods: &[MethodId]) -> Result<NextMethods, AllocError>
    ensures { IfOk result (λ r. r ≡ map the_method (method_numbers methods.now) ++ made ∷ []) }
{
    let mut next = Vec::new(alloc);
    for method in methods {
        next.push(CalledMethod::Method(*method))?;
    }
    next.push(CalledMethod::Made)?;
    NextMethods::new(alloc, next)
}

fn form_alone(alloc: Global, form: Form) -> Result<Forms, AllocError>
    ensures { IfOk result (λ r. r ≡ alone form) }
{
    Forms::cons(alloc, form, Forms::new())
}

/// A call of the most specific primary method, with the others as next methods.
fn call_primary(alloc: Global, primary: &[MethodId]) -> Result<Forms, AllocError>
    ensures { IfOk result (λ r. r ≡ primary_called (method_numbers primary.now)) }
{
    match primary.split_first() {
        None => Ok(Forms::new()),
        Some((first, others)) => {
            let next = next_methods(alloc, others)?;
            form_alone(alloc, call_method(alloc, *first, next, Forms::new())?)
        }
    }
}

/// The form for before, primary and after methods.
fn main_form(
    alloc: Global,
    before: &[MethodId],
    primary: &[MethodId],
    after: &[MethodId],
) -> Result<Form, AllocError>
    ensures { IfOk result (λ r. r ≡ main_tree (method_numbers before.now) (method_numbers primary.now) (method_numbers after.now)) }
{
    if before.is_empty() && after.is_empty() {
        if let Some((only, others)) = primary.split_first() {
            if others.is_empty() {
                return call_method(alloc, *only, NextMethods::none(), Forms::new());
            }
        }
    }
    let calls = call_before(alloc, before, call_primary(alloc, primary)?)?;
    let first = Form::new(alloc, Operator::Progn, calls)?;
    let forms = Forms::cons(alloc, first, call_reversed(alloc, after)?)?;
    Form::new(alloc, Operator::Prog1, forms)
}

/// The form within around methods.
fn around_form(alloc: Global, around: &[MethodId], form: Form) -> Result<Form, AllocError>
    ensures { IfOk result (λ r. r ≡ around_tree (method_numbers around.now) form) }
{
    match around.split_first() {
        None => Ok(form),
        Some((first, rest)) => {
            let next = next_methods_and_made(alloc, rest)?;
            call_method(alloc, *first, next, form_alone(alloc, form)?)
        }
    }
}

/// The form for around, before, primary and after methods.
fn standard_form(
    alloc: Global,
    around: &[MethodId],
    before: &[MethodId],
    primary: &[MethodId],
    after: &[MethodId],
) -> Result<Form, AllocError>
    ensures { IfOk result (λ r. r ≡ standard_tree (method_numbers around.now) (method_numbers before.now) (method_numbers primary.now) (method_numbers after.now)) }
{
    let form = main_form(alloc, before, primary, after)?;
    around_form(alloc, around, form)
}

/// These methods, the most specific first, combined by these groups, which are the standard combination's.
#[tactic(auto, using(crate::proofs::StandardForm::makes_its_form))]
fn combine_groups(
    alloc: Global,
    methods: &[Method],
    groups: &[GroupSpecifier],
    arguments: &Data,
    ids: &[MethodId],
) -> Result<Outcome, AllocError>
    requires { groups.now ≡ standard_groups }
    ensures { IfOk result (λ r. combined_of r ≡ standard_combined methods.now arguments.now (method_numbers ids.now)) }
{
    if !is_no_data(arguments) {
        return Ok(Outcome::BadExpansion);
    }
    let around = members(alloc, methods, groups, 0, ids)?;
    let before = members(alloc, methods, groups, 1, ids)?;
    let primary = members(alloc, methods, groups, 2, ids)?;
    let after = members(alloc, methods, groups, 3, ids)?;
    let form = standard_form(alloc, &around, &before, &primary, &after)?;
    Ok(Outcome::Effective(form))
}

/// These methods, the most specific first, combined by these groups, which are the standard combination's, unless the groups
/// refuse them. The function's methods are in order of addition.
pub(crate) fn combine_standard(
    alloc: Global,
    methods: &[Method],
    groups: &[GroupSpecifier],
    added: &[MethodId],
    arguments: &Data,
    ids: &[MethodId],
) -> Result<Outcome, AllocError>
    requires { groups.now ≡ standard_groups }
    ensures outcome { IfOk result (λ r. combined_of r ≡ combined_by standard methods.now (method_numbers added.now) arguments.now (method_numbers ids.now)) }
    ensures free { is_free standard (groups_refusal standard methods.now (method_numbers added.now) (method_numbers ids.now)) ≡ true → IsOk result }
{
    match find_refusal(alloc, methods, groups, added, ids)? {
        Some(refusal) => Ok(Outcome::refused_primary(refusal)),
        None => combine_groups(alloc, methods, groups, arguments, ids),
    }
}
