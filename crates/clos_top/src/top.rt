//! From data to checked top-level forms (HyperSpec 3.2.3.1).
ghost use Rattle.std.specs.Prelude.{◌≡◌, IfOk};
ghost use Rattle.lisp_data.specs.DatumView.{datum_of};
ghost use Rattle.clos_forms.specs.Fault.{Gives};
ghost use Rattle.clos_top.specs.Laws.{AreSpecialized};
ghost use Rattle.clos_top.specs.Top.{any_has_method, any_top, defmethod_in, expression, has_method, headed_top, in_package, named_top, other_top, top_of, two_forms_in};
ghost use Rattle.clos_top.specs.WellFormed.{AreWellFormed};

use clos_combination::{CombinationDefinition, parse_combination};
use clos_forms::{Form, FunctionName, SyntaxFault, is_the, only};
use clos_lambda::parse_plain_form;
use clos_syntax::{
    ClassDefinition, Definer, FunctionDefinition, GenericDefinition, MethodDefinition,
    VariableDefinition, parse_class, parse_function, parse_generic, parse_method,
    parse_method_function, parse_variable,
};
use lisp_data::{Data, Datum, Name};
use std::alloc::Global;

/// A checked top-level form.
#[derive(Drop)]
pub enum Top {
    DefClass(ClassDefinition),
    DefGeneric(GenericDefinition),
    /// A method of the function of this name.
    DefMethod(FunctionName, MethodDefinition),
    DefCombination(CombinationDefinition),
    Defun(FunctionDefinition),
    /// A `defvar` or a `defparameter`.
    DefVar(VariableDefinition),
    /// A generic function and a method.
    RemoveMethod(Form, Form),
    /// A class or generic function, and a dependent's name.
    AddDependent(Form, Form),
    /// A class or generic function, and a dependent's name.
    RemoveDependent(Form, Form),
    InPackage,
    Expr(Form),
}

/// Whether a method stands in the datum.
#[cycle(methods)]
fn mentions_method(datum: &Datum) -> bool
    ensures { result ≡ has_method (datum_of datum.now) }
{
    match datum {
        Datum::List(elements) => any_mentions_method(elements),
        Datum::Dotted(dot) => any_mentions_method(dot.front()) || mentions_method(dot.last()),
        Datum::Method(_) => true,
        Datum::Int(_) => false,
        Datum::Sym(_) => false,
        Datum::Str(_) => false,
    }
}

#[cycle(methods)]
fn any_mentions_method(elements: &Data) -> bool
    ensures { result ≡ any_has_method elements.now }
{
    let mut rest = elements;
    while let Some((first, others)) = rest.split_first() {
        if mentions_method(first) {
            return true;
        }
        rest = others;
    }
    false
}

/// A name, and a method of its function.
fn parse_defmethod(alloc: Global, rest: &Data) -> Result<Top, SyntaxFault>
    ensures { Gives (λ t. t) result (defmethod_in rest.now) }
{
    match rest.split_first() {
        None => Err(SyntaxFault::Program),
        Some((name, rest)) => {
            let name = parse_method_function(name)?;
            let method = parse_method(alloc, rest)?;
            Ok(Top::DefMethod(name, method))
        }
    }
}

/// Exactly two forms.
fn parse_two_forms(alloc: Global, rest: &Data) -> Result<(Form, Form), SyntaxFault>
    ensures { Gives (λ p. p) result (two_forms_in rest.now) }
{
    match rest.split_first() {
        None => Err(SyntaxFault::Program),
        Some((first, rest)) => match only(rest) {
            None => Err(SyntaxFault::Program),
            Some(second) => {
                let first = parse_plain_form(alloc, first)?;
                let second = parse_plain_form(alloc, second)?;
                Ok((first, second))
            }
        },
    }
}

/// Exactly one datum.
fn parse_in_package(rest: &Data) -> Result<Top, SyntaxFault>
    ensures { Gives (λ t. t) result (in_package rest.now) }
{
    match only(rest) {
        None => Err(SyntaxFault::Program),
        Some(_) => Ok(Top::InPackage),
    }
}

fn parse_expression(alloc: Global, datum: &Datum) -> Result<Top, SyntaxFault>
    ensures { Gives (λ t. t) result (expression (datum_of datum.now)) }
{
    let form = parse_plain_form(alloc, datum)?;
    Ok(Top::Expr(form))
}

/// Forms that change functions and metaobjects that there are, and expressions.
fn parse_other(alloc: Global, name: &Name, rest: &Data, whole: &Datum) -> Result<Top, SyntaxFault>
    ensures { Gives (λ t. t) result (other_top name.now rest.now (datum_of whole.now)) }
{
    if is_the(name, "REMOVE-METHOD") {
        let (function, method) = parse_two_forms(alloc, rest)?;
        Ok(Top::RemoveMethod(function, method))
    } else if is_the(name, "ADD-DEPENDENT") {
        let (metaobject, dependent) = parse_two_forms(alloc, rest)?;
        Ok(Top::AddDependent(metaobject, dependent))
    } else if is_the(name, "REMOVE-DEPENDENT") {
        let (metaobject, dependent) = parse_two_forms(alloc, rest)?;
        Ok(Top::RemoveDependent(metaobject, dependent))
    } else if is_the(name, "IN-PACKAGE") {
        parse_in_package(rest)
    } else {
        parse_expression(alloc, whole)
    }
}

fn parse_named(alloc: Global, name: &Name, rest: &Data, whole: &Datum) -> Result<Top, SyntaxFault>
    ensures { Gives (λ t. t) result (named_top name.now rest.now (datum_of whole.now)) }
{
    if is_the(name, "DEFCLASS") {
        let class = parse_class(alloc, rest)?;
        Ok(Top::DefClass(class))
    } else if is_the(name, "DEFGENERIC") {
        let generic = parse_generic(alloc, rest)?;
        Ok(Top::DefGeneric(generic))
    } else if is_the(name, "DEFMETHOD") {
        parse_defmethod(alloc, rest)
    } else if is_the(name, "DEFINE-METHOD-COMBINATION") {
        let combination = parse_combination(alloc, rest)?;
        Ok(Top::DefCombination(combination))
    } else if is_the(name, "DEFUN") {
        let function = parse_function(alloc, rest)?;
        Ok(Top::Defun(function))
    } else if is_the(name, "DEFVAR") {
        let variable = parse_variable(alloc, Definer::DefVar, rest)?;
        Ok(Top::DefVar(variable))
    } else if is_the(name, "DEFPARAMETER") {
        let variable = parse_variable(alloc, Definer::DefParameter, rest)?;
        Ok(Top::DefVar(variable))
    } else {
        parse_other(alloc, name, rest, whole)
    }
}

fn parse_headed(alloc: Global, head: &Datum, rest: &Data, whole: &Datum) -> Result<Top, SyntaxFault>
    ensures { Gives (λ t. t) result (headed_top (datum_of head.now) rest.now (datum_of whole.now)) }
{
    match head {
        Datum::Sym(name) => parse_named(alloc, name, rest, whole),
        _ => parse_expression(alloc, whole),
    }
}

fn parse_any(alloc: Global, datum: &Datum) -> Result<Top, SyntaxFault>
    ensures { Gives (λ t. t) result (any_top (datum_of datum.now)) }
{
    match datum {
        Datum::List(elements) => match elements.split_first() {
            None => parse_expression(alloc, datum),
            Some((head, rest)) => parse_headed(alloc, head, rest, datum),
        },
        _ => parse_expression(alloc, datum),
    }
}

/// The checked form of a datum. Each method in it has one specializer for each required parameter, and each form is well
/// formed.
pub fn parse_top(alloc: Global, datum: &Datum) -> Result<Top, SyntaxFault>
    ensures form { Gives (λ t. t) result (top_of (datum_of datum.now)) }
    ensures specialized { IfOk result AreSpecialized }
    ensures well_formed { IfOk result AreWellFormed }
{
    if mentions_method(datum) {
        return Err(SyntaxFault::Program);
    }
    parse_any(alloc, datum)
}
