//! What a datum is as a form, by its operator (HyperSpec 3.1.2.1).
ghost use Rattle.std.specs.Prelude.{◌≡◌, IfOk};
ghost use Rattle.lisp_data.specs.DatumView.{datum_of};
ghost use Rattle.clos_forms.specs.Fault.{Gives};
ghost use Rattle.lisp_data.specs.ValueView.{value_of};
ghost use Rattle.clos_forms.specs.Operator.{constant};
ghost use Rattle.clos_forms.specs.OperatorView.{operator_of};
ghost use Rattle.clos_forms.specs.PartView.{shape_told};
ghost use Rattle.clos_forms.specs.Quotation.{quotation};
ghost use Rattle.clos_forms.specs.Shape.{atom, call_next_method_shape, call_shape, calls_method, clause_shape, expression_shape, function_shape, headed, headed_shape, if_shape, listed_shape, named_shape, next_method_p_shape, quote_shape, quoting, shape_of, special_shape, symbol_operator};
ghost use Rattle.clos_names.specs.Special.{special_of};

use crate::binding::{dotimes_shape, let_in_order_shape, let_shape, setq_shape};
use crate::fault::SyntaxFault;
use crate::function_name::parse_function_name;
use crate::named_methods::call_method_shape;
use crate::operator::Operator;
use crate::part::{Context, Part, Role, Shape, atom, in_roles, only, operation};
use crate::place::{change_shape, place_shape, setf_shape};
use crate::quotation::{quoted_value, value_named};
use crate::scope::Scope;
use crate::slots::with_slots_shape;
use crate::variable::Variable;
use clos_names::{CalledName, Special, is_definition, is_the, names_constant};
use lisp_data::{Data, Datum, Items, Name, Value};
use std::alloc::{AllocError, Global};

/// What a datum is in its role.
pub(crate) fn shape_of<'a>(
    alloc: Global,
    context: Context,
    scope: &Scope,
    part: Part<'a>,
) -> Result<Shape<'a>, SyntaxFault>
    ensures { Gives shape_told result (shape_of context part.entry.role (datum_of part.entry.datum.now)) }
{
    match part.role {
        Role::Expression => expression_shape(alloc, context, scope, part.datum),
        Role::Clause => clause_shape(alloc, part.datum),
        Role::Place => place_shape(alloc, part.datum),
    }
}

fn expression_shape<'a>(
    alloc: Global,
    context: Context,
    scope: &Scope,
    datum: &'a Datum,
) -> Result<Shape<'a>, SyntaxFault>
    ensures { Gives shape_told result (expression_shape context (datum_of datum.now)) }
{
    match datum {
        Datum::Int(number) => Ok(constant(alloc, Value::Int(*number))),
        Datum::Sym(name) => Ok(atom(alloc, symbol_operator(scope, name)?)),
        Datum::Str(text) => Ok(constant(alloc, Value::Str(text.copy()?))),
        Datum::List(elements) => listed_shape(alloc, context, elements),
        Datum::Dotted(_) => Err(SyntaxFault::Program),
        Datum::Method(_) => Err(SyntaxFault::Program),
    }
}

fn symbol_operator(scope: &Scope, name: &Name) -> Result<Operator, AllocError>
    ensures { IfOk result (λ o. operator_of o ≡ symbol_operator name.now) }
{
    if names_constant(name) {
        return Ok(Operator::Constant(value_named(name)?));
    }
    let variable = Variable::new(name.copy()?, scope.find(name));
    Ok(Operator::Variable(variable))
}

/// The empty list is NIL, any other a form of the operator at its head.
fn listed_shape(alloc: Global, context: Context, elements: &Data) -> Result<Shape<'_>, SyntaxFault>
    ensures { Gives shape_told result (listed_shape context elements.now) }
{
    match elements.split_first() {
        None => Ok(constant(alloc, Value::List(Items::new()))),
        Some((head, rest)) => headed_shape(alloc, context, head, rest),
    }
}

/// A form that is its own value.
fn constant<'a>(alloc: Global, value: Value) -> Shape<'a>
    ensures { shape_told result ≡ atom (constant (value_of value)) }
{
    atom(alloc, Operator::Constant(value))
}

fn headed_shape<'a>(
    alloc: Global,
    context: Context,
    head: &Datum,
    rest: &'a Data,
) -> Result<Shape<'a>, SyntaxFault>
    ensures { Gives shape_told result (headed_shape context (datum_of head.now) rest.now) }
{
    match head {
        Datum::Sym(name) => named_shape(alloc, context, name, rest),
        Datum::Int(_) => Err(SyntaxFault::Program),
        Datum::Str(_) => Err(SyntaxFault::Program),
        Datum::List(_) => Err(SyntaxFault::Program),
        Datum::Dotted(_) => Err(SyntaxFault::Program),
        Datum::Method(_) => Err(SyntaxFault::Program),
    }
}

/// A form of the operator of this name.
fn named_shape<'a>(
    alloc: Global,
    context: Context,
    name: &Name,
    rest: &'a Data,
) -> Result<Shape<'a>, SyntaxFault>
    ensures { Gives shape_told result (named_shape (special_of name.now) context name.now rest.now) }
{
    match Special::named(name) {
        Some(special) => special_shape(alloc, context, special, rest),
        None => call_shape(alloc, context, name, rest),
    }
}

/// A call, but of a definition, which stands at the top level alone. In an effective form `call-method` calls a method.
fn call_shape<'a>(
    alloc: Global,
    context: Context,
    name: &Name,
    rest: &'a Data,
) -> Result<Shape<'a>, SyntaxFault>
    ensures { Gives shape_told result (call_shape context name.now rest.now) }
{
    if is_definition(name) {
        return Err(SyntaxFault::Program);
    }
    if calls_method(context, name) {
        return call_method_shape(alloc, rest);
    }
    let called = CalledName::new(alloc, name.copy()?)?;
    Ok(operation(alloc, Operator::Call(called), rest)?)
}

/// Whether a form of this name calls a method.
fn calls_method(context: Context, name: &Name) -> bool
    ensures { result ≡ calls_method context name.now }
{
    context.is_effective() && is_the(name, "CALL-METHOD")
}

fn special_shape<'a>(
    alloc: Global,
    context: Context,
    special: Special,
    rest: &'a Data,
) -> Result<Shape<'a>, SyntaxFault>
    ensures { Gives shape_told result (special_shape context special rest.now) }
{
    match special {
        Special::Quote => quote_shape(alloc, rest),
        Special::Function => function_shape(alloc, rest),
        Special::If => if_shape(alloc, rest),
        Special::Cond => Ok(in_roles(alloc, Operator::Cond, Role::Clause, rest)?),
        Special::When => headed(alloc, Operator::When, rest),
        Special::Unless => headed(alloc, Operator::Unless, rest),
        Special::And => Ok(operation(alloc, Operator::And, rest)?),
        Special::Or => Ok(operation(alloc, Operator::Or, rest)?),
        Special::Progn => Ok(operation(alloc, Operator::Progn, rest)?),
        Special::Prog1 => headed(alloc, Operator::Prog1, rest),
        Special::Let => let_shape(alloc, rest),
        Special::LetInOrder => let_in_order_shape(alloc, rest),
        Special::Setq => setq_shape(alloc, rest),
        Special::Setf => setf_shape(alloc, rest),
        Special::Incf => change_shape(alloc, Operator::Incf, rest),
        Special::Decf => change_shape(alloc, Operator::Decf, rest),
        Special::Dotimes => dotimes_shape(alloc, rest),
        Special::WithSlots => with_slots_shape(alloc, rest),
        Special::CallNextMethod => call_next_method_shape(alloc, context, rest),
        Special::NextMethodP => next_method_p_shape(alloc, context, rest),
    }
}

/// Exactly one datum.
fn quote_shape<'a>(alloc: Global, rest: &'a Data) -> Result<Shape<'a>, SyntaxFault>
    ensures { Gives shape_told result (quote_shape rest.now) }
{
    match only(rest) {
        None => Err(SyntaxFault::Program),
        Some(datum) => Ok(atom(alloc, quoting(alloc, datum)?)),
    }
}

fn quoting(alloc: Global, datum: &Datum) -> Result<Operator, AllocError>
    ensures { IfOk result (λ o. operator_of o ≡ quoting (quotation (datum_of datum.now))) }
{
    match quoted_value(alloc, datum)? {
        Some(value) => Ok(Operator::Constant(value)),
        None => Ok(Operator::NoValue),
    }
}

/// Exactly one name of a function.
fn function_shape<'a>(alloc: Global, rest: &'a Data) -> Result<Shape<'a>, SyntaxFault>
    ensures { Gives shape_told result (function_shape rest.now) }
{
    match only(rest) {
        None => Err(SyntaxFault::Program),
        Some(datum) => {
            let name = parse_function_name(datum)?;
            Ok(atom(alloc, Operator::Function(name)))
        }
    }
}

/// A test, and one form or two.
fn if_shape<'a>(alloc: Global, rest: &'a Data) -> Result<Shape<'a>, SyntaxFault>
    ensures { Gives shape_told result (if_shape rest.now) }
{
    if rest.len() < 2 || rest.len() > 3 {
        return Err(SyntaxFault::Program);
    }
    Ok(operation(alloc, Operator::If, rest)?)
}

/// At least one form.
fn headed<'a>(alloc: Global, operator: Operator, rest: &'a Data) -> Result<Shape<'a>, SyntaxFault>
    ensures { Gives shape_told result (headed (operator_of operator) rest.now) }
{
    if rest.len() == 0 {
        return Err(SyntaxFault::Program);
    }
    Ok(operation(alloc, operator, rest)?)
}

fn call_next_method_shape<'a>(
    alloc: Global,
    context: Context,
    rest: &'a Data,
) -> Result<Shape<'a>, SyntaxFault>
    ensures { Gives shape_told result (call_next_method_shape context rest.now) }
{
    if !context.is_method() {
        return Err(SyntaxFault::Program);
    }
    Ok(operation(alloc, Operator::CallNextMethod, rest)?)
}

fn next_method_p_shape<'a>(
    alloc: Global,
    context: Context,
    rest: &'a Data,
) -> Result<Shape<'a>, SyntaxFault>
    ensures { Gives shape_told result (next_method_p_shape context rest.now) }
{
    if !context.is_method() || rest.len() > 0 {
        return Err(SyntaxFault::Program);
    }
    Ok(atom(alloc, Operator::NextMethodP))
}

/// A list of at least one form.
fn clause_shape(alloc: Global, datum: &Datum) -> Result<Shape<'_>, SyntaxFault>
    ensures { Gives shape_told result (clause_shape (datum_of datum.now)) }
{
    match datum {
        Datum::List(elements) => headed(alloc, Operator::Clause, elements),
        Datum::Int(_) => Err(SyntaxFault::Program),
        Datum::Sym(_) => Err(SyntaxFault::Program),
        Datum::Str(_) => Err(SyntaxFault::Program),
        Datum::Dotted(_) => Err(SyntaxFault::Program),
        Datum::Method(_) => Err(SyntaxFault::Program),
    }
}
