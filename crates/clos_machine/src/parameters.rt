//! What the parameters of a function are bound to (HyperSpec 3.4.1, 3.5.1).
ghost use Rattle.std.specs.Prelude.{◌≡◌, ◌∷◌, ◌++◌, [], drop, map, is_some, option_map, OnOk, IfOk, MatchOption};
ghost use Rattle.std.specs.List.{list_any};
ghost use Rattle.lisp_data.specs.ValueView.{value_of};
ghost use Rattle.lisp_prims.specs.Predicates.{is_symbol};
ghost use Rattle.lisp_prims.specs.Primitive.{answer, truth};
ghost use Rattle.lisp_prims.specs.lisp_functions.declared.lists.ListFunction.TheVariants.{List};
ghost use Rattle.lisp_prims.specs.lisp_functions.declared.primitive.Primitive.TheVariants.{Listed};
ghost use Rattle.clos_meaning.specs.Calls.{keys_are_even};
ghost use Rattle.clos_meaning.specs.Parameters.{are_even, are_pairs, is_symbol_named, argument_named, is_allow_other_keys, is_allowing, is_accepted, are_accepted, keys_fit, after_optional, count_fits, fits, argument, required_sources, init_source, given_source, first_and_others, listed, variable_sources, optional_sources, rest_sources, entry_sources, key_sources, sources, requires_only};
ghost use Rattle.clos_machine.specs.ParametersView.{source_of, parameter_of};

use crate::fault::of_function;
use crate::truth::{is_true, nil, t};
use clos_forms::{Form, is_the};
use clos_lambda::{Key, Keys, LambdaList, Optional};
use clos_meaning::{Condition, Stop};
use lisp_data::{Name, Value};
use lisp_prims::{ListFunction, Primitive, apply};
use std::alloc::{AllocError, Global};
use std::collections::VecDeque;
use std::marker::Model;

/// Where the value of a parameter comes from.
#[derive(Drop)]
pub enum Origin {
    /// It is there.
    Argument(Value),
    /// It is a list that can't be made.
    Refused(Condition),
    /// The form gives it.
    Init(Form),
}

/// A parameter, and where its value comes from.
#[derive(Drop)]
pub struct Parameter {
    pub name: Name,
    pub origin: Origin,
}

/// The parameters that are still to be bound, in order. Contracts see the list.
#[derive(Drop)]
pub struct ParameterPlan {
    left: VecDeque<Parameter>,
}

impl Model for ParameterPlan {
    ghost use Rattle.std.specs.Prelude.{map};
    ghost use Rattle.clos_meaning.specs.Parameters.{Sources};
    ghost use Rattle.clos_machine.specs.inner.ParametersCode.{sources_code};
    ghost use Rattle.clos_machine.specs.ParametersView.{parameter_of};

    ghost Value = { Sources };

    ghost coded = { sources_code };

    ghost view = { λ a. map parameter_of a.left.items };
}

impl ParameterPlan {
    /// No parameters.
    pub fn new(alloc: Global) -> ParameterPlan
        ensures { result ≡ [] }
    {
        ParameterPlan {
            left: VecDeque::new(alloc),
        }
    }

    /// One more parameter, after the others.
    pub fn push(&mut self, parameter: Parameter) -> Result<(), AllocError>
        ensures { OnOk result (self.new ≡ self.old ++ parameter_of parameter ∷ []) }
    {
        self.left.push_back(parameter)?;
        Ok(())
    }

    /// Takes off the first.
    pub fn pop(&mut self) -> Option<Parameter>
        ensures { MatchOption result ((self.old ≡ []) × (self.new ≡ [])) (λ p. self.old ≡ parameter_of p ∷ self.new) }
    {
        self.left.pop_front()
    }
}

/// Whether all parameters are required ones.
pub fn requires_only(lambda_list: &LambdaList) -> bool
    ensures { result ≡ requires_only lambda_list.now }
{
    lambda_list.optional.len() == 0 && lambda_list.rest.is_none() && lambda_list.keys.is_none()
}

/// Whether these are names, each with its argument.
pub fn are_pairs(values: &[Value]) -> bool
    ensures { result ≡ are_pairs (map value_of values.now) }
{
    let mut left = values;
    while let Some((name, rest)) = left.split_first() {
        let Some((_, others)) = rest.split_first() else {
            return false;
        };
        if !is_symbol(name) {
            return false;
        }
        left = others;
    }
    true
}

/// Whether these are pairs, whatever the first of each is.
pub fn are_even(values: &[Value]) -> bool
    ensures { result ≡ are_even (map value_of values.now) }
{
    let mut left = values;
    while let Some((_, rest)) = left.split_first() {
        let Some((_, others)) = rest.split_first() else {
            return false;
        };
        left = others;
    }
    true
}

/// Whether a value is a symbol.
pub fn is_symbol(value: &Value) -> bool
    ensures { result ≡ is_symbol (value_of value.now) }
{
    match value {
        Value::Sym(_) => true,
        Value::List(items) => items.split_first().is_none(),
        _ => false,
    }
}

/// Whether a value is the symbol of this name.
pub fn is_symbol_named(value: &Value, name: &Name) -> bool
    ensures { result ≡ is_symbol_named name.now (value_of value.now) }
{
    match value {
        Value::Sym(other) => other.is(name),
        Value::List(items) => items.split_first().is_none() && Name::fixed(&"NIL").is(name),
        _ => false,
    }
}

/// The argument of this name: the leftmost counts.
pub fn argument_named<'a>(values: &'a [Value], name: &Name) -> Option<&'a Value>
    ensures { option_map (λ v. value_of v.now) result ≡ argument_named name.now (map value_of values.now) }
{
    let mut left = values;
    while let Some((key, rest)) = left.split_first() {
        let Some((value, others)) = rest.split_first() else {
            return None;
        };
        if is_symbol_named(key, name) {
            return Some(value);
        }
        left = others;
    }
    None
}

/// Whether a value is the symbol `:allow-other-keys`.
pub fn is_allow_other_keys(value: &Value) -> bool
    ensures { result ≡ is_allow_other_keys (value_of value.now) }
{
    match value {
        Value::Sym(name) => name.is_keyword() && name.as_str() == "ALLOW-OTHER-KEYS",
        _ => false,
    }
}

/// Whether a call allows names that no parameter has.
pub fn is_allowing(values: &[Value]) -> bool
    ensures { result ≡ is_allowing (map value_of values.now) }
{
    let mut left = values;
    while let Some((key, rest)) = left.split_first() {
        let Some((value, others)) = rest.split_first() else {
            return false;
        };
        if is_allow_other_keys(key) {
            return is_true(value);
        }
        left = others;
    }
    false
}

/// Whether this is a parameter's name, or `:allow-other-keys`.
fn is_accepted(keys: &[Key], name: &Value) -> bool
    ensures { result ≡ is_accepted keys.now (value_of name.now) }
{
    is_allow_other_keys(name) || has_parameter(keys, name)
}

/// Whether one of these parameters has this name.
fn has_parameter(keys: &[Key], name: &Value) -> bool
    ensures { result ≡ list_any (λ k. is_symbol_named k.keyword (value_of name.now)) keys.now }
{
    keys.iter().any(|key| is_symbol_named(name, &key.keyword))
}

fn are_accepted(keys: &[Key], values: &[Value]) -> bool
    ensures { result ≡ are_accepted keys.now (map value_of values.now) }
{
    let mut left = values;
    while let Some((name, rest)) = left.split_first() {
        let Some((_, others)) = rest.split_first() else {
            return true;
        };
        if !is_accepted(keys, name) {
            return false;
        }
        left = others;
    }
    true
}

/// Whether keyword parameters take these arguments.
fn keys_fit(keys: &Option<Keys>, values: &[Value]) -> bool
    ensures { result ≡ keys_fit keys.now (map value_of values.now) }
{
    match keys {
        None => true,
        Some(keys) => {
            are_pairs(values)
                && (keys.allow_other_keys
                    || is_allowing(values)
                    || are_accepted(keys.entries.as_slice(), values))
        }
    }
}

/// The values after so many.
fn after(values: &[Value], count: usize) -> &[Value]
    ensures { map value_of result.now ≡ drop count (map value_of values.now) }
{
    if count >= values.len() {
        return &[];
    }
    &values[count..]
}

/// The arguments after those of the required and of the optional parameters.
fn after_optional<'a>(lambda_list: &LambdaList, values: &'a [Value]) -> &'a [Value]
    ensures { map value_of result.now ≡ after_optional lambda_list.now (map value_of values.now) }
{
    after(
        after(values, lambda_list.required.len()),
        lambda_list.optional.len(),
    )
}

/// Whether there are neither too few arguments nor too many.
fn count_fits(lambda_list: &LambdaList, values: &[Value]) -> bool
    ensures { result ≡ count_fits lambda_list.now (map value_of values.now) }
{
    let required = lambda_list.required.len();
    required <= values.len()
        && (lambda_list.rest.is_some()
            || lambda_list.keys.is_some()
            || after(values, required).len() <= lambda_list.optional.len())
}

/// Whether a function of this lambda list takes these arguments.
pub fn fits(lambda_list: &LambdaList, values: &[Value]) -> bool
    ensures { result ≡ fits lambda_list.now (map value_of values.now) }
{
    count_fits(lambda_list, values)
        && keys_fit(&lambda_list.keys, after_optional(lambda_list, values))
}

/// Whether the keyword parameters of a method, if it has some, have arguments in pairs.
pub fn keys_are_even(lambda_list: &LambdaList, values: &[Value]) -> bool
    ensures { result ≡ keys_are_even lambda_list.now (map value_of values.now) }
{
    lambda_list.keys.is_none() || are_even(after_optional(lambda_list, values))
}

/// Adds a variable whose value is there.
fn push_argument(plan: &mut ParameterPlan, name: &Name, value: Value) -> Result<(), AllocError>
    ensures { OnOk result (plan.new ≡ plan.old ++ (name.now, argument (value_of value)) ∷ []) }
{
    let name = name.copy()?;
    plan.push(Parameter {
        name,
        origin: Origin::Argument(value),
    })
}

fn push_required(
    plan: &mut ParameterPlan,
    names: &[Name],
    values: &[Value],
) -> Result<(), AllocError>
    ensures { OnOk result (plan.new ≡ plan.old ++ required_sources names.now (map value_of values.now)) }
{
    let mut names_left = names;
    let mut values_left = values;
    while let Some((name, other_names)) = names_left.split_first() {
        let Some((value, other_values)) = values_left.split_first() else {
            return Ok(());
        };
        push_argument(plan, name, value.copy()?)?;
        names_left = other_names;
        values_left = other_values;
    }
    Ok(())
}

/// What an init form gives, or NIL where there is none.
fn init_origin(init: &Option<Form>) -> Result<Origin, AllocError>
    ensures { IfOk result (λ r. source_of r ≡ init_source init.now) }
{
    match init {
        None => Ok(Origin::Argument(nil())),
        Some(form) => Ok(Origin::Init(form.copy()?)),
    }
}

/// Adds the variable that tells whether there is an argument.
fn push_given(
    plan: &mut ParameterPlan,
    given: &Option<Name>,
    is_given: bool,
) -> Result<(), AllocError>
    ensures { OnOk result (plan.new ≡ plan.old ++ given_source given.now is_given) }
{
    match given {
        None => Ok(()),
        Some(name) => push_argument(plan, name, if is_given { t() } else { nil() }),
    }
}

/// Adds a variable with its argument, where there is one.
fn push_variable(
    plan: &mut ParameterPlan,
    variable: &Optional,
    argument: Option<&Value>,
) -> Result<(), AllocError>
    ensures { OnOk result (plan.new ≡ plan.old ++ variable_sources variable.now
        (option_map (λ v. value_of v.now) argument.entry)) }
{
    match argument {
        Some(value) => {
            push_argument(plan, &variable.name, value.copy()?)?;
            push_given(plan, &variable.given, true)
        }
        None => {
            let name = variable.name.copy()?;
            let origin = init_origin(&variable.init)?;
            plan.push(Parameter { name, origin })?;
            push_given(plan, &variable.given, false)
        }
    }
}

fn push_optional(
    plan: &mut ParameterPlan,
    variables: &[Optional],
    values: &[Value],
) -> Result<(), AllocError>
    ensures { OnOk result (plan.new ≡ plan.old ++ optional_sources variables.now (map value_of values.now)) }
{
    let mut left = variables;
    let mut values_left = values;
    while let Some((variable, others)) = left.split_first() {
        let (argument, other_values) = first_of(values_left);
        push_variable(plan, variable, argument)?;
        left = others;
        values_left = other_values;
    }
    Ok(())
}

/// The first, where there is one, and the others.
fn first_of(values: &[Value]) -> (Option<&Value>, &[Value])
    ensures { first_and_others (map value_of values.now) ≡ (
      option_map (λ v. value_of v.now) result.0,
      map value_of
          result.1.now,
    ) }
{
    match values.split_first() {
        None => (None, values),
        Some((value, others)) => (Some(value), others),
    }
}

/// Adds the variable of the list of arguments that are left.
fn push_rest(
    alloc: Global,
    plan: &mut ParameterPlan,
    rest: &Option<Name>,
    values: &[Value],
) -> Result<(), AllocError>
    ensures { OnOk result (plan.new ≡ plan.old ++ rest_sources rest.now (map value_of values.now)) }
{
    match rest {
        None => Ok(()),
        Some(name) => {
            let origin = listed(alloc, values)?;
            let name = name.copy()?;
            plan.push(Parameter { name, origin })
        }
    }
}

/// The list of values, or why there is none.
fn listed(alloc: Global, values: &[Value]) -> Result<Origin, AllocError>
    ensures { IfOk result (λ r. source_of r ≡ listed (answer (Listed List) (map value_of values.now))) }
{
    match apply(Primitive::Listed(ListFunction::List), alloc, values) {
        Ok(list) => Ok(Origin::Argument(list)),
        Err(fault) => match of_function(alloc, fault) {
            Stop::Refused(condition) => Ok(Origin::Refused(condition)),
            Stop::Storage => Err(AllocError),
        },
    }
}

fn push_keys(
    plan: &mut ParameterPlan,
    keys: &Option<Keys>,
    values: &[Value],
) -> Result<(), AllocError>
    ensures { OnOk result (plan.new ≡ plan.old ++ key_sources keys.now (map value_of values.now)) }
{
    match keys {
        None => Ok(()),
        Some(keys) => push_entries(plan, keys.entries.as_slice(), values),
    }
}

fn push_entries(plan: &mut ParameterPlan, keys: &[Key], values: &[Value]) -> Result<(), AllocError>
    ensures { OnOk result (plan.new ≡ plan.old ++ entry_sources keys.now (map value_of values.now)) }
{
    let mut left = keys;
    while let Some((key, others)) = left.split_first() {
        push_variable(plan, &key.variable, argument_named(values, &key.keyword))?;
        left = others;
    }
    Ok(())
}

/// What the parameters of this lambda list are bound to.
pub fn plan_for(
    alloc: Global,
    lambda_list: &LambdaList,
    values: &[Value],
) -> Result<ParameterPlan, AllocError>
    ensures { IfOk result (λ r. r ≡ sources lambda_list.now (map value_of values.now)) }
{
    let mut plan = ParameterPlan::new(alloc);
    let others = after(values, lambda_list.required.len());
    let rest = after_optional(lambda_list, values);
    push_required(&mut plan, lambda_list.required.as_slice(), values)?;
    push_optional(&mut plan, lambda_list.optional.as_slice(), others)?;
    push_rest(alloc, &mut plan, &lambda_list.rest, rest)?;
    push_keys(&mut plan, &lambda_list.keys, rest)?;
    Ok(plan)
}
