//! Long forms of method combinations (HyperSpec 7.7 `define-method-combination`).
ghost use Rattle.std.specs.Prelude.{◌≡◌, ◌++◌, ◌==◌, ℕ, true, IfOk, IsOk};
ghost use Rattle.std.specs.HashSet.{contains};
ghost use Rattle.std.specs.List.{list_all, list_any};
ghost use Rattle.lisp_data.specs.DatumView.{datum_of};
ghost use Rattle.clos_forms.specs.Effective.{effective_form};
ghost use Rattle.clos_groups.specs.Group.{members};
ghost use Rattle.clos_groups.specs.clos_template.Expansion.{Expansion};
ghost use Rattle.clos_groups.specs.clos_template.Meaning.{meaning};
ghost use Rattle.clos_groups.specs.clos_method.MethodIds.{method_numbers};
ghost use Rattle.clos_comb.specs.Effective.{combined_by, groups_refusal, is_free};
ghost use Rattle.clos_comb.specs.Long.{calls_among, direction_of, expanded, expanded_with, group_value, groups_bound, long_combined, most_conses, result_formed};
ghost use Rattle.clos_comb.specs.OutcomeView.{combined_of};
ghost use Rattle.clos_comb.specs.Table.{long};

use crate::arguments::{bind_parameters, takes};
use crate::call::methods_before;
use crate::direction::Direction;
use crate::outcome::Outcome;
use clos_forms::{Form, SyntaxFault, called_methods, parse_effective};
use clos_groups::{
    ExpansionFault, GroupSpecifier, LongForm, MAX_CONSES, Method, Order, Scope, expand,
    find_refusal, from_elements, has_all, members,
};
use lisp_data::{Data, Datum, MethodId};
use std::alloc::{AllocError, Global};

/// How deep the result of an expansion may nest.
const MAX_RESULT_NESTING: u64 = 200;

/// The order of a group: a keyword's, or that which a parameter is bound to.
fn direction_of(parameters: &Scope, order: &Order) -> Option<Direction>
    ensures { result ≡ direction_of parameters.now order.now }
{
    match order {
        Order::First => Some(Direction::MostSpecificFirst),
        Order::Last => Some(Direction::MostSpecificLast),
        Order::Parameter(name) => match parameters.value(name) {
            None => None,
            Some(datum) => Direction::of(datum),
        },
    }
}

/// The list of these methods, of which the most specific is the first, in this order.
fn group_value(
    alloc: Global,
    direction: Direction,
    mut ids: Vec<MethodId>,
) -> Result<Datum, AllocError>
    ensures { IfOk result (λ d. datum_of d ≡ group_value direction (method_numbers ids.items)) }
{
    direction.direct(&mut ids);
    let methods = methods_before(alloc, &ids, Data::new())?;
    Ok(from_elements(methods))
}

/// The names of these groups, each with the list of its methods, or None where an order is none.
fn bind_groups(
    alloc: Global,
    parameters: &Scope,
    methods: &[Method],
    groups: &[GroupSpecifier],
    ids: &[MethodId],
) -> Result<Option<Scope>, AllocError>
    ensures { IfOk result (λ r. r ≡ groups_bound parameters.now (λ k. members methods.now groups.now k (method_numbers ids.now)) 0 groups.now) }
{
    let mut scope = Scope::new(alloc);
    for place in 0..groups.len() {
        let direction = match direction_of(parameters, &groups[place].order) {
            None => return Ok(None),
            Some(direction) => direction,
        };
        let members = members(alloc, methods, groups, place, ids)?;
        let value = group_value(alloc, direction, members)?;
        scope.bind(groups[place].name.copy()?, value)?;
    }
    Ok(Some(scope))
}

/// Whether all methods that a form calls are among these.
fn calls_among(alloc: Global, ids: &[MethodId], form: &Form) -> Result<bool, AllocError>
    ensures { IfOk result (λ b. b ≡ calls_among (method_numbers ids.now) form.now) }
{
    let called = called_methods(alloc, form)?;
    has_all(alloc, ids, &called)
}

/// The form of a result, which calls methods of the call alone.
fn parse_result(alloc: Global, datum: &Datum, ids: &[MethodId]) -> Result<Outcome, AllocError>
    ensures { IfOk result (λ r. combined_of r ≡ result_formed (method_numbers ids.now) (effective_form (datum_of datum.now))) }
{
    match parse_effective(alloc, datum) {
        Ok(form) => {
            if !calls_among(alloc, ids, &form)? {
                return Ok(Outcome::BadExpansion);
            }
            Ok(Outcome::Effective(form))
        }
        Err(SyntaxFault::Program) => Ok(Outcome::BadExpansion),
        Err(SyntaxFault::Memory) => Err(AllocError),
    }
}

/// What the template comes to, where names stand for this.
fn expand_in(
    alloc: Global,
    form: &LongForm,
    mut scope: Scope,
    ids: &[MethodId],
) -> Result<Outcome, AllocError>
    ensures { IfOk result (λ r. combined_of r ≡ expanded (method_numbers ids.now) (meaning form.now.template scope most_conses)) }
{
    let mut left = MAX_CONSES;
    match expand(alloc, &form.template, &mut scope, &mut left) {
        Ok(datum) => {
            if datum.nesting() > MAX_RESULT_NESTING {
                return Ok(Outcome::ExpansionLimit);
            }
            parse_result(alloc, &datum, ids)
        }
        Err(ExpansionFault::Bad) => Ok(Outcome::BadExpansion),
        Err(ExpansionFault::Beyond) => Ok(Outcome::ExpansionLimit),
        Err(ExpansionFault::Memory) => Err(AllocError),
    }
}

/// These methods, the most specific first, combined by a long form with these arguments.
fn combine_groups(
    alloc: Global,
    form: &LongForm,
    methods: &[Method],
    arguments: &Data,
    ids: &[MethodId],
) -> Result<Outcome, AllocError>
    ensures { IfOk result (λ r. combined_of r ≡ long_combined form.now methods.now arguments.now (method_numbers ids.now)) }
{
    if !takes(&form.parameters, arguments) {
        return Ok(Outcome::BadExpansion);
    }
    let mut scope = bind_parameters(alloc, &form.parameters, arguments)?;
    match bind_groups(alloc, &scope, methods, form.groups.as_slice(), ids)? {
        None => Ok(Outcome::BadExpansion),
        Some(groups) => {
            scope.append(groups)?;
            expand_in(alloc, form, scope, ids)
        }
    }
}

/// These methods, the most specific first, combined by a long form with these arguments, unless its groups refuse them. The
/// function's methods are in order of addition.
pub(crate) fn combine_long(
    alloc: Global,
    form: &LongForm,
    methods: &[Method],
    added: &[MethodId],
    arguments: &Data,
    ids: &[MethodId],
) -> Result<Outcome, AllocError>
    ensures outcome { IfOk result (λ r. combined_of r ≡ combined_by (long form.now) methods.now (method_numbers added.now) arguments.now (method_numbers ids.now)) }
    ensures free { is_free (long form.now) (groups_refusal (long form.now) methods.now (method_numbers added.now) (method_numbers ids.now)) ≡ true → IsOk result }
{
    let groups = form.groups.as_slice();
    match find_refusal(alloc, methods, groups, added, ids)? {
        Some(refusal) => Outcome::refused(groups, refusal),
        None => combine_groups(alloc, form, methods, arguments, ids),
    }
}
