//! Short forms of method combinations (HyperSpec 7.7 `define-method-combination`).
ghost use Rattle.std.specs.Prelude.{◌≡◌, true, IfOk, IsOk, Some};
ghost use Rattle.lisp_data.specs.DatumView.{datum_of};
ghost use Rattle.clos_forms.specs.Effective.{effective_form};
ghost use Rattle.clos_groups.specs.clos_method.MethodIds.{method_numbers};
ghost use Rattle.clos_comb.specs.Effective.{combined_by, groups_refusal, is_free};
ghost use Rattle.clos_comb.specs.Outcome.{formed};
ghost use Rattle.clos_comb.specs.OutcomeView.{combined_of};
ghost use Rattle.clos_comb.specs.Short.{directed_combined, operated, operation, short_form};
ghost use Rattle.clos_comb.specs.Table.{short};

use crate::arguments::short_direction;
use crate::call::{call_of, calls_before, cons, within};
use crate::direction::Direction;
use crate::groups::short_groups;
use crate::outcome::Outcome;
use clos_forms::{SyntaxFault, parse_effective};
use clos_groups::{GroupSpecifier, Method, Sequence, ShortForm, find_refusal, members};
use lisp_data::{Data, Datum, MethodId};
use std::alloc::{AllocError, Global};
use std::marker::Model;

/// A short form with its groups, which are made once. Contracts see the short form.
#[derive(Drop)]
pub struct ShortCombination {
    form: ShortForm,
    groups: Sequence<GroupSpecifier>,
}

impl Model for ShortCombination {
    ghost use Rattle.std.specs.Prelude.{◌≡◌};
    ghost use Rattle.clos_groups.specs.clos_combination.contracts.combination.ShortForm as short_form;
    ghost use Rattle.clos_groups.specs.clos_combination.declared.combination.ShortForm.{ShortForm};
    ghost use Rattle.clos_comb.specs.Groups.{short_groups};

    ghost Value = { ShortForm };

    ghost coded = { short_form.the_row.coded };

    ghost view = { λ a. a.form };

    ghost invariant = { λ a. a.groups ≡ short_groups a.form.name };
}

impl ShortCombination {
    ghost use Rattle.clos_comb.specs.Groups.{short_groups};

    /// This short form.
    pub(crate) fn new(alloc: Global, form: ShortForm) -> Result<ShortCombination, AllocError>
        ensures { IfOk result (λ r. r ≡ form) }
    {
        let groups = short_groups(alloc, &form.name)?;
        Ok(ShortCombination { form, groups })
    }

    /// What it says.
    pub(crate) fn form(&self) -> &ShortForm
        ensures { result.now ≡ self.now }
    {
        &self.form
    }

    /// The groups of methods that it combines.
    pub(crate) fn groups(&self) -> &[GroupSpecifier]
        ensures { result.now ≡ short_groups self.now.name }
    {
        self.groups.as_slice()
    }
}

/// The operator on calls of the methods.
fn operation(alloc: Global, form: &ShortForm, ids: &[MethodId]) -> Result<Datum, AllocError>
    ensures { IfOk result (λ d. datum_of d ≡ operation form.now (method_numbers ids.now)) }
{
    let calls = calls_before(alloc, ids, Data::new())?;
    let operator = Datum::Sym(form.operator.copy()?);
    Ok(Datum::List(cons(alloc, operator, calls)?))
}

/// The same, where the call of one method may stand alone.
fn operated(alloc: Global, form: &ShortForm, ids: &[MethodId]) -> Result<Datum, AllocError>
    ensures { IfOk result (λ d. datum_of d ≡ operated form.now (method_numbers ids.now)) }
{
    match ids.split_first() {
        Some((only, others)) if form.identity && others.is_empty() => {
            call_of(alloc, *only, Data::new())
        }
        _ => operation(alloc, form, ids),
    }
}

/// What a datum comes to that is an effective form, or none.
fn parse_outcome(alloc: Global, datum: &Datum) -> Result<Outcome, AllocError>
    ensures { IfOk result (λ r. combined_of r ≡ formed (effective_form (datum_of datum.now))) }
{
    match parse_effective(alloc, datum) {
        Ok(form) => Ok(Outcome::Effective(form)),
        Err(SyntaxFault::Program) => Ok(Outcome::BadExpansion),
        Err(SyntaxFault::Memory) => Err(AllocError),
    }
}

/// These methods, the most specific first, combined in this order.
fn combine_directed(
    alloc: Global,
    combination: &ShortCombination,
    methods: &[Method],
    direction: Direction,
    ids: &[MethodId],
) -> Result<Outcome, AllocError>
    ensures { IfOk result (λ r. combined_of r ≡ directed_combined combination.now methods.now (method_numbers ids.now) (Some direction)) }
{
    let around = members(alloc, methods, combination.groups(), 0, ids)?;
    let mut primary = members(alloc, methods, combination.groups(), 1, ids)?;
    direction.direct(&mut primary);
    let form = operated(alloc, combination.form(), &primary)?;
    let form = within(alloc, &around, form)?;
    parse_outcome(alloc, &form)
}

/// These methods, the most specific first, combined by a short form with these arguments, unless its groups refuse them. The
/// function's methods are in order of addition.
pub(crate) fn combine_short(
    alloc: Global,
    combination: &ShortCombination,
    methods: &[Method],
    added: &[MethodId],
    arguments: &Data,
    ids: &[MethodId],
) -> Result<Outcome, AllocError>
    ensures outcome { IfOk result (λ r. combined_of r ≡ combined_by (short combination.now) methods.now (method_numbers added.now) arguments.now (method_numbers ids.now)) }
    ensures free { is_free (short combination.now) (groups_refusal (short combination.now) methods.now (method_numbers added.now) (method_numbers ids.now)) ≡ true → IsOk result }
{
    if let Some(refusal) = find_refusal(alloc, methods, combination.groups(), added, ids)? {
        return Ok(Outcome::refused_primary(refusal));
    }
    match short_direction(arguments) {
        None => Ok(Outcome::BadExpansion),
        Some(direction) => combine_directed(alloc, combination, methods, direction, ids),
    }
}
