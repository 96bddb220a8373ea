//! The order of applicable methods (HyperSpec 7.6.6.1.2).
ghost use Rattle.std.specs.Prelude.{◌≡◌, IfOk, OnOk};
ghost use Rattle.clos_method.specs.Applicable.{specializers_of};
ghost use Rattle.clos_method.specs.MethodIds.{method_numbers};
ghost use Rattle.clos_method.specs.Order.{ordered};
ghost use Rattle.clos_method.specs.inner.Ranking.{placed_in, ranked_numbers};
ghost use Rattle.clos_method.specs.inner.Ranks.{ranks_of};

use crate::applicable::is_applicable;
use crate::arguments::Arguments;
use crate::method::{Method, method_numbered};
use crate::method_ids::MethodIds;
use crate::specializer::Specializers;
use crate::specificity::{is_lower, ranks};
use lisp_data::MethodId;
use std::alloc::{AllocError, Global};

/// A method, with how specific its specializers are for the arguments, in the argument precedence order.
#[derive(Drop)]
pub(crate) struct Ranked {
    id: MethodId,
    ranks: Vec<Option<usize>>,
}

/// A method with how specific it is.
fn with_ranks(
    alloc: Global,
    methods: &[Method],
    order: &[usize],
    arguments: &Arguments<'_>,
    id: MethodId,
) -> Result<Ranked, AllocError>
    ensures { IfOk result (λ r. (r.id ≡ id) × (r.ranks.items ≡ ranks_of order.now arguments.now (specializers_of methods.now id.0))) }
{
    let ranks = match method_numbered(methods, id) {
        None => ranks(alloc, order, arguments, &Specializers::new(alloc))?,
        Some(method) => ranks(alloc, order, arguments, &method.specializers)?,
    };
    Ok(Ranked { id, ranks })
}

/// Puts a method at its place among ordered ones that were added after it.
fn place(listed: &mut Vec<Ranked>, one: Ranked) -> Result<(), AllocError>
    ensures { OnOk result (listed.new.items ≡ placed_in one listed.old.items) }
{
    let mut at = 0;
    while at < listed.len() && is_lower(listed[at].ranks.as_slice(), one.ranks.as_slice()) {
        at += 1;
    }
    listed.insert(at, one)?;
    Ok(())
}

/// The methods alone.
fn numbers(alloc: Global, listed: &[Ranked]) -> Result<MethodIds, AllocError>
    ensures { IfOk result (λ r. r ≡ ranked_numbers listed.now) }
{
    let mut ids = Vec::new(alloc);
    let mut left = listed;
    while let [one, others @ ..] = left {
        ids.push(one.id)?;
        left = others;
    }
    Ok(MethodIds::of(ids))
}

/// The applicable ones of these methods, the most specific first (HyperSpec 7.6.6.1.2). The order is the argument precedence
/// order: the places of the required parameters. The candidates are in order of addition, and those of equal specializers
/// stay in it.
pub fn ordered_methods(
    alloc: Global,
    methods: &[Method],
    order: &[usize],
    arguments: &Arguments<'_>,
    candidates: &[MethodId],
) -> Result<MethodIds, AllocError>
    ensures { IfOk result (λ r. r ≡ ordered methods.now order.now arguments.now (method_numbers candidates.now)) }
{
    let mut listed = Vec::new(alloc);
    let mut left = candidates.len();
    while left > 0 {
        left -= 1;
        let id = candidates[left];
        if is_applicable(methods, arguments, id) {
            let one = with_ranks(alloc, methods, order, arguments, id)?;
            place(&mut listed, one)?;
        }
    }
    numbers(alloc, listed.as_slice())
}
