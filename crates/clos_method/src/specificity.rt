//! What decides between applicable methods (HyperSpec 7.6.6.1.2), in numbers.
ghost use Rattle.std.specs.Prelude.{◌≡◌, ◌≤◌, IfOk, length, option_map};
ghost use Rattle.clos_precedence.specs.PrecedenceView.{numbers};
ghost use Rattle.clos_method.specs.ArgumentView.{argument_of};
ghost use Rattle.clos_method.specs.Specializer.{specializer_of};
ghost use Rattle.clos_method.specs.inner.Ranks.{by_both, is_lower, place_in, rank_in, rank_of, ranks_of};

use crate::arguments::{Argument, Arguments};
use crate::specializer::{Specializer, Specializers};
use lisp_data::ClassId;
use std::alloc::{AllocError, Global};

/// Where a class stands in a list.
fn place_in(list: &[ClassId], class: ClassId) -> usize
    ensures value { result ≡ place_in (numbers list.now) class.0 }
    ensures within { result ≤ length list.now }
{
    let mut left = list;
    let mut at: usize = 0;
    while let Some((other, others)) = left.split_first() {
        if other.0 == class.0 {
            return at;
        }
        at += 1;
        left = others;
    }
    at
}

/// How specific a specializer is for an argument with this list: an eql specializer first, then the classes in their order.
fn rank_in(list: &[ClassId], specializer: &Specializer) -> usize
    ensures { result ≡ rank_in (numbers list.now) (specializer_of specializer.now) }
{
    match specializer {
        Specializer::Eql(_) => 0,
        Specializer::Class(class) => place_in(list, *class) + 1,
    }
}

/// The same at a place where there may be neither.
fn rank_of(argument: Option<Argument<'_>>, specializer: Option<&Specializer>) -> Option<usize>
    ensures { result ≡ rank_of (option_map argument_of argument.entry) (option_map (λ s. specializer_of s.now) specializer.entry) }
{
    let argument = argument?;
    let specializer = specializer?;
    Some(rank_in(argument.list, specializer))
}

/// How specific specializers are for the arguments, in the order of these places.
pub(crate) fn ranks(
    alloc: Global,
    order: &[usize],
    arguments: &Arguments<'_>,
    specializers: &Specializers,
) -> Result<Vec<Option<usize>>, AllocError>
    ensures { IfOk result (λ r. r.items ≡ ranks_of order.now arguments.now specializers.now) }
{
    let mut found = Vec::new(alloc);
    let mut left = order;
    while let Some((place, others)) = left.split_first() {
        let place = *place;
        found.push(rank_of(arguments.get(place), specializers.get(place)))?;
        left = others;
    }
    Ok(found)
}

/// What two ranks at one place decide, if they differ: whether the first is more specific.
fn by_both(first: Option<usize>, second: Option<usize>) -> Option<bool>
    ensures { result ≡ by_both first second }
{
    let first = first?;
    let second = second?;
    if first == second {
        return None;
    }
    Some(first < second)
}

/// Whether, at the first place where they differ, the first ones are more specific.
pub(crate) fn is_lower(first: &[Option<usize>], second: &[Option<usize>]) -> bool
    ensures { result ≡ is_lower first.now second.now }
{
    let mut left = first;
    let mut right = second;
    while let [one, others @ ..] = left {
        let [other, rest @ ..] = right else {
            return false;
        };
        if let Some(decision) = by_both(*one, *other) {
            return decision;
        }
        left = others;
        right = rest;
    }
    false
}
