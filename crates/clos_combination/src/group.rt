//! Groups of methods (HyperSpec 7.7 `define-method-combination`).
ghost use Rattle.std.specs.Prelude.{◌≡◌, IfOk};
ghost use Rattle.std.specs.List.{list_any};
ghost use Rattle.lisp_data.specs.DatumView.{datum_of};
ghost use Rattle.lisp_data.specs.Name.{same_name};
ghost use Rattle.clos_forms.specs.Binding.{each};
ghost use Rattle.clos_forms.specs.Fault.{Gives};
ghost use Rattle.clos_forms.specs.FunctionName.{variable_in};
ghost use Rattle.clos_combination.specs.Group.{are_ordered, group_from, group_in, group_names, group_with, groups_in, is_ordered, listed_group, or_first, order_in, patterns_in};
ghost use Rattle.clos_combination.specs.Keyword.{before_keyword};
ghost use Rattle.clos_combination.specs.Pattern.{pattern_in};

use crate::keyword::{Flags, from_keyword, is_keyword, or_false};
use crate::pattern::{Pattern, parse_pattern};
use clos_forms::{Sequence, SyntaxFault, are_distinct, variable_name};
use clos_lambda::{
    Documentation, Kind, are_properties, is_key, parse_each, parse_list, parse_value,
};
use lisp_data::{Data, Datum, Name};
use std::alloc::{AllocError, Global};

/// The order of the methods of a group.
#[derive(Drop)]
pub enum Order {
    /// The most specific method first.
    First,
    /// The most specific method last.
    Last,
    /// The one of these that the parameter of this name is bound to.
    Parameter(Name),
}

/// A group of methods: the variable that is bound to them, and which they are.
#[derive(Drop)]
pub struct GroupSpecifier {
    pub name: Name,
    /// A method is of the group where one of them matches its qualifiers.
    pub patterns: Sequence<Pattern>,
    pub order: Order,
    /// Whether there must be a method.
    pub required: bool,
}

/// The options of a group.
const GROUP_KEYS: [&str; 3] = ["DESCRIPTION", "ORDER", "REQUIRED"];

/// Values of `:order`.
struct Orders;

/// Groups.
struct Groups;

impl Kind for Orders {
    type Item = Order;

    ghost item_in = { order_in };

    fn parse(_alloc: Global, datum: &Datum) -> Result<Order, SyntaxFault> {
        parse_order(datum)
    }
}

impl Kind for Groups {
    type Item = GroupSpecifier;

    ghost item_in = { group_in };

    fn parse(alloc: Global, datum: &Datum) -> Result<GroupSpecifier, SyntaxFault> {
        parse_group(alloc, datum)
    }
}

fn parse_variable(datum: &Datum) -> Result<Name, SyntaxFault>
    ensures { Gives (λ n. n) result (variable_in (datum_of datum.now)) }
{
    match variable_name(datum) {
        None => Err(SyntaxFault::Program),
        Some(name) => Ok(name.copy()?),
    }
}

/// A keyword that says an order, or a variable.
fn parse_order(datum: &Datum) -> Result<Order, SyntaxFault>
    ensures { Gives (λ o. o) result (order_in (datum_of datum.now)) }
{
    if is_key("MOST-SPECIFIC-FIRST", datum) {
        return Ok(Order::First);
    }
    if is_key("MOST-SPECIFIC-LAST", datum) {
        return Ok(Order::Last);
    }
    let name = parse_variable(datum)?;
    Ok(Order::Parameter(name))
}

fn or_first(order: Option<Order>) -> Order
    ensures { result ≡ or_first order }
{
    match order {
        None => Order::First,
        Some(order) => order,
    }
}

/// The patterns that stand before the first keyword.
#[tactic(auto, using(clos_lambda::proofs::Lists::one_more))]
fn leading_patterns(alloc: Global, elements: &Data) -> Result<Sequence<Pattern>, SyntaxFault>
    ensures { Gives (λ ps. ps) result (each pattern_in (before_keyword elements.now)) }
{
    let mut patterns = Sequence::new(alloc);
    let mut rest = elements;
    while let Some((first, others)) = rest.split_first() {
        if is_keyword(first) {
            return Ok(patterns);
        }
        match parse_pattern(alloc, first) {
            Err(fault) => return Err(fault),
            Ok(pattern) => patterns.push(pattern)?,
        }
        rest = others;
    }
    Ok(patterns)
}

/// The patterns of a group, of which there is one at least.
fn parse_patterns(alloc: Global, elements: &Data) -> Result<Sequence<Pattern>, SyntaxFault>
    ensures { Gives (λ ps. ps) result (patterns_in elements.now) }
{
    let patterns = leading_patterns(alloc, elements)?;
    if patterns.len() == 0 {
        return Err(SyntaxFault::Program);
    }
    Ok(patterns)
}

/// A list of a name, patterns, and options.
fn parse_group(alloc: Global, datum: &Datum) -> Result<GroupSpecifier, SyntaxFault>
    ensures { Gives (λ g. g) result (group_in (datum_of datum.now)) }
{
    match datum {
        Datum::List(elements) => parse_listed_group(alloc, elements),
        Datum::Int(_) => Err(SyntaxFault::Program),
        Datum::Sym(_) => Err(SyntaxFault::Program),
        Datum::Str(_) => Err(SyntaxFault::Program),
        Datum::Dotted(_) => Err(SyntaxFault::Program),
        Datum::Method(_) => Err(SyntaxFault::Program),
    }
}

fn parse_listed_group(alloc: Global, elements: &Data) -> Result<GroupSpecifier, SyntaxFault>
    ensures { Gives (λ g. g) result (listed_group elements.now) }
{
    match elements.split_first() {
        None => Err(SyntaxFault::Program),
        Some((name, rest)) => {
            let name = parse_variable(name)?;
            let patterns = parse_patterns(alloc, rest)?;
            parse_group_with(alloc, name, patterns, from_keyword(rest))
        }
    }
}

fn parse_group_with(
    alloc: Global,
    name: Name,
    patterns: Sequence<Pattern>,
    options: &Data,
) -> Result<GroupSpecifier, SyntaxFault>
    ensures { Gives (λ g. g) result (group_with name patterns options.now) }
{
    if !are_properties(&GROUP_KEYS, options) {
        return Err(SyntaxFault::Program);
    }
    parse_group_from(alloc, name, patterns, options)
}

fn parse_group_from(
    alloc: Global,
    name: Name,
    patterns: Sequence<Pattern>,
    options: &Data,
) -> Result<GroupSpecifier, SyntaxFault>
    ensures { Gives (λ g. g) result (group_from name patterns options.now) }
{
    parse_value::<Documentation>(alloc, "DESCRIPTION", options)?;
    let order = parse_value::<Orders>(alloc, "ORDER", options)?;
    let required = parse_value::<Flags>(alloc, "REQUIRED", options)?;
    Ok(GroupSpecifier {
        name,
        patterns,
        order: or_first(order),
        required: or_false(required),
    })
}

fn group_names(alloc: Global, groups: &[GroupSpecifier]) -> Result<Vec<Name>, AllocError>
    ensures { IfOk result (λ ns. ns.items ≡ group_names groups.now) }
{
    let mut names = Vec::new(alloc);
    for group in groups {
        names.push(group.name.copy()?)?;
    }
    Ok(names)
}

/// Groups, no name twice.
pub(crate) fn parse_groups(
    alloc: Global,
    datum: &Datum,
) -> Result<Sequence<GroupSpecifier>, SyntaxFault>
    ensures { Gives (λ gs. gs) result (groups_in (datum_of datum.now)) }
{
    let elements = parse_list(datum)?;
    let groups = parse_each::<Groups>(alloc, &elements)?;
    let names = group_names(alloc, groups.as_slice())?;
    if !are_distinct(alloc, &names)? {
        return Err(SyntaxFault::Program);
    }
    Ok(groups)
}

fn has_name(names: &[Name], name: &Name) -> bool
    ensures { result ≡ list_any (λ n. same_name n name.now) names.now }
{
    names.iter().any(|n| n.is(name))
}

/// Whether the variable that says an order is one of these parameters.
fn is_ordered(parameters: &[Name], order: &Order) -> bool
    ensures { result ≡ is_ordered parameters.now order.now }
{
    match order {
        Order::First => true,
        Order::Last => true,
        Order::Parameter(name) => has_name(parameters, name),
    }
}

/// Whether each group's is.
pub(crate) fn are_ordered(parameters: &[Name], groups: &[GroupSpecifier]) -> bool
    ensures { result ≡ are_ordered parameters.now groups.now }
{
    groups
        .iter()
        .all(|group| is_ordered(parameters, &group.order))
}
