//! The groups of the standard combination and of short forms (HyperSpec 7.6.6.2, 7.6.6.4).
ghost use Rattle.std.specs.Prelude.{◌≡◌, IfOk};
ghost use Rattle.clos_comb.specs.Groups.{group, keyword_group, primary_group, short_groups, standard_groups};

use clos_forms::value_named;
use clos_groups::{GroupSpecifier, Order, Pattern, Sequence};
use lisp_data::{Name, Value};
use std::alloc::{AllocError, Global};

/// A group of this name, whose one pattern this is.
fn group(
    alloc: Global,
    name: Name,
    pattern: Pattern,
    required: bool,
) -> Result<GroupSpecifier, AllocError>
    ensures { IfOk result (λ g. g ≡ group name pattern required) }
{
    let mut patterns = Sequence::new(alloc);
    patterns.push(pattern)?;
    Ok(GroupSpecifier {
        name,
        patterns,
        order: Order::First,
        required,
    })
}

/// The methods that the keyword of this text qualifies, of which there may be none.
fn keyword_group(alloc: Global, text: &'static &'static str) -> Result<GroupSpecifier, AllocError>
    ensures { IfOk result (λ g. g ≡ keyword_group text.now.now) }
{
    let keyword = Value::Sym(Name::new(alloc, text, true)?);
    let pattern = Pattern::qualified_by(alloc, keyword)?;
    group(alloc, Name::fixed(text), pattern, false)
}

/// The methods that are neither before, after nor around others, of which there has to be one.
fn primary_group(alloc: Global, pattern: Pattern) -> Result<GroupSpecifier, AllocError>
    ensures { IfOk result (λ g. g ≡ primary_group pattern) }
{
    group(alloc, Name::fixed(&"PRIMARY"), pattern, true)
}

/// Those of the standard combination: primary methods have no qualifier.
pub(crate) fn standard_groups(alloc: Global) -> Result<Sequence<GroupSpecifier>, AllocError>
    ensures { IfOk result (λ gs. gs ≡ standard_groups) }
{
    let mut groups = Sequence::new(alloc);
    groups.push(keyword_group(alloc, &"AROUND")?)?;
    groups.push(keyword_group(alloc, &"BEFORE")?)?;
    groups.push(primary_group(alloc, Pattern::unqualified(alloc))?)?;
    groups.push(keyword_group(alloc, &"AFTER")?)?;
    Ok(groups)
}

/// Those of a short form: its name qualifies primary methods.
pub(crate) fn short_groups(
    alloc: Global,
    name: &Name,
) -> Result<Sequence<GroupSpecifier>, AllocError>
    ensures { IfOk result (λ gs. gs ≡ short_groups name.now) }
{
    let pattern = Pattern::qualified_by(alloc, value_named(name)?)?;
    let mut groups = Sequence::new(alloc);
    groups.push(keyword_group(alloc, &"AROUND")?)?;
    groups.push(primary_group(alloc, pattern)?)?;
    Ok(groups)
}
