//! Qualifier patterns (HyperSpec 7.7 `define-method-combination`).
ghost use Rattle.std.specs.Prelude.{◌≡◌, IfOk, map};
ghost use Rattle.lisp_data.specs.DatumView.{datum_of};
ghost use Rattle.lisp_data.specs.ValueView.{value_of};
ghost use Rattle.clos_forms.specs.Fault.{Gives};
ghost use Rattle.clos_combination.specs.Pattern.{are_equal, are_wanted, dotted_pattern, every, is_wanted, listed, matches, named_pattern, pattern_in, qualified_by, unqualified, wanted_by, wanted_in};
ghost use Rattle.clos_combination.specs.PatternView.{wanted_of};

use clos_forms::{Sequence, SyntaxFault, is_the, quoted_value};
use clos_lambda::is_symbol_called;
use lisp_data::{Data, Datum, Dot, Name, Value};
use std::alloc::{AllocError, Global};
use std::marker::Model;

/// What an element of a pattern asks of the qualifier at its place.
#[derive(Drop)]
enum Wanted {
    Anything,
    /// To be equal to this.
    Equal(Value),
    /// A datum that is no value: no qualifier is equal to it.
    Nothing,
}

#[derive(Drop)]
enum PatternShape {
    Every,
    /// What is asked of each qualifier, in order, and whether more may follow.
    Listed(Sequence<Wanted>, bool),
}

/// What a group asks of the qualifiers of its methods. Contracts see it as the definitions do.
#[derive(Drop)]
pub struct Pattern {
    shape: PatternShape,
}

impl Model for Pattern {
    ghost use Rattle.clos_combination.specs.Pattern.{Pattern};
    ghost use Rattle.clos_combination.specs.inner.PatternCode.{pattern_code};

    ghost Value = { Pattern };

    ghost coded = { pattern_code };

    ghost use Rattle.clos_combination.specs.PatternView.{pattern_of};

    ghost view = { λ a. pattern_of a.shape };
}

impl Pattern {
    /// Any qualifiers.
    fn every() -> Pattern
        ensures { result ≡ every }
    {
        Pattern {
            shape: PatternShape::Every,
        }
    }

    /// A qualifier for each of these, in order, and perhaps more.
    fn listed(wanted: Sequence<Wanted>, more: bool) -> Pattern
        ensures { result ≡ listed (map wanted_of wanted) more }
    {
        Pattern {
            shape: PatternShape::Listed(wanted, more),
        }
    }

    /// No qualifiers.
    pub fn unqualified(alloc: Global) -> Pattern
        ensures { result ≡ unqualified }
    {
        Pattern::listed(Sequence::new(alloc), false)
    }

    /// This qualifier alone.
    pub fn qualified_by(alloc: Global, qualifier: Value) -> Result<Pattern, AllocError>
        ensures { IfOk result (λ p. p ≡ qualified_by (value_of qualifier)) }
    {
        let mut wanted = Sequence::new(alloc);
        wanted.push(Wanted::Equal(qualifier))?;
        Ok(Pattern::listed(wanted, false))
    }

    /// Whether a method with these qualifiers is meant.
    pub fn matches(&self, qualifiers: &[Value]) -> bool
        ensures { result ≡ matches self.now (map value_of qualifiers.now) }
    {
        match &self.shape {
            PatternShape::Every => true,
            PatternShape::Listed(wanted, more) => {
                are_wanted(wanted.as_slice(), *more, qualifiers)
            }
        }
    }
}

fn is_wanted(wanted: &Wanted, qualifier: &Value) -> bool
    ensures { result ≡ is_wanted (wanted_of wanted.now) (value_of qualifier.now) }
{
    match wanted {
        Wanted::Anything => true,
        Wanted::Equal(value) => are_equal(value, qualifier),
        Wanted::Nothing => false,
    }
}

#[tactic(auto, using(crate::proofs::Equal::same_are_equal))]
fn are_equal(value: &Value, qualifier: &Value) -> bool
    ensures { result ≡ are_equal (value_of value.now) (value_of qualifier.now) }
{
    value == qualifier
}

/// Whether these qualifiers are what is asked, one by one. Perhaps more may follow.
fn are_wanted(wanted: &[Wanted], more: bool, qualifiers: &[Value]) -> bool
    ensures { result ≡ are_wanted (map wanted_of wanted.now) more (map value_of qualifiers.now) }
{
    let mut rest = qualifiers;
    for element in wanted {
        match rest.split_first() {
            None => return false,
            Some((qualifier, others)) => {
                if !is_wanted(element, qualifier) {
                    return false;
                }
                rest = others;
            }
        }
    }
    more || rest.is_empty()
}

/// What an element of a list asks.
fn parse_wanted(alloc: Global, datum: &Datum) -> Result<Wanted, AllocError>
    ensures { IfOk result (λ w. wanted_of w ≡ wanted_in (datum_of datum.now)) }
{
    if is_symbol_called("*", datum) {
        return Ok(Wanted::Anything);
    }
    match quoted_value(alloc, datum)? {
        None => Ok(Wanted::Nothing),
        Some(value) => Ok(Wanted::Equal(value)),
    }
}

/// What the elements of a list ask.
fn parse_elements(alloc: Global, elements: &Data) -> Result<Sequence<Wanted>, AllocError>
    ensures { IfOk result (λ ws. map wanted_of ws ≡ wanted_by elements.now) }
{
    let mut wanted = Sequence::new(alloc);
    let mut rest = elements;
    while let Some((first, others)) = rest.split_first() {
        wanted.push(parse_wanted(alloc, first)?)?;
        rest = others;
    }
    Ok(wanted)
}

/// The symbol `*`, or the empty list.
fn parse_named_pattern(alloc: Global, name: &Name) -> Result<Pattern, SyntaxFault>
    ensures { Gives (λ p. p) result (named_pattern name.now) }
{
    if is_the(name, "*") {
        return Ok(Pattern::every());
    }
    if is_the(name, "NIL") {
        return Ok(Pattern::listed(Sequence::new(alloc), false));
    }
    Err(SyntaxFault::Program)
}

/// A list whose tail is the symbol `*`.
fn parse_dotted_pattern(alloc: Global, dot: &Dot) -> Result<Pattern, SyntaxFault>
    ensures { Gives (λ p. p) result (dotted_pattern dot.now.front dot.now.last) }
{
    if !is_symbol_called("*", dot.last()) {
        return Err(SyntaxFault::Program);
    }
    let wanted = parse_elements(alloc, dot.front())?;
    Ok(Pattern::listed(wanted, true))
}

/// The pattern that a datum is.
pub(crate) fn parse_pattern(alloc: Global, datum: &Datum) -> Result<Pattern, SyntaxFault>
    ensures { Gives (λ p. p) result (pattern_in (datum_of datum.now)) }
{
    match datum {
        Datum::Sym(name) => parse_named_pattern(alloc, name),
        Datum::List(elements) => {
            let wanted = parse_elements(alloc, elements)?;
            Ok(Pattern::listed(wanted, false))
        }
        Datum::Dotted(dot) => parse_dotted_pattern(alloc, dot),
        Datum::Int(_) => Err(SyntaxFault::Program),
        Datum::Str(_) => Err(SyntaxFault::Program),
        Datum::Method(_) => Err(SyntaxFault::Program),
    }
}
