//! Templates are expanded: each by its operator, its parts from left to right.
ghost use Rattle.std.specs.Prelude.{◌≡◌, [], ℕ, OnOk, map};
ghost use Rattle.lisp_data.specs.DatumView.{datum_of};
ghost use Rattle.clos_forms.specs.BoundView.{bound};
ghost use Rattle.clos_template.specs.Expansion.{Comes};
ghost use Rattle.clos_template.specs.FunctionView.{Collects};
ghost use Rattle.clos_template.specs.Meaning.{aside, clauses, gather, in_order, known, mapcar_of, meaning, meanings, part, sequence, until};
ghost use Rattle.clos_template.specs.Scope.{value_of};

use crate::datum::{elements, end, is_nil, nil_symbol, prepend, push, push_elements, truth};
use crate::fault::ExpansionFault;
use crate::function::answer;
use crate::operator::Operator;
use crate::scope::Scope;
use crate::template::{Template, Templates};
use clos_forms::Binding;
use lisp_data::{Data, Datum, Name};
use std::alloc::Global;

/// The conses that one expansion may make.
pub const MAX_CONSES: u64 = 65_536;

/// The datum that a template stands for, where names stand for this. How many conses may still be made falls by those that
/// are.
#[cycle(expand)]
pub fn expand(
    alloc: Global,
    template: &Template,
    scope: &mut Scope,
    left: &mut u64,
) -> Result<Datum, ExpansionFault>
    ensures comes { Comes result left.new (meaning template.now scope.old left.old) }
    ensures same { OnOk result (scope.new ≡ scope.old) }
{
    let parts = template.parts();
    match template.operator() {
        Operator::Constant(datum) => Ok(datum.copy()?),
        Operator::Variable(name) => value(scope, name),
        Operator::If => {
            let test = part(alloc, parts, 0, scope, left)?;
            let place = if is_nil(&test) { 2 } else { 1 };
            part(alloc, parts, place, scope, left)
        }
        Operator::Cond(bodies) => clauses(alloc, bodies.as_slice(), parts, scope, left),
        Operator::And => until(alloc, true, parts, truth(true), scope, left),
        Operator::Or => until(alloc, false, parts, nil_symbol(), scope, left),
        Operator::Let(bindings) => aside(alloc, bindings.as_slice(), parts, scope, left),
        Operator::LetInOrder(bindings) => in_order(alloc, bindings.as_slice(), parts, scope, left),
        Operator::MapCar(name) => map_list(alloc, name, parts, scope, left),
        Operator::Call(function) => {
            let arguments = gather(alloc, &[], parts, scope, left)?;
            answer(alloc, *function, arguments, left)
        }
        Operator::Written(spliced, last) => {
            let data = gather(alloc, spliced.as_slice(), parts, scope, left)?;
            end(alloc, data, last, left)
        }
    }
}

/// What a name stands for.
fn value(scope: &Scope, name: &Name) -> Result<Datum, ExpansionFault>
    ensures { (n : ℕ) → Comes result n (known (value_of scope.now name.now) n) }
{
    match scope.value(name) {
        None => Err(ExpansionFault::Bad),
        Some(datum) => Ok(datum.copy()?),
    }
}

/// What the part at a place gives, or NIL where there is none.
#[cycle(expand)]
fn part(
    alloc: Global,
    parts: &Templates,
    place: u64,
    scope: &mut Scope,
    left: &mut u64,
) -> Result<Datum, ExpansionFault>
    ensures comes { Comes result left.new (part (meanings parts.now) place scope.old left.old) }
    ensures same { OnOk result (scope.new ≡ scope.old) }
{
    let mut rest = parts;
    let mut place = place;
    while let Some((first, others)) = rest.split_first() {
        if place == 0 {
            return expand(alloc, first, scope, left);
        }
        place -= 1;
        rest = others;
    }
    Ok(nil_symbol())
}

/// What the last of the parts gives, or this datum where there are none.
#[cycle(expand)]
fn sequence(
    alloc: Global,
    parts: &Templates,
    datum: Datum,
    scope: &mut Scope,
    left: &mut u64,
) -> Result<Datum, ExpansionFault>
    ensures comes { Comes result left.new (sequence (meanings parts.now) (datum_of datum) scope.old left.old) }
    ensures same { OnOk result (scope.new ≡ scope.old) }
{
    let mut value = datum;
    let mut rest = parts;
    while let Some((first, others)) = rest.split_first() {
        value = expand(alloc, first, scope, left)?;
        rest = others;
    }
    Ok(value)
}

/// What the first part gives that is NIL where the flag is true, and that is not NIL where it is false; else the last, or
/// this datum where there are none.
#[cycle(expand)]
fn until(
    alloc: Global,
    stop: bool,
    parts: &Templates,
    datum: Datum,
    scope: &mut Scope,
    left: &mut u64,
) -> Result<Datum, ExpansionFault>
    ensures comes { Comes result left.new (until stop (meanings parts.now) (datum_of datum) scope.old left.old) }
    ensures same { OnOk result (scope.new ≡ scope.old) }
{
    let mut value = datum;
    let mut rest = parts;
    while let Some((first, others)) = rest.split_first() {
        value = expand(alloc, first, scope, left)?;
        if is_nil(&value) == stop {
            return Ok(value);
        }
        rest = others;
    }
    Ok(value)
}

/// What the first clause gives whose test is not NIL: its body, or the test where it has none.
#[cycle(expand)]
fn clauses(
    alloc: Global,
    bodies: &[bool],
    parts: &Templates,
    scope: &mut Scope,
    left: &mut u64,
) -> Result<Datum, ExpansionFault>
    ensures comes { Comes result left.new (clauses bodies.now (meanings parts.now) scope.old left.old) }
    ensures same { OnOk result (scope.new ≡ scope.old) }
{
    let mut rest = parts;
    for has_body in bodies {
        let test = match part(alloc, rest, 0, scope, left) {
            Err(fault) => return Err(fault),
            Ok(test) => test,
        };
        if !is_nil(&test) {
            if *has_body {
                return part(alloc, rest, 1, scope, left);
            }
            return Ok(test);
        }
        rest = rest.after_first();
        if *has_body {
            rest = rest.after_first();
        }
    }
    Ok(nil_symbol())
}

/// What a body gives with these variables, whose values are all given before one is bound.
#[cycle(expand)]
fn aside(
    alloc: Global,
    bindings: &[Binding],
    parts: &Templates,
    scope: &mut Scope,
    left: &mut u64,
) -> Result<Datum, ExpansionFault>
    ensures comes { Comes result left.new (aside (map bound bindings.now) (meanings parts.now) [] scope.old left.old) }
    ensures same { OnOk result (scope.new ≡ scope.old) }
{
    let outer = scope.len();
    let mut new = Scope::new(alloc);
    let mut rest = parts;
    for binding in bindings {
        let mut value = nil_symbol();
        if binding.has_init {
            value = part(alloc, rest, 0, scope, left)?;
            rest = rest.after_first();
        }
        new.bind(binding.name.copy()?, value)?;
    }
    scope.append(new)?;
    let value = sequence(alloc, rest, nil_symbol(), scope, left)?;
    scope.leave(outer);
    Ok(value)
}

/// What a body gives with these variables, each of which is bound before the next value is given.
#[cycle(expand)]
fn in_order(
    alloc: Global,
    bindings: &[Binding],
    parts: &Templates,
    scope: &mut Scope,
    left: &mut u64,
) -> Result<Datum, ExpansionFault>
    ensures comes { Comes result left.new (in_order (map bound bindings.now) (meanings parts.now) scope.old left.old) }
    ensures same { OnOk result (scope.new ≡ scope.old) }
{
    let outer = scope.len();
    let mut rest = parts;
    for binding in bindings {
        let mut value = nil_symbol();
        if binding.has_init {
            value = part(alloc, rest, 0, scope, left)?;
            rest = rest.after_first();
        }
        scope.bind(binding.name.copy()?, value)?;
    }
    let value = sequence(alloc, rest, nil_symbol(), scope, left)?;
    scope.leave(outer);
    Ok(value)
}

/// The list of what the second part gives for each element of the list that the first one gives, with this variable for it.
#[cycle(expand)]
fn map_list(
    alloc: Global,
    name: &Name,
    parts: &Templates,
    scope: &mut Scope,
    left: &mut u64,
) -> Result<Datum, ExpansionFault>
    ensures comes { Comes result left.new (mapcar_of name.now (meanings parts.now) scope.old left.old) }
    ensures same { OnOk result (scope.new ≡ scope.old) }
{
    let list = part(alloc, parts, 0, scope, left)?;
    let elements = elements(&list)?;
    let outer = scope.len();
    let mut data = Vec::new(alloc);
    let mut rest = &elements;
    while let Some((first, others)) = rest.split_first() {
        scope.bind(name.copy()?, first.copy()?)?;
        let value = part(alloc, parts, 1, scope, left)?;
        scope.leave(outer);
        push(&mut data, value)?;
        rest = others;
    }
    prepend(alloc, data, Data::new(), left)
}

/// What all parts give, and the elements of those that are spliced.
#[cycle(expand)]
fn gather(
    alloc: Global,
    spliced: &[bool],
    parts: &Templates,
    scope: &mut Scope,
    left: &mut u64,
) -> Result<Vec<Datum>, ExpansionFault>
    ensures collects { Collects result left.new (λ go. gather spliced.now (meanings parts.now) scope.old [] go left.old) }
    ensures same { OnOk result (scope.new ≡ scope.old) }
{
    let mut data = Vec::new(alloc);
    let mut flags = spliced;
    let mut rest = parts;
    while let Some((first, others)) = rest.split_first() {
        let value = expand(alloc, first, scope, left)?;
        let is_spliced = match flags.split_first() {
            None => false,
            Some((flag, more)) => {
                flags = more;
                *flag
            }
        };
        if is_spliced {
            let elements = elements(&value)?;
            push_elements(&mut data, &elements)?;
        } else {
            push(&mut data, value)?;
        }
        rest = others;
    }
    Ok(data)
}
