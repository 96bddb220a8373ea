//! The explanation of a condition: its name, a sentence, and what there is in the place of what was asked for.
use crate::pointed::pointed;
use crate::{classes, combinations, congruence, functions, limits, slots};
use clos_look::{Condition, ConditionKind, Page, World};
use clos_program_error::{explain_malformed, taken_name, wrong_call};
use clos_top::parse_top;
use lisp_data::{Datum, Name, Value};
use std::alloc::{AllocError, Global};

/// The dependents that the session was handed.
fn unknown_dependent(page: &mut Page, world: &World, name: &Value) {
    const LABEL: &str = "  dependents          ";
    page.text("the session was handed no dependent ");
    page.value(world, name);
    let names: &[Name] = world.hearing.names.as_slice();
    for (place, other) in names.iter().enumerate() {
        page.entry(LABEL, place);
        page.name(world, other);
    }
    page.none(LABEL, names.len());
}

/// A sentence about one value.
fn about(page: &mut Page, world: &World, before: &str, value: &Value, after: &str) {
    page.text(before);
    page.value(world, value);
    page.text(after);
}

/// Tells of which class a value is that is of a wrong type.
fn wrong_type(page: &mut Page, world: &World, value: &Value) {
    about(page, world, "", value, ", of class ");
    page.class(world, world.class_of_value(value));
    page.text(", is of a wrong type here");
}

/// Tells whether the form by itself is refused, or what its parts meet where they are evaluated. Answers where that stands in it.
fn program_error(
    alloc: Global,
    page: &mut Page,
    world: &World,
    form: &Datum,
) -> Result<Vec<usize>, AllocError> {
    if parse_top(alloc, form).is_err() {
        return explain_malformed(alloc, page, world, form);
    }
    if let Some(path) = taken_name(alloc, page, world, form)? {
        return Ok(path);
    }
    if let Some(path) = wrong_call(alloc, page, world, form)? {
        return Ok(path);
    }
    page.text(
        "a name may not be defined so, or a call has arguments that its function does not take",
    );
    Ok(Vec::new(alloc))
}

/// What a condition of this kind is for, which is about these: the first, the second, and all but the first.
fn explain(
    alloc: Global,
    page: &mut Page,
    world: &World,
    kind: ConditionKind,
    form: &Datum,
    first: &Value,
    second: &Value,
    rest: &[Value],
) {
    match kind {
        ConditionKind::ProgramError => {}
        ConditionKind::UnboundVariable => functions::unbound_variable(alloc, page, world, first),
        ConditionKind::UndefinedFunction => functions::undefined_function(
            alloc, page, world, first,
        ),
        ConditionKind::TypeError => wrong_type(page, world, first),
        ConditionKind::IntegerRange => page.text(
            "integers are from -9223372036854775808 to 9223372036854775807",
        ),
        ConditionKind::DivisionByZero => page.text("the divisor is 0"),
        ConditionKind::UndefinedClass => classes::undefined(alloc, page, world, first),
        ConditionKind::InvalidSuperclass => classes::invalid_superclass(page, world, first, second),
        ConditionKind::InconsistentPrecedence => classes::inconsistent_precedence(
            alloc, page, world, form, first,
        ),
        ConditionKind::SuperclassCycle => classes::superclass_cycle(
            alloc, page, world, form, first,
        ),
        ConditionKind::IncompleteClass => classes::incomplete_class(alloc, page, world, first),
        ConditionKind::LambdaListCongruence => congruence::not_congruent(
            alloc, page, world, form, first,
        ),
        ConditionKind::UndefinedCombination => combinations::undefined(alloc, page, world, first),
        ConditionKind::NoApplicableMethod => functions::no_applicable_method(
            page, world, first, rest,
        ),
        ConditionKind::RequiredGroupEmpty => combinations::required_group_empty(
            page, world, first, second,
        ),
        ConditionKind::InvalidMethod => combinations::invalid_method(page, world, first),
        ConditionKind::AmbiguousMethods => combinations::ambiguous_methods(
            page, world, first, second,
        ),
        ConditionKind::BadExpansion => combinations::bad_expansion(page, world, first),
        ConditionKind::ExpansionLimit => combinations::expansion_limit(page, world, first),
        ConditionKind::NoNextMethod => functions::no_next_method(page, world, first),
        ConditionKind::NextArguments => functions::next_arguments(page, world, first),
        ConditionKind::UnboundSlot => slots::unbound(page, world, first, second),
        ConditionKind::MissingSlot => slots::missing(alloc, page, world, first, second),
        ConditionKind::InvalidInitarg => slots::invalid_initarg(alloc, page, world, first, second),
        ConditionKind::UnknownNative => about(
            page,
            world,
            "the host has stored no function ",
            first,
            "",
        ),
        ConditionKind::UnknownDependent => unknown_dependent(page, world, first),
        ConditionKind::NoSuchMethod => functions::no_such_method(page, world, first),
        ConditionKind::Unsupported => page.text(
            "this is left out of the language, as docs/LANGUAGE.md tells under UNSUPPORTED",
        ),
        ConditionKind::StepLimit => limits::steps(page, world),
        ConditionKind::DepthLimit => limits::depth(page, world),
        ConditionKind::TableLimit => limits::tables(page, world),
    }
}

/// An explanation of a condition.
#[derive(Drop)]
pub struct Explained {
    pub text: Vec<u8>,
    /// Where the part of the form stands that it is about: the place of the element of the form that this stands in, the place of an
    /// element of that, and so on, or no places if it is the form.
    pub path: Vec<usize>,
}

/// The explanation of a condition that a form ended with, by the tables as they stand then: the name of the condition, why it came,
/// and where they tell it what there is instead, as the nearest names, the methods of a function or the slots of an instance.
pub fn explanation(
    alloc: Global,
    world: &World,
    form: &Datum,
    condition: &Condition,
) -> Result<Explained, AllocError> {
    let none = Value::Int(0);
    let items = condition.items.as_slice();
    let first = items.first().unwrap_or(&none);
    let rest = items.get(1..).unwrap_or(&[]);
    let second = rest.first().unwrap_or(&none);
    let mut page = Page::new(alloc);
    page.text(condition.kind.name());
    page.text(": ");
    let path = if let ConditionKind::ProgramError = condition.kind {
        program_error(alloc, &mut page, world, form)?
    } else {
        explain(
            alloc,
            &mut page,
            world,
            condition.kind,
            form,
            first,
            second,
            rest,
        );
        pointed(alloc, condition.kind, form, first)?
    };
    Ok(Explained {
        text: page.end()?,
        path,
    })
}

/// What is told of a name that no class has.
pub fn no_class(alloc: Global, world: &World, name: &Name) -> Result<Vec<u8>, AllocError> {
    let mut page = Page::new(alloc);
    page.text("; ");
    classes::undefined(alloc, &mut page, world, &Value::Sym(name.copy()?));
    page.end()
}
