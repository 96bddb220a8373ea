//! The conditions that forms end with.
ghost use Rattle.std.specs.Prelude.{◌≡◌, ◌∷◌, [], IfOk, map};
ghost use Rattle.lisp_data.specs.ValueView.{value_of};
ghost use Rattle.clos_forms.specs.Quotation.{name_value};
ghost use Rattle.clos_world.specs.FunctionName.{called_value};
ghost use Rattle.clos_world.specs.Condition.{number_of, condition_name};
ghost use Rattle.clos_world.specs.declared.condition.Condition.{Condition};
ghost use Rattle.clos_world.specs.declared.condition.Stop.TheVariants.{Storage};

use crate::function_name::called_value;
use crate::values::Values;
use clos_forms::{FunctionName, value_named};
use lisp_data::{Name, Value};
use std::alloc::{AllocError, AllocFailed, Global};

/// The kinds of conditions. Each has a number.
#[derive(Clone, Copy, Debug, PartialEq, Eq)]
pub enum ConditionKind {
    ProgramError,
    UnboundVariable,
    UndefinedFunction,
    TypeError,
    IntegerRange,
    DivisionByZero,
    UndefinedClass,
    InvalidSuperclass,
    InconsistentPrecedence,
    SuperclassCycle,
    IncompleteClass,
    LambdaListCongruence,
    UndefinedCombination,
    NoApplicableMethod,
    RequiredGroupEmpty,
    InvalidMethod,
    AmbiguousMethods,
    BadExpansion,
    ExpansionLimit,
    NoNextMethod,
    NextArguments,
    UnboundSlot,
    MissingSlot,
    InvalidInitarg,
    UnknownNative,
    UnknownDependent,
    NoSuchMethod,
    Unsupported,
    StepLimit,
    DepthLimit,
    TableLimit,
}

impl ConditionKind {
    /// Its number, from 1 to 31.
    pub fn number(self) -> u64
        ensures { result ≡ number_of self }
    {
        match self {
            ConditionKind::ProgramError => 1,
            ConditionKind::UnboundVariable => 2,
            ConditionKind::UndefinedFunction => 3,
            ConditionKind::TypeError => 4,
            ConditionKind::IntegerRange => 5,
            ConditionKind::DivisionByZero => 6,
            ConditionKind::UndefinedClass => 7,
            ConditionKind::InvalidSuperclass => 8,
            ConditionKind::InconsistentPrecedence => 9,
            ConditionKind::SuperclassCycle => 10,
            ConditionKind::IncompleteClass => 11,
            ConditionKind::LambdaListCongruence => 12,
            ConditionKind::UndefinedCombination => 13,
            ConditionKind::NoApplicableMethod => 14,
            ConditionKind::RequiredGroupEmpty => 15,
            ConditionKind::InvalidMethod => 16,
            ConditionKind::AmbiguousMethods => 17,
            ConditionKind::BadExpansion => 18,
            ConditionKind::ExpansionLimit => 19,
            ConditionKind::NoNextMethod => 20,
            ConditionKind::NextArguments => 21,
            ConditionKind::UnboundSlot => 22,
            ConditionKind::MissingSlot => 23,
            ConditionKind::InvalidInitarg => 24,
            ConditionKind::UnknownNative => 25,
            ConditionKind::UnknownDependent => 26,
            ConditionKind::NoSuchMethod => 27,
            ConditionKind::Unsupported => 28,
            ConditionKind::StepLimit => 29,
            ConditionKind::DepthLimit => 30,
            ConditionKind::TableLimit => 31,
        }
    }

    /// Its name, as it is printed.
    pub fn name(self) -> &'static str
        ensures { result.now ≡ condition_name self }
    {
        match self {
            ConditionKind::ProgramError => "PROGRAM-ERROR",
            ConditionKind::UnboundVariable => "UNBOUND-VARIABLE",
            ConditionKind::UndefinedFunction => "UNDEFINED-FUNCTION",
            ConditionKind::TypeError => "TYPE-ERROR",
            ConditionKind::IntegerRange => "INTEGER-RANGE",
            ConditionKind::DivisionByZero => "DIVISION-BY-ZERO",
            ConditionKind::UndefinedClass => "UNDEFINED-CLASS",
            ConditionKind::InvalidSuperclass => "INVALID-SUPERCLASS",
            ConditionKind::InconsistentPrecedence => "INCONSISTENT-PRECEDENCE",
            ConditionKind::SuperclassCycle => "SUPERCLASS-CYCLE",
            ConditionKind::IncompleteClass => "INCOMPLETE-CLASS",
            ConditionKind::LambdaListCongruence => "LAMBDA-LIST-CONGRUENCE",
            ConditionKind::UndefinedCombination => "UNDEFINED-COMBINATION",
            ConditionKind::NoApplicableMethod => "NO-APPLICABLE-METHOD",
            ConditionKind::RequiredGroupEmpty => "REQUIRED-GROUP-EMPTY",
            ConditionKind::InvalidMethod => "INVALID-METHOD",
            ConditionKind::AmbiguousMethods => "AMBIGUOUS-METHODS",
            ConditionKind::BadExpansion => "BAD-EXPANSION",
            ConditionKind::ExpansionLimit => "EXPANSION-LIMIT",
            ConditionKind::NoNextMethod => "NO-NEXT-METHOD",
            ConditionKind::NextArguments => "NEXT-ARGUMENTS",
            ConditionKind::UnboundSlot => "UNBOUND-SLOT",
            ConditionKind::MissingSlot => "MISSING-SLOT",
            ConditionKind::InvalidInitarg => "INVALID-INITARG",
            ConditionKind::UnknownNative => "UNKNOWN-NATIVE",
            ConditionKind::UnknownDependent => "UNKNOWN-DEPENDENT",
            ConditionKind::NoSuchMethod => "NO-SUCH-METHOD",
            ConditionKind::Unsupported => "UNSUPPORTED",
            ConditionKind::StepLimit => "STEP-LIMIT",
            ConditionKind::DepthLimit => "DEPTH-LIMIT",
            ConditionKind::TableLimit => "TABLE-LIMIT",
        }
    }
}

/// A condition: its kind, and what it is about.
#[derive(Drop)]
pub struct Condition {
    pub kind: ConditionKind,
    pub items: Values,
}

/// Why an evaluation stopped.
#[derive(Drop)]
pub enum Stop {
    Refused(Condition),
    /// Memory was refused.
    Storage,
}

impl From<AllocError> for Stop {
    ghost from_gives = { λ _ e. e ≡ Storage };

    fn from(_refusal: AllocError) -> Stop {
        Stop::Storage
    }
}

impl<T: Drop> From<AllocFailed<T>> for Stop {
    ghost from_gives = { λ _ e. e ≡ Storage };

    fn from(_refusal: AllocFailed<T>) -> Stop {
        Stop::Storage
    }
}

/// The condition of this kind that is about nothing in particular.
pub fn plain(alloc: Global, kind: ConditionKind) -> Condition
    ensures { result ≡ record { kind = kind; items = [] } }
{
    Condition {
        kind,
        items: Values::new(alloc),
    }
}

/// The condition of this kind that is about this value.
pub fn about(alloc: Global, kind: ConditionKind, value: Value) -> Result<Condition, AllocError>
    ensures { IfOk result (λ c. c ≡ record { kind = kind; items = value_of value ∷ [] }) }
{
    let mut items = Values::new(alloc);
    items.push(value)?;
    Ok(Condition { kind, items })
}

/// The condition of this kind that is about this name.
pub fn about_name(alloc: Global, kind: ConditionKind, name: &Name) -> Result<Condition, AllocError>
    ensures { IfOk result (λ c. c ≡ record { kind = kind; items = name_value name.now ∷ [] }) }
{
    about(alloc, kind, value_named(name)?)
}

/// The condition of this kind that is about these two names.
pub fn about_names(
    alloc: Global,
    kind: ConditionKind,
    first: &Name,
    second: &Name,
) -> Result<Condition, AllocError>
    ensures { IfOk result (λ c. c ≡ record { kind = kind; items = name_value first.now ∷ name_value second.now ∷ [] }) }
{
    let first = value_named(first)?;
    about_both(alloc, kind, first, value_named(second)?)
}

/// The condition of this kind that is about these two values.
pub fn about_both(
    alloc: Global,
    kind: ConditionKind,
    first: Value,
    second: Value,
) -> Result<Condition, AllocError>
    ensures { IfOk result (λ c. c ≡ record { kind = kind; items = value_of first ∷ value_of second ∷ [] }) }
{
    let mut items = Values::new(alloc);
    items.push(first)?;
    items.push(second)?;
    Ok(Condition { kind, items })
}

/// The condition of this kind that is about a function of this name and these arguments.
pub fn about_call(
    alloc: Global,
    kind: ConditionKind,
    name: &FunctionName,
    arguments: &[Value],
) -> Result<Condition, AllocError>
    ensures { IfOk result (λ c. c ≡ record { kind = kind; items = called_value name.now ∷ map value_of arguments.now }) }
{
    let mut items = Values::new(alloc);
    items.push(called_value(alloc, name)?)?;
    for argument in arguments {
        items.push(argument.copy()?)?;
    }
    Ok(Condition { kind, items })
}
