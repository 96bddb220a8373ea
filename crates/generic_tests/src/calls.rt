//! Each call succeeds where there is memory and room.
ghost use Rattle.std.specs.Prelude.{◌≡◌, IfOk};
ghost use Rattle.clos_generic.specs.Sound.{IsOrderly, IsSpecialized};

use clos_class::Classes;
use clos_comb::{CombinationFault, Combinations, Outcome, ShortForm, UseFault};
use clos_forms::{FunctionName, Operator};
use clos_generic::{GenericFault, Generics, Options};
use clos_hierarchy::numbers;
use clos_method::{
    Arguments, Method, MethodBody, Origin, Qualifiers, Shape, Specializer, Specializers,
    SystemFunction,
};
use lisp_data::{ClassId, Data, GenericId, MethodId, Name, Value};
use std::alloc::{AllocError, Global};
use std::process::Abort;
use std::test::Fail;

/// Of one required parameter.
fn shape() -> Shape
    ensures { result.required ≡ 1 }
{
    Shape {
        required: 1,
        optional: 0,
        rest: false,
        keys: None,
    }
}

#[tactic(auto, using(clos_generic::proofs::Soundness::standard_orderly))]
fn options(alloc: Global) -> Result<Options, AllocError>
    ensures { IfOk result IsOrderly }
{
    Options::standard(alloc, shape())
}

fn method(
    alloc: Global,
    generic: GenericId,
    origin: Origin,
    specializer: Specializer,
) -> Result<Method, AllocError>
    ensures generic { IfOk result (λ m. m.generic ≡ generic) }
    ensures specialized { IfOk result IsSpecialized }
{
    let mut specializers = Specializers::new(alloc);
    specializers.push(specializer)?;
    Ok(Method {
        generic,
        qualifiers: Qualifiers::new(alloc),
        specializers,
        shape: shape(),
        origin,
        body: MethodBody::Reader(Name::fixed(&"X")),
    })
}

/// A function G with a method on INTEGER, as an accessor has.
fn begin(alloc: Global) -> Result<Generics, GenericFault> {
    let mut generics = Generics::new(alloc, 1, 2)?;
    let name = FunctionName::Symbol(Name::fixed(&"G"));
    let generic = generics.ensure(alloc, name, options(alloc)?)?;
    if generic.0 < generics.function_count() {
        let origin = Origin::Accessor(numbers::INTEGER);
        let method = method(alloc, generic, origin, Specializer::Class(numbers::INTEGER))?;
        let _replaced = generics.add_method(generic, method)?;
    }
    Ok(generics)
}

/// One more method, on the object 3.
fn add_eql(alloc: Global, generics: &mut Generics, generic: GenericId) -> Result<(), GenericFault> {
    if generic.0 < generics.function_count() {
        let three = Specializer::Eql(Value::Int(3));
        let method = method(alloc, generic, Origin::Defmethod, three)?;
        let _replaced = generics.add_method(generic, method)?;
    }
    Ok(())
}

/// The first of the methods that apply to this number, and how many they are.
fn applicable(
    alloc: Global,
    generics: &Generics,
    generic: GenericId,
    number: i64,
) -> Result<(u64, usize), AllocError> {
    let classes = Classes::new(alloc, 1)?;
    let class_ids: [ClassId; 1] = [numbers::INTEGER];
    let values: [Value; 1] = [Value::Int(number)];
    let arguments = Arguments::new(&classes, &class_ids, &values);
    let order = generics.ordered(alloc, generic, &arguments)?;
    let first = match order.as_slice().first() {
        None => 0,
        Some(first) => first.0,
    };
    Ok((first, order.len()))
}

/// The first of the accessors of INTEGER that are there, and how many they are.
fn accessors(alloc: Global, generics: &Generics) -> Result<(u64, usize), AllocError> {
    let there = generics.accessors_there(alloc, numbers::INTEGER)?;
    let first = match there.first() {
        None => 0,
        Some(first) => first.0,
    };
    Ok((first, there.len()))
}

/// What the operator of the form is into which these methods are combined, and what the meter stands at after that.
fn combined(
    alloc: Global,
    generics: &Generics,
    generic: GenericId,
    methods: &[MethodId],
) -> Result<(&'static str, u64), AllocError> {
    let (combinations, mut meter) = Combinations::new(alloc, 0)?;
    let outcome = combinations.effective(alloc, generics, &mut meter, generic, methods)?;
    let told = match &outcome {
        Outcome::Effective(form) => match form.operator() {
            Operator::Prog1 => "multiple-value-prog1",
            Operator::CallMethod(_, _) => "call-method",
            _ => "another",
        },
        Outcome::InvalidMethod(_) => "an invalid method",
        Outcome::RequiredGroupEmpty(_) => "an empty group",
        Outcome::AmbiguousMethods(_, _) => "ambiguous methods",
        Outcome::BadExpansion => "a bad expansion",
        Outcome::ExpansionLimit => "too large an expansion",
    };
    Ok((told, meter.count()))
}

/// Defines a short form whose operator is that of its name.
fn define(
    alloc: Global,
    combinations: &mut Combinations,
    name: Name,
) -> Result<(), CombinationFault> {
    let form = ShortForm {
        operator: name.copy()?,
        name,
        identity: false,
    };
    combinations.define_short(alloc, form)
}

/// The methods that apply to 3; with one more, on the object 3, those that apply to it and to 4; and without it those that apply
/// to 3 again.
fn applicable_in_turn(
    alloc: Global,
    generics: &mut Generics,
) -> Result<[(u64, usize); 4], GenericFault> {
    let generic = GenericId(SystemFunction::COUNT);
    let first = applicable(alloc, generics, generic, 3)?;
    add_eql(alloc, generics, generic)?;
    let three = applicable(alloc, generics, generic, 3)?;
    let four = applicable(alloc, generics, generic, 4)?;
    generics.remove_method(generic, MethodId(10))?;
    let last = applicable(alloc, generics, generic, 3)?;
    Ok([first, three, four, last])
}

/// The same in a new table.
fn all_applicable(alloc: Global) -> Option<[(u64, usize); 4]> {
    let mut generics = begin(alloc).ok()?;
    applicable_in_turn(alloc, &mut generics).ok()
}

#[test]
fn methods_come_and_go(rt: HostRuntime) -> Result<(), Fail> {
    let told = all_applicable(rt.alloc());
    assert_eq!(rt; told, Some([(9, 1), (10, 2), (9, 1), (9, 1)]));
    Ok(())
}

/// The accessors that are there, before one is removed and then.
fn accessors_in_turn(
    alloc: Global,
    generics: &mut Generics,
) -> Result<[(u64, usize); 2], GenericFault> {
    let before = accessors(alloc, generics)?;
    generics.remove_method(GenericId(SystemFunction::COUNT), MethodId(9))?;
    Ok([before, accessors(alloc, generics)?])
}

/// The same in a new table.
fn all_accessors(alloc: Global) -> Option<[(u64, usize); 2]> {
    let mut generics = begin(alloc).ok()?;
    accessors_in_turn(alloc, &mut generics).ok()
}

#[test]
fn accessors_come_and_go(rt: HostRuntime) -> Result<(), Fail> {
    let told = all_accessors(rt.alloc());
    assert_eq!(rt; told, Some([(9, 1), (0, 0)]));
    Ok(())
}

/// One method combined, with what the meter stands at then, two, and none.
fn combined_in(
    alloc: Global,
    generics: &Generics,
) -> Result<(u64, &'static str, &'static str, &'static str), AllocError> {
    let generic = GenericId(SystemFunction::COUNT);
    let one = combined(alloc, generics, generic, &[MethodId(9)])?;
    let two = combined(alloc, generics, generic, &[MethodId(9), MethodId(0)])?;
    let none = combined(alloc, generics, generic, &[])?;
    Ok((one.1, one.0, two.0, none.0))
}

/// The same in a new table.
fn all_combined(alloc: Global) -> Option<(u64, &'static str, &'static str, &'static str)> {
    let generics = begin(alloc).ok()?;
    combined_in(alloc, &generics).ok()
}

#[test]
fn methods_are_combined(rt: HostRuntime) -> Result<(), Fail> {
    let wanted = (1, "call-method", "multiple-value-prog1", "an empty group");
    assert_eq!(rt; all_combined(rt.alloc()), Some(wanted));
    Ok(())
}

/// What keeps three short forms from being defined, in a table with room for one.
fn refused(alloc: Global, combinations: &mut Combinations) -> [Option<CombinationFault>; 3] {
    [
        define(alloc, combinations, Name::fixed(&"AND")).err(),
        define(alloc, combinations, Name::fixed(&"MINE")).err(),
        define(alloc, combinations, Name::fixed(&"YOURS")).err(),
    ]
}

/// What keeps two of them from being used.
fn misused(combinations: &Combinations) -> [Option<UseFault>; 2] {
    [
        combinations.fits(&Name::fixed(&"MINE"), &Data::new()).err(),
        combinations
            .fits(&Name::fixed(&"YOURS"), &Data::new())
            .err(),
    ]
}

/// Both of a new table.
fn combinations_told(
    alloc: Global,
) -> Result<([Option<CombinationFault>; 3], [Option<UseFault>; 2]), AllocError> {
    let (mut combinations, _meter) = Combinations::new(alloc, 1)?;
    let refused = refused(alloc, &mut combinations);
    Ok((refused, misused(&combinations)))
}

#[test]
fn combinations_are_defined(rt: HostRuntime) -> Result<(), Fail> {
    let (refused, misused) = combinations_told(rt.alloc())?;
    let wanted = [
        Some(CombinationFault::Predefined),
        None,
        Some(CombinationFault::TableLimit),
    ];
    assert_eq!(rt; refused, wanted);
    assert_eq!(rt; misused, [None, Some(UseFault::Undefined)]);
    Ok(())
}
