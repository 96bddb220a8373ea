//! The arguments of a call, as dispatch sees them (HyperSpec 7.6.6.1).
ghost use Rattle.std.specs.Prelude.{◌≡◌, length, option_map, slice_get};
ghost use Rattle.lisp_data.specs.ValueView.{value_of};
ghost use Rattle.clos_precedence.specs.PrecedenceView.{numbers};
ghost use Rattle.clos_method.specs.Arguments.{arguments_of};
ghost use Rattle.clos_method.specs.ArgumentView.{argument_of};
ghost use Rattle.clos_method.specs.Qualifiers.{values_in};

use clos_class::Classes;
use lisp_data::{ClassId, Value};
use std::marker::Model;

/// An argument: the class precedence list of its class, with no class where there is none, and the object.
#[derive(Clone, Copy)]
pub struct Argument<'a> {
    pub list: &'a [ClassId],
    pub value: &'a Value,
}

/// The arguments of a call and their classes, of which there are as many. Contracts see of each argument the class
/// precedence list of its class, and the object.
#[derive(Drop)]
pub struct Arguments<'a> {
    classes: &'a Classes,
    class_ids: &'a [ClassId],
    values: &'a [Value],
}

impl<'a> Model for Arguments<'a> {
    ghost use Rattle.std.specs.Prelude.{◌≡◌, List, length};
    ghost use Rattle.std.specs.Coded.{coded_list};
    ghost use Rattle.clos_precedence.specs.PrecedenceView.{numbers};
    ghost use Rattle.clos_method.specs.Arguments.{Argument, argument_code, arguments_of};
    ghost use Rattle.clos_method.specs.Qualifiers.{values_in};

    ghost Value = { List Argument };

    ghost coded = { coded_list argument_code };

    ghost view = { λ a. arguments_of a.classes.now (numbers a.class_ids.now) (values_in a.values.now) };

    ghost invariant = { λ a. length a.class_ids.now ≡ length a.values.now };
}

impl<'a> Arguments<'a> {
    /// Objects that are of these classes.
    pub fn new(classes: &'a Classes, class_ids: &'a [ClassId], values: &'a [Value]) -> Arguments<'a>
        requires { length class_ids.now ≡ length values.now }
        ensures { result ≡ arguments_of classes.now (numbers class_ids.now) (values_in values.now) }
    {
        Arguments {
            classes,
            class_ids,
            values,
        }
    }

    /// How many they are.
    pub fn len(&self) -> usize
        ensures { result ≡ length self.now }
    {
        self.values.len()
    }

    /// The one at this place, if there is one.
    #[tactic(auto, using(crate::proofs::OnArguments::at_place, crate::proofs::OnArguments::past_classes, crate::proofs::OnArguments::past_values))]
    pub fn get(&self, place: usize) -> Option<Argument<'a>>
        ensures { option_map argument_of result ≡ slice_get self.now place }
    {
        let class = class_at(self.class_ids, place)?;
        let value = value_at(self.values, place)?;
        Some(Argument {
            list: self.classes.hierarchy().precedence_or_none(class),
            value,
        })
    }
}

fn class_at(classes: &[ClassId], place: usize) -> Option<ClassId>
    ensures { option_map (λ c. c.0) result ≡ slice_get (numbers classes.now) place }
{
    classes.get(place).copied()
}

fn value_at(values: &[Value], place: usize) -> Option<&Value>
    ensures { option_map (λ v. value_of v.now) result ≡ slice_get (values_in values.now) place }
{
    values.get(place)
}
