//! What the names in a template stand for.
ghost use Rattle.std.specs.Prelude.{◌≡◌, ◌++◌, ◌∷◌, ◌≤◌, [], OnOk, length, option_map, take};
ghost use Rattle.lisp_data.specs.DatumView.{datum_of};
ghost use Rattle.clos_template.specs.Scope.{bound, value_of};

use lisp_data::{Datum, Name};
use std::alloc::{AllocError, Global};
use std::marker::Model;

/// A name with its value.
#[derive(Drop)]
struct Variable {
    name: Name,
    value: Datum,
}

/// What names stand for: groups, parameters and locals, the innermost last. Contracts see the list.
#[derive(Drop)]
pub struct Scope {
    variables: Vec<Variable>,
}

impl Model for Scope {
    ghost use Rattle.std.specs.Prelude.{List, map};
    ghost use Rattle.std.specs.Coded.{coded_list};
    ghost use Rattle.clos_template.specs.Scope.{Binding};
    ghost use Rattle.clos_template.specs.inner.ScopeCode.{binding_code};

    ghost Value = { List Binding };

    ghost coded = { coded_list binding_code };

    ghost use Rattle.clos_template.specs.ScopeView.{binding_of};

    ghost view = { λ a. map binding_of a.variables.items };
}

impl Scope {
    /// No names.
    pub fn new(alloc: Global) -> Scope
        ensures { result ≡ [] }
    {
        Scope {
            variables: Vec::new(alloc),
        }
    }

    /// One more name, which hides those that are the same.
    pub fn bind(&mut self, name: Name, value: Datum) -> Result<(), AllocError>
        ensures { OnOk result (self.new ≡ self.old ++ bound name (datum_of value) ∷ []) }
    {
        self.variables.push(Variable { name, value })?;
        Ok(())
    }

    /// Moves these names to the end, where they hide those that are the same.
    #[tactic(auto, using(crate::proofs::Scopes::more_names))]
    pub fn append(&mut self, more: Scope) -> Result<(), AllocError>
        ensures { OnOk result (self.new ≡ self.old ++ more) }
    {
        let Scope { mut variables } = more;
        self.variables.append(&mut variables)
    }

    /// How many names there are.
    pub(crate) fn len(&self) -> usize
        ensures { result ≡ length self.now }
    {
        self.variables.len()
    }

    /// Only the first names stay.
    #[tactic(auto, using(crate::proofs::Scopes::first_names))]
    pub(crate) fn leave(&mut self, count: usize)
        requires { count ≤ length self.old }
        ensures { self.new ≡ take count self.old }
    {
        self.variables.truncate(count);
    }

    /// What the innermost of this name stands for.
    pub fn value(&self, name: &Name) -> Option<&Datum>
        ensures { option_map (λ d. datum_of d.now) result ≡ value_of self.now name.now }
    {
        let mut left = self.variables.as_slice();
        while let Some((last, others)) = left.split_last() {
            if last.name.is(name) {
                return Some(&last.value);
            }
            left = others;
        }
        None
    }
}
