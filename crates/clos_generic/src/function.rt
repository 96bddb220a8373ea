//! Generic functions.
ghost use Rattle.std.specs.Prelude.{◌≡◌, ◌==◌, ◌<◌, ◌≤◌, ◌+◌, [], ℕ, false, true, IfOk, IsOk, IsTrue, OnOk, OnErr, option_map, vec_len, vec_capacity};
ghost use Rattle.std.specs.List.{find, list_any};
ghost use Rattle.clos_generic.specs.Table.{added, is_alike_at, made, redefined, with_methods, without};
ghost use Rattle.clos_method.specs.MethodIds.{method_numbers};
ghost use Rattle.clos_generic.specs.TableView.{function_of};
ghost use Rattle.lisp_data.specs.declared.value.Value.{Value};
ghost use Rattle.clos_generic.specs.inner.EqlObjects.{NotesEql, is_noted};

use crate::eql_objects::EqlObjects;
use crate::methods::{take_alike, take_number};
use crate::options::Options;
use clos_forms::FunctionName;
use clos_method::{Method, Shape};
use clos_syntax::CombinationUse;
use lisp_data::{MethodId, Value};
use std::alloc::AllocError;

/// So many methods are looked through as quickly as an object is looked up.
const FEW: usize = 4;

/// A generic function (HyperSpec 7.6.1).
#[derive(Drop)]
pub struct Function {
    pub(crate) name: FunctionName,
    pub(crate) options: Options,
    pub(crate) methods: Vec<MethodId>,
    pub(crate) eql_objects: EqlObjects,
}

impl Function {
    /// What it is called.
    pub fn name(&self) -> &FunctionName
        ensures { result.now ≡ (function_of self.now).name }
    {
        &self.name
    }

    /// What arguments it takes (HyperSpec 7.6.4).
    pub fn shape(&self) -> &Shape
        ensures { result.now ≡ (function_of self.now).shape }
    {
        &self.options.shape
    }

    /// The argument precedence order: the places of the required parameters (HyperSpec 7.6.6.1.2).
    pub fn precedence(&self) -> &[usize]
        ensures { result.now ≡ (function_of self.now).precedence }
    {
        self.options.precedence.as_slice()
    }

    /// Its method combination (HyperSpec 7.6.6.4).
    pub fn combination(&self) -> &CombinationUse
        ensures { result.now ≡ (function_of self.now).combination }
    {
        &self.options.combination
    }

    /// The numbers of its methods, in order of addition.
    pub fn methods(&self) -> &[MethodId]
        ensures { method_numbers result.now ≡ (function_of self.now).methods }
    {
        self.methods.as_slice()
    }

    /// Whether a method may have an eql specializer of this object for the parameter at this place: where not, none has.
    pub(crate) fn may_have_eql(&self, place: usize, object: &Value) -> bool
        ensures { result ≡ false → is_noted self.now.eql_objects place object.now ≡ false }
    {
        self.eql_objects.have_any(place)
            && (self.methods.len() <= FEW || self.eql_objects.may_have(place, object))
    }

    /// Of many methods, the latest that was noted to have an eql specializer of this object for the parameter at this place.
    pub(crate) fn latest_eql(&self, place: usize, object: &Value) -> Option<MethodId> {
        if self.methods.len() <= FEW {
            return None;
        }
        self.eql_objects.latest(place, object)
    }

    /// Whether this is seen at once to be one of its methods, whose numbers go up.
    pub(crate) fn has(&self, id: MethodId) -> bool
        ensures { IsTrue result → list_any (λ k. k == id.0) (function_of self.now).methods ≡ true }
    {
        let mut low = 0;
        let mut high = self.methods.len();
        while low < high {
            let middle = low + (high - low) / 2;
            let found = self.methods[middle];
            if found == id {
                return true;
            }
            if found.0 < id.0 {
                low = middle + 1;
            } else {
                high = middle;
            }
        }
        false
    }

    /// A function of this name without methods, with room for some in this list.
    pub(crate) fn new(
        name: FunctionName,
        options: Options,
        methods: Vec<MethodId>,
        eql_objects: EqlObjects,
    ) -> Function
        requires { methods.items ≡ [] }
        ensures seen { function_of result ≡ made name options }
        ensures methods { result.methods ≡ methods }
    {
        Function {
            name,
            options,
            methods,
            eql_objects,
        }
    }

    /// Takes on these options (HyperSpec 7.7, defgeneric).
    pub(crate) fn redefine(&mut self, options: Options)
        ensures seen { function_of self.new ≡ redefined options (function_of self.old) }
        ensures methods { self.new.methods ≡ self.old.methods }
        ensures eql_objects { self.new.eql_objects ≡ self.old.eql_objects }
    {
        self.options = options;
    }

    /// Puts the next method, which is this one, at the end; gives back the one whose place it takes (HyperSpec 7.6.3).
    #[tactic(auto, using(crate::proofs::Places::one_more_number))]
    pub(crate) fn put(
        &mut self,
        all: &[Method],
        method: &Method,
    ) -> Result<Option<MethodId>, AllocError>
        ensures ok { OnOk result (function_of self.new ≡ with_methods (added all.now method.now) (function_of self.old)) }
        ensures replaced { IfOk result (λ r. option_map (λ m. m.0) r ≡ find (is_alike_at all.now method.now.qualifiers method.now.specializers) (function_of self.old).methods) }
        ensures err { OnErr result (function_of self.new ≡ function_of self.old) }
        ensures succeeds { vec_len self.old.methods < vec_capacity self.old.methods → IsOk result }
        ensures len { OnOk result (vec_len self.new.methods ≤ vec_len self.old.methods + 1) }
        ensures err_len { OnErr result (vec_len self.new.methods ≡ vec_len self.old.methods) }
        ensures capacity { vec_capacity self.old.methods ≤ vec_capacity self.new.methods }
        ensures notes { (place : ℕ) (v : Value) → is_noted self.old.eql_objects place v ≡ true → is_noted self.new.eql_objects place v ≡ true }
        ensures eql { OnOk result (NotesEql method.now.specializers (is_noted self.new.eql_objects)) }
    {
        let id = MethodId(all.len() as u64);
        self.methods.reserve(1)?;
        let replaced = take_alike(
            &mut self.methods,
            all,
            &method.qualifiers,
            &method.specializers,
        );
        self.methods.push_reserved(id);
        self.eql_objects.note(&method.specializers, id);
        Ok(replaced)
    }

    /// Takes the method of this number out.
    pub(crate) fn take_out(&mut self, id: MethodId)
        ensures seen { function_of self.new ≡ with_methods (without (λ n. n == id.0)) (function_of self.old) }
        ensures len { vec_len self.new.methods ≤ vec_len self.old.methods }
        ensures capacity { vec_capacity self.new.methods ≡ vec_capacity self.old.methods }
        ensures eql_objects { self.new.eql_objects ≡ self.old.eql_objects }
    {
        take_number(&mut self.methods, id);
    }

    /// Takes the memory for so many more methods.
    pub(crate) fn reserve(&mut self, methods: usize) -> Result<(), AllocError>
        ensures same { function_of self.new ≡ function_of self.old }
        ensures ok { OnOk result (vec_len self.new.methods + methods ≤ vec_capacity self.new.methods) }
        ensures len { vec_len self.new.methods ≡ vec_len self.old.methods }
        ensures capacity { vec_capacity self.old.methods ≤ vec_capacity self.new.methods }
        ensures eql_objects { self.new.eql_objects ≡ self.old.eql_objects }
    {
        self.methods.reserve(methods)
    }
}
