//! The generic functions of a session and their methods.
ghost use Rattle.std.specs.Prelude.{◌≡◌, ◌==◌, ◌<◌, ◌-◌, ◌∷◌, ◌||◌, [], ℕ, false, true, None, IfOk, IsOk, IfErr, OnOk, OnErr, MatchResult, is_some, length, option_map, option_copied, slice_get};
ghost use Rattle.std.specs.List.{list_any};
ghost use Rattle.lisp_data.specs.ValueView.{value_of};
ghost use Rattle.clos_forms.specs.declared.operator.FunctionName.TheVariants.{Symbol, Setf};
ghost use Rattle.clos_generic.specs.Accessors.{is_accessor_in};
ghost use Rattle.clos_generic.specs.Calls.{has_eql};
ghost use Rattle.clos_generic.specs.Changes.{changes_refusal};
ghost use Rattle.clos_generic.specs.Held.{by_addition, by_definition, is_first, released, reserved};
ghost use Rattle.clos_method.specs.System.{system_functions};
ghost use Rattle.clos_generic.specs.Fault.{addition_refusal, all_fit, definition_refusal, is_system, refusal_at, removal_refusal, system_count, takes_in};
ghost use Rattle.clos_generic.specs.FaultView.{Refuses, Tells};
ghost use Rattle.clos_generic.specs.Initial.{empty, initial, with_system, with_systems};
ghost use Rattle.clos_generic.specs.Sound.{IsOrderly, IsSound, IsSpecialized};
ghost use Rattle.clos_generic.specs.Table.{find_method, methods_named, methods_of, named, number, same_function, with_definition, with_method, without_method};
ghost use Rattle.clos_generic.specs.TableView.{function_of, with_made, with_redefined};
ghost use Rattle.clos_generic.specs.inner.AccessorMethods.{latest_below};

use crate::accessors::AccessorMethods;
use crate::changes::Changes;
use crate::fault::GenericFault;
use crate::function::Function;
use crate::functions::{may_have_eql, put_at, redefine_at, reserve_each, take_out_at};
use crate::methods::{all_fit, all_permitted, find_alike, is_among};
use crate::names::{is_same, note_function};
use crate::options::Options;
use crate::spare::{Spare, functions_of, pass_addition, spares_for, take_spare};
use crate::system::system_options;
use clos_forms::FunctionName;
use clos_method::{Method, Qualifiers, Shape, Specializers, SystemFunction, is_congruent};
use lisp_data::{ClassId, GenericId, MethodId, Name, Value};
use std::alloc::{AllocError, Global};
use std::collections::{HashMap, VecDeque};
use std::marker::Model;

/// The generic functions of a session and all methods that were ever made, each known by its number, its place among them.
/// A function is found by its name.
#[derive(Drop)]
pub struct Generics {
    functions: Vec<Function>,
    /// Of each symbol the function that it names.
    symbols: HashMap<Name, GenericId>,
    /// Of each name `(setf name)` the function that has it, by that name.
    setters: HashMap<Name, GenericId>,
    methods: Vec<Method>,
    accessors: AccessorMethods,
    most_functions: u64,
    most_methods: u64,
    /// For the next definitions, in order.
    spares: VecDeque<Spare>,
    /// The functions of the next additions, in order: each has the room that it needs.
    additions: VecDeque<GenericId>,
}

impl Model for Generics {
    ghost use Rattle.clos_generic.specs.Held.{Held};

    ghost Value = { Held };

    ghost use Rattle.clos_generic.specs.inner.TableCode.{held_code};

    ghost coded = { held_code };

    ghost use Rattle.std.specs.HashMap.{get, spare};
    ghost use Rattle.std.specs.Prelude.{length};
    ghost use Rattle.clos_generic.specs.inner.AccessorMethods.{HasPlaces, IsKept};
    ghost use Rattle.clos_generic.specs.inner.EqlObjects.{AreNoted};
    ghost use Rattle.clos_generic.specs.inner.Reserved.{IsReady, ids_of, keys_of};
    ghost use Rattle.lisp_data.specs.Name.{same_name};
    ghost use Rattle.clos_forms.specs.declared.operator.FunctionName.TheVariants.{Symbol, Setf};
    ghost use Rattle.clos_generic.specs.Sound.{AreSound};
    ghost use Rattle.clos_generic.specs.TableView.{AreThere, IsIndexed, functions_in};

    ghost view = { λ a. record { table = record { functions = functions_in a.functions.items; methods = a.methods.items; most_functions = a.most_functions; most_methods = a.most_methods }; definitions = keys_of a.spares.items; additions = ids_of a.additions.items } };

    ghost invariant = { λ a. IsIndexed (functions_in a.functions.items) Symbol (λ n. get same_name a.symbols n) × IsIndexed (functions_in a.functions.items) Setf (λ n. get same_name a.setters n)
        × IsReady a.functions (spare a.symbols) (spare a.setters) a.methods a.spares.items a.additions.items
        × IsKept a.accessors a.methods.items × HasPlaces (length a.additions.items) a.accessors
        × AreThere (functions_in a.functions.items) a.methods.items × AreNoted a.functions.items a.methods.items
        × AreSound (functions_in a.functions.items) a.methods.items };
}

impl Generics {
    /// The generic functions of the system with their methods (HyperSpec 7.1, 7.3, 7.6.6.1, 7.7), and room for so many
    /// functions and methods besides.
    pub fn new(alloc: Global, functions: u64, methods: u64) -> Result<Generics, AllocError>
        ensures { IfOk result (λ r. r.table ≡ initial functions methods) }
    {
        let mut generics = Generics::empty(alloc, functions, methods);
        generics.push_all_of_system(alloc)?;
        Ok(generics)
    }

    /// What holds of every table: its functions and methods are sound.
    pub fn are_sound(&self)
        ensures { IsSound self.now.table }
    {
        let _ = &self.functions;
    }

    /// The number of the function of this name.
    pub fn named(&self, name: &FunctionName) -> Option<GenericId>
        ensures { option_map (λ g. g.0) result ≡ named self.now.table name.now }
    {
        match name {
            FunctionName::Symbol(name) => self.named_by_symbol(name),
            FunctionName::Setf(name) => self.named_by_setf(name),
        }
    }

    /// The number of the function that this symbol names.
    pub fn named_by_symbol(&self, name: &Name) -> Option<GenericId>
        ensures { option_map (λ g. g.0) result ≡ named self.now.table (Symbol name.now) }
    {
        self.symbols.get(name).copied()
    }

    /// The number of the function that `(setf name)` names.
    pub fn named_by_setf(&self, name: &Name) -> Option<GenericId>
        ensures { option_map (λ g. g.0) result ≡ named self.now.table (Setf name.now) }
    {
        self.setters.get(name).copied()
    }

    /// How many functions there are.
    pub fn function_count(&self) -> u64
        ensures { result ≡ length self.now.table.functions }
    {
        self.functions.len() as u64
    }

    /// How many methods were ever made.
    pub fn method_count(&self) -> u64
        ensures { result ≡ length self.now.table.methods }
    {
        self.methods.len() as u64
    }

    /// The function of this number, if there is one.
    pub fn function(&self, id: GenericId) -> Option<&Function>
        ensures { option_map (λ f. function_of f.now) result ≡ slice_get self.now.table.functions id.0 }
    {
        self.functions.get(id.0 as usize)
    }

    /// The method of this number, if there is one.
    pub fn method(&self, id: MethodId) -> Option<&Method>
        ensures { option_copied result ≡ slice_get self.now.table.methods id.0 }
    {
        self.methods.get(id.0 as usize)
    }

    /// All methods that were ever made, by their numbers.
    pub fn methods(&self) -> &[Method]
        ensures { result.now ≡ self.now.table.methods }
    {
        self.methods.as_slice()
    }

    /// The method of a function that has these qualifiers and specializers (HyperSpec 7.7, find-method).
    pub fn find(
        &self,
        id: GenericId,
        qualifiers: &Qualifiers,
        specializers: &Specializers,
    ) -> Option<MethodId>
        ensures { option_map (λ m. m.0) result ≡ find_method self.now.table id.0 qualifiers.now specializers.now }
    {
        match self.function(id) {
            None => None,
            Some(function) => find_alike(
                &self.methods,
                function.methods(),
                qualifiers,
                specializers,
            ),
        }
    }

    /// Whether a method of a function may have an eql specializer of this object for the parameter at this place. It walks
    /// no methods.
    pub(crate) fn may_have_eql(&self, id: GenericId, place: usize, object: &Value) -> bool
        ensures { result ≡ false → has_eql self.now.table id.0 place (value_of object.now) ≡ false }
    {
        may_have_eql(&self.functions, id, place, object)
    }

    /// The latest method that came with an accessor of a class.
    pub(crate) fn latest_accessor(&self, class: ClassId) -> Option<MethodId>
        ensures { option_map (λ m. m.0) result ≡ latest_below self.now.table.methods class.0 (length self.now.table.methods) }
    {
        self.accessors.latest_of(class)
    }

    /// The method before this one that came with an accessor of the same class, where this one came with one.
    pub(crate) fn accessor_before(&self, id: MethodId) -> Option<MethodId>
        ensures { (c : ℕ) → is_accessor_in c (slice_get self.now.table.methods id.0) ≡ true → option_map (λ m. m.0) result ≡ latest_below self.now.table.methods c id.0 }
    {
        self.accessors.before(id)
    }

    /// No functions.
    #[tactic(auto, using(crate::proofs::Kept::kept_none, crate::proofs::There::there_none, crate::proofs::EqlNoted::noted_none, crate::proofs::Soundness::sound_none))]
    fn empty(alloc: Global, functions: u64, methods: u64) -> Generics
        ensures { result.table ≡ empty functions methods }
    {
        Generics {
            functions: Vec::new(alloc),
            symbols: HashMap::new(alloc),
            setters: HashMap::new(alloc),
            methods: Vec::new(alloc),
            accessors: AccessorMethods::new(alloc),
            most_functions: functions,
            most_methods: methods,
            spares: VecDeque::new(alloc),
            additions: VecDeque::new(alloc),
        }
    }

    /// The functions of the system, each with its method.
    fn push_all_of_system(&mut self, alloc: Global) -> Result<(), AllocError>
        ensures { OnOk result (self.new.table ≡ with_systems system_functions self.old.table) }
    {
        self.push_system(alloc, SystemFunction::InitializeInstance)?;
        self.push_system(alloc, SystemFunction::ReinitializeInstance)?;
        self.push_system(alloc, SystemFunction::SharedInitialize)?;
        self.push_system(alloc, SystemFunction::UpdateInstanceForRedefinedClass)?;
        self.push_system(alloc, SystemFunction::UpdateInstanceForDifferentClass)?;
        self.push_system(alloc, SystemFunction::SlotUnbound)?;
        self.push_system(alloc, SystemFunction::SlotMissing)?;
        self.push_system(alloc, SystemFunction::NoApplicableMethod)?;
        self.push_system(alloc, SystemFunction::NoNextMethod)
    }

    /// A function of the system, with its method.
    fn push_system(&mut self, alloc: Global, function: SystemFunction) -> Result<(), AllocError>
        ensures { OnOk result (self.new.table ≡ with_system function self.old.table) }
    {
        let id = GenericId(self.function_count());
        let options = system_options(alloc, function)?;
        let method = Method::of_system(alloc, function)?;
        self.make(alloc, FunctionName::Symbol(function.name()), options)?;
        self.put(id, method)?;
        Ok(())
    }

    /// Whether the next definition that is sure to find memory is of this name.
    fn is_reserved(&self, name: &FunctionName) -> bool
        ensures { result ≡ is_first (λ n. same_function n name.now) self.now.definitions }
    {
        match self.spares.front() {
            None => false,
            Some(spare) => is_same(&spare.key, name),
        }
    }

    /// Takes the memory for a function of this name, in place of that for other definitions.
    fn prepare(&mut self, alloc: Global, name: &FunctionName) -> Result<(), AllocError>
        ensures ok { OnOk result (self.new ≡ record self.old { definitions = name.now ∷ [] }) }
        ensures err { OnErr result (self.new ≡ self.old) }
    {
        let spare = Spare::new(alloc, name, self.additions.len())?;
        self.functions.reserve(1)?;
        self.symbols.reserve(1)?;
        self.setters.reserve(1)?;
        self.spares.reserve(1)?;
        self.spares.clear();
        self.spares.push_back_reserved(spare);
        Ok(())
    }

    /// Makes a function, for which there is memory.
    fn make_reserved(&mut self, name: FunctionName, options: Options)
        requires reserved { is_first (λ n. same_function n name) self.old.definitions ≡ true }
        requires orderly { IsOrderly options }
        ensures { self.new ≡ by_definition name (with_made name options) self.old }
    {
        let id = GenericId(self.functions.len() as u64);
        let Some(spare) = take_spare(&mut self.spares, &name) else {
            unreachable!()
        };
        let Ok(()) = note_function(&mut self.symbols, &mut self.setters, spare.key, id) else {
            unreachable!()
        };
        self.functions.push_reserved(Function::new(
            name,
            options,
            spare.methods,
            spare.eql_objects,
        ));
    }

    /// Makes a function, which comes last.
    fn make(
        &mut self,
        alloc: Global,
        name: FunctionName,
        options: Options,
    ) -> Result<(), AllocError>
        requires { IsOrderly options }
        ensures ok { OnOk result (self.new ≡ by_definition name (with_made name options) self.old) }
        ensures succeeds { is_first (λ n. same_function n name) self.old.definitions ≡ true → IsOk result }
        ensures err { OnErr result (self.new ≡ self.old) }
    {
        if !self.is_reserved(&name) {
            self.prepare(alloc, &name)?;
        }
        self.make_reserved(name, options);
        Ok(())
    }

    /// The fault of a definition of this function, or of a new one.
    fn refuse_definition(
        &self,
        id: Option<GenericId>,
        options: &Options,
    ) -> Result<(), GenericFault>
        ensures { MatchResult result (λ _. refusal_at self.now.table (option_map (λ g. g.0) id) options.now ≡ None) (λ e. Tells e (refusal_at self.now.table (option_map (λ g. g.0) id) options.now)) }
    {
        if !self.methods_fit(id, &options.shape) {
            return Err(GenericFault::Incongruent);
        }
        match id {
            Some(id) => {
                if id.0 < SystemFunction::COUNT {
                    return Err(GenericFault::Unsupported);
                }
            }
            None => {
                if self.functions_left() == 0 {
                    return Err(GenericFault::TableLimit);
                }
            }
        }
        Ok(())
    }

    fn methods_fit(&self, id: Option<GenericId>, shape: &Shape) -> bool
        ensures { result ≡ all_fit self.now.table.methods shape.now (methods_named self.now.table (option_map (λ g. g.0) id)) }
    {
        match id {
            None => true,
            Some(id) => match self.function(id) {
                None => true,
                Some(function) => all_fit(&self.methods, function.methods(), shape),
            },
        }
    }

    /// Defines a generic function, or defines it again: it keeps its methods (HyperSpec 7.7, defgeneric). Gives its
    /// number. The faults, the first that is so: a method that stays is not congruent with the new lambda list, the function
    /// is the system's, there are as many functions as there may be. Only a new function takes memory, and none where it was
    /// reserved.
    #[tactic(auto, using(crate::proofs::Told::told_refuses, crate::proofs::Told::told_none))]
    pub fn ensure(
        &mut self,
        alloc: Global,
        name: FunctionName,
        options: Options,
    ) -> Result<GenericId, GenericFault>
        requires { IsOrderly options }
        ensures ok { OnOk result ((definition_refusal self.old.table name options ≡ None) × (self.new ≡ by_definition name (with_definition name options) self.old)) }
        ensures id { IfOk result (λ g. g.0 ≡ number self.old.table name) }
        ensures fault { IfErr result (λ e. Refuses e (definition_refusal self.old.table name options)) }
        ensures reserved { is_first (λ n. same_function n name) self.old.definitions ≡ true → definition_refusal self.old.table name options ≡ None → IsOk result }
        ensures again { is_some (named self.old.table name) ≡ true → definition_refusal self.old.table name options ≡ None → IsOk result }
        ensures err { OnErr result (self.new ≡ self.old) }
    {
        let found = self.named(&name);
        if let Err(fault) = self.refuse_definition(found, &options) {
            return Err(fault);
        }
        match found {
            Some(id) => {
                self.redefine(id, &name, options);
                Ok(id)
            }
            None => {
                let id = GenericId(self.function_count());
                self.make(alloc, name, options)?;
                Ok(id)
            }
        }
    }

    /// The same where it can't be refused: each method that the function has is congruent with it, and the memory for it is
    /// reserved, or the function is there.
    pub fn define_reserved(&mut self, name: FunctionName, options: Options) -> GenericId
        requires reserved { (is_first (λ n. same_function n name) self.old.definitions || is_some (named self.old.table name)) ≡ true }
        requires orderly { IsOrderly options }
        requires fit { all_fit self.old.table.methods options.shape (methods_named self.old.table (named self.old.table name)) ≡ true }
        ensures seen { self.new ≡ by_definition name (with_definition name options) self.old }
        ensures id { result.0 ≡ number self.old.table name }
    {
        match self.named(&name) {
            Some(id) => {
                self.redefine(id, &name, options);
                id
            }
            None => {
                let id = GenericId(self.function_count());
                self.make_reserved(name, options);
                id
            }
        }
    }

    fn redefine(&mut self, id: GenericId, name: &FunctionName, options: Options)
        requires within { id.0 < length self.old.table.functions }
        requires orderly { IsOrderly options }
        requires fit { all_fit self.old.table.methods options.shape (methods_of self.old.table id.0) ≡ true }
        ensures { self.new ≡ by_definition name.now (with_redefined id.0 options) self.old }
    {
        redefine_at(&mut self.functions, id, options);
        let _ = take_spare(&mut self.spares, name);
    }

    /// The fault of an addition of this method to a function.
    fn refuse_addition(&self, id: GenericId, method: &Method) -> Result<(), GenericFault>
        ensures { MatchResult result (λ _. addition_refusal self.now.table id.0 method.now ≡ None) (λ e. Tells e (addition_refusal self.now.table id.0 method.now)) }
    {
        if !self.takes(id, &method.shape) {
            return Err(GenericFault::Incongruent);
        }
        if !all_permitted(&method.specializers)
            || self.has_of_system(id, &method.qualifiers, &method.specializers)
        {
            return Err(GenericFault::Unsupported);
        }
        if self.methods_left() == 0 {
            return Err(GenericFault::TableLimit);
        }
        Ok(())
    }

    /// How many functions the program may still make.
    pub(crate) fn functions_left(&self) -> u64
        ensures { result ≡ self.now.table.most_functions - (length self.now.table.functions - system_count) }
    {
        let made = self.function_count().saturating_sub(SystemFunction::COUNT);
        self.most_functions.saturating_sub(made)
    }

    /// How many methods the program may still make.
    pub(crate) fn methods_left(&self) -> u64
        ensures { result ≡ self.now.table.most_methods - (length self.now.table.methods - system_count) }
    {
        let made = self.method_count().saturating_sub(SystemFunction::COUNT);
        self.most_methods.saturating_sub(made)
    }

    fn takes(&self, id: GenericId, shape: &Shape) -> bool
        ensures { result ≡ takes_in shape.now (slice_get self.now.table.functions id.0) }
    {
        match self.function(id) {
            None => true,
            Some(function) => is_congruent(function.shape(), shape),
        }
    }

    /// Whether a method of these would take the place of one of the system's.
    pub(crate) fn has_of_system(
        &self,
        id: GenericId,
        qualifiers: &Qualifiers,
        specializers: &Specializers,
    ) -> bool
        ensures { result ≡ is_system (find_method self.now.table id.0 qualifiers.now specializers.now) }
    {
        match self.find(id, qualifiers, specializers) {
            None => false,
            Some(found) => found.0 < SystemFunction::COUNT,
        }
    }

    /// Adds a method to its function. It has the next number, which is how many methods there were, and takes the place of
    /// the function's method of the same qualifiers and specializers, whose number is given back where there is one
    /// (HyperSpec 7.6.3, 7.7, add-method). The faults, the first that is so: its lambda list is not congruent with the
    /// function's, an eql specializer's object is a string or a list that is not empty or the method would take the place of
    /// the system's, there are as many methods as there may be. It takes no memory where that was reserved.
    #[tactic(auto, using(crate::proofs::Told::told_refuses, crate::proofs::Told::told_none))]
    pub fn add_method(
        &mut self,
        id: GenericId,
        method: Method,
    ) -> Result<Option<MethodId>, GenericFault>
        requires within { id.0 < length self.old.table.functions }
        requires own { method.generic ≡ id }
        requires specialized { IsSpecialized method }
        ensures ok { OnOk result ((addition_refusal self.old.table id.0 method ≡ None) × (self.new ≡ by_addition id.0 (with_method id.0 method) self.old)) }
        ensures replaced { IfOk result (λ r. option_map (λ m. m.0) r ≡ find_method self.old.table id.0 method.qualifiers method.specializers) }
        ensures fault { IfErr result (λ e. Refuses e (addition_refusal self.old.table id.0 method)) }
        ensures reserved { is_first (λ h. h == id.0) self.old.additions ≡ true → addition_refusal self.old.table id.0 method ≡ None → IsOk result }
        ensures err { OnErr result (self.new ≡ self.old) }
    {
        if let Err(fault) = self.refuse_addition(id, &method) {
            return Err(fault);
        }
        Ok(self.put(id, method)?)
    }

    /// Puts the next method, which is this one, at the end of a function's.
    fn put(&mut self, id: GenericId, method: Method) -> Result<Option<MethodId>, AllocError>
        requires specialized { IsSpecialized method }
        requires fits { takes_in method.shape (slice_get self.old.table.functions id.0) ≡ true }
        ensures ok { OnOk result (self.new ≡ by_addition id.0 (with_method id.0 method) self.old) }
        ensures replaced { IfOk result (λ r. option_map (λ m. m.0) r ≡ find_method self.old.table id.0 method.qualifiers method.specializers) }
        ensures succeeds { is_first (λ h. h == id.0) self.old.additions ≡ true → IsOk result }
        ensures err { OnErr result (self.new ≡ self.old) }
    {
        self.accessors.reserve(1)?;
        self.methods.reserve(1)?;
        let replaced = put_at(&mut self.functions, id, &self.methods, &method)?;
        let number = MethodId(self.methods.len() as u64);
        self.accessors.note(number, method.origin);
        self.methods.push_reserved(method);
        pass_addition(&mut self.additions, id);
        Ok(replaced)
    }

    /// The same where it can't be refused: it is congruent with its function, and the memory for it is reserved.
    pub fn add_reserved(&mut self, id: GenericId, method: Method) -> Option<MethodId>
        requires reserved { is_first (λ h. h == id.0) self.old.additions ≡ true }
        requires specialized { IsSpecialized method }
        requires fits { takes_in method.shape (slice_get self.old.table.functions id.0) ≡ true }
        ensures seen { self.new ≡ by_addition id.0 (with_method id.0 method) self.old }
        ensures replaced { option_map (λ m. m.0) result ≡ find_method self.old.table id.0 method.qualifiers method.specializers }
    {
        let Ok(replaced) = self.put(id, method) else {
            unreachable!()
        };
        replaced
    }

    /// Takes a method out of its function. It stays among all methods (HyperSpec 7.7, remove-method). The faults: the method
    /// is the system's, or else not one of the function's. It takes no memory.
    pub fn remove_method(&mut self, id: GenericId, method: MethodId) -> Result<(), GenericFault>
        ensures ok { OnOk result ((removal_refusal self.old.table id.0 method.0 ≡ None) × (self.new ≡ record self.old { table = without_method id.0 method.0 self.old.table })) }
        ensures fault { IfErr result (λ e. Tells e (removal_refusal self.old.table id.0 method.0)) }
        ensures err { OnErr result (self.new ≡ self.old) }
    {
        if let Err(fault) = self.refuse_removal(id, method) {
            return Err(fault);
        }
        self.take_out(id, method);
        Ok(())
    }

    /// The same where it can't be refused: where the function has no such method, nothing is changed.
    pub fn take_out(&mut self, id: GenericId, method: MethodId)
        ensures { self.new ≡ record self.old { table = without_method id.0 method.0 self.old.table } }
    {
        if id.0 < self.function_count() {
            take_out_at(&mut self.functions, id, method);
        }
    }

    /// The fault of a removal of this method.
    pub(crate) fn refuse_removal(&self, id: GenericId, method: MethodId) -> Result<(), GenericFault>
        ensures { MatchResult result (λ _. removal_refusal self.now.table id.0 method.0 ≡ None) (λ e. Tells e (removal_refusal self.now.table id.0 method.0)) }
    {
        if method.0 < SystemFunction::COUNT {
            return Err(GenericFault::Unsupported);
        }
        if !self.has_method(id, method) {
            return Err(GenericFault::NoSuchMethod);
        }
        Ok(())
    }

    /// Whether this is a method of this function.
    pub fn has_method(&self, id: GenericId, method: MethodId) -> bool
        ensures { result ≡ list_any (λ n. n == method.0) (methods_of self.now.table id.0) }
    {
        match self.function(id) {
            None => false,
            Some(function) => is_among(function.methods(), method),
        }
    }

    /// Nothing is reserved after it.
    fn release(&mut self)
        ensures { self.new ≡ released self.old }
    {
        self.spares.clear();
        self.additions.clear();
    }

    /// Takes the memory for the changes of a definition form, and nothing else is reserved then. After it, while there are
    /// no other definitions and additions, the removals of these changes, their definitions in order, and then their
    /// additions in order are not refused for want of memory. Else it tells the first fault of the changes, or that memory
    /// was refused, and nothing is reserved. The functions and the methods stay as they were.
    #[tactic(auto, using(crate::proofs::Told::told_refuses, crate::proofs::Told::told_none))]
    pub fn reserve(&mut self, alloc: Global, changes: &Changes) -> Result<(), GenericFault>
        ensures ok { OnOk result ((changes_refusal self.old.table changes.now ≡ None) × (self.new ≡ reserved changes.now self.old)) }
        ensures fault { IfErr result (λ e. Refuses e (changes_refusal self.old.table changes.now)) }
        ensures err { OnErr result (self.new ≡ released self.old) }
    {
        if let Err(fault) = self.refuse_changes(changes) {
            self.release();
            return Err(fault);
        }
        self.release();
        self.take_memory(alloc, changes)?;
        Ok(())
    }

    fn take_memory(&mut self, alloc: Global, changes: &Changes) -> Result<(), AllocError>
        requires { self.old ≡ released self.old }
        ensures ok { OnOk result (self.new ≡ reserved changes.now self.old) }
        ensures err { OnErr result (self.new ≡ self.old) }
    {
        let definitions = changes.definitions().len();
        let methods = changes.additions().len();
        let spares = spares_for(alloc, changes.definitions(), methods)?;
        let additions = functions_of(alloc, changes.additions())?;
        self.functions.reserve(definitions)?;
        self.symbols.reserve(definitions)?;
        self.setters.reserve(definitions)?;
        reserve_each(&mut self.functions, &additions, methods)?;
        self.methods.reserve(methods)?;
        self.accessors.reserve(methods)?;
        self.spares = spares;
        self.additions = additions;
        Ok(())
    }
}
