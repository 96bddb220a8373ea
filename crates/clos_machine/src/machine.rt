//! The machine that evaluates forms without recursion: what comes next, and the levels that wait for values.
ghost use Rattle.std.specs.Prelude.{◌≡◌, ◌∷◌, [], ◌<◌, IfOk, OnOk, OnErr, MatchOption};
ghost use Rattle.clos_meaning.specs.Contexts.{known};
ghost use Rattle.clos_machine.specs.Machine.{ends_body, gives_last, is_end, none_left};

use crate::counter::Counter;
use crate::finalized::Finalized;
use crate::locals::{Locals, Plan};
use crate::parameters::ParameterPlan;
use clos_forms::{CalledName, Form, Forms};
use clos_meaning::{Arguments, Context, SystemFunction, Values};
use lisp_data::{ClassId, InstanceId, Name, Value};
use lisp_prims::Primitive;
use std::alloc::{AllocError, Global};
use std::marker::Model;

/// An instance whose slots are filled in layout order: its class, the arguments of shared-initialize, which are the instance,
/// the names of slots and the initargs, what the class has, and the place of the slot that comes next.
#[derive(Drop)]
pub struct Filling {
    pub instance: InstanceId,
    pub class: ClassId,
    pub arguments: Arguments,
    pub effective: Finalized,
    pub place: usize,
}

/// What a place other than a variable is read and set by.
#[derive(Drop)]
pub enum Target {
    /// The functions of this name, and `(setf name)`.
    Call(CalledName),
    /// The slot of an instance.
    SlotValue,
}

/// What is done with a slot of an instance that is up to date.
#[derive(Drop)]
pub enum SlotVisit {
    /// The slot of this name is read.
    Read(Name),
    /// Whether the slot of this name has a value is told.
    Test(Name),
    /// The slot of this name gets this value, or none; then the other value is given.
    Change(Name, Option<Value>, Value),
}

/// What is done with an instance that is up to date: where its class was defined again, it is updated first.
#[derive(Drop)]
pub enum Visit {
    Slot(SlotVisit),
    /// It is initialized again with these initargs.
    Reinitialize(Values),
    /// Its slots are filled by these arguments of shared-initialize.
    Fill(Arguments),
    /// It becomes an instance of this class, with these initargs.
    ChangeClass(ClassId, Values),
}

/// What is done with values when they are there.
#[derive(Drop)]
pub enum Action {
    /// The function of this name is called with them.
    Call(CalledName),
    /// They are the arguments of a place, and its new value.
    Set(Target),
    /// The variable of this name gets the one value.
    Store(Name),
    /// The variable of this name gets what the function makes of its value and this one.
    Change(Primitive, Name),
    /// They are the arguments of a place: the value of this form comes last, and then it is set.
    NewValue(Target, Form),
    /// They are the arguments of a place that is changed by an amount: the value of the form, if there is one, else 1.
    Amount(Primitive, Box<Target>, Forms),
    /// The place is read with all but the last as its arguments, and set to what the function of values makes of its value
    /// and the last of them, the amount.
    ChangePlace(Primitive, Target),
    /// They are the initargs with which an instance of this class is made, which has these slots.
    Allocate(ClassId, Finalized),
    /// They are the initargs with which this instance of this class, which has these slots and was just made, is initialized.
    Initialize(ClassId, Finalized, InstanceId),
    /// They are the arguments of a place, which is read.
    Read(Target),
    /// The next method is called with them.
    CallNext,
}

/// What a method does that has no forms.
#[derive(Drop)]
pub enum BuiltIn {
    /// The slot of this name is read, of the instance that is the argument.
    Reader(Name),
    /// The slot of this name gets the first argument, of the instance that is the second.
    Writer(Name),
    /// What the system's method of this function does.
    System(SystemFunction),
}

/// A loop of `dotimes`: how many variables are outside it, its own, whether it has a result form, and that form, where
/// there is one, with the body after it.
#[derive(Drop)]
pub struct Repetition {
    pub outer: usize,
    pub name: Name,
    pub has_result: bool,
    pub forms: Forms,
}

/// What is done with an instance, beside calls.
#[derive(Drop)]
pub enum InstanceTask {
    /// The next slot is filled.
    Fill(Box<Filling>),
    /// The next slot is filled with this value, that of its initform.
    FillWith(Box<Filling>, Value),
    /// This is done with it, which is up to date.
    Visit(InstanceId, Box<Visit>),
}

/// What comes next.
#[derive(Drop)]
pub enum Doing {
    /// The form is evaluated.
    Start(Form),
    /// The action is done with these values and those of these forms.
    Collect(Action, Forms, Values),
    Act(Action, Values),
    /// This generic function of the system is called with these arguments.
    Invoke(SystemFunction, Values),
    /// A method without forms runs on these arguments.
    Perform(BuiltIn, Arguments),
    /// The next turn of a loop, or its end.
    Turn(Box<Repetition>, Counter),
    /// Something is done with an instance.
    Tend(InstanceTask),
    /// A function that the host stored is called: the first value names it, the others are its arguments.
    Native(Values),
    /// The value goes to the top level.
    Give(Value),
}

/// How forms follow one another (HyperSpec 5.3).
#[derive(Clone, Copy, Debug, Drop, PartialEq, Eq)]
pub enum Control {
    /// All of them, whatever their values.
    Progn,
    /// All of them, and the value of the first is given.
    Prog1,
    /// After the test, the first where it holds, else the second if there is one.
    If,
    /// After the test, all of them where it holds.
    When,
    /// After the test, all of them where it does not hold.
    Unless,
    /// As long as their values are true.
    And,
    /// Until a value is true.
    Or,
}

impl Control {
    /// Whether the value of the last form is given as it is.
    pub fn gives_last(self) -> bool
        ensures { result ≡ gives_last self }
    {
        match self {
            Control::Progn | Control::Prog1 | Control::And | Control::Or => true,
            Control::If | Control::When | Control::Unless => false,
        }
    }
}

/// A parameter that gets the value of its init form, before these parameters and the body.
#[derive(Drop)]
pub struct Defaulted {
    pub name: Name,
    pub plan: ParameterPlan,
    pub body: Forms,
    pub saved: Context,
    pub outer: Locals,
}

/// A variable of a let form.
#[derive(Drop)]
pub struct Beside {
    pub outer: usize,
    pub locals: Locals,
    pub name: Name,
    pub plan: Plan,
    pub forms: Forms,
}

/// What is done with a value when it is there.
#[derive(Drop)]
pub enum Frame {
    /// These forms follow, by the value.
    Rest(Control, Forms),
    /// These forms follow, and then this value is given.
    Keep(Forms, Value),
    /// It is the test of a clause with these forms, before these clauses.
    Clause(Forms, Forms),
    /// It is the next of the values that the action is done with; these forms give the others.
    Collect(Action, Forms, Values),
    /// The rest of a body follows, of a function, a method or an effective form; the context and the variables go back to the
    /// caller's.
    Body(Forms, Context, Locals),
    /// It is the value of a parameter; after the body the context and the variables go back to the caller's.
    Bind(Box<Defaulted>),
    /// The rest of a body follows; of the variables only so many of the outermost stay.
    Scope(usize, Forms),
    /// It is the value of the variable of this name, before these variables, with the forms left for them and the body.
    InOrder(usize, Name, Plan, Forms),
    /// It is the value of the variable of this name, beside the variables whose values are there, before these, with the
    /// forms left for them and the body.
    Aside(Box<Beside>),
    /// It is the number of turns.
    Count(Box<Repetition>),
    /// These forms follow in the turn, and then the next turn.
    Turn(Box<Repetition>, Counter, Forms),
    /// The rest of the variables of a `setq` form, from this one on, and their forms.
    Setq(Form, usize, Forms),
    /// These places and forms follow.
    Setf(Forms),
    /// It is the value of a place with these arguments, and is changed by this amount.
    Changed(Primitive, Target, Values, Value),
    /// It is the default initarg at this place of those of a class that has these slots, after these initargs.
    Default(ClassId, Finalized, usize, Values),
    /// It is the value of the initform of the next slot.
    Filled(Box<Filling>),
    /// An instance is up to date with it, and this is done with the instance.
    Updated(InstanceId, Box<Visit>),
    /// T is given for it if it is true, and else NIL.
    Truth,
    /// It is the object for whose slots the names of this `with-slots` form stand, before these forms.
    Slots(Form, Forms),
}

impl Frame {
    /// Whether it is the end of a body, after which its caller goes on.
    fn is_end(&self) -> bool
        ensures { result ≡ is_end self.now }
    {
        match self {
            Frame::Body(rest, _, _) => none_left(rest),
            _ => false,
        }
    }
}

/// Whether these are no forms.
pub fn none_left(forms: &Forms) -> bool
    ensures { result ≡ none_left forms.now }
{
    match forms.split_first() {
        None => true,
        Some(_) => false,
    }
}

/// A frame, and the room for depth of what it waits for.
#[derive(Drop)]
pub struct Level {
    pub frame: Frame,
    pub room: u64,
}

/// The levels that wait. Contracts see the list, the top one first.
#[derive(Drop)]
pub struct Levels {
    levels: Vec<Level>,
}

impl Model for Levels {
    ghost use Rattle.std.specs.Prelude.{List, reverse};
    ghost use Rattle.clos_machine.specs.declared.machine.Level.{Level};
    ghost use Rattle.std.specs.Coded.{coded_list};
    ghost use Rattle.clos_machine.specs.contracts.machine.Level as level;

    ghost Value = { List Level };

    ghost coded = { coded_list level.the_row.coded };

    ghost view = { λ a. reverse a.levels.items };
}

impl Levels {
    /// No levels.
    pub fn new(alloc: Global) -> Levels
        ensures { result ≡ [] }
    {
        Levels {
            levels: Vec::new(alloc),
        }
    }

    /// One more level on top.
    pub fn push(&mut self, level: Level) -> Result<(), AllocError>
        ensures ok { OnOk result (self.new ≡ level ∷ self.old) }
        ensures err { OnErr result (self.new ≡ self.old) }
    {
        self.levels.push(level)?;
        Ok(())
    }

    /// Whether the end of a body is on top: what is evaluated under it stands in tail position, and needs no level of its own.
    pub fn ends_body(&self) -> bool
        ensures { result ≡ ends_body self.now }
    {
        match self.levels.last() {
            None => false,
            Some(level) => level.frame.is_end(),
        }
    }

    /// Takes off the top level.
    pub fn pop(&mut self) -> Option<Level>
        ensures { MatchOption result ((self.old ≡ []) × (self.new ≡ [])) (λ l. self.old ≡ l ∷ self.new) }
    {
        self.levels.pop()
    }
}

/// A state of the machine.
#[derive(Drop)]
pub struct Machine {
    pub levels: Levels,
    pub context: Context,
    /// The variables of the body that runs.
    pub locals: Locals,
    /// How many more forms may nest.
    pub room: u64,
}

impl Machine {
    /// A machine without levels and variables, with this much room for depth, before any call.
    pub fn new(alloc: Global, room: u64) -> Result<Machine, AllocError>
        ensures { IfOk result (λ m. m ≡ record { levels = []; context = known []; locals = []; room = room }) }
    {
        let arguments = Arguments::new(alloc, Values::new(alloc))?;
        let context = Context::of_function(alloc, arguments)?;
        Ok(Machine {
            levels: Levels::new(alloc),
            context,
            locals: Locals::new(alloc),
            room,
        })
    }
}
