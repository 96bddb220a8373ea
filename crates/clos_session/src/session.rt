//! Sessions: the top-level forms that are submitted one after another, and what they leave.
ghost use Rattle.std.specs.Prelude.{◌≡◌, [], min, IfErr, IfOk, option_map, slice_get, unwrap_or};
ghost use Rattle.lisp_data.specs.DatumView.{datum_of};
ghost use Rattle.clos_perform.specs.clos_world.Definitions.{Same};
ghost use Rattle.clos_perform.specs.clos_world.World.{seen};
ghost use Rattle.clos_perform.specs.clos_machine.Machine.{AnswersWith};
ghost use Rattle.clos_perform.specs.Step.{step};
ghost use Rattle.clos_perform.specs.clos_world.Initial.{initial};
ghost use Rattle.clos_perform.specs.clos_watch.Handed.{place_of};
ghost use Rattle.clos_perform.specs.clos_definition_forms.clos_effects.Hearing.{Heard};
ghost use Rattle.clos_session.specs.Definitions.{DefinesNothing};
ghost use Rattle.clos_session.specs.Session.{answers_of, built_of, state_of, Replies};
ghost use Rattle.clos_session.specs.Uses.{MakesUses, none_kept, session_uses};
ghost use Rattle.clos_perform.specs.clos_machine.clos_meaning.Output.{WritesMore};
ghost use Rattle.clos_perform.specs.clos_machine.Uses.{KeepsBy};

use clos_perform::{Dependents, Limits, Natives, Notice, Stop, Values, World, perform, place_of};
use lisp_data::{Datum, Name, Value};
use std::alloc::{AllocError, Global};

/// The answer to a top-level form.
#[derive(Drop)]
pub enum Reply {
    Value(Value),
    /// A condition, by its number, with what it is about.
    Condition { number: u64, items: Values },
    /// Memory was refused: the session stands as it was after so many steps of the form.
    Storage { steps: u64 },
}

/// A session. It begins with the predefined classes, and each form that is submitted to it may define more. Its programs may
/// call the functions that are stored for it, and add its dependents to classes and generic functions (AMOP chapter 6).
pub struct Session<N, D> {
    world: World,
    natives: N,
    dependents: D,
    answers: Vec<i64>,
    alloc: Global,
}

/// By hand: to drop a session is then one call, and not one for each of its tables at each way out.
impl<N: Drop, D: Drop> Drop for Session<N, D> {
    fn drop(self) {
        let Session {
            world: _,
            natives: _,
            dependents: _,
            answers: _,
            alloc: _,
        } = self;
    }
}

impl<N: Natives, D: Dependents> Session<N, D> {
    /// A session that begins, under these limits. Programs may call these functions and add these dependents by their names;
    /// of two with one name in a `Vec` the first is called or told.
    pub fn new(
        alloc: Global,
        limits: Limits,
        natives: N,
        dependents: D,
    ) -> Result<Session<N, D>, AllocError>
        ensures state { IfOk result (λ s. state_of s ≡ initial limits (D.names dependents)) }
        ensures built { IfOk result (λ s. built_of s ≡ 0) }
        ensures uses { IfOk result (λ s. session_uses s ≡ none_kept) }
        ensures answers { IfOk result (λ s. answers_of s ≡ []) }
        ensures host { IfOk result (λ s. N.host s.natives ≡ N.host natives) }
        ensures names { IfOk result (λ s. D.names s.dependents ≡ D.names dependents) }
        ensures heard { IfOk result (λ s. D.told s.dependents ≡ D.told dependents) }
    {
        let names = dependents.copy_names(alloc)?;
        let world = World::new(alloc, limits, names)?;
        Ok(Session {
            world,
            natives,
            dependents,
            answers: Vec::new(alloc),
            alloc,
        })
    }

    /// What the dependent of this name heard, in order, if the session was handed one: what it had heard before, and then of
    /// each change of a class or a generic function that it was a dependent of.
    pub fn heard(&self, name: &Name) -> Option<&[Notice]>
        ensures { option_map (λ r. r.now) result ≡ option_map (λ p. unwrap_or (slice_get (D.told self.now.dependents) p)
            []) (place_of (state_of self.now).hearing.names name.now) }
    {
        match place_of(self.world.hearing.names.as_slice(), name) {
            Some(place) => Some(self.dependents.heard(place)),
            None => None,
        }
    }

    /// What the host's functions answered so far, one answer for each call, in order.
    pub fn answers(&self) -> &[i64]
        ensures { result.now ≡ answers_of self.now }
    {
        self.answers.as_slice()
    }

    /// What the forms wrote so far.
    pub fn written(&self) -> &[u8]
        ensures { result.now ≡ (state_of self.now).written }
    {
        self.world.written.as_slice()
    }

    /// How many effective methods were worked out so far (HyperSpec 7.6.6): each use of a generic function works one out where
    /// none is kept for it.
    pub fn built(&self) -> u64
        ensures { result ≡ built_of self.now }
    {
        self.world.meter.count()
    }

    /// Drops all effective methods that are kept: the calls to come work theirs out again, and answer the same.
    pub fn clear_cache(&mut self)
        ensures cleared { self.new.world.cache ≡ [] }
        ensures state { state_of self.new ≡ state_of self.old }
        ensures answers { answers_of self.new ≡ answers_of self.old }
        ensures built { built_of self.new ≡ built_of self.old }
        ensures natives { self.new.natives ≡ self.old.natives }
        ensures dependents { self.new.dependents ≡ self.old.dependents }
    {
        let world = &mut self.world;
        world.cache.clear();
    }

    /// The state that the forms left: their definitions, instances and variables, and what they wrote.
    pub fn world(&self) -> &World
        ensures { seen result.now ≡ state_of self.now }
    {
        &self.world
    }

    /// Performs a top-level form with so many steps, which fall by those that it takes. What was written before stays. A form that stops
    /// defines nothing.
    pub fn perform(&mut self, datum: &Datum, steps: &mut u64) -> Result<Value, Stop>
        ensures answers { AnswersWith (N.host self.old.natives) (step (datum_of datum.now)) (state_of self.old)
            steps.old (answers_of self.old) result (state_of self.new) steps.new (answers_of self.new) }
        ensures uses { KeepsBy (N.host self.old.natives) (step (datum_of datum.now)) (state_of self.old) steps.old
            (answers_of self.old) (session_uses self.old) result steps.new (answers_of self.new) (session_uses self.new) }
        ensures written { WritesMore (state_of self.old) (state_of self.new) }
        ensures heard { Heard (D.told self.old.dependents) (state_of self.old) (D.told self.new.dependents)
            (state_of self.new) }
        ensures kept { (N.host self.new.natives ≡ N.host self.old.natives) ×
            (D.names self.new.dependents ≡ D.names self.old.dependents) }
        ensures refused { IfErr result (λ _. Same (state_of self.old) (state_of self.new)) }
    {
        perform(
            self.alloc,
            &mut self.world,
            &self.natives,
            &mut self.answers,
            &mut self.dependents,
            datum,
            steps,
        )
    }

    /// Performs a top-level form (HyperSpec 3.1.2.1), and answers as its rules have it. A refused form defines nothing, and neither does
    /// one that memory is refused to. Each use of a generic function works its effective method out where none is kept, and keeps it; a
    /// definition drops those of the calls that it concerns, and no others.
    pub fn submit(&mut self, datum: &Datum) -> Reply
        ensures reply { Replies (N.host self.old.natives) (step (datum_of datum.now)) (state_of self.old).limits.steps
            (state_of self.old) (answers_of self.old) result (state_of self.new) (answers_of self.new) }
        ensures uses { MakesUses (N.host self.old.natives) (step (datum_of datum.now)) (state_of self.old).limits.steps
            (state_of self.old) (answers_of self.old) (session_uses self.old) result (answers_of self.new)
            (session_uses self.new) }
        ensures written { WritesMore (state_of self.old) (state_of self.new) }
        ensures heard { Heard (D.told self.old.dependents) (state_of self.old) (D.told self.new.dependents)
            (state_of self.new) }
        ensures kept { (N.host self.new.natives ≡ N.host self.old.natives) ×
            (D.names self.new.dependents ≡ D.names self.old.dependents) }
        ensures refused { DefinesNothing result (state_of self.old) (state_of self.new) }
    {
        let limit = self.world.limits.steps;
        self.submit_within(datum, limit)
    }

    /// The same with so many steps at most: the form may take the smaller of `steps` and the session's limit. Where it would
    /// take more, the reply is the condition STEP-LIMIT, and what it did before stays done. So with the steps that a
    /// `Reply::Storage` tells, a session in the same state comes to the state that was left there.
    pub fn submit_within(&mut self, datum: &Datum, steps: u64) -> Reply
        ensures reply { Replies (N.host self.old.natives) (step (datum_of datum.now))
            (min steps (state_of self.old).limits.steps) (state_of self.old) (answers_of self.old) result
            (state_of self.new) (answers_of self.new) }
        ensures uses { MakesUses (N.host self.old.natives) (step (datum_of datum.now))
            (min steps (state_of self.old).limits.steps) (state_of self.old) (answers_of self.old)
            (session_uses self.old) result (answers_of self.new) (session_uses self.new) }
        ensures written { WritesMore (state_of self.old) (state_of self.new) }
        ensures heard { Heard (D.told self.old.dependents) (state_of self.old) (D.told self.new.dependents)
            (state_of self.new) }
        ensures kept { (N.host self.new.natives ≡ N.host self.old.natives) ×
            (D.names self.new.dependents ≡ D.names self.old.dependents) }
        ensures refused { DefinesNothing result (state_of self.old) (state_of self.new) }
    {
        let budget = steps.min(self.world.limits.steps);
        let mut left = budget;
        match self.perform(datum, &mut left) {
            Ok(value) => Reply::Value(value),
            Err(Stop::Refused(condition)) => Reply::Condition {
                number: condition.kind.number(),
                items: condition.items,
            },
            Err(Stop::Storage) => Reply::Storage {
                steps: budget - left,
            },
        }
    }
}
