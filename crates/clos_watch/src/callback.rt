//! A dependent that answers.
ghost use Rattle.std.specs.Prelude.{◌≡◌, ℤ, [], true, length};
ghost use Rattle.std.specs.List.{list_all};
ghost use Rattle.clos_watch.specs.Answers.{is_within, least};

use crate::dependent::Dependent;
use crate::notice::Notice;
use crate::reserved::Reserved;
use std::alloc::{AllocError, Global};

/// What answers to notices, with a number within its bounds.
pub trait Listener: Drop {
    ghost lo: { Self → ℤ };

    ghost hi: { Self → ℤ };

    /// The answer to a notice.
    fn answer(&self, notice: &Notice) -> i64
        ensures { is_within (lo self.now) (hi self.now) result ≡ true };
}

/// Keeps what it hears, and what a listener answers to each notice. All answers are within the bounds of the listener.
#[derive(Drop)]
pub struct Callback<L: Listener> {
    listener: L,
    heard: Reserved<Notice>,
    answers: Reserved<i64>,
    ghost each: { (length answers.items ≡ length heard.items) × (list_all (is_within (L.lo listener) (L.hi listener)) answers.items ≡ true) },
}

impl<L: Listener> Callback<L> {
    /// One that heard nothing, and has this listener answer.
    pub fn new(alloc: Global, listener: L) -> Callback<L>
        ensures { (result.heard.items ≡ []) × (result.answers.items ≡ []) × (result.listener ≡ listener) }
    {
        Callback {
            listener,
            heard: Reserved::new(alloc),
            answers: Reserved::new(alloc),
        }
    }

    /// What the listener answered, one answer for each notice, in order.
    pub fn answers(&self) -> &[i64]
        ensures answers { result.now ≡ self.now.answers.items }
        ensures each { length result.now ≡ length self.now.heard.items }
        ensures within { list_all (is_within (L.lo self.now.listener) (L.hi self.now.listener)) result.now ≡ true }
    {
        self.answers.as_slice()
    }
}

impl<L: Listener> Dependent for Callback<L> {
    ghost told = { λ it. it.heard.items };

    ghost room = { λ it. least it.heard.room it.answers.room };

    fn prepare(&mut self, count: usize) -> Result<(), AllocError> {
        self.heard.prepare(count)?;
        self.answers.prepare(count)
    }

    fn tell(&mut self, notice: &Notice) -> i64 {
        let answer = self.listener.answer(notice);
        self.heard.push(*notice);
        self.answers.push(answer);
        answer
    }

    fn heard(&self) -> &[Notice] {
        self.heard.as_slice()
    }
}
