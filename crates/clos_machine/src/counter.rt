//! Turns of loops.
ghost use Rattle.std.specs.Prelude.{◌≡◌, suc, pos, MatchOption};
ghost use Rattle.clos_meaning.specs.Variables.{turns_in};

use std::marker::Model;

/// How many turns are left, and how many are done. Contracts see both numbers.
#[derive(Drop)]
pub struct Counter {
    left: u64,
    done: u64,
}

impl Model for Counter {
    ghost use Rattle.std.specs.Prelude.{ℕ, ◌+◌, ◌<◌};
    ghost use Rattle.std.specs.Coded.{coded×, coded_ℕ};

    ghost Value = { ℕ × ℕ };

    ghost coded = { coded× coded_ℕ coded_ℕ };

    ghost view = { λ a. (a.left, a.done) };

    ghost invariant = { λ a. a.left + a.done < 9_223_372_036_854_775_808 };
}

impl Counter {
    /// A loop of so many turns: of none, where the number is negative.
    pub fn new(turns: i64) -> Counter
        ensures { result ≡ (turns_in turns, 0) }
    {
        let left = if turns > 0 { turns as u64 } else { 0 };
        Counter { left, done: 0 }
    }

    /// After one more turn, where one is left.
    pub fn next(&self) -> Option<Counter>
        ensures { MatchOption result (self.now.0 ≡ 0) (λ c. (self.now.0 ≡ suc c.0) × (c.1 ≡ suc self.now.1)) }
    {
        if self.left == 0 {
            return None;
        }
        Some(Counter {
            left: self.left - 1,
            done: self.done + 1,
        })
    }

    /// How many turns are done.
    pub fn done(&self) -> i64
        ensures { result ≡ pos self.now.1 }
    {
        self.done as i64
    }
}
