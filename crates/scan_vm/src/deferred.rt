//! The deferred values of a trial.
ghost use Rattle.std.specs.Prelude.{◌≡◌, ◌<◌, [], ◌∷◌, length, MatchOption, false, nat_lt, not};

use crate::value::Value;
use std::marker::Model;

/// The most deferred values.
const CAPACITY: usize = 128;

/// The values that wait for their operator, 128 at most; contracts see the last one first.
#[derive(Drop)]
pub(crate) struct Deferred {
    values: [Value; 128],
    count: usize,
}

impl Model for Deferred {
    ghost use Rattle.std.specs.Prelude.{◌≡◌, List, ◌≤◌, length, take, reverse};
    ghost use Rattle.point_types.specs.Value.{Value as TypedNumber};

    ghost Value = { List TypedNumber };

    ghost view = { λ d. reverse (take d.count d.values) };

    ghost invariant = { λ d. (d.count ≤ 128) × (length d.values ≡ 128) };
}

impl Deferred {
    pub fn new() -> Self
        ensures { result ≡ [] }
    {
        Deferred {
            values: [Value::truth(false); 128],
            count: 0,
        }
    }

    #[tactic(auto, using(crate::proofs::Stack::stack_length))]
    pub(crate) fn is_full(&self) -> bool
        ensures full { result ≡ not (nat_lt (length self.now) 128) }
        ensures room { result ≡ false → length self.now < 128 }
    {
        self.count == CAPACITY
    }

    pub fn clear(&mut self)
        ensures { self.new ≡ [] }
    {
        self.count = 0;
    }

    pub fn push(&mut self, value: Value)
        requires { length self.old < 128 }
        ensures { self.new ≡ value ∷ self.old }
    {
        self.values[self.count] = value;
        self.count += 1;
    }

    pub fn pop(&mut self) -> Option<Value>
        ensures { MatchOption result ((self.old ≡ []) × (self.new ≡ [])) (λ v. self.old ≡ v ∷ self.new) }
    {
        if self.count == 0 {
            return None;
        }
        self.count -= 1;
        Some(self.values[self.count])
    }

    /// Takes the last two off, the last one first.
    pub(crate) fn pop_two(&mut self) -> Option<(Value, Value)>
        ensures { MatchOption result (length self.old < 2) (λ both. self.old ≡ both.0 ∷ both.1 ∷ self.new) }
    {
        let last = self.pop()?;
        let before = self.pop()?;
        Some((last, before))
    }

    /// A value that was taken off since the last one was put on: 0 for the one that was taken last.
    pub(crate) fn taken(&self, number: usize) -> Option<Value> {
        let place = self.count.checked_add(number)?;
        self.values.get(place).copied()
    }
}
