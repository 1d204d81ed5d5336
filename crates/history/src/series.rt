//! What a quantity was, step by step.
ghost use Rattle.std.specs.Prelude.{◌≡◌, ◌≤◌, ◌++◌, ℤ, List, [], ◌∷◌, Some, length, string_bytes, IfOk, OnOk};
ghost use Rattle.std.specs.VecDeque.{deque_capacity};
ghost use Rattle.history.specs.Steps.{IsKeptOf, Put, last, next_step, nothing_put, with_number};
ghost use Rattle.history.specs.Bounds.{AreBounds};
ghost use Rattle.history.specs.Points.{points};

use crate::bounds::Bounds;
use crate::points::{push_point, push_steps};
use std::alloc::{AllocError, Global};
use std::collections::VecDeque;
use std::marker::Model;

/// How many steps are kept beside the one that runs.
const OVER: usize = 359;

/// What a quantity was in each of the last 360 steps of time: the least and the greatest of the numbers that were put in during
/// it, or nothing where none was. Memory is taken once, by `new`.
#[derive(Drop)]
pub struct Series {
    /// The steps that are over, the earliest one first.
    over: VecDeque<Option<Bounds>>,
    /// The step that runs.
    running: Option<Bounds>,
}

impl Model for Series {
    ghost use Rattle.std.specs.Prelude.{◌≤◌, length};
    ghost use Rattle.std.specs.VecDeque.{deque_capacity};
    ghost use Rattle.history.specs.Steps.{Kept};

    ghost Value = { Kept };

    ghost view = { λ s. record { over = s.over.items; running = s.running } };

    ghost invariant = { λ s. (length s.over.items ≤ 359) × (359 ≤ deque_capacity s.over) };
}

impl Series {
    /// Nothing was put in so far.
    pub fn new(alloc: Global) -> Result<Series, AllocError>
        ensures { IfOk result (λ series. IsKeptOf nothing_put series) }
    {
        Ok(Series {
            over: VecDeque::with_capacity(alloc, OVER)?,
            running: None,
        })
    }

    /// Puts in a number.
    pub fn put(&mut self, number: i64)
        ensures { (put : Put) → IsKeptOf put self.old → IsKeptOf (with_number number put) self.new }
    {
        self.running = Some(with_number(self.running, number));
    }

    /// The step that runs is over, and the next one runs.
    pub fn pass(&mut self)
        ensures { (put : Put) → IsKeptOf put self.old → IsKeptOf (next_step put) self.new }
    {
        push_last(&mut self.over, self.running);
        self.running = None;
    }

    /// Appends the points of its steps, as a list of JSON.
    pub(crate) fn push_points(&self, text: &mut String) -> Result<(), AllocError>
        ensures { OnOk result (string_bytes text.new ≡ string_bytes text.old ++ points self.now) }
    {
        let (earlier, later) = self.over.as_slices();
        text.push_str("[")?;
        push_steps(text, earlier)?;
        push_steps(text, later)?;
        push_point(text, self.running)?;
        text.push_str("]")
    }
}

/// What is shown with one number more.
fn with_number(shown: Option<Bounds>, number: i64) -> Bounds
    ensures { (numbers : List ℤ) → AreBounds numbers shown → AreBounds (number ∷ numbers) (Some result) }
{
    match shown {
        Some(bounds) => bounds.with(number),
        None => Bounds::of(number),
    }
}

/// Appends a step; where that is one too many, the earliest one is given up.
fn push_last(over: &mut VecDeque<Option<Bounds>>, step: Option<Bounds>)
    requires few { length over.old.items ≤ 359 }
    requires room { 359 ≤ deque_capacity over.old }
    ensures items { over.new.items ≡ last 359 (over.old.items ++ step ∷ []) }
    ensures few { length over.new.items ≤ 359 }
    ensures room { 359 ≤ deque_capacity over.new }
{
    if over.len() >= OVER {
        let _ = over.pop_front();
    }
    // the room is there
    let _ = over.push_back(step);
}
