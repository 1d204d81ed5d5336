//! The last hour of several quantities.
ghost use Rattle.std.specs.Prelude.{◌≡◌, ◌≤◌, ◌<◌, ◌+◌, ◌*◌, ◌^◌, ◌++◌, ◌/◌, List, [], ◌∷◌, map, max, slice_get, string_bytes, Some, OnOk, IfSome};
ghost use Rattle.history.specs.Recorded.{AreKeptOf, IsNamed, number_at, put_by};
ghost use Rattle.history.specs.Steps.{Put, next_step, nothing_put};

use crate::series::Series;
use std::alloc::{AllocError, Global};
use std::marker::Model;

/// How long a step is, in milliseconds.
const STEP: u64 = 10_000;

/// How many bytes the last hour of a quantity takes at most: 359 steps of 24 bytes, and its name.
const QUANTITY: u64 = 9_000;

/// How many bytes the lines take at most: 256 of 280 bytes, and what holds them.
const LINES: u64 = 120_000;

/// What several quantities were in the last hour, each under its name.
#[derive(Drop)]
pub struct Quantities {
    alloc: Global,
    names: Vec<String>,
    /// Those of the names, in their order.
    series: Vec<Series>,
    /// How many steps are over.
    passed: u64,
}

impl Model for Quantities {
    ghost use Rattle.std.specs.Prelude.{map, string_bytes};
    ghost use Rattle.history.specs.Recorded.{Recorded};

    ghost Value = { Recorded };

    ghost view = { λ q. record { names = map string_bytes q.names.items; series = q.series.items; over = q.passed } };
}

impl Quantities {
    /// None so far.
    pub fn new(alloc: Global) -> Quantities
        ensures none { result.series ≡ [] }
        ensures over { result.over ≡ 0 }
    {
        Quantities {
            alloc,
            names: Vec::new(alloc),
            series: Vec::new(alloc),
            passed: 0,
        }
    }

    /// One more, of which nothing is known so far.
    pub fn add(&mut self, name: String) -> Result<(), AllocError>
        ensures names { OnOk result (self.new.names ≡ self.old.names ++ string_bytes name ∷ []) }
        ensures over { self.new.over ≡ self.old.over }
        ensures kept { (puts : List Put) → AreKeptOf puts self.old.series → OnOk result (AreKeptOf (puts ++ nothing_put ∷ []) self.new.series) }
    {
        let series = Series::new(self.alloc)?;
        self.series.push(series)?;
        self.names.push(name)?;
        Ok(())
    }

    /// Begins the step of so many milliseconds after the start, where it doesn't run.
    pub fn turn_to(&mut self, now: u64)
        ensures names { self.new.names ≡ self.old.names }
        ensures over { self.new.over ≡ max self.old.over (now / 10000) }
        ensures kept { (puts : List Put) → AreKeptOf puts self.old.series → AreKeptOf (put_by self.old.over now puts) self.new.series }
    {
        let step = now / STEP;
        for _ in self.passed..step {
            self.pass();
        }
        self.passed = self.passed.max(step);
    }

    /// The step that runs is over.
    fn pass(&mut self)
        ensures names { self.new.names ≡ self.old.names }
        ensures over { self.new.over ≡ self.old.over }
        ensures kept { (puts : List Put) → AreKeptOf puts self.old.series → AreKeptOf (map next_step puts) self.new.series }
    {
        pass_all(self.series.as_mut_slice());
    }

    /// Puts a number into that of this place, where there is one.
    pub fn put(&mut self, place: usize, number: i64)
        ensures names { self.new.names ≡ self.old.names }
        ensures over { self.new.over ≡ self.old.over }
        ensures kept { (puts : List Put) → AreKeptOf puts self.old.series → AreKeptOf (number_at place number puts) self.new.series }
    {
        put_at(self.series.as_mut_slice(), place, number);
    }

    /// The one of a name.
    pub(crate) fn named(&self, name: &str) -> Option<&Series>
        ensures { IfSome result (λ series. IsNamed name.now self.now series.now) }
    {
        match place_of(self.names.as_slice(), name) {
            Some(place) => self.series.get(place),
            None => None,
        }
    }
}

/// The place of the first of these names that is this one.
fn place_of(names: &[String], name: &str) -> Option<usize>
    ensures { IfSome result (λ place. slice_get (map string_bytes names.now) place ≡ Some name.now) }
{
    for (place, known) in names.iter().enumerate() {
        if known.as_str() == name {
            return Some(place);
        }
    }
    None
}

/// Puts a number into the series of this place, where there is one.
fn put_at(series: &mut [Series], place: usize, number: i64)
    ensures { (puts : List Put) → AreKeptOf puts series.old → AreKeptOf (number_at place number puts) series.new }
{
    if place < series.len() {
        series[place].put(number);
    }
}

/// How many quantities have room in so many bytes, beside the lines.
pub fn quantities_in(bytes: u64) -> u64
    ensures { 120000 ≤ bytes → 9000 * result + 120000 ≤ bytes }
{
    bytes.saturating_sub(LINES) / QUANTITY
}

/// How many bytes so many quantities take, with the lines.
pub fn bytes_of(quantities: u64) -> u64
    ensures { quantities < 2 ^ 48 → result ≡ 9000 * quantities + 120000 }
{
    quantities.saturating_mul(QUANTITY).saturating_add(LINES)
}

/// The step that runs is over for all of these.
fn pass_all(series: &mut [Series])
    ensures { (puts : List Put) → AreKeptOf puts series.old → AreKeptOf (map next_step puts) series.new }
{
    for one in series.iter_mut() {
        one.pass();
    }
}
