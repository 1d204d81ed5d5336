//! The numbers from the bottom to the top of a chart.
ghost use Rattle.std.specs.Prelude.{◌≤◌};

use crate::coordinates::{BOTTOM, TOP, y_on};
use crate::recorded::Sample;

/// How many steps the numbers of a line reach over at most.
const MOST: i128 = 5;

/// How far apart the numbers beside an axis may be, for each power of ten.
const STEPS: [i128; 3] = [1, 2, 5];

/// The powers of ten that numbers of 64 bits reach.
const POWERS: i32 = 20;

/// How many numbers may stand beside an axis: one more than steps, and one more where the numbers begin within a step.
pub(crate) const MARKS: i32 = 7;

/// The least and the greatest of some numbers.
#[derive(Clone, Copy)]
pub(crate) struct Extent {
    pub low: i64,
    pub high: i64,
}

/// The numbers of a chart's lower and upper end, and how far apart those are that stand beside it.
#[derive(Clone, Copy)]
pub(crate) struct Axis {
    pub low: i128,
    pub high: i128,
    step: i128,
}

/// The least and the greatest number of some samples; none where none has a number.
pub(crate) fn extent_of(samples: &[Sample]) -> Option<Extent> {
    let mut all = None;
    for sample in samples {
        if let Some(n) = sample.own_number().or(sample.default_number()) {
            all = Some(with(all, n));
        }
    }
    all
}

fn with(extent: Option<Extent>, n: i64) -> Extent {
    match extent {
        Some(all) => Extent {
            low: all.low.min(n),
            high: all.high.max(n),
        },
        None => Extent { low: n, high: n },
    }
}

impl Axis {
    /// From the least to the greatest number of a line, and on to the round numbers beside these; to 0 where there is only one.
    pub fn of(samples: &[Sample]) -> Axis {
        match extent_of(samples) {
            Some(all) if all.low < all.high => Axis::over(
                i128::from(all.low),
                i128::from(all.high),
            ),
            Some(all) => Axis::over(i128::from(all.low.min(0)), i128::from(all.high.max(0))),
            None => Axis::over(0, 1),
        }
    }

    fn over(low: i128, high: i128) -> Axis {
        let step = step_over(high.saturating_sub(low));
        let low = round_down(low, step);
        let high = round_up(high, step).max(low.saturating_add(step));
        Axis { low, high, step }
    }

    /// The k-th number beside the axis, counted from 0 at its lower end; none above its upper end.
    pub fn mark(self, k: i32) -> Option<i128> {
        let number = self
            .low
            .saturating_add(self.step.saturating_mul(i128::from(k)));
        if number <= self.high {
            Some(number)
        } else {
            None
        }
    }

    /// How high a number stands.
    pub fn y(self, number: i128) -> u32
        ensures top { TOP ≤ result }
        ensures bottom { result ≤ BOTTOM }
    {
        y_on(self.low, self.high, number)
    }

    /// How high a number of the line stands.
    pub fn y_of(self, number: i64) -> u32
        ensures top { TOP ≤ result }
        ensures bottom { result ≤ BOTTOM }
    {
        self.y(i128::from(number))
    }
}

/// How far apart round numbers are, so that a span needs few of them.
fn step_over(span: i128) -> i128 {
    let mut power: i128 = 1;
    for _ in 0..POWERS {
        if let Some(step) = step_by(power, span) {
            return step;
        }
        power = power.saturating_mul(10);
    }
    power
}

/// The same, where a step of this power of ten is enough.
fn step_by(power: i128, span: i128) -> Option<i128> {
    for count in STEPS {
        let step = power.saturating_mul(count);
        if span <= step.saturating_mul(MOST) {
            return Some(step);
        }
    }
    None
}

/// The greatest number of whole steps that isn't above a number.
fn round_down(number: i128, step: i128) -> i128 {
    let over = number.checked_rem(step).unwrap_or(0);
    let down = number.saturating_sub(over);
    if over < 0 {
        down.saturating_sub(step)
    } else {
        down
    }
}

/// The least one that isn't below it.
fn round_up(number: i128, step: i128) -> i128 {
    let down = round_down(number, step);
    if down == number {
        down
    } else {
        down.saturating_add(step)
    }
}
