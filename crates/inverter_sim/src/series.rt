//! Watts at one tick after another.
ghost use Rattle.std.specs.Prelude.{◌≡◌, ◌≤◌, ◌<◌, All, length};
ghost use Rattle.inverter_sim.specs.Tick.{present, later};

use std::marker::Model;

/// Watts at one tick after another, each at most 1,000,000; the last ones stay.
///
/// A contract sees the watts now and at the ticks to come.
#[derive(Debug, Drop)]
pub(crate) struct Series {
    watts: Vec<u32>,
    next: usize,
}

impl Model for Series {
    ghost use Rattle.std.specs.Prelude.{ℕ, List, ◌<◌, ◌≤◌, All, drop, length};

    ghost Value = { List ℕ };

    ghost view = { λ s. drop s.next s.watts.items };

    ghost invariant = { λ s. (s.next < length s.watts.items) × All (λ w. w ≤ 1000000) s.watts.items };
}

impl Series {
    pub(crate) fn new(watts: Vec<u32>) -> Series
        requires some { 0 < length watts.items }
        requires limited { All (λ w. w ≤ 1000000) watts.items }
        ensures { result ≡ watts.items }
    {
        Series { watts, next: 0 }
    }

    /// The watts now.
    pub(crate) fn present(&self) -> u32
        ensures watts { result ≡ present self.now }
        ensures limited { result ≤ 1000000 }
    {
        self.watts[self.next]
    }

    /// The next tick has the next watts.
    #[tactic(auto, using(crate::proofs::Upcoming::later_more, crate::proofs::Upcoming::later_last))]
    pub(crate) fn go_on(&mut self)
        ensures { self.new ≡ later self.old }
    {
        if self.next + 1 < self.watts.len() {
            self.next += 1;
        }
    }
}
