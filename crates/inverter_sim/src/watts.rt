//! Watts in the limits of a plant file.
ghost use Rattle.std.specs.Prelude.{◌≡◌, ◌≤◌};

use std::marker::Model;

/// Watts in 0..1,000,000.
///
/// A contract sees their number.
#[derive(Debug, Drop)]
pub(crate) struct Watts {
    number: u32,
}

impl Model for Watts {
    ghost use Rattle.std.specs.Prelude.{ℕ, ◌≤◌};

    ghost Value = { ℕ };

    ghost view = { λ w. w.number };

    ghost invariant = { λ w. w.number ≤ 1000000 };
}

impl Watts {
    pub(crate) fn new(number: u32) -> Watts
        requires { number ≤ 1000000 }
        ensures { result ≡ number }
    {
        Watts { number }
    }

    pub(crate) fn number(&self) -> u32
        ensures number { result ≡ self.now }
        ensures limited { result ≤ 1000000 }
    {
        self.number
    }
}
