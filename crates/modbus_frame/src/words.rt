//! Up to 125 register words.
ghost use Rattle.std.specs.Prelude.{◌≡◌, ◌≤◌, ◌<◌, ◌++◌, ◌∷◌, [], length};
ghost use Rattle.std.specs.Option.{SomeIff};

use arrayvec::ArrayVec;
use std::marker::Model;

/// At most 125 registers, as one reading or writing request carries them.
///
/// A contract sees it as the list of its numbers.
#[derive(Debug, PartialEq, Eq, Drop)]
pub struct Words {
    items: ArrayVec<u16, 125>,
}

impl Model for Words {
    ghost use Rattle.std.specs.Prelude.{List, ℕ, ◌≤◌, length};

    ghost Value = { List ℕ };

    ghost view = { λ w. w.items.items };

    ghost invariant = { λ w. length w.items.items ≤ 125 };

    ghost inverse = { λ items. record { items = record { items = items } } };
}

impl Words {
    /// The most registers that a message carries.
    pub const MAX_LEN: usize = 125;

    /// No registers.
    pub fn new() -> Words
        ensures { result ≡ [] }
    {
        Words {
            items: ArrayVec::new(),
        }
    }

    /// These registers, or `None` where they are more than 125.
    pub fn from_slice(words: &[u16]) -> Option<Words>
        ensures { SomeIff result (length words.now ≤ 125) words.now }
    {
        let items = ArrayVec::try_from(words).ok()?;
        Some(Words { items })
    }

    /// These registers, of which there are at most 125.
    pub fn from_few(words: &[u16]) -> Words
        requires { length words.now ≤ 125 }
        ensures { result ≡ words.now }
    {
        Words::from_slice(words).unwrap()
    }

    /// Adds a register at the end.
    pub fn push(&mut self, word: u16)
        requires { length self.old < 125 }
        ensures { self.new ≡ self.old ++ word ∷ [] }
    {
        self.items.push(word);
    }

    /// The registers, in order.
    pub fn as_slice(&self) -> &[u16]
        ensures value { result.now ≡ self.now }
        ensures most { length self.now ≤ 125 }
    {
        &self.items
    }
}
