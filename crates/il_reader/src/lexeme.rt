//! A word as far as it is read.
ghost use Rattle.std.specs.Prelude.{◌≡◌, ◌++◌, ◌∷◌, [], length, nat_lt, if◌then◌else◌};
ghost use Rattle.point_types.specs.Name.{most_characters};

use std::marker::Model;

/// The most characters of a word.
const WORD_CAPACITY: usize = 32;

/// A word of at most 32 characters. Contracts see its bytes.
#[derive(Drop)]
pub(crate) struct Lexeme {
    bytes: [u8; 32],
    length: usize,
}

impl Model for Lexeme {
    ghost use Rattle.std.specs.Prelude.{◌≤◌, ℕ, List, take};

    ghost Value = { List ℕ };

    ghost view = { λ w. take w.length w.bytes };

    ghost invariant = { λ w. w.length ≤ 32 };
}

impl Lexeme {
    /// The word of one character.
    pub(crate) fn of_byte(byte: u8) -> Lexeme
        ensures { result ≡ byte ∷ [] }
    {
        let mut bytes = [0; WORD_CAPACITY];
        bytes[0] = byte;
        Lexeme { bytes, length: 1 }
    }

    /// The word with one more character; none where it has 32.
    pub fn with(mut self, byte: u8) -> Option<Lexeme>
        ensures { result ≡ (if nat_lt (length self) most_characters then Some (self ++ byte ∷ []) else None) }
    {
        if self.length < WORD_CAPACITY {
            self.bytes[self.length] = byte;
            self.length += 1;
            Some(self)
        } else {
            None
        }
    }

    /// The characters of the word.
    pub fn as_bytes(&self) -> &[u8]
        ensures { result.now ≡ self.now }
    {
        &self.bytes[..self.length]
    }
}
