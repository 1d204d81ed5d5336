//! Where the tokens of a byte stand in their text.
ghost use Rattle.std.specs.Prelude.{◌≡◌, ◌+◌, ◌<◌, ◌≤◌, ◌^◌};
ghost use Rattle.il_reader.specs.Tracing.{AreCovered, AreInOrder, IsCovered, IsMoved};

use crate::lexer::{Lexed, Mode};
use crate::text::{is_decimal_digit, is_word_letter};
use point_types::lower_case;

/// Bytes of a text: the number of the first one, and the number of the byte after them.
#[derive(Clone, Copy)]
pub(crate) struct Span {
    pub at: usize,
    pub behind: usize,
}

/// How far a text is read, by the numbers of its bytes.
#[derive(Clone, Copy)]
pub(crate) struct Spots {
    /// The first byte of the line.
    pub start: usize,
    /// The first byte of what stands open; the next byte where nothing does.
    pub begun: usize,
    /// The next byte.
    pub next: usize,
    /// The last token of the line.
    pub last: Span,
}

/// The tokens of a byte, in their order.
#[derive(Clone, Copy)]
pub(crate) struct Tokens {
    /// The last token of the line before them.
    pub before: Span,
    /// The token that the byte has ended; where it has ended none, the one before.
    pub ended: Span,
    /// What the byte ends or begins.
    pub own: Span,
}

impl Spots {
    /// Before the first byte of a text.
    pub(crate) fn opening() -> Spots
        ensures { result ≡ record { start = 0; begun = 0; next = 0; last = record { at = 0; behind = 0 } } }
    {
        Spots {
            start: 0,
            begun: 0,
            next: 0,
            last: Span { at: 0, behind: 0 },
        }
    }

    /// Where the tokens of the next byte stand; `turned`: the byte before is the first one of its word.
    pub(crate) fn tokens(self, turned: bool, ended: bool) -> Tokens
        requires order { AreInOrder self }
        requires few { self.next < 2 ^ 31 }
        ensures { AreCovered self result }
    {
        let behind = self.next + 1;
        if !ended {
            return Tokens {
                before: self.last,
                ended: self.last,
                own: Span {
                    at: self.begun,
                    behind,
                },
            };
        }
        let seam = self.seam(turned);
        Tokens {
            before: self.last,
            ended: Span {
                at: self.begun,
                behind: seam,
            },
            own: Span { at: seam, behind },
        }
    }

    /// The bytes that are at fault where the next one can't follow what stands open: that, with the byte where it might
    /// be of the same word or number. Where nothing stands open it is the byte alone.
    pub(crate) fn stuck(self, byte: u8) -> Span
        requires order { AreInOrder self }
        requires few { self.next < 2 ^ 31 }
        ensures { IsCovered self result }
    {
        let behind = if self.begun == self.next || goes_on(byte) {
            self.next + 1
        } else {
            self.next
        };
        Span {
            at: self.begun,
            behind,
        }
    }

    /// After the next byte, which has made these tokens.
    pub(crate) fn pass(self, byte: u8, lexed: &Lexed, tokens: Tokens) -> Spots
        requires order { AreInOrder self }
        requires few { self.next < 2 ^ 31 }
        requires covered { AreCovered self tokens }
        ensures order { AreInOrder result }
        ensures moved { IsMoved byte self result }
    {
        let next = self.next + 1;
        if byte == b'\n' {
            return Spots {
                start: next,
                begun: next,
                next,
                last: Span {
                    at: next,
                    behind: next,
                },
            };
        }
        Spots {
            start: self.start,
            begun: if lexed.mode.is_clear() {
                next
            } else {
                tokens.own.at
            },
            next,
            last: if lexed.own.is_some() {
                tokens.own
            } else {
                tokens.ended
            },
        }
    }

    /// The byte after the token that the next one ends.
    fn seam(self, turned: bool) -> usize
        requires { self.begun ≤ self.next }
        ensures least { self.begun ≤ result }
        ensures most { result ≤ self.next }
    {
        if turned && self.begun < self.next {
            self.next - 1
        } else {
            self.next
        }
    }
}

/// Whether the next byte makes a word of the N after `&`.
pub(crate) fn is_turned(mode: &Mode, byte: u8) -> bool {
    match mode {
        Mode::AndNot => goes_on(byte),
        _ => false,
    }
}

/// Whether a byte may stand in a word or a number after its first one.
fn goes_on(byte: u8) -> bool {
    let lower = lower_case(byte);
    is_word_letter(lower) || is_decimal_digit(byte) || byte == b'#'
}
