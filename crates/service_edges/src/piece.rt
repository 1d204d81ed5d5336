//! Bytes that came, and how far they were used.
ghost use Rattle.std.specs.Prelude.{◌≡◌, ◌≤◌, ◌↔◌, IsTrue, [], drop};
ghost use Rattle.service_edges.specs.Bytes.{Conserves};

use std::io;
use std::io::Read;
use std::marker::Model;

/// The most bytes that are read at once.
pub(crate) const PIECE: usize = 2048;

/// Bytes that came, and how far they were used. Contracts see those that weren't.
#[derive(Drop)]
pub(crate) struct Piece {
    bytes: [u8; 2048],
    start: usize,
    end: usize,
    ghost begins: { start ≤ end },
    ghost fits: { end ≤ 2048 },
}

impl Model for Piece {
    ghost use Rattle.std.specs.Prelude.{ℕ, List, slice_range};

    ghost Value = { List ℕ };

    ghost view = { λ p. slice_range p.bytes p.start p.end };
}

impl Piece {
    /// None came yet.
    pub(crate) fn new() -> Piece
        ensures { result ≡ [] }
    {
        Piece {
            bytes: [0; PIECE],
            start: 0,
            end: 0,
        }
    }

    /// Whether all were used.
    pub(crate) fn is_empty(&self) -> bool
        ensures { IsTrue result ↔ (self.now ≡ []) }
    {
        self.start == self.end
    }

    /// Those that weren't used.
    pub(crate) fn rest(&self) -> &[u8]
        ensures { result.now ≡ self.now }
    {
        &self.bytes[self.start..self.end]
    }

    /// Whether more can be read.
    pub(crate) fn has_room(&self) -> bool {
        self.end < PIECE || self.is_empty()
    }

    /// Reads the next ones, after those that weren't used. Gives how many came; none also where there is no room.
    pub(crate) fn fill_from<S: Read>(&mut self, stream: &mut S) -> io::Result<usize>
        ensures { Conserves self.old (S.remaining stream.old) self.new (S.remaining stream.new) }
    {
        self.begin_anew();
        let n = stream.read(&mut self.bytes[self.end..])?;
        self.end += n;
        Ok(n)
    }

    // Where all were used there is room for a whole piece.
    fn begin_anew(&mut self)
        ensures { self.new ≡ self.old }
    {
        if self.is_empty() {
            self.start = 0;
            self.end = 0;
        }
    }

    /// So many of them were used.
    pub(crate) fn use_up(&mut self, used: usize)
        ensures { self.new ≡ drop used self.old }
    {
        self.start = self.start.saturating_add(used).min(self.end);
    }
}
