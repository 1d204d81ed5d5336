//! A stream that doesn't wait.
ghost use Rattle.std.specs.Prelude.{◌≡◌, ◌≤◌, [], length, take, drop};
ghost use Rattle.std.specs.Io.KnownBytes.{Appends};
ghost use Rattle.service_edges.specs.Bytes.{Conserves};

use crate::piece::Piece;
use std::io::{ErrorKind, Read, Write};

/// A stream that doesn't wait. The system says once that there is something to do: from then on there may be, until a
/// call would have to wait.
#[derive(Drop)]
pub struct Connection<S: Read + Write + Drop> {
    stream: S,
    piece: Piece,
    /// Whether something may have come.
    is_readable: bool,
    /// Whether the system may take more.
    is_writable: bool,
    /// Whether the bytes that came aren't wanted yet.
    is_stalled: bool,
    /// Whether the other end sends no more.
    has_ended: bool,
    is_broken: bool,
}

impl<S: Read + Write + Drop> Connection<S> {
    /// Over this stream, of which nothing was read.
    pub fn new(stream: S) -> Connection<S>
        ensures stream { result.stream ≡ stream }
        ensures rest { result.piece ≡ [] }
    {
        Connection {
            stream,
            piece: Piece::new(),
            is_readable: true,
            is_writable: true,
            is_stalled: false,
            has_ended: false,
            is_broken: false,
        }
    }

    /// The stream.
    pub fn stream(&self) -> &S
        ensures { result.now ≡ self.now.stream }
    {
        &self.stream
    }

    /// The system says that there is something to do.
    pub fn wake(&mut self)
        ensures stream { self.new.stream ≡ self.old.stream }
        ensures rest { self.new.piece ≡ self.old.piece }
    {
        self.is_readable = true;
        self.is_writable = true;
    }

    /// The bytes that came and weren't used.
    pub fn rest(&self) -> &[u8]
        ensures { result.now ≡ self.now.piece }
    {
        self.piece.rest()
    }

    /// So many of them were used; none where they aren't wanted yet.
    pub fn use_up(&mut self, used: usize)
        ensures stream { self.new.stream ≡ self.old.stream }
        ensures rest { self.new.piece ≡ drop used self.old.piece }
    {
        self.is_stalled = used == 0;
        self.piece.use_up(used);
    }

    /// Whether the other end is gone, and all that it sent is used or isn't wanted.
    pub fn is_over(&self) -> bool {
        self.is_broken || self.has_ended && (self.piece.is_empty() || self.is_stalled)
    }

    /// Whether a call failed.
    pub fn is_broken(&self) -> bool {
        self.is_broken
    }

    /// Whether there is something to do without a wait, where so many bytes are to go out.
    pub fn is_busy(&self, waiting: usize) -> bool {
        if self.is_broken || waiting > 0 && self.is_writable {
            return true;
        }
        if self.is_readable && self.piece.has_room() {
            return true;
        }
        !self.piece.is_empty() && !self.is_stalled
    }

    /// Reads more, as far as there is room, also where what came before isn't wanted yet: so the end of the stream is seen. Of what
    /// was to come nothing is lost, nothing added.
    pub fn fill(&mut self)
        ensures { Conserves self.old.piece (S.remaining self.old.stream) self.new.piece (S.remaining self.new.stream) }
    {
        if !self.piece.has_room() || !self.is_readable {
            return;
        }
        match self.piece.fill_from(&mut self.stream) {
            Ok(0) => self.end(),
            Ok(_) => {}
            Err(fault) => self.not_read(fault.kind()),
        }
    }

    fn end(&mut self)
        ensures stream { self.new.stream ≡ self.old.stream }
        ensures rest { self.new.piece ≡ self.old.piece }
    {
        self.has_ended = true;
        self.is_readable = false;
    }

    fn not_read(&mut self, kind: ErrorKind)
        ensures stream { self.new.stream ≡ self.old.stream }
        ensures rest { self.new.piece ≡ self.old.piece }
    {
        match kind {
            ErrorKind::WouldBlock => self.is_readable = false,
            ErrorKind::Interrupted => {}
            _ => self.fail(),
        }
    }

    /// Writes some of the bytes, where the system may take them, and gives how many went: just so many of the first ones did.
    pub fn write(&mut self, bytes: &[u8]) -> usize
        ensures bound { result ≤ length bytes.now }
        ensures gone { Appends (S.contents self.old.stream) (S.contents self.new.stream) (take result bytes.now) }
        ensures rest { self.new.piece ≡ self.old.piece }
    {
        if bytes.is_empty() || !self.is_writable {
            return 0;
        }
        match self.stream.write(bytes) {
            Ok(0) => {
                self.fail();
                0
            }
            Ok(n) => {
                self.is_stalled = false;
                n
            }
            Err(fault) => {
                self.not_written(fault.kind());
                0
            }
        }
    }

    fn not_written(&mut self, kind: ErrorKind)
        ensures stream { self.new.stream ≡ self.old.stream }
        ensures rest { self.new.piece ≡ self.old.piece }
    {
        match kind {
            ErrorKind::WouldBlock => self.is_writable = false,
            ErrorKind::Interrupted => {}
            _ => self.fail(),
        }
    }

    fn fail(&mut self)
        ensures stream { self.new.stream ≡ self.old.stream }
        ensures rest { self.new.piece ≡ self.old.piece }
    {
        self.is_broken = true;
        self.is_readable = false;
        self.is_writable = false;
    }
}
