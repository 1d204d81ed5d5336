//! One client's connection.
ghost use Rattle.std.specs.Prelude.{◌≡◌, ◌≤◌, ◌<◌, ◌↔◌, [], length, take, IsTrue};
ghost use Rattle.modbus_frame.specs.Serving.{ReplyBytes};
ghost use Rattle.service_requests.specs.Sessions.{fresh, IsFree, IsOver, Puts, TakesPiece};

use arrayvec::ArrayVec;
use modbus_frame::{FrameReply, Framer, Responder};
use std::marker::Model;

/// Answers the frames of a stream that comes in pieces, one frame at a time: the next is taken once the bytes of the last
/// answer are gone. Takes no memory.
///
/// A contract sees what its framer holds, the bytes that are still to go out, and whether more frames may be answered.
#[derive(Drop)]
pub struct Session {
    framer: Framer<260>,
    /// The piece of the answer that goes out now, of which the bytes before `start` are gone.
    piece: ArrayVec<u8, 260>,
    start: usize,
    /// The rest of the answer.
    answer: FrameReply,
}

/// What a session took of a piece.
#[derive(Clone, Copy, Debug, PartialEq, Eq)]
pub struct PieceTaken {
    /// How many bytes were used.
    pub used: usize,
    /// How many frames were answered, one at most.
    pub frames: usize,
}

impl Model for Session {
    ghost use Rattle.std.specs.Prelude.{◌≡◌, ◌≤◌, ◌++◌, [], drop, length};
    ghost use Rattle.modbus_frame.specs.Frame.{IsRest};
    ghost use Rattle.service_requests.specs.Talk.{Talk};

    ghost Value = { Talk };

    ghost view = { λ s. record {
      held = s.framer;
      waiting = drop s.start s.piece.items ++ s.answer.bytes;
      goes_on = s.answer.goes_on;
    } };

    ghost invariant = { λ s. (s.start ≤ length s.piece.items)
        × (s.start ≡ length s.piece.items → s.answer.bytes ≡ []) × IsRest s.framer.kept };
}

impl Session {
    /// A session at the start of a stream.
    pub fn new() -> Session
        ensures { result ≡ fresh }
    {
        Session {
            framer: Framer::new(),
            piece: ArrayVec::new(),
            start: 0,
            answer: FrameReply::nothing(),
        }
    }

    /// Whether the next frame may be answered: nothing waits to go out, and the last answer lets more follow.
    pub fn is_free(&self) -> bool
        ensures { IsTrue result ↔ IsFree self.now }
    {
        self.is_sent() && self.answer.goes_on()
    }

    /// Whether nothing more will go out: nothing waits, and the stream is at fault or the last answer ended it.
    pub fn is_over(&self) -> bool
        ensures { IsTrue result ↔ IsOver self.now }
    {
        self.is_sent() && (self.framer.fault().is_some() || !self.answer.goes_on())
    }

    /// Takes the next piece of the stream, up to the end of the first frame that is whole now, and answers that frame; the
    /// caller gives the others again. A fault uses up all of the piece, and stays.
    pub fn take<R: Responder>(&mut self, responder: &mut R, piece: &[u8]) -> PieceTaken
        requires { IsFree self.old }
        ensures takes { TakesPiece R.answers responder.old self.old piece.now result responder.new self.new }
        ensures used { result.used ≤ length piece.now }
        ensures one { result.frames ≤ 1 }
        ensures some { 0 < length piece.now → 0 < result.used }
    {
        match self.framer.feed(piece) {
            Ok(fed) => {
                let used = fed.used;
                let Some(frame) = &fed.frame else {
                    return PieceTaken { used, frames: 0 };
                };
                self.hold(responder.answer(frame));
                PieceTaken { used, frames: 1 }
            }
            Err(_) => PieceTaken {
                used: piece.len(),
                frames: 0,
            },
        }
    }

    /// Puts the next bytes of the answer into the front of the buffer, and gives their number: none only where none wait.
    pub fn put(&mut self, into: &mut [u8]) -> usize
        ensures puts { Puts self.old (take result into.new) self.new }
        ensures fits { result ≤ length into.old }
        ensures all { 0 < length into.old → result ≡ 0 → self.old.waiting ≡ [] }
    {
        let end = self.piece.len().min(self.start + into.len());
        let n = end - self.start;
        into[..n].copy_from_slice(&self.piece[self.start..end]);
        self.start = end;
        if self.start == self.piece.len() {
            self.piece = self.answer.next_piece();
            self.start = 0;
        }
        n
    }

    /// Whether nothing waits to go out.
    pub(crate) fn is_sent(&self) -> bool
        ensures { IsTrue result ↔ (self.now.waiting ≡ []) }
    {
        self.start == self.piece.len()
    }

    // From now on these bytes wait.
    fn hold(&mut self, answer: FrameReply)
        ensures held { self.new.held ≡ self.old.held }
        ensures waiting { self.new.waiting ≡ answer.bytes }
        ensures goes_on { self.new.goes_on ≡ answer.goes_on }
    {
        self.answer = answer;
        self.piece = self.answer.next_piece();
        self.start = 0;
    }
}
