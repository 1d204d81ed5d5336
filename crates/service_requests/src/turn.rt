//! One client's turn.
ghost use Rattle.std.specs.Prelude.{◌≡◌, ◌≤◌, ◌<◌, [], length, take};
ghost use Rattle.service_requests.specs.Sessions.{IsFree, ServesOn};

use crate::session::{PieceTaken, Session};
use modbus_frame::Responder;

/// The most frames that one turn answers.
const MOST_FRAMES: usize = 8;

/// What a turn did.
#[derive(Clone, Copy, Debug, PartialEq, Eq)]
pub struct Turned {
    /// How many bytes of the piece were used.
    pub used: usize,
    /// How many bytes stand in the front of the buffer.
    pub put: usize,
    /// How many frames were answered.
    pub frames: usize,
}

impl Session {
    /// One turn of a client: answers frames of the piece, at most 8, and puts their answers into the front of the buffer,
    /// as far as there is room. The bytes that weren't used are to be given again.
    pub fn turn<R: Responder>(&mut self, responder: &mut R, piece: &[u8], out: &mut [u8]) -> Turned
        ensures serves { ServesOn R.answers result.frames responder.old self.old (take result.used piece.now) (take result.put out.new)
            responder.new self.new }
        ensures frames { result.frames ≤ 8 }
        ensures used { result.used ≤ length piece.now }
        ensures put { result.put ≤ length out.old }

        // It uses some of the piece where a frame may be answered, and puts some bytes where some wait.
        ensures takes { IsFree self.old → 0 < length piece.now → 0 < result.used }
        ensures empties { 0 < length out.old → result.put ≡ 0 → self.old.waiting ≡ [] }

        // Where it puts none, none wait.
        ensures rests { 0 < length out.old → result.put ≡ 0 → self.new.waiting ≡ [] }
    {
        let first = self.step(responder, piece, out);
        let mut used = first.used;
        let mut put = first.put;
        let mut frames = first.frames;
        for _i in 1..MOST_FRAMES {
            if used == piece.len() && self.is_sent() {
                break;
            }
            let next = self.step(responder, piece.split_at(used).1, out.split_at_mut(put).1);
            used += next.used;
            put += next.put;
            frames += next.frames;
        }
        Turned { used, put, frames }
    }

    // Takes bytes up to the next frame, where that may be answered, and puts what waits.
    fn step<R: Responder>(&mut self, responder: &mut R, piece: &[u8], out: &mut [u8]) -> Turned
        ensures serves { ServesOn R.answers result.frames responder.old self.old (take result.used piece.now) (take result.put out.new)
            responder.new self.new }
        ensures frames { result.frames ≤ 1 }
        ensures used { result.used ≤ length piece.now }
        ensures put { result.put ≤ length out.old }
        ensures takes { IsFree self.old → 0 < length piece.now → 0 < result.used }
        ensures empties { 0 < length out.old → result.put ≡ 0 → self.old.waiting ≡ [] }
        ensures rests { 0 < length out.old → result.put ≡ 0 → self.new.waiting ≡ [] }
    {
        if self.is_free() {
            let PieceTaken { used, frames } = self.take(responder, piece);
            let put = self.put(out);
            return Turned { used, put, frames };
        }
        let put = self.put(out);
        Turned {
            used: 0,
            put,
            frames: 0,
        }
    }
}
