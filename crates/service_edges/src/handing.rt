//! Bytes that are handed on from a stream, and to it.
ghost use Rattle.service_edges.specs.Bytes.{Forwards, HandsOver};

use crate::connection::Connection;
use std::io::{Read, Write};

/// The most pieces of one turn.
const MOST_PIECES: u32 = 2;

/// Whoever takes the bytes that come over a stream.
pub trait Taker {
    ghost use Rattle.std.specs.Prelude.{ℕ, List, Option, take};
    ghost use Rattle.std.specs.Io.KnownBytes.{Appends};

    /// The bytes that were taken, where they are known.
    ghost taken: { Self → Option (List ℕ) };

    /// Takes some of these bytes, from the front on, and gives how many.
    fn take(&mut self, bytes: &[u8]) -> usize
        ensures { Appends (taken self.old) (taken self.new) (take result bytes.now) };
}

/// Whoever has bytes that are to go out over a stream.
pub trait Giver {
    ghost use Rattle.std.specs.Prelude.{ℕ, List, Option};
    ghost use Rattle.service_edges.specs.Bytes.{BeginsWith, Drops};

    /// The bytes that are to go out, where they are known.
    ghost left: { Self → Option (List ℕ) };

    /// Those that are to go out next.
    fn waiting(&self) -> &[u8]
        ensures { BeginsWith (left self.now) result.now };

    /// So many of them are gone, maybe none.
    fn gone(&mut self, n: usize)
        ensures { Drops n (left self.old) (left self.new) };
}

impl<S: Read + Write + Drop> Connection<S> {
    /// Hands over what came, as long as some of it is taken: each byte once, in order.
    #[tactic(auto, using(crate::proofs::Handed::nothing_handed, crate::proofs::Handed::handed_on))]
    pub fn hand_over<T: Taker>(&mut self, taker: &mut T)
        ensures { HandsOver (T.taken taker.old) self.old.piece (S.remaining self.old.stream) (T.taken taker.new) self.new.piece (S.remaining self.new.stream) }
    {
        for _ in 0..MOST_PIECES {
            if !self.hand_piece(taker) {
                break;
            }
        }
    }

    /// Hands over a piece; whether some of it was taken.
    #[tactic(auto, using(crate::proofs::Handed::piece_handed))]
    fn hand_piece<T: Taker>(&mut self, taker: &mut T) -> bool
        ensures { HandsOver (T.taken taker.old) self.old.piece (S.remaining self.old.stream) (T.taken taker.new) self.new.piece (S.remaining self.new.stream) }
    {
        self.fill();
        if self.rest().is_empty() {
            return false;
        }
        let used = taker.take(self.rest());
        self.use_up(used);
        used > 0
    }

    /// Sends some of what waits: whoever has it is told of just the bytes that the stream took.
    #[tactic(auto, using(crate::proofs::Handed::sent_on))]
    pub fn send<G: Giver>(&mut self, giver: &mut G)
        ensures { Forwards (S.contents self.old.stream) (G.left giver.old) (S.contents self.new.stream) (G.left giver.new) }
    {
        let sent = self.write(giver.waiting());
        giver.gone(sent);
    }
}
