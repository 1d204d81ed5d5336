//! Answering the frames that come over a link.
ghost use Rattle.modbus_frame.specs.Link.{CountsCalls};
ghost use Rattle.modbus_frame.specs.Serving.{Serves, Replies};

use crate::exchange::FrameReader;
use crate::frame::Frame;
use crate::link::{Link, LinkFault};
use crate::reply::FrameReply;

/// The most reads and writes of one call.
pub const MOST_CALLS: u32 = 1_000_000;

/// What answers frames.
pub trait Responder {
    ghost use Rattle.std.specs.Prelude.{◌≡◌, ◌<◌, ℕ, List, Bool, true, length};
    ghost use Rattle.modbus_frame.specs.declared.frame.Frame.{Frame};

    /// Which bytes answer a frame, whether more may be answered after them, and what that leaves.
    ghost answers: { Self → Frame → List ℕ → Bool → Self → Type 0 };

    /// Answers a frame, by at least one byte where more may be answered.
    fn answer(&mut self, frame: &Frame) -> FrameReply
        ensures answers { answers self.old frame.now result.bytes result.goes_on self.new }
        ensures some { result.goes_on ≡ true → 0 < length result.bytes };
}

/// Answers the frames that come over a link, one after another, to the link's end between two frames or to an answer
/// after which none may be, and gives their number (MODBUS Messaging on TCP/IP Implementation Guide, section 4.4.2).
///
/// [`LinkFault`]: Read and Write where the link failed, Frame where the bytes that came are no frame, End where they end
/// inside one, Turns after 1,000,000 reads and writes. What was answered so far stands.
pub fn serve<R: Responder, L: Link>(responder: &mut R, link: &mut L) -> Result<u32, LinkFault>
    ensures serves { Serves R.answers
        (record { coming = L.coming link.old; sent = L.sent link.old; failures = L.failures link.old; calls = L.calls link.old })
        (record { coming = L.coming link.new; sent = L.sent link.new; failures = L.failures link.new; calls = L.calls link.new })
        responder.old responder.new result }
    ensures calls { CountsCalls (L.calls link.old) (L.calls link.new) result }
{
    let mut reader = FrameReader::new();
    let mut turns = MOST_CALLS;
    let mut served = 0;
    loop {
        match reader.next_frame(link, &mut turns) {
            Ok(Some(frame)) => match answer_next(responder, link, &frame, &mut turns) {
                Ok(true) => served += 1,
                Ok(false) => return Ok(served + 1),
                Err(fault) => return Err(fault),
            },
            Ok(None) => return Ok(served),
            Err(fault) => return Err(fault),
        }
    }
}

// Answers a frame, and tells whether more may be answered.
fn answer_next<R: Responder, L: Link>(
    responder: &mut R,
    link: &mut L,
    frame: &Frame,
    turns: &mut u32,
) -> Result<bool, LinkFault>
    ensures { Replies R.answers
        (record { coming = L.coming link.old; sent = L.sent link.old; failures = L.failures link.old; calls = L.calls link.old })
        (record { coming = L.coming link.new; sent = L.sent link.new; failures = L.failures link.new; calls = L.calls link.new })
        responder.old frame.now responder.new result turns.old turns.new }
{
    let answer = responder.answer(frame);
    match answer.send(link, turns) {
        Ok(()) => Ok(answer.goes_on()),
        Err(fault) => Err(fault),
    }
}
