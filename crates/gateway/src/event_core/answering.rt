//! The core of a gateway answers clients.
ghost use Rattle.modbus_frame.specs.Link.{CountsCalls};
ghost use Rattle.modbus_frame.specs.Serving.{Serves};
ghost use Rattle.gateway.specs.event_core.Control.{AnswersOn, AnswersFrame};

use crate::event_core::Core;
use modbus_frame::{
    Exception, Frame, FrameReply, Link, LinkFault, Pdu, Responder, exception_pdu, serve,
};

impl<const DEPTH: usize> Responder for Core<DEPTH> {
    ghost use Rattle.gateway.specs.event_core.Control.{AnswersFrame};

    ghost answers = { AnswersFrame };

    fn answer(&mut self, frame: &Frame) -> FrameReply {
        FrameReply::whole(&Frame {
            transaction: frame.transaction,
            unit: frame.unit,
            pdu: self.reply_to(frame),
        })
    }
}

impl<const DEPTH: usize> Core<DEPTH> {
    // The reply to a frame, for whichever unit it is.
    fn reply_to(&mut self, frame: &Frame) -> Pdu
        ensures { AnswersOn self.old frame.now result self.new }
    {
        if frame.unit != self.site().unit() {
            return exception_pdu(&frame.pdu, Exception::GATEWAY_TARGET_FAILED);
        }
        self.reply(&frame.pdu)
    }
}

/// Answers the frames that come over a link, one after another, each by a frame with its transaction and unit, to the
/// link's end between two frames, and gives their number (MODBUS Messaging on TCP/IP Implementation Guide, section
/// 4.4.2). A frame for another unit than the gateway's is answered with exception 0B. Takes no memory.
///
/// [`LinkFault`]: Read and Write where the link failed, Frame where the bytes that came are no frame, End where they end
/// inside one, Turns after 1,000,000 reads and writes. What was answered and set so far stands.
pub fn serve_client<const DEPTH: usize, L: Link>(
    core: &mut Core<DEPTH>,
    link: &mut L,
) -> Result<u32, LinkFault>
    // What went out answers the frames that came: with an Ok all that the link had to give; else what is left of the
    // stream is told.
    ensures serves { Serves AnswersFrame
        (record { coming = L.coming link.old; sent = L.sent link.old; failures = L.failures link.old; calls = L.calls link.old })
        (record { coming = L.coming link.new; sent = L.sent link.new; failures = L.failures link.new; calls = L.calls link.new })
        core.old core.new result }
    ensures calls { CountsCalls (L.calls link.old) (L.calls link.new) result }
{
    serve(core, link)
}
