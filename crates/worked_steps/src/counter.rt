//! What answers the frames of a session.
use modbus_frame::{Frame, FrameReply, Pdu, Responder};
use service_requests::refusal;

/// Answers each frame by its function and how many frames came; the answer to one of them is the last.
#[derive(Drop)]
pub(crate) struct Counter {
    frames: u8,
    last: u8,
}

impl Counter {
    pub(crate) fn new(last: u8) -> Counter {
        Counter { frames: 0, last }
    }

    fn reply(&self, frame: &Frame) -> Option<Frame> {
        let function = *frame.pdu.bytes().first()?;
        Some(Frame {
            transaction: frame.transaction,
            unit: frame.unit,
            pdu: Pdu::from_bytes(&[function, self.frames])?,
        })
    }
}

impl Responder for Counter {
    ghost use Rattle.std.specs.Prelude.{⊤};

    ghost answers = { λ _ _ _ _ _. ⊤ };

    fn answer(&mut self, frame: &Frame) -> FrameReply {
        self.frames = self.frames.wrapping_add(1);
        match self.reply(frame) {
            Some(reply) if self.frames == self.last => FrameReply::new(&reply, 1, &[0xAA], false),
            Some(reply) => FrameReply::whole(&reply),
            None => refusal(frame),
        }
    }
}
