//! The bytes that answer a frame.
ghost use Rattle.std.specs.Prelude.{◌≡◌, ◌++◌, ◌≤◌, ◌<◌, [], length, true};
ghost use Rattle.modbus_frame.specs.Frame.{frame_bytes};
ghost use Rattle.modbus_frame.specs.Serving.{Sends, copies};

use crate::exchange::send;
use crate::frame::{Frame, write_frame};
use crate::link::{Link, LinkFault};
use arrayvec::ArrayVec;
use std::marker::Model;

/// What answers a frame: bytes, and whether more frames may be answered after them.
#[derive(Drop)]
pub struct FrameReply {
    first: ArrayVec<u8, 260>,
    times: u8,
    last: ArrayVec<u8, 260>,
    goes_on: bool,
}

impl Model for FrameReply {
    ghost use Rattle.std.specs.Prelude.{◌++◌, ◌<◌, length};
    ghost use Rattle.modbus_frame.specs.Serving.{ReplyBytes, copies};

    ghost Value = { ReplyBytes };

    ghost view = { λ a. record { bytes = copies a.times a.first.items ++ a.last.items; goes_on = a.goes_on } };

    ghost invariant = { λ a. 0 < a.times → 0 < length a.first.items };
}

impl FrameReply {
    /// No bytes, after which frames may be answered.
    pub fn nothing() -> FrameReply
        ensures { result ≡ record { bytes = []; goes_on = true } }
    {
        FrameReply {
            first: ArrayVec::new(),
            times: 0,
            last: ArrayVec::new(),
            goes_on: true,
        }
    }

    /// A frame, after which more may be answered.
    pub fn whole(reply: &Frame) -> FrameReply
        ensures { result ≡ record { bytes = frame_bytes reply.now; goes_on = true } }
    {
        FrameReply {
            first: ArrayVec::new(),
            times: 0,
            last: spelled(reply),
            goes_on: true,
        }
    }

    /// One frame so many times, and then these bytes, at most 260.
    pub fn new(first: &Frame, times: u8, last: &[u8], goes_on: bool) -> FrameReply
        requires { length last.now ≤ 260 }
        ensures { result ≡ record { bytes = copies times (frame_bytes first.now) ++ last.now; goes_on = goes_on } }
    {
        FrameReply {
            first: spelled(first),
            times,
            last: ArrayVec::try_from(last).unwrap(),
            goes_on,
        }
    }

    /// Whether more frames may be answered after it.
    pub fn goes_on(&self) -> bool
        ensures { result ≡ self.now.goes_on }
    {
        self.goes_on
    }

    /// Takes off its next bytes, at most 260: none only where none are left.
    pub fn next_piece(&mut self) -> ArrayVec<u8, 260>
        ensures front { self.old.bytes ≡ result.items ++ self.new.bytes }
        ensures all { result.items ≡ [] → self.new.bytes ≡ [] }
        ensures same { self.new.goes_on ≡ self.old.goes_on }
    {
        if self.times == 0 {
            return self.last.take();
        }
        self.times -= 1;
        let mut piece = ArrayVec::new();
        piece.try_extend_from_slice(&self.first).unwrap();
        piece
    }

    /// Sends its bytes, by at most `turns` writes.
    pub(crate) fn send<L: Link>(&self, link: &mut L, turns: &mut u32) -> Result<(), LinkFault>
        ensures { Sends
            (record { coming = L.coming link.old; sent = L.sent link.old; failures = L.failures link.old; calls = L.calls link.old })
            (record { coming = L.coming link.new; sent = L.sent link.new; failures = L.failures link.new; calls = L.calls link.new })
            result self.now.bytes turns.old turns.new }
    {
        match send_copies(link, &self.first, self.times, turns) {
            Ok(()) => send(link, &self.last, turns),
            Err(fault) => Err(fault),
        }
    }
}

// The bytes of a frame.
fn spelled(frame: &Frame) -> ArrayVec<u8, 260>
    ensures { result.items ≡ frame_bytes frame.now }
{
    let mut buffer = [0; Frame::MAX_LEN];
    let len = write_frame(frame, &mut buffer);
    let (bytes, _) = buffer.split_at(len);
    ArrayVec::try_from(bytes).unwrap()
}

// Sends bytes so many times.
fn send_copies<L: Link>(
    link: &mut L,
    bytes: &[u8],
    count: u8,
    turns: &mut u32,
) -> Result<(), LinkFault>
    ensures { Sends
        (record { coming = L.coming link.old; sent = L.sent link.old; failures = L.failures link.old; calls = L.calls link.old })
        (record { coming = L.coming link.new; sent = L.sent link.new; failures = L.failures link.new; calls = L.calls link.new })
        result (copies count bytes.now) turns.old turns.new }
{
    let mut left = count;
    while left > 0 {
        match send(link, bytes, turns) {
            Ok(()) => left -= 1,
            Err(fault) => return Err(fault),
        }
    }
    Ok(())
}
