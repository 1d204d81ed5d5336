//! From pieces of a stream to frames.
ghost use Rattle.std.specs.Prelude.{◌≡◌, ◌+◌, ◌-◌, ◌≤◌, ◌<◌, ◌++◌, ◌↔◌, [], length, min, take, IsTrue, None, Some};
ghost use Rattle.arrayvec.specs.ArrayVec.{array_vec_len};
ghost use Rattle.modbus_frame.specs.Frame.{frame_bytes, protocol_of, length_of, IsFrame, IsLength, IsFaulty};
ghost use Rattle.modbus_frame.specs.Framing.{Feeds, Announces};

use crate::fault::FrameFault;
use crate::frame::Frame;
use crate::pdu::Pdu;
use arrayvec::ArrayVec;
use std::marker::Model;

/// Finds the frames of a stream that comes in pieces.
///
/// A contract sees the bytes that it keeps, less than a frame, and the fault that it met.
#[derive(Debug, Drop)]
pub struct Framer<const CAP: usize> {
    kept: ArrayVec<u8, CAP>,
    fault: Option<FrameFault>,
}

impl<const CAP: usize> Model for Framer<CAP> {
    ghost use Rattle.std.specs.Prelude.{◌≤◌};
    ghost use Rattle.modbus_frame.specs.Held.{Held};
    ghost use Rattle.modbus_frame.specs.Frame.{IsRest};

    ghost Value = { Held };

    ghost view = { λ f. record { kept = f.kept.items; fault = f.fault } };

    ghost invariant = { λ f. (260 ≤ CAP) × IsRest f.kept.items };
}

/// What a piece gave.
#[derive(Debug, PartialEq, Eq, Drop)]
pub struct Fed {
    /// How many bytes of the piece were used: up to the end of its first whole frame, else all of them.
    pub used: usize,
    /// The frame that is whole now.
    pub frame: Option<Frame>,
}

impl<const CAP: usize> Framer<CAP> {
    /// A framer at the start of a stream.
    pub fn new() -> Framer<CAP>
        requires { 260 ≤ CAP }
        ensures { result ≡ record { kept = []; fault = None } }
    {
        Framer {
            kept: ArrayVec::new(),
            fault: None,
        }
    }

    /// Whether it keeps no bytes: a stream that ends now ends between frames.
    pub fn is_empty(&self) -> bool
        ensures { IsTrue result ↔ (self.now.kept ≡ []) }
    {
        self.kept.is_empty()
    }

    /// The fault that it met, and answers from then on.
    pub fn fault(&self) -> Option<FrameFault>
        ensures { result ≡ self.now.fault }
    {
        self.fault
    }

    /// Takes the next piece of the stream, up to the end of the first frame that is whole now; the caller feeds
    /// the others again. A fault comes with the fourth or sixth byte of what is no frame, and then at each call.
    pub fn feed(&mut self, piece: &[u8]) -> Result<Fed, FrameFault>
        ensures { Feeds self.old piece.now result self.new }
    {
        if let Some(fault) = self.fault {
            return Err(fault);
        }
        let head = fill(&mut self.kept, 6, piece);
        match announced(&self.kept) {
            Err(fault) => {
                self.kept.clear();
                self.fault = Some(fault);
                Err(fault)
            }
            Ok(None) => Ok(Fed {
                used: head,
                frame: None,
            }),
            Ok(Some(len)) => {
                let used = head + fill(&mut self.kept, len, piece.split_at(head).1);
                if self.kept.len() < len {
                    return Ok(Fed { used, frame: None });
                }
                let frame = frame_of(&self.kept);
                self.kept.clear();
                Ok(Fed {
                    used,
                    frame: Some(frame),
                })
            }
        }
    }
}

// Appends bytes of the piece until there are `len`, and gives how many it took.
fn fill<const CAP: usize>(kept: &mut ArrayVec<u8, CAP>, len: usize, piece: &[u8]) -> usize
    requires { len ≤ CAP }
    ensures used { result ≡ min (len - array_vec_len kept.old) (length piece.now) }
    ensures items { kept.new.items ≡ kept.old.items ++ take result piece.now }
{
    let n = len.saturating_sub(kept.len()).min(piece.len());
    kept.try_extend_from_slice(&piece[..n]).unwrap();
    n
}

// The number of bytes of the whole frame that begins so, once its length is there.
fn announced(bytes: &[u8]) -> Result<Option<usize>, FrameFault>
    ensures { Announces bytes.now result }
{
    match bytes {
        [_, _, high, low, ..] if *high != 0 || *low != 0 => Err(FrameFault::BadProtocol),
        [_, _, _, _, high, low, ..] => match u16::from_be_bytes([*high, *low]) {
            len @ 2..=254 => Ok(Some(6 + len as usize)),
            _ => Err(FrameFault::BadLength),
        },
        _ => Ok(None),
    }
}

// The frame that these bytes spell.
fn frame_of(bytes: &[u8]) -> Frame
    requires protocol { protocol_of bytes.now ≡ 0 }
    requires announced { IsLength (length_of bytes.now) }
    requires whole { length bytes.now ≡ 6 + length_of bytes.now }
    ensures spelled { frame_bytes result ≡ bytes.now }
    ensures frame { IsFrame result }
{
    Frame {
        transaction: u16::from_be_bytes([bytes[0], bytes[1]]),
        unit: bytes[6],
        pdu: Pdu::from_bytes(&bytes[7..]).unwrap(),
    }
}
