//! One request on one connection, and the wait for what decides it.
ghost use Rattle.std.specs.Prelude.{◌≡◌, ◌+◌, ◌-◌, ◌<◌, ◌≤◌, ◌↔◌, [], ◌∷◌, drop, length, IsTrue, IsSome, None, Some};
ghost use Rattle.modbus_frame.specs.Frame.{frame_bytes};
ghost use Rattle.modbus_frame.specs.Message.{HasQuantity};
ghost use Rattle.gateway.specs.poller.LinkRun.{Asked as AskedRequest, frame_of};
ghost use Rattle.service_requests.specs.Hearing.{FeedsNext, Hears, Takes, Wait as WaitValue, asking, fresh, lost_by, waiting, with_rest};

use crate::request_end::RequestEnd;
use arrayvec::ArrayVec;
use gateway::{MOST_DROPPED, Outcome, is_reply, request_frame};
use modbus_frame::{Frame, FrameFault, Framer, Request, write_frame};
use std::marker::Model;

/// One connection to a device: what came of a frame in part, and the request that is under way. The bytes after those stay with
/// the caller.
#[derive(Drop)]
pub struct PendingRequest {
    framer: Framer<260>,
    wait: Option<Wait>,
}

/// What was taken of a stream.
#[derive(Drop)]
pub struct BytesTaken {
    /// So many bytes were used; the others are to be given again, before those that come.
    pub used: usize,
    /// What became of the request that was under way, where that is known now.
    pub fate: Option<RequestEnd>,
}

/// A request that waits for its reply.
#[derive(Drop)]
struct Wait {
    id: u16,
    unit: u8,
    request: Request,
    /// With so many frames more that are dropped it is stale.
    may_drop: u8,
}

impl Model for Wait {
    ghost use Rattle.std.specs.Prelude.{◌<◌};
    ghost use Rattle.service_requests.specs.Hearing.{Wait as WaitValue};

    ghost Value = { WaitValue };

    ghost view = { λ w. record { asked = record { id = w.id; unit = w.unit; request = w.request }; may_drop = w.may_drop } };

    ghost invariant = { λ w. 0 < w.may_drop };
}

impl Model for PendingRequest {
    ghost use Rattle.service_requests.specs.Hearing.{Pending};

    ghost Value = { Pending };

    ghost view = { λ i. record { held = i.framer; wait = i.wait } };
}

impl PendingRequest {
    /// A connection over which nothing came yet.
    pub fn new() -> PendingRequest
        ensures { result ≡ fresh }
    {
        PendingRequest {
            framer: Framer::new(),
            wait: None,
        }
    }

    /// Whether a request is under way.
    pub fn is_open(&self) -> bool
        ensures { IsTrue result ↔ IsSome self.now.wait }
    {
        self.wait.is_some()
    }

    /// Begins a request to a unit, and gives the bytes of its frame. Bytes that came before it are to be taken for it; one that
    /// was under way is given up.
    pub fn begin(&mut self, id: u16, unit: u8, request: Request) -> ArrayVec<u8, 260>
        requires { HasQuantity request }
        ensures frame { result.items ≡ frame_bytes (frame_of (record { id = id; unit = unit; request = request })) }
        ensures asks { self.new ≡ asking self.old (record { id = id; unit = unit; request = request }) }
    {
        let bytes = spelled(&request_frame(id, unit, &request));
        self.wait = Some(Wait {
            id,
            unit,
            request,
            may_drop: MOST_DROPPED,
        });
        bytes
    }

    /// Takes the next bytes of the stream, up to the reply where that is among them, and tells what became of the request, once
    /// that is known. Frames with another transaction or unit are dropped, and the 17th of them makes it [`Outcome::Stale`]. Where no
    /// request is under way none are taken. After a fault of the stream each request is lost, and all bytes are used up.
    pub fn take(&mut self, bytes: &[u8]) -> BytesTaken
        ensures takes { Takes (with_rest self.old []) bytes.now result.fate (with_rest self.new (drop result.used bytes.now)) }
        ensures used { result.used ≤ length bytes.now }
    {
        if self.framer.fault().is_some() {
            return BytesTaken {
                used: bytes.len(),
                fate: self.end(),
            };
        }
        let Some(wait) = &mut self.wait else {
            return BytesTaken {
                used: 0,
                fate: None,
            };
        };
        let heard = hear(&mut self.framer, wait, bytes);
        if heard.fate.is_some() {
            self.wait = None;
        }
        heard
    }

    /// The connection ended: what was under way is lost.
    pub fn end(&mut self) -> Option<RequestEnd>
        ensures lost { result ≡ lost_by self.old.wait }
        ensures over { self.new ≡ record self.old { wait = None } }
    {
        match self.wait.take() {
            Some(_) => Some(RequestEnd::Lost),
            None => None,
        }
    }
}

/// The bytes of a frame.
fn spelled(frame: &Frame) -> ArrayVec<u8, 260>
    ensures { result.items ≡ frame_bytes frame.now }
{
    let mut buffer = [0; Frame::MAX_LEN];
    let len = write_frame(frame, &mut buffer);
    ArrayVec::try_from(buffer.split_at(len).0).unwrap()
}

/// What the frames that came make of a request.
fn hear(framer: &mut Framer<260>, wait: &mut Wait, bytes: &[u8]) -> BytesTaken
    requires { framer.old.fault ≡ None }
    ensures hears { Hears wait.old (record { held = framer.old; unfed = bytes.now }) result.fate
        (record { reading = record { held = framer.new; unfed = drop result.used bytes.now }; wait = waiting result.fate wait.new }) }
    ensures used { result.used ≤ length bytes.now }
{
    let mut may_drop = wait.may_drop;
    let mut used = 0;
    while may_drop > 0 {
        match next_frame(framer, bytes, &mut used) {
            Ok(Some(frame)) => {
                if is_reply(&frame, wait.id, wait.unit) {
                    let outcome = Outcome::of_reply(&wait.request, &frame.pdu);
                    return BytesTaken {
                        used,
                        fate: Some(RequestEnd::Told(outcome)),
                    };
                }
                may_drop -= 1;
            }
            Ok(None) => {
                wait.may_drop = may_drop;
                return BytesTaken { used, fate: None };
            }
            Err(_) => {
                return BytesTaken {
                    used,
                    fate: Some(RequestEnd::Lost),
                };
            }
        }
    }
    BytesTaken {
        used,
        fate: Some(RequestEnd::Told(Outcome::Stale)),
    }
}

/// The next frame of the bytes from the given one on; without one all are used.
fn next_frame(
    framer: &mut Framer<260>,
    bytes: &[u8],
    used: &mut usize,
) -> Result<Option<Frame>, FrameFault>
    requires good { framer.old.fault ≡ None }
    requires within { used.old ≤ length bytes.now }
    ensures feeds { FeedsNext (record { held = framer.old; unfed = drop used.old bytes.now }) result (record { held = framer.new; unfed = drop used.new bytes.now }) }
    ensures used { used.new ≤ length bytes.now }
{
    match framer.feed(bytes.split_at(*used).1) {
        Ok(fed) => {
            *used += fed.used;
            Ok(fed.frame)
        }
        Err(fault) => {
            *used = bytes.len();
            Err(fault)
        }
    }
}
