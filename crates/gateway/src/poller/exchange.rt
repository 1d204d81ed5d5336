//! One request over a link, and the wait for what decides it.
ghost use Rattle.std.specs.Prelude.{◌≡◌, ◌-◌, ◌≤◌, ◌==◌, ◌&&◌, ◌++◌, None, OnOk, IfOk};
ghost use Rattle.std.specs.Io.KnownBytes.{Keeps};
ghost use Rattle.modbus_frame.specs.Exchange.{SendsFront, CountsSent, left};
ghost use Rattle.modbus_frame.specs.Frame.{frame_bytes, IsFrame};
ghost use Rattle.modbus_frame.specs.Link.{CountsBy};
ghost use Rattle.modbus_frame.specs.Message.{HasQuantity};
ghost use Rattle.gateway.specs.poller.LinkRun.{frame_of, is_reply, next_id, Suits};
ghost use Rattle.gateway.specs.poller.Polling.{Asks, fault_of, UsesUp};
ghost use Rattle.gateway.specs.poller.Waiting.{Waits, CountsWaited};

use crate::poller::outcome::Outcome;
use modbus_frame::{Frame, FrameReader, Link, LinkFault, Request, request_pdu, send, write_frame};

/// With so many dropped frames a request is stale.
pub const MOST_DROPPED: u8 = 17;

/// Sends a request and waits for its outcome.
pub(crate) fn exchange<L: Link>(
    link: &mut L,
    reader: &mut FrameReader,
    id: u16,
    unit: u8,
    request: &Request,
    turns: &mut u32,
) -> Result<Outcome, LinkFault>
    requires quantity { HasQuantity request.now }
    requires reads { reader.old.held.fault ≡ None }
    ensures asks { Asks
        (record {
          ahead = reader.old.held.kept ++ reader.old.unfed;
          coming = L.coming link.old;
          sent = L.sent link.old;
          failures = L.failures link.old;
          calls = L.calls link.old;
          id = id;
          fault = None;
        })
        unit request.now result
        (record {
          ahead = reader.new.held.kept ++ reader.new.unfed;
          coming = L.coming link.new;
          sent = L.sent link.new;
          failures = L.failures link.new;
          calls = L.calls link.new;
          id = next_id id;
          fault = fault_of result;
        }) }
    ensures suits { IfOk result (Suits request.now) }
    ensures fresh { OnOk result (reader.new.held.fault ≡ None) }
    ensures calls { CountsBy (turns.old - turns.new) (L.calls link.old) (L.calls link.new) }
    ensures within { turns.new ≤ turns.old }
    ensures used { UsesUp result turns.new }
{
    match send_request(link, id, unit, request, turns) {
        Ok(()) => wait(link, reader, id, unit, request, turns),
        Err(fault) => Err(fault),
    }
}

/// Sends the frame of a request.
fn send_request<L: Link>(
    link: &mut L,
    id: u16,
    unit: u8,
    request: &Request,
    turns: &mut u32,
) -> Result<(), LinkFault>
    requires { HasQuantity request.now }
    ensures sends { SendsFront (L.sent link.old) (L.sent link.new) result
        (frame_bytes (frame_of (record { id = id; unit = unit; request = request.now }))) }
    ensures keeps { Keeps (L.coming link.old) (L.coming link.new) }
    ensures failures { CountsSent (L.failures link.old) (L.failures link.new) result turns.new }
    ensures calls { CountsBy (turns.old - turns.new) (L.calls link.old) (L.calls link.new) }
    ensures within { turns.new ≤ turns.old }
{
    let frame = request_frame(id, unit, request);
    let mut buffer = [0; Frame::MAX_LEN];
    let len = write_frame(&frame, &mut buffer);
    let (bytes, _) = buffer.split_at(len);
    send(link, bytes, turns)
}

/// The frame of a request to a unit, of this transaction.
pub fn request_frame(id: u16, unit: u8, request: &Request) -> Frame
    requires { HasQuantity request.now }
    ensures frame { result ≡ frame_of (record { id = id; unit = unit; request = request.now }) }
    ensures is_frame { IsFrame result }
{
    Frame {
        transaction: id,
        unit,
        pdu: request_pdu(request),
    }
}

/// Waits for the reply to a request. Frames with another transaction or unit are dropped; the 17th of them makes it stale.
fn wait<L: Link>(
    link: &mut L,
    reader: &mut FrameReader,
    id: u16,
    unit: u8,
    request: &Request,
    turns: &mut u32,
) -> Result<Outcome, LinkFault>
    requires { reader.old.held.fault ≡ None }
    ensures waits { Waits (left reader.old (L.coming link.old)) (reader.new.held.kept ++ reader.new.unfed) (L.coming link.new)
        (record { id = id; unit = unit; request = request.now }) result }
    ensures suits { IfOk result (Suits request.now) }
    ensures fresh { OnOk result (reader.new.held.fault ≡ None) }
    ensures keeps { Keeps (L.sent link.old) (L.sent link.new) }
    ensures failures { CountsWaited (L.failures link.old) (L.failures link.new) result turns.new }
    ensures calls { CountsBy (turns.old - turns.new) (L.calls link.old) (L.calls link.new) }
    ensures within { turns.new ≤ turns.old }
{
    let mut may_drop = MOST_DROPPED;
    while may_drop > 0 {
        match reader.next_frame(link, turns) {
            Ok(Some(frame)) => {
                if is_reply(&frame, id, unit) {
                    return Ok(Outcome::of_reply(request, &frame.pdu));
                }
                may_drop -= 1;
            }
            Ok(None) => return Err(LinkFault::End),
            Err(fault) => return Err(fault),
        }
    }
    Ok(Outcome::Stale)
}

/// Whether a frame has the transaction and the unit of a request: it is its reply.
pub fn is_reply(frame: &Frame, id: u16, unit: u8) -> bool
    ensures { result ≡ (frame.now.transaction == id && frame.now.unit == unit) }
{
    frame.transaction == id && frame.unit == unit
}
