//! A plant behind a link: frames are read, and answered right or as the plant's faults say.
ghost use Rattle.std.specs.Prelude.{◌≡◌, ◌+◌, ◌≤◌, ◌==◌, ◌&&◌, [], length, take, false, map};
ghost use Rattle.modbus_frame.specs.Bytes.{words_of};
ghost use Rattle.std.specs.Option.{option_map_or};
ghost use Rattle.modbus_frame.specs.Link.{CountsCalls};
ghost use Rattle.modbus_frame.specs.Message.{request_of, words_reply};
ghost use Rattle.modbus_frame.specs.Serving.{Serves};
ghost use Rattle.inverter_sim.specs.Link.{AnswersFrame, watts_model, parsed_begins_scan, begins_among, one_frame_more, next_fault, ticks_before, ticked_before, done, right_reply, done_by, garbled, reply_by, earlier, copies_by, spelled_by, sent_by, goes_on_by};

use crate::device::Device;
use crate::misbehaviour::Misbehaviour;
use crate::plant::Plant;
use crate::works::Works;
use modbus_frame::{
    Exception, Frame, FrameReply, Link, LinkFault, Pdu, Request, Responder, Response, Words,
    exception_pdu, parse_request, response_pdu, serve, write_frame,
};

/// Answers the frames that come over a link, to its end between two frames or to a reply that the plant's faults cut
/// off, and gives their number. Each reply has its frame's transaction and unit; an unknown unit is answered by
/// exception 0B. The plant ticks before each request of function 3 for more than two registers that reads a device from
/// its inverter model, or its meter model, on: in a plant without a meter its first device, else the one that was asked so
/// first.
///
/// [`LinkFault`]: Read and Write where the link failed, Frame where the bytes that came are no frame, End where they end
/// inside one, Turns after 1,000,000 reads and writes. The frames before stay answered, and what they changed stands.
pub fn serve_link<L: Link>(link: &mut L, plant: &mut Plant) -> Result<u32, LinkFault>
    // What went out answers the frames that came: with an Ok all that the link had to give, or those up to a reply that
    // was cut; else what is left of the stream is told.
    ensures serves { Serves AnswersFrame
        (record { coming = L.coming link.old; sent = L.sent link.old; failures = L.failures link.old; calls = L.calls link.old })
        (record { coming = L.coming link.new; sent = L.sent link.new; failures = L.failures link.new; calls = L.calls link.new })
        plant.old plant.new result }
    ensures calls { CountsCalls (L.calls link.old) (L.calls link.new) result }
{
    serve(plant, link)
}

impl Responder for Plant {
    ghost use Rattle.inverter_sim.specs.Link.{AnswersFrame};

    ghost answers = { AnswersFrame };

    fn answer(&mut self, frame: &Frame) -> FrameReply {
        let fault = self.next_fault();
        let reply = Frame {
            transaction: frame.transaction,
            unit: frame.unit,
            pdu: self.answer_by(fault, frame),
        };
        sent_by(fault, reply)
    }
}

impl Plant {
    // Counts a frame, and gives what is wrong at it.
    fn next_fault(&mut self) -> Option<Misbehaviour>
        ensures after { self.new ≡ one_frame_more self.old }
        ensures fault { result ≡ next_fault self.old }
    {
        if self.frames < 1_000_001 {
            self.frames += 1;
        }
        let request = self.frames;
        let fault = self.faults.iter().find(|fault| fault.request == request)?;
        Some(fault.kind)
    }

    // Does a request, unless the fault says that it isn't done, and gives the reply.
    fn answer_by(&mut self, fault: Option<Misbehaviour>, frame: &Frame) -> Pdu
        ensures after { self.new ≡ done_by fault self.old frame.now }
        ensures reply { result ≡ reply_by fault self.old frame.now }
    {
        match fault {
            Some(Misbehaviour::Exception(code)) => exception_pdu(&frame.pdu, Exception(code)),
            Some(Misbehaviour::Garbage(word)) => {
                let reply = self.perform(frame);
                garbled(reply, word)
            },
            _ => self.perform(frame),
        }
    }

    fn perform(&mut self, frame: &Frame) -> Pdu
        ensures after { self.new ≡ done self.old frame.now }
        ensures reply { result ≡ right_reply self.old frame.now }
    {
        self.tick_before(frame);
        self.serve(frame.unit, &frame.pdu)
    }

    // Ticks where the frame is one that ticks the plant.
    fn tick_before(&mut self, frame: &Frame)
        ensures { self.new ≡ ticked_before self.old frame.now }
    {
        if self.ticks_before(frame) {
            self.tick();
            self.pace = Some(frame.unit);
        }
    }

    fn ticks_before(&self, frame: &Frame) -> bool
        ensures { result ≡ ticks_before self.now frame.now }
    {
        if !begins_among(&self.devices, frame) {
            return false;
        }
        match self.pace {
            Some(unit) => unit == frame.unit,
            None => true,
        }
    }
}

// Whether a frame asks the device of its unit for a scan.
fn begins_among(devices: &[Device], frame: &Frame) -> bool
    ensures { result ≡ begins_among devices.now frame.now }
{
    for device in devices {
        if device.unit() == frame.unit {
            return device.begins_scan(frame);
        }
    }
    false
}

impl Device {
    // Whether a frame asks for more than two registers from the model on that shows the device's watts.
    fn begins_scan(&self, frame: &Frame) -> bool
        ensures { result ≡ parsed_begins_scan self.now (request_of frame.now.pdu) }
    {
        match parse_request(&frame.pdu) {
            Ok(Request::Read { addr, qty }) => qty > 2 && self.has_watts_at(addr),
            _ => false,
        }
    }

    fn has_watts_at(&self, addr: u16) -> bool
        ensures { result ≡ option_map_or (λ at. addr == self.now.base + at) (watts_model self.now.works) false }
    {
        match self.works.watts_model() {
            Some(at) => addr >= self.base && (addr - self.base) as usize == at,
            None => false,
        }
    }
}

impl Works {
    fn watts_model(&self) -> Option<usize>
        ensures { result ≡ watts_model self.now }
    {
        match self {
            Works::Inverter(inverter) => inverter.points.inverter,
            Works::Meter(meter) => meter.points.meter,
        }
    }
}

fn goes_on(fault: Option<Misbehaviour>) -> bool
    ensures { result ≡ goes_on_by fault }
{
    match fault {
        Some(Misbehaviour::Cut(_)) => false,
        _ => true,
    }
}

// In the reply to a reading request each register is this word.
fn garbled(reply: Pdu, word: u16) -> Pdu
    ensures { result ≡ garbled word reply }
{
    if let [3, _, values @ ..] = reply.bytes() {
        return words_pdu(repeated(values, word));
    }
    reply
}

// This word for each two bytes.
fn repeated(values: &[u8], word: u16) -> Words
    requires { length values.now ≤ 251 }
    ensures { result ≡ map (λ _. word) (words_of values.now) }
{
    let mut words = Words::new();
    let mut rest = values;
    while let [_, _, behind @ ..] = rest {
        words.push(word);
        rest = behind;
    }
    words
}

fn words_pdu(words: Words) -> Pdu
    ensures { result ≡ words_reply words }
{
    let qty = words.as_slice().len() as u16;
    response_pdu(&Request::Read { addr: 0, qty }, &Ok(Response::Words(words)))
}

// What the fault makes of a reply.
fn sent_by(fault: Option<Misbehaviour>, reply: Frame) -> FrameReply
    ensures { result ≡ record { bytes = sent_by fault reply; goes_on = goes_on_by fault } }
{
    let mut buffer = [0; Frame::MAX_LEN];
    let len = spell(&reply, fault, &mut buffer);
    let Frame {
        transaction,
        unit,
        pdu,
    } = reply;
    let stale = Frame {
        transaction: earlier(transaction),
        unit,
        pdu,
    };
    let (bytes, _) = buffer.split_at(len);
    FrameReply::new(&stale, copies_by(fault), bytes, goes_on(fault))
}

fn earlier(transaction: u16) -> u16
    ensures { result ≡ earlier transaction }
{
    transaction.wrapping_sub(1)
}

fn copies_by(fault: Option<Misbehaviour>) -> u8
    ensures { result ≡ copies_by fault }
{
    match fault {
        Some(Misbehaviour::Stale(count)) => count,
        _ => 0,
    }
}

// Spells a reply at the front of the buffer, and gives the number of bytes that go out.
fn spell(reply: &Frame, fault: Option<Misbehaviour>, buffer: &mut [u8; 260]) -> usize
    ensures spelled { take result buffer.new ≡ spelled_by fault reply.now }
    ensures within { result ≤ 260 }
{
    let len = write_frame(reply, buffer);
    match fault {
        Some(Misbehaviour::Length) => {
            buffer[4] = 0;
            buffer[5] = 255;
            len
        }
        Some(Misbehaviour::Cut(bytes)) => len.min(bytes as usize),
        _ => len,
    }
}
