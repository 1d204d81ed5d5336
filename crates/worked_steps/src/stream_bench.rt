//! Streams: frames, a request under way, a client's session.
use crate::bytes::{bytes_of, hex_of, needed, pdu_of};
use crate::counter::Counter;
use crate::devices::bytes_of_frame;
use crate::fault::Shown;
use crate::page::Page;
use crate::stream_step::StreamStep;
use crate::wire::Wire;
use modbus_frame::{
    Fed, Frame, Framer, Pdu, Request, exception_pdu, parse_request, parse_response, request_pdu,
};
use service_requests::{RequestEnd, Session, is_write, refusal};
use std::alloc::Global;

/// One register, W of an inverter.
const W: Request = Request::Read {
    addr: 40084,
    qty: 1,
};

/// What streams come to.
#[derive(Drop)]
pub(crate) struct StreamBench {
    alloc: Global,
    framer: Framer<260>,
    wire: Wire,
    session: Session,
    counter: Counter,
}

impl StreamBench {
    pub(crate) fn new(alloc: Global) -> StreamBench {
        StreamBench {
            alloc,
            framer: Framer::new(),
            wire: Wire::new(alloc),
            session: Session::new(),
            counter: Counter::new(0),
        }
    }

    /// Takes a step, and tells what came of it.
    pub(crate) fn take(&mut self, page: &mut Page, step: StreamStep<'_>) -> Shown<()> {
        match step {
            StreamStep::Feed(bytes) => self.feed(page, &bytes_of(self.alloc, bytes)?),
            StreamStep::FeedBytes(bytes) => self.feed_bytes(page, bytes),
            StreamStep::FeedCut(n, bytes) => self.feed_cut(page, n, bytes),
            StreamStep::Frame(id, unit, pdu) => self.tell_frame(page, id, unit, pdu),
            StreamStep::Request(pdu) => self.tell_request(page, pdu),
            StreamStep::Reply(request, pdu) => self.tell_reply(page, request, pdu),
            StreamStep::Ask(id, unit, pdu) => self.ask(page, id, unit, pdu),
            StreamStep::Hear(bytes) => self.hear(page, bytes),
            StreamStep::HangUp => {
                let fate = self.wire.pending.end();
                page.tell(format_args!("{fate:?}"))
            }
            StreamStep::HearCut(bytes) => self.hear_cut(page, bytes),
            StreamStep::Session(last) => self.begin_session(last),
            StreamStep::Turn(room, bytes) => self.turn(page, room, bytes),
            StreamStep::Take(bytes) => self.take_frame(page, bytes),
            StreamStep::Put(room) => self.put(page, room),
            StreamStep::TurnCut(bytes) => self.turn_cut(page, bytes),
            StreamStep::Guard(pdu) => self.tell_guarded(page, pdu),
        }
    }
}

/// Frames, and the messages in them.
impl StreamBench {
    fn feed(&mut self, page: &mut Page, bytes: &[u8]) -> Shown<()> {
        match self.framer.feed(bytes) {
            Ok(fed) => self.tell_fed(page, bytes.len(), fed),
            Err(fault) => page.tell(fault),
        }
    }

    fn tell_fed(&mut self, page: &mut Page, given: usize, fed: Fed) -> Shown<()> {
        if fed.used < given {
            page.tell(format_args!("{} of {given} bytes used", fed.used))?;
        }
        match fed.frame {
            Some(frame) => page.tell(hex_of(self.alloc, frame.pdu.bytes())?),
            None => page.tell("no frame"),
        }
    }

    fn feed_bytes(&mut self, page: &mut Page, bytes: &[&str]) -> Shown<()> {
        for byte in &bytes_of(self.alloc, bytes)? {
            self.feed(page, &[*byte])?;
        }
        Ok(())
    }

    fn feed_cut(&mut self, page: &mut Page, n: usize, bytes: &[&str]) -> Shown<()> {
        let bytes = bytes_of(self.alloc, bytes)?;
        let (front, back) = bytes.split_at(n.min(bytes.len()));
        self.feed(page, front)?;
        self.feed(page, back)
    }

    fn tell_frame(&mut self, page: &mut Page, id: u16, unit: u8, pdu: &[&str]) -> Shown<()> {
        match Pdu::from_bytes(&bytes_of(self.alloc, pdu)?) {
            Some(pdu) => {
                let frame = Frame {
                    transaction: id,
                    unit,
                    pdu,
                };
                let bytes = bytes_of_frame(self.alloc, &frame)?;
                page.tell(hex_of(self.alloc, &bytes)?)
            }
            None => page.tell("no PDU"),
        }
    }

    fn tell_request(&mut self, page: &mut Page, pdu: &[&str]) -> Shown<()> {
        let pdu = pdu_of(self.alloc, pdu)?;
        match parse_request(&pdu) {
            Ok(request) => {
                page.tell(format_args!("{request:?}"))?;
                page.tell(hex_of(self.alloc, request_pdu(&request).bytes())?)
            }
            Err(exception) => {
                let answer = exception_pdu(&pdu, exception);
                page.tell(hex_of(self.alloc, answer.bytes())?)
            }
        }
    }

    fn tell_reply(&mut self, page: &mut Page, request: &str, pdu: &[&str]) -> Shown<()> {
        let request = needed(parse_request(&pdu_of(self.alloc, &[request])?).ok())?;
        let response = parse_response(&request, &pdu_of(self.alloc, pdu)?);
        page.tell(format_args!("{response:?}"))
    }
}

/// A request under way.
impl StreamBench {
    fn ask(&mut self, page: &mut Page, id: u16, unit: u8, pdu: &[&str]) -> Shown<()> {
        let Ok(request) = parse_request(&pdu_of(self.alloc, pdu)?) else {
            return needed(None);
        };
        let frame = self.wire.pending.begin(id, unit, request);
        page.tell(hex_of(self.alloc, frame.as_slice())?)
    }

    fn hear(&mut self, page: &mut Page, bytes: &[&str]) -> Shown<()> {
        let fate = self.wire.hear(&bytes_of(self.alloc, bytes)?)?;
        page.tell(format_args!("{fate:?}"))?;
        if self.wire.pending.is_open() {
            page.tell("still under way")?;
        }
        Ok(())
    }

    fn hear_cut(&mut self, page: &mut Page, bytes: &[&str]) -> Shown<()> {
        let bytes = bytes_of(self.alloc, bytes)?;
        for second in 0..=bytes.len() {
            for first in 0..=second {
                let (one, two) = fates_of(self.alloc, cut(&bytes, first, second))?;
                page.tell(format_args!("{one:?}, then {two:?}"))?;
            }
        }
        Ok(())
    }
}

/// What three pieces make of one request, and what is left of them of the next one.
fn fates_of(alloc: Global, pieces: [&[u8]; 3]) -> Shown<(Option<RequestEnd>, Option<RequestEnd>)> {
    let mut wire = Wire::new(alloc);
    wire.pending.begin(7, 1, W);
    let mut first = None;
    for piece in pieces {
        first = first.or(wire.hear(piece)?);
    }
    wire.pending.begin(8, 1, W);
    Ok((first, wire.hear(&[])?))
}

/// A stream in three pieces, cut at two places.
fn cut(stream: &[u8], first: usize, second: usize) -> [&[u8]; 3] {
    let (front, three) = stream.split_at(second.min(stream.len()));
    let (one, two) = front.split_at(first.min(front.len()));
    [one, two, three]
}

/// A client's session.
impl StreamBench {
    fn begin_session(&mut self, last: u8) -> Shown<()> {
        self.session = Session::new();
        self.counter = Counter::new(last);
        Ok(())
    }

    fn turn(&mut self, page: &mut Page, room: usize, bytes: &[&str]) -> Shown<()> {
        let mut out = [0; 260];
        let (room, _) = out.split_at_mut(room.min(260));
        let bytes = bytes_of(self.alloc, bytes)?;
        let turned = self.session.turn(&mut self.counter, &bytes, room);
        page.tell(format_args!("{turned:?}"))?;
        let put = room.split_at(turned.put.min(room.len())).0;
        page.tell(hex_of(self.alloc, put)?)?;
        if self.session.is_over() {
            page.tell("over")?;
        }
        Ok(())
    }

    fn take_frame(&mut self, page: &mut Page, bytes: &[&str]) -> Shown<()> {
        let bytes = bytes_of(self.alloc, bytes)?;
        if self.session.is_free() {
            let taken = self.session.take(&mut self.counter, &bytes);
            page.tell(format_args!("{taken:?}"))?;
        }
        self.tell_free(page)
    }

    fn put(&mut self, page: &mut Page, room: usize) -> Shown<()> {
        let mut out = [0; 260];
        let (room, _) = out.split_at_mut(room.min(260));
        let put = self.session.put(room);
        page.tell(hex_of(self.alloc, room.split_at(put.min(room.len())).0)?)?;
        self.tell_free(page)
    }

    fn tell_free(&mut self, page: &mut Page) -> Shown<()> {
        page.tell(if self.session.is_free() {
            "free"
        } else {
            "not free"
        })
    }

    fn turn_cut(&mut self, page: &mut Page, bytes: &[&str]) -> Shown<()> {
        let bytes = bytes_of(self.alloc, bytes)?;
        for second in 0..=bytes.len() {
            for first in 0..=second {
                let answers = answers_to(self.alloc, cut(&bytes, first, second))?;
                page.tell(hex_of(self.alloc, &answers)?)?;
            }
        }
        Ok(())
    }

    fn tell_guarded(&mut self, page: &mut Page, pdu: &[&str]) -> Shown<()> {
        let frame = Frame {
            transaction: 7,
            unit: 1,
            pdu: pdu_of(self.alloc, pdu)?,
        };
        page.tell(if is_write(&frame.pdu) {
            "writes"
        } else {
            "writes nothing"
        })?;
        let mut refused = refusal(&frame);
        page.tell(hex_of(self.alloc, refused.next_piece().as_slice())?)
    }
}

/// What goes out of a session over three pieces, each given as often as some of it is left.
fn answers_to(alloc: Global, pieces: [&[u8]; 3]) -> Shown<Vec<u8>> {
    let mut session = Session::new();
    let mut counter = Counter::new(0);
    let mut sent = Vec::new(alloc);
    for piece in pieces {
        talk(&mut session, &mut counter, piece, &mut sent)?;
    }
    Ok(sent)
}

fn talk(
    session: &mut Session,
    counter: &mut Counter,
    piece: &[u8],
    sent: &mut Vec<u8>,
) -> Shown<()> {
    let mut rest = piece;
    for _ in 0..40 {
        let mut room = [0; 16];
        let turned = session.turn(counter, rest, &mut room);
        rest = rest.split_at(turned.used.min(rest.len())).1;
        sent.extend_from_slice(room.split_at(turned.put.min(16)).0)?;
    }
    Ok(())
}
