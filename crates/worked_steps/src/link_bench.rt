//! A link in memory, and a poller over one.
use crate::bytes::{bytes_of, hex_of, needed, number, pdu_of};
use crate::devices::bytes_of_frame;
use crate::fault::Shown;
use crate::page::Page;
use crate::register_bench::map_text;
use crate::texts::Texts;
use gateway::{Outcome, Poller};
use modbus_frame::{
    Frame, FrameReader, Link, LinkFault, MemLink, Pdu, Request, parse_request, send,
};
use register_map::Map;
use site_model::Site;
use std::alloc::Global;

/// A step of a link.
#[derive(Clone, Copy)]
pub(crate) enum LinkStep<'a> {
    /// These bytes are to come, after those that already are.
    Coming(&'a [&'a str]),
    /// So many frames of a transaction and a unit with this PDU are.
    ComingFrames(usize, u16, u8, &'a [&'a str]),
    /// Frames of a unit are, each with its PDU, of one transaction after another.
    ComingAnswers(u16, u8, &'a [&'a str]),
    /// A link gives what is to come, at most so many bytes in one call, and one of its calls fails.
    Open(usize, Option<usize>),
    /// A poller over such a link has this transaction next.
    Poller(u16, usize, Option<usize>),
    /// It asks a unit.
    Poll(u8, &'a [&'a str]),
    /// The link is read once.
    Read,
    /// These bytes are written to it, in one call.
    Write(&'a [&'a str]),
    /// The next frame is read within so many calls.
    Next(u32),
    /// These bytes are sent within so many calls.
    Send(u32, &'a [&'a str]),
    /// What went out.
    Sent,
    /// How many bytes are still to come over the poller's link.
    Left,
    /// Whether what went out is the bytes of a text, or those of them that come first.
    SentOf(&'a str),
}

impl<'a> LinkStep<'a> {
    /// The step that words say; None where it is none of a link.
    pub(crate) fn read(name: &str, words: &'a [&'a str]) -> Option<LinkStep<'a>> {
        match (name, words) {
            ("coming", bytes) => Some(Self::Coming(bytes)),
            ("coming-frames", [n, id, unit, pdu @ ..]) => Some(Self::ComingFrames(
                number(n)?,
                number(id)?,
                number(unit)?,
                pdu,
            )),
            ("coming-answers", [id, unit, pdus @ ..]) => Some(Self::ComingAnswers(
                number(id)?,
                number(unit)?,
                pdus,
            )),
            ("open", [largest]) => Some(Self::Open(number(largest)?, None)),
            ("open", [largest, down]) => Some(Self::Open(number(largest)?, Some(number(down)?))),
            ("poller", [id, largest]) => Some(Self::Poller(number(id)?, number(largest)?, None)),
            ("poller", [id, largest, down]) => Some(Self::Poller(
                number(id)?,
                number(largest)?,
                Some(number(down)?),
            )),
            ("poll", [unit, pdu @ ..]) => Some(Self::Poll(number(unit)?, pdu)),
            ("read", []) => Some(Self::Read),
            ("write-bytes", bytes) => Some(Self::Write(bytes)),
            ("next-frame", [turns]) => Some(Self::Next(number(turns)?)),
            ("send", [turns, bytes @ ..]) => Some(Self::Send(number(turns)?, bytes)),
            ("sent", []) => Some(Self::Sent),
            ("left", []) => Some(Self::Left),
            ("sent-of", [text]) => Some(Self::SentOf(*text)),
            _ => None,
        }
    }
}

/// A link, a poller over another one, and what is to come over the next.
#[derive(Drop)]
pub(crate) struct LinkBench {
    alloc: Global,
    coming: Vec<u8>,
    link: Option<MemLink>,
    reader: FrameReader,
    poller: Option<Poller<MemLink>>,
}

impl LinkBench {
    pub(crate) fn new(alloc: Global) -> LinkBench {
        LinkBench {
            alloc,
            coming: Vec::new(alloc),
            link: None,
            reader: FrameReader::new(),
            poller: None,
        }
    }

    /// The link that is open.
    pub(crate) fn link(&mut self) -> Shown<&mut MemLink> {
        needed(self.link.as_mut())
    }

    /// The poller that is at work.
    pub(crate) fn poller(&mut self) -> Shown<&mut Poller<MemLink>> {
        needed(self.poller.as_mut())
    }

    /// Takes a step, and tells what came of it.
    pub(crate) fn take(
        &mut self,
        texts: &Texts<'_>,
        page: &mut Page,
        step: LinkStep<'_>,
    ) -> Shown<()> {
        match step {
            LinkStep::Coming(bytes) => self.come(&bytes_of(self.alloc, bytes)?),
            LinkStep::ComingFrames(n, id, unit, pdu) => {
                let pdu = bytes_of(self.alloc, pdu)?;
                self.come_frames(n, id, unit, &pdu)
            }
            LinkStep::ComingAnswers(id, unit, pdus) => self.come_answers(id, unit, pdus),
            LinkStep::Open(largest, down) => self.open(largest, down),
            LinkStep::Poller(id, largest, down) => self.begin_poller(id, largest, down),
            LinkStep::Poll(unit, pdu) => self.poll(page, unit, pdu),
            LinkStep::Read => self.read(page),
            LinkStep::Write(bytes) => self.write(page, bytes),
            LinkStep::Next(turns) => self.next_frame(page, turns),
            LinkStep::Send(turns, bytes) => self.send(page, turns, bytes),
            LinkStep::Sent => {
                let sent = hex_of(self.alloc, self.sent()?)?;
                page.tell(sent)
            }
            LinkStep::Left => page.tell(self.counts()?.1),
            LinkStep::SentOf(name) => self.tell_sent_of(page, texts.get(name)?),
        }
    }
}

/// What is to come, and what went out.
impl LinkBench {
    fn come(&mut self, bytes: &[u8]) -> Shown<()> {
        Ok(self.coming.extend_from_slice(bytes)?)
    }

    fn come_frames(&mut self, n: usize, id: u16, unit: u8, pdu: &[u8]) -> Shown<()> {
        let frame = Frame {
            transaction: id,
            unit,
            pdu: needed(Pdu::from_bytes(pdu))?,
        };
        let bytes = bytes_of_frame(self.alloc, &frame)?;
        for _ in 0..n {
            self.come(&bytes)?;
        }
        Ok(())
    }

    fn come_answers(&mut self, first: u16, unit: u8, pdus: &[&str]) -> Shown<()> {
        let mut id = first;
        for pdu in pdus {
            let pdu = bytes_of(self.alloc, &[*pdu])?;
            self.come_frames(1, id, unit, &pdu)?;
            id = id.wrapping_add(1);
        }
        Ok(())
    }

    fn opened(&self, largest: usize, down: Option<usize>) -> Shown<MemLink> {
        let largest = largest.max(1);
        Ok(MemLink::new(self.alloc, &self.coming, largest, down)?)
    }

    fn open(&mut self, largest: usize, down: Option<usize>) -> Shown<()> {
        self.link = Some(self.opened(largest, down)?);
        Ok(())
    }

    /// What went out over the poller's link, or else over the one that is open.
    fn sent(&self) -> Shown<&[u8]> {
        match &self.poller {
            Some(poller) => Ok(poller.link().sent()),
            None => Ok(needed(self.link.as_ref())?.sent()),
        }
    }

    fn tell_sent_of(&mut self, page: &mut Page, text: &str) -> Shown<()> {
        let words: Vec<&str> = text.split_ascii_whitespace().collect(self.alloc)?;
        let whole = bytes_of(self.alloc, &words)?;
        let sent = self.sent()?;
        if whole.as_slice() == sent {
            page.tell("all of them")
        } else if whole.starts_with(sent) {
            page.tell("some of them")
        } else {
            page.tell(hex_of(self.alloc, sent)?)
        }
    }
}

/// One call after another.
impl LinkBench {
    fn read(&mut self, page: &mut Page) -> Shown<()> {
        let mut buffer = [0; 260];
        match self.link()?.read(&mut buffer) {
            Ok(n) => {
                let bytes = hex_of(self.alloc, buffer.split_at(n.min(260)).0)?;
                page.tell(bytes)
            }
            Err(down) => page.tell(down),
        }
    }

    fn write(&mut self, page: &mut Page, bytes: &[&str]) -> Shown<()> {
        let bytes = bytes_of(self.alloc, bytes)?;
        if bytes.is_empty() {
            return needed(None);
        }
        match self.link()?.write(&bytes) {
            Ok(n) => page.tell(format_args!("{n} of {} bytes", bytes.len())),
            Err(down) => page.tell(down),
        }
    }

    fn next_frame(&mut self, page: &mut Page, turns: u32) -> Shown<()> {
        let mut left = turns;
        let link = needed(self.link.as_mut())?;
        let next = self.reader.next_frame(link, &mut left);
        match next {
            Ok(Some(frame)) => page.tell(hex_of(self.alloc, frame.pdu.bytes())?)?,
            Ok(None) => page.tell("the end")?,
            Err(fault) => page.tell(format_args!("{fault:?}"))?,
        }
        page.tell(format_args!("{left} calls left"))
    }

    fn send(&mut self, page: &mut Page, turns: u32, bytes: &[&str]) -> Shown<()> {
        let mut left = turns;
        let bytes = bytes_of(self.alloc, bytes)?;
        match send(self.link()?, &bytes, &mut left) {
            Ok(()) => page.tell(format_args!("{left} calls left")),
            Err(fault) => page.tell(fault),
        }
    }
}

/// A poller.
impl LinkBench {
    fn begin_poller(&mut self, id: u16, largest: usize, down: Option<usize>) -> Shown<()> {
        self.poller = Some(Poller::beginning_at(self.opened(largest, down)?, id));
        Ok(())
    }

    /// How many bytes went out over the poller's link, and how many are still to come.
    pub(crate) fn counts(&mut self) -> Shown<(usize, usize)> {
        let link = self.poller()?.link();
        Ok((link.sent().len(), link.coming().len()))
    }

    fn poll(&mut self, page: &mut Page, unit: u8, pdu: &[&str]) -> Shown<()> {
        let Ok(request) = parse_request(&pdu_of(self.alloc, pdu)?) else {
            return needed(None);
        };
        match self.poller()?.ask(unit, &request) {
            Ok(outcome) => page.tell(format_args!("{outcome:?}")),
            Err(fault) => {
                page.tell(format_args!("{fault:?}"))?;
                let counts = self.counts()?;
                let again = self.poller()?.ask(unit, &request);
                let stays = again == Err(fault) && self.counts()? == counts;
                page.tell(if stays { "it stays" } else { "it doesn't stay" })
            }
        }
    }

    /// Finds the maps of a site's devices, and tells them.
    pub(crate) fn find(&mut self, page: &mut Page, site: &Site) -> Shown<Vec<Option<Map>>> {
        let alloc = self.alloc;
        match self.poller()?.find(alloc, site) {
            Ok(maps) => {
                for map in maps.iter() {
                    match map {
                        Some(map) => page.tell(map_text(alloc, map)?)?,
                        None => page.tell("no map")?,
                    }
                }
                Ok(maps)
            }
            Err(fault) => {
                page.tell(fault)?;
                let counts = self.counts()?;
                let again = self.poller()?.find(alloc, site).err();
                let stays = again == Some(fault) && self.counts()? == counts;
                page.tell(if stays { "it stays" } else { "it doesn't stay" })?;
                Ok(Vec::new(alloc))
            }
        }
    }
}
