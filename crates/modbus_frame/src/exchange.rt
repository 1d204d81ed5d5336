//! Reading frames from a link and sending frames over it.
ghost use Rattle.std.specs.Prelude.{◌≡◌, ◌-◌, ◌<◌, ◌≤◌, [], length, None, Err, IfSome, OnOk};
ghost use Rattle.std.specs.Io.KnownBytes.{Keeps};
ghost use Rattle.modbus_frame.specs.declared.link.LinkFault.TheVariants.{Frame as FrameFaulty};
ghost use Rattle.modbus_frame.specs.Framing.{empty};
ghost use Rattle.modbus_frame.specs.Link.{CountsBy, CountsRead};
ghost use Rattle.modbus_frame.specs.Exchange.{SendsFront, CountsSent, FeedsUnfed, Refills, ReadsNext, CountsReceived, left};

use crate::fault::FrameFault;
use crate::frame::Frame;
use crate::framer::Framer;
use crate::link::{Down, Link, LinkFault};
use std::marker::Model;

/// Reads frames from a link in pieces of at most 260 bytes, and keeps what came after a frame for the next one.
///
/// A contract sees what its framer holds, and the bytes that it read and didn't feed.
#[derive(Debug, Drop)]
pub struct FrameReader {
    framer: Framer<260>,
    buffer: [u8; 260],
    start: usize,
    end: usize,
}

impl Model for FrameReader {
    ghost use Rattle.std.specs.Prelude.{◌≤◌, take, drop};
    ghost use Rattle.modbus_frame.specs.Reading.{Reading};

    ghost Value = { Reading };

    ghost view = { λ r. record { held = r.framer; unfed = drop r.start (take r.end r.buffer) } };

    ghost invariant = { λ r. (r.start ≤ r.end) × (r.end ≤ 260) };
}

impl FrameReader {
    /// A reader at the start of a stream.
    pub fn new() -> FrameReader
        ensures { result ≡ record { held = empty; unfed = [] } }
    {
        FrameReader {
            framer: Framer::new(),
            buffer: [0; 260],
            start: 0,
            end: 0,
        }
    }

    /// The next frame, or `None` where the stream ended after the last one, by at most `turns` reads, of which it
    /// takes off those that it made. After a fault of the stream each call answers that fault; after another one the
    /// next call reads on.
    pub fn next_frame<L: Link>(
        &mut self,
        link: &mut L,
        turns: &mut u32,
    ) -> Result<Option<Frame>, LinkFault>
        ensures stands { IfSome self.old.held.fault (λ fault. (result ≡ Err (FrameFaulty fault))
            × (self.new ≡ self.old) × (link.new ≡ link.old) × (turns.new ≡ turns.old)) }
        ensures reads { self.old.held.fault ≡ None → ReadsNext (left self.old (L.coming link.old))
            (left self.new (L.coming link.new)) result self.new }
        ensures keeps { Keeps (L.sent link.old) (L.sent link.new) }
        ensures failures { CountsReceived (L.failures link.old) (L.failures link.new) result turns.new }
        ensures calls { CountsBy (turns.old - turns.new) (L.calls link.old) (L.calls link.new) }
        ensures within { turns.new ≤ turns.old }
    {
        if let Some(fault) = self.framer.fault() {
            return Err(LinkFault::Frame(fault));
        }
        self.read_on(link, turns)
    }

    fn read_on<L: Link>(
        &mut self,
        link: &mut L,
        turns: &mut u32,
    ) -> Result<Option<Frame>, LinkFault>
        requires { self.old.held.fault ≡ None }
        ensures reads { ReadsNext (left self.old (L.coming link.old))
            (left self.new (L.coming link.new)) result self.new }
        ensures keeps { Keeps (L.sent link.old) (L.sent link.new) }
        ensures failures { CountsReceived (L.failures link.old) (L.failures link.new) result turns.new }
        ensures calls { CountsBy (turns.old - turns.new) (L.calls link.old) (L.calls link.new) }
        ensures within { turns.new ≤ turns.old }
    {
        loop {
            match self.feed() {
                Ok(Some(frame)) => return Ok(Some(frame)),
                Ok(None) => {}
                Err(fault) => return Err(LinkFault::Frame(fault)),
            }
            if *turns == 0 {
                return Err(LinkFault::Turns);
            }
            *turns -= 1;
            match self.refill(link) {
                Ok(0) if self.framer.is_empty() => return Ok(None),
                Ok(0) => return Err(LinkFault::End),
                Ok(_) => {}
                Err(Down) => return Err(LinkFault::Read),
            }
        }
    }

    fn feed(&mut self) -> Result<Option<Frame>, FrameFault>
        requires { self.old.held.fault ≡ None }
        ensures { FeedsUnfed self.old result self.new }
    {
        let (read, _) = self.buffer.split_at(self.end);
        let fed = self.framer.feed(read.split_at(self.start).1)?;
        self.start += fed.used;
        Ok(fed.frame)
    }

    // Reads the next piece, where all of the last one is fed.
    fn refill<L: Link>(&mut self, link: &mut L) -> Result<usize, Down>
        ensures reads { Refills (L.coming link.old) (L.coming link.new) result self.new.unfed }
        ensures held { self.new.held ≡ self.old.held }
        ensures keeps { Keeps (L.sent link.old) (L.sent link.new) }
        ensures failures { CountsRead (L.failures link.old) (L.failures link.new) result }
        ensures calls { CountsBy 1 (L.calls link.old) (L.calls link.new) }
    {
        self.start = 0;
        self.end = 0;
        self.end = link.read(&mut self.buffer)?;
        Ok(self.end)
    }
}

/// Writes all of the bytes, by at most `turns` writes, of which it takes off those that it made.
pub fn send<L: Link>(link: &mut L, bytes: &[u8], turns: &mut u32) -> Result<(), LinkFault>
    ensures sends { SendsFront (L.sent link.old) (L.sent link.new) result bytes.now }
    ensures keeps { Keeps (L.coming link.old) (L.coming link.new) }
    ensures failures { CountsSent (L.failures link.old) (L.failures link.new) result turns.new }
    ensures calls { CountsBy (turns.old - turns.new) (L.calls link.old) (L.calls link.new) }
    ensures within { turns.new ≤ turns.old }
    ensures used { OnOk result (0 < length bytes.now → turns.new < turns.old) }
{
    let mut rest = bytes;
    while !rest.is_empty() {
        if *turns == 0 {
            return Err(LinkFault::Turns);
        }
        *turns -= 1;
        match link.write(rest) {
            Ok(n) => rest = rest.split_at(n).1,
            Err(Down) => return Err(LinkFault::Write),
        }
    }
    Ok(())
}
