//! The other end of a link, and when what comes from there.
use crate::dice::Dice;
use crate::fault::{Played, RoofFault};
use crate::roof::{LinkText, RoofKind, Unit};
use crate::span::{NEVER, TimeSpan, needed};
use inverter_sim::Plant;
use modbus_frame::{Exception, Frame, Request, exception_pdu, parse_request, write_frame};
use std::alloc::Global;

/// How long a dial takes, in milliseconds.
const DIAL: u64 = 1;

/// The longest that a logger takes to answer for a silent unit.
const TELLS: u64 = 5;

/// The register of a unit's first output, and that of its second one.
const FIRST_OUTPUT: u16 = 40127;

const SECOND_OUTPUT: u16 = 40131;

/// A reply that is to come.
#[derive(Drop)]
pub(crate) struct Coming {
    at: u64,
    /// The number of the unit among those of the link, from 0 on.
    pub(crate) unit: usize,
    pub(crate) bytes: Vec<u8>,
    /// Whether the unit took its last output.
    pub(crate) is_write: bool,
}

/// What happens at the other end.
#[derive(Drop)]
pub(crate) enum Happening {
    /// Nothing now.
    Nothing,
    /// A dial was answered.
    Up,
    /// The other end closed the connection, or a dial failed.
    Down,
    /// A time without a connection began.
    Cut,
    Reply(Coming),
}

/// The other end of a link.
#[derive(Drop)]
pub(crate) struct FarEnd {
    alloc: Global,
    plant: Plant,
    is_up: bool,
    /// When the dial that is under way ends.
    dial: u64,
    /// When something went over the connection last.
    last: u64,
    /// Until when a serial gateway is busy.
    busy: u64,
    /// How many of the times without a connection began.
    downs: usize,
    coming: Vec<Coming>,
    /// The longest that a reply takes.
    most: u64,
}

impl FarEnd {
    /// One without a connection, whose replies take so long at most.
    pub(crate) fn new(alloc: Global, plant: Plant, most: u64) -> FarEnd {
        FarEnd {
            alloc,
            plant,
            is_up: false,
            dial: NEVER,
            last: 0,
            busy: 0,
            downs: 0,
            coming: Vec::new(alloc),
            most,
        }
    }

    /// When something happens there next.
    pub(crate) fn next_at(&self, text: &LinkText) -> u64 {
        let at = self.dial.min(self.ends_at(text));
        match self.first() {
            Some((_, first)) => at.min(first),
            None => at,
        }
    }

    /// When the connection ends by itself, or a time without one begins.
    fn ends_at(&self, text: &LinkText) -> u64 {
        let at = match text.idle {
            idle @ 1.. if self.is_up => self.last.saturating_add(idle),
            _ => NEVER,
        };
        match text.down.get(self.downs) {
            Some(down) => at.min(down.from),
            None => at,
        }
    }

    /// The number of the reply that comes first, and when.
    fn first(&self) -> Option<(usize, u64)> {
        let mut first = None;
        let mut at = NEVER;
        for (i, coming) in self.coming.iter().enumerate() {
            if coming.at < at {
                at = coming.at;
                first = Some((i, at));
            }
        }
        first
    }

    /// What happens there now.
    pub(crate) fn happen(&mut self, text: &LinkText, now: u64) -> Happening {
        if self.ends_at(text) <= now {
            self.end(text, now)
        } else if self.dial <= now {
            self.answer_dial(text, now)
        } else {
            self.reply(now)
        }
    }

    fn end(&mut self, text: &LinkText, now: u64) -> Happening {
        let was_up = self.is_up;
        let is_cut = text
            .down
            .get(self.downs)
            .is_some_and(|down| down.from <= now);
        if is_cut {
            self.downs = self.downs.saturating_add(1);
        }
        if was_up {
            self.hang_up(now);
        }
        match (was_up, is_cut) {
            (false, _) => Happening::Nothing,
            (true, true) => Happening::Cut,
            (true, false) => Happening::Down,
        }
    }

    fn answer_dial(&mut self, text: &LinkText, now: u64) -> Happening {
        self.dial = NEVER;
        self.last = now;
        self.is_up = !text.down.iter().any(|down| down.has(now));
        match self.is_up {
            true => Happening::Up,
            false => Happening::Down,
        }
    }

    fn reply(&mut self, now: u64) -> Happening {
        match self.first() {
            Some((i, at)) if at <= now && i < self.coming.len() => {
                self.last = now;
                Happening::Reply(self.coming.swap_remove(i))
            }
            _ => Happening::Nothing,
        }
    }

    /// A dial begins.
    pub(crate) fn dial(&mut self, now: u64) {
        self.dial = now.saturating_add(DIAL);
    }

    /// The connection ends, or the dial is given up.
    pub(crate) fn hang_up(&mut self, now: u64) {
        self.is_up = false;
        self.dial = NEVER;
        self.busy = now;
        self.coming.clear();
    }

    /// Takes a request.
    pub(crate) fn take(
        &mut self,
        text: &LinkText,
        frame: &Frame,
        now: u64,
        dice: &mut Dice,
    ) -> Played<()> {
        self.last = now;
        let number = usize::from(frame.unit).saturating_sub(1);
        let unit = needed(text.units.get(number))?;
        let written = written_by(frame);
        let takes = self.takes(unit, written.is_some(), dice);
        let start = match text.kind.is_parallel() {
            true => now,
            false => now.max(self.busy),
        };
        let is_write = written == Some(last_output(text));
        match unit.lives_at(start) {
            true => self.answer(text.kind, frame, start.saturating_add(takes), is_write),
            false => self.stay_silent(text, frame, start, takes),
        }
    }

    /// How long a reply takes this time.
    fn takes(&self, unit: &Unit, is_write: bool, dice: &mut Dice) -> u64 {
        let usual = match is_write {
            true => unit.reply.saturating_mul(unit.write) / 100,
            false => unit.reply,
        };
        let off = usual.saturating_mul(unit.jitter) / 100;
        let by = dice.below(off.saturating_mul(2).saturating_add(1));
        let takes = usual.saturating_sub(off).saturating_add(by);
        let times = match unit.jitter >= 50 && dice.below(100) == 0 {
            true => 3,
            false => 1,
        };
        takes.saturating_mul(times).min(self.most).max(1)
    }

    fn answer(&mut self, kind: RoofKind, frame: &Frame, at: u64, is_write: bool) -> Played<()> {
        if !kind.is_parallel() {
            self.busy = at;
        }
        let pdu = self.plant.serve(frame.unit, &frame.pdu);
        let reply = Frame {
            transaction: frame.transaction,
            unit: frame.unit,
            pdu,
        };
        self.send(&reply, at, is_write)
    }

    /// A silent unit was asked.
    fn stay_silent(
        &mut self,
        text: &LinkText,
        frame: &Frame,
        start: u64,
        takes: u64,
    ) -> Played<()> {
        let free = start.saturating_add(text.blocks);
        match text.kind {
            RoofKind::Logger | RoofKind::Alone => Ok(()),
            RoofKind::Serial => {
                self.busy = free;
                Ok(())
            }
            RoofKind::SerialTelling => {
                self.busy = free;
                self.tell(frame, free)
            }
            RoofKind::Telling => self.tell(frame, start.saturating_add(takes.min(TELLS))),
        }
    }

    /// It will be told that a unit doesn't answer.
    fn tell(&mut self, frame: &Frame, at: u64) -> Played<()> {
        let reply = Frame {
            transaction: frame.transaction,
            unit: frame.unit,
            pdu: exception_pdu(&frame.pdu, Exception::GATEWAY_TARGET_FAILED),
        };
        self.send(&reply, at, false)
    }

    fn send(&mut self, reply: &Frame, at: u64, is_write: bool) -> Played<()> {
        let mut buffer = [0; Frame::MAX_LEN];
        let len = write_frame(reply, &mut buffer);
        let bytes = Vec::from_slice(self.alloc, buffer.split_at(len).0)?;
        let is_taken = reply.pdu.bytes().first().is_some_and(|first| *first < 0x80);
        self.coming.push(Coming {
            at,
            unit: usize::from(reply.unit).saturating_sub(1),
            bytes,
            is_write: is_write && is_taken,
        })?;
        Ok(())
    }
}

/// The register that a request writes.
fn written_by(frame: &Frame) -> Option<u16> {
    match parse_request(&frame.pdu) {
        Ok(Request::WriteOne { addr, .. }) => Some(addr),
        Ok(Request::WriteMany { addr, .. }) => Some(addr),
        _ => None,
    }
}

/// The register of a unit's last output.
fn last_output(text: &LinkText) -> u16 {
    match text.outputs > 1 {
        true => SECOND_OUTPUT,
        false => FIRST_OUTPUT,
    }
}
