//! What happened to a service, against the site run of the same events.
use crate::bytes::needed;
use crate::devices::frame_in;
use crate::fault::Shown;
use gateway::{Answer, Core, DEPTH, Event};
use modbus_frame::Pdu;
use scan_vm::Machine;
use std::alloc::Global;

/// The events of a service's core, and what its clients got, in order.
#[derive(Drop)]
pub(crate) struct Course {
    alloc: Global,
    events: Vec<Event>,
    replies: Vec<Pdu>,
    /// When the program ran last, in milliseconds.
    scanned_at: u64,
    /// The program that was put in, and after how many events.
    put_in: Option<(usize, Machine<DEPTH>)>,
}

impl Course {
    /// Nothing happened so far.
    pub(crate) fn new(alloc: Global) -> Course {
        Course {
            alloc,
            events: Vec::new(alloc),
            replies: Vec::new(alloc),
            scanned_at: 0,
            put_in: None,
        }
    }

    /// How many replies clients got.
    pub(crate) fn replies(&self) -> usize {
        self.replies.len()
    }

    /// This happened.
    pub(crate) fn add(&mut self, event: Event) -> Shown<()> {
        Ok(self.events.push(event)?)
    }

    /// The program ran at this time of the service, of which the core is told before.
    pub(crate) fn add_scan(&mut self, now: u64) -> Shown<()> {
        let since = now.saturating_sub(self.scanned_at);
        self.scanned_at = now;
        self.add(Event::Time(u32::try_from(since).unwrap_or(u32::MAX)))?;
        self.add(Event::Scan)
    }

    /// This program was put in.
    pub(crate) fn add_program(&mut self, machine: Machine<DEPTH>) {
        self.put_in = Some((self.events.len(), machine));
    }

    /// A client's request got this reply.
    pub(crate) fn add_reply(&mut self, request: &[u8], reply: &[u8]) -> Shown<()> {
        self.add(Event::Client(needed(frame_in(request))?.pdu))?;
        self.replies.push(needed(frame_in(reply))?.pdu)?;
        Ok(())
    }

    /// Whether a core on which nothing happened yet gives the same replies by these events, with the program that was put in
    /// between them, and knows what this one does.
    pub(crate) fn is_that_of(&mut self, core: &mut Core<DEPTH>, now: &Core<DEPTH>) -> Shown<bool> {
        let mut answers = Vec::new(self.alloc);
        match self.put_in.take() {
            Some((at, machine)) => {
                let (before, after) = self.events.split_at(at.min(self.events.len()));
                self.replay(core, before, &mut answers)?;
                needed(core.adopt(self.alloc, machine).ok())?;
                self.replay(core, after, &mut answers)?;
            }
            None => self.replay(core, &self.events, &mut answers)?,
        }
        Ok(self.are_replies(&answers) && are_alike(core, now))
    }

    /// What a core answers to these events, after what it answered before.
    fn replay(
        &self,
        core: &mut Core<DEPTH>,
        events: &[Event],
        answers: &mut Vec<Answer>,
    ) -> Shown<()> {
        let mut more = Vec::new(self.alloc);
        for _ in events {
            more.push(Answer::None)?;
        }
        if more.len() == events.len() {
            core.replay(events, &mut more);
        }
        for answer in more {
            answers.push(answer)?;
        }
        Ok(())
    }

    fn are_replies(&self, answers: &[Answer]) -> bool {
        let mut rest = self.replies.as_slice();
        for answer in answers {
            if let Answer::Reply(pdu) = answer {
                match rest.split_first() {
                    Some((reply, more)) if reply == pdu => rest = more,
                    _ => return false,
                }
            }
        }
        rest.is_empty()
    }
}

fn are_alike(one: &Core<DEPTH>, other: &Core<DEPTH>) -> bool {
    one.settings() == other.settings()
        && one.outputs() == other.outputs()
        && one.readings() == other.readings()
}
