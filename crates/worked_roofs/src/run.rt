//! A service beside the devices of a case, in time that goes by as fast as it is computed.
use crate::building::{limits_of, plant, service};
use crate::dice::Dice;
use crate::far_end::{Coming, FarEnd, Happening};
use crate::fault::{Played, RoofFault};
use crate::life::{LifeMark, Lives};
use crate::roof::Roof;
use crate::span::needed;
use modbus_frame::{Frame, Framer};
use model_defs::ModelDef;
use service::{Loss, Notice, Service};
use std::alloc::Global;

/// The most exchanges at one time.
const MOST_TURNS: u64 = 1000;

/// The most notes after one of them.
const MOST_NOTES: u64 = 10_000;

/// What is counted of the whole site.
#[derive(Clone, Copy)]
pub(crate) struct RoofCounts {
    pub(crate) scans: u64,
    /// When the last scan was.
    scan_at: u64,
    /// By how much the time between two scans differs from the period, at most.
    pub(crate) off: u64,
    pub(crate) requests: u64,
    /// Requests to a unit whose earlier one was neither answered nor over.
    pub(crate) twice: u64,
    /// How often the service wanted to be woken at a time that was over, though it had been.
    pub(crate) stuck: u64,
    /// Losses of units that live, other than by their links.
    pub(crate) lost: u64,
    /// Losses by links that are down.
    pub(crate) down: u64,
}

/// A link, on this side.
#[derive(Drop)]
pub(crate) struct NearEnd {
    end: FarEnd,
    /// What came and wasn't used yet.
    waiting: Vec<u8>,
    pub(crate) lives: Vec<Lives>,
    /// After how many scans it was written to last.
    scans: u64,
    /// From a scan to the first write that goes out, at most.
    pub(crate) lag: u64,
}

/// A site while it runs.
#[derive(Drop)]
pub(crate) struct Run<'a> {
    alloc: Global,
    roof: &'a Roof<'a>,
    service: Service,
    dice: Dice,
    timeout: u64,
    now: u64,
    ticked: u64,
    pub(crate) counts: RoofCounts,
    pub(crate) links: Vec<NearEnd>,
}

impl<'a> Run<'a> {
    /// A site at time 0.
    pub(crate) fn new(alloc: Global, roof: &'a Roof<'a>, models: &[ModelDef]) -> Played<Run<'a>> {
        let limits = limits_of(roof);
        let mut links = Vec::new(alloc);
        for link in 0..roof.links.len() {
            links.push(near_end(alloc, roof, link, models)?)?;
        }
        Ok(Run {
            alloc,
            roof,
            service: service(alloc, roof, models, limits)?,
            dice: Dice::new(roof.seed),
            timeout: limits.timeout,
            now: 0,
            ticked: 0,
            counts: RoofCounts::new(),
            links,
        })
    }

    /// Lets the site run to its end.
    pub(crate) fn run(&mut self) -> Played<()> {
        self.service.tick(0);
        self.turn_all()?;
        for _ in 0..self.roof.end().saturating_mul(16) {
            let at = self.next_at();
            if at >= self.roof.end() {
                break;
            }
            self.now = at.max(self.now);
            self.step()?;
            self.turn_all()?;
            self.see_wake();
        }
        self.end();
        Ok(())
    }

    /// When something happens next.
    fn next_at(&self) -> u64 {
        let mut at = self.service.wakes_at().max(self.ticked.saturating_add(1));
        for (near, text) in self.links.iter().zip(self.roof.links.iter()) {
            at = at.min(near.end.next_at(text));
        }
        at
    }

    /// What happens at the other ends comes before what the service does by itself.
    fn step(&mut self) -> Played<()> {
        for link in 0..self.links.len() {
            match self.happening(link)? {
                Happening::Nothing => {}
                Happening::Up => {
                    self.service.link_up(link, self.now);
                    return Ok(());
                }
                Happening::Down => return self.fall(link),
                Happening::Cut => return self.cut(link),
                Happening::Reply(coming) => return self.hear(link, &coming),
            }
        }
        self.ticked = self.now;
        self.service.tick(self.now);
        Ok(())
    }

    /// What happens at the other end of a link now.
    fn happening(&mut self, link: usize) -> Played<Happening> {
        let text = needed(self.roof.links.get(link))?;
        let near = needed(self.links.get_mut(link))?;
        match near.end.next_at(text) <= self.now {
            true => Ok(near.end.happen(text, self.now)),
            false => Ok(Happening::Nothing),
        }
    }

    /// A connection is cut: no gap of its units counts until they are written again.
    fn cut(&mut self, link: usize) -> Played<()> {
        for lives in needed(self.links.get_mut(link))?.lives.iter_mut() {
            lives.cut();
        }
        self.fall(link)
    }

    /// A connection is down.
    fn fall(&mut self, link: usize) -> Played<()> {
        let near = needed(self.links.get_mut(link))?;
        near.waiting.clear();
        for lives in near.lives.iter_mut() {
            lives.answered();
        }
        self.service.link_down(link, self.now);
        Ok(())
    }

    /// A reply comes.
    fn hear(&mut self, link: usize, coming: &Coming) -> Played<()> {
        let mark = LifeMark {
            at: self.now,
            scans: self.service.scans(),
        };
        let near = needed(self.links.get_mut(link))?;
        near.waiting.extend_from_slice(&coming.bytes)?;
        let lives = needed(near.lives.get_mut(coming.unit))?;
        lives.answered();
        if coming.is_write {
            lives.write(mark, self.roof.settle);
        }
        self.offer(link)?;
        Ok(())
    }

    /// What the service wants is done, until it wants nothing.
    fn turn_all(&mut self) -> Played<()> {
        for _ in 0..MOST_TURNS {
            if !self.turn_once()? {
                break;
            }
        }
        self.take_notes();
        Ok(())
    }

    /// The same, once on each link; whether it wanted something.
    fn turn_once(&mut self) -> Played<bool> {
        let mut was_one = false;
        for link in 0..self.links.len() {
            self.see_scans();
            was_one = self.turn(link)? || was_one;
        }
        Ok(was_one)
    }

    fn turn(&mut self, link: usize) -> Played<bool> {
        if self.service.wants_dial(link) {
            self.service.dial_began(link, self.now);
            needed(self.links.get_mut(link))?.end.dial(self.now);
            return Ok(true);
        }
        if self.service.wants_hang_up(link) {
            needed(self.links.get_mut(link))?.end.hang_up(self.now);
            self.fall(link)?;
            return Ok(true);
        }
        match self.service.to_link(link).is_empty() {
            true => self.offer(link),
            false => self.send(link),
        }
    }

    /// What came over a link is handed in; whether something of it was used.
    fn offer(&mut self, link: usize) -> Played<bool> {
        let waiting = &mut needed(self.links.get_mut(link))?.waiting;
        if waiting.is_empty() {
            return Ok(false);
        }
        let came = std::mem::replace(waiting, Vec::new(self.alloc));
        let used = self.service.from_link(link, &came, self.now);
        let rest = came.split_at(used.min(came.len())).1;
        needed(self.links.get_mut(link))?
            .waiting
            .extend_from_slice(rest)?;
        Ok(used > 0)
    }

    /// What is to be sent over a link goes out.
    fn send(&mut self, link: usize) -> Played<bool> {
        let request = self.service.to_link(link);
        let len = request.len();
        let frame = frame_in(request)?;
        self.service.sent_to_link(link, len);
        self.count_request(link, &frame)?;
        let text = needed(self.roof.links.get(link))?;
        let near = needed(self.links.get_mut(link))?;
        near.end.take(text, &frame, self.now, &mut self.dice)?;
        Ok(true)
    }

    fn count_request(&mut self, link: usize, frame: &Frame) -> Played<()> {
        self.counts.requests = self.counts.requests.saturating_add(1);
        let until = self.now.saturating_add(self.timeout);
        let near = needed(self.links.get_mut(link))?;
        let unit = usize::from(frame.unit).saturating_sub(1);
        if needed(near.lives.get_mut(unit))?.ask(self.now, until) {
            self.counts.twice = self.counts.twice.saturating_add(1);
        }
        if is_write(frame) && near.scans < self.counts.scans {
            near.scans = self.counts.scans;
            near.lag = near.lag.max(self.now.saturating_sub(self.counts.scan_at));
        }
        Ok(())
    }

    /// Looks whether the service wants to be woken at once again.
    fn see_wake(&mut self) {
        if self.ticked == self.now && self.service.wakes_at() <= self.now {
            self.counts.stuck = self.counts.stuck.saturating_add(1);
        }
    }

    /// Looks whether there was a scan.
    fn see_scans(&mut self) {
        let scans = self.service.scans();
        if scans > self.counts.scans {
            self.counts.see(scans, self.now, self.roof.period);
        }
    }

    fn take_notes(&mut self) {
        for _ in 0..MOST_NOTES {
            match self.service.next_note() {
                Some(Notice::Lost(_, Loss::Down)) => {
                    self.counts.down = self.counts.down.saturating_add(1);
                }
                Some(Notice::Lost(device, _)) => self.count_loss(device),
                Some(_) => {}
                None => break,
            }
        }
    }

    /// Counts a loss, where the device answered as long as it may take.
    fn count_loss(&mut self, device: usize) {
        let from = self.now.saturating_sub(self.timeout);
        if let Some(lives) = self.lives_of(device)
            && lives.is_alive(from, self.now)
        {
            self.counts.lost = self.counts.lost.saturating_add(1);
        }
    }

    /// What is counted of a device of the site.
    fn lives_of(&self, device: usize) -> Option<&Lives> {
        let mut before = 0usize;
        for near in self.links.iter() {
            let unit = device.saturating_sub(before);
            if unit < near.lives.len() {
                return near.lives.get(unit);
            }
            before = before.saturating_add(near.lives.len());
        }
        None
    }

    fn end(&mut self) {
        let mark = LifeMark {
            at: self.roof.end(),
            scans: self.service.scans(),
        };
        for near in self.links.iter_mut() {
            near.end_all(mark, self.roof.settle);
        }
    }
}

impl RoofCounts {
    fn new() -> RoofCounts {
        RoofCounts {
            scans: 0,
            scan_at: 0,
            off: 0,
            requests: 0,
            twice: 0,
            stuck: 0,
            lost: 0,
            down: 0,
        }
    }

    /// So many scans were there until now.
    fn see(&mut self, scans: u64, now: u64, period: u64) {
        let passed = now.saturating_sub(self.scan_at);
        if self.scans > 0 {
            self.off = self.off.max(passed.abs_diff(period));
        }
        self.scans = scans;
        self.scan_at = now;
    }
}

impl NearEnd {
    fn end_all(&mut self, mark: LifeMark, settle: u64) {
        for lives in self.lives.iter_mut() {
            lives.end(mark, settle);
        }
    }
}

/// This side of a link.
fn near_end(alloc: Global, roof: &Roof<'_>, link: usize, models: &[ModelDef]) -> Played<NearEnd> {
    let text = needed(roof.links.get(link))?;
    let mut lives = Vec::new(alloc);
    for unit in text.units.iter() {
        lives.push(Lives::new(alloc, unit, roof.end())?)?;
    }
    let most = roof.timeout.saturating_mul(95) / 100;
    Ok(NearEnd {
        end: FarEnd::new(alloc, plant(alloc, text, models)?, most),
        waiting: Vec::new(alloc),
        lives,
        scans: 0,
        lag: 0,
    })
}

/// The frame that a request is.
fn frame_in(request: &[u8]) -> Played<Frame> {
    match Framer::<260>::new().feed(request) {
        Ok(fed) => needed(fed.frame),
        Err(_) => Err(RoofFault::Line),
    }
}

/// Whether a frame writes.
fn is_write(frame: &Frame) -> bool {
    frame.pdu.bytes().first().is_some_and(|first| *first != 3)
}
