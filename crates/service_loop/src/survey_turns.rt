//! The turns of a survey: connections to devices alone, until each device is read or can't be, and then one scan.
use crate::device_sockets::DeviceSockets;
use crate::serve_loop::milliseconds;
use crate::serving::End;
use crate::tokens::{Owner, SocketTokens};
use mio::{Events, Poll};
use service::{Limits, Notice, Service};
use service_texts::limits;
use site_model::Text;
use std::alloc::Global;
use std::io;
use std::net::Net;
use std::process::{Processes, SystemProcess};
use std::time::{Clock, Duration, Instant};

/// From the start of a survey to its scan at the latest, in milliseconds: the longest that connections, searches and reads may
/// take. No device without a map is searched a second time before.
const ROUND: u64 = 600_000;

/// How long a survey waits: for each reply of each device so many milliseconds.
pub fn survey_limits(timeout: u64) -> Limits {
    Limits {
        first_wait: timeout,
        search_again: ROUND,
        ..limits(ROUND, timeout, 0)
    }
}

/// Brings a survey, of which nothing was asked yet and whose limits are `survey_limits`, to the end of its scan: each device
/// is connected, searched once and read, all side by side. `links`
/// are the addresses of its connections. Nothing that a device does ends it. System: the clock or the wait for sockets failed;
/// OutOfMemory: memory was refused at the start.
pub fn survey_site<R: Net + Clock + Processes<Started = SystemProcess>>(
    rt: &R,
    alloc: Global,
    links: &[Text],
    service: &mut Service,
) -> Result<(), End> {
    let mut round = match SurveyRound::new(rt, alloc, links, service) {
        Ok(round) => round,
        Err(fault) => return Err(End::by(&fault)),
    };
    let ended = turns(rt, service, &mut round);
    round.links.end();
    ended
}

// Turns and waits, until the scan is done.
fn turns<R: Net + Clock + Processes<Started = SystemProcess>>(
    rt: &R,
    service: &mut Service,
    round: &mut SurveyRound,
) -> Result<(), End> {
    for _ in 0..u64::MAX {
        let now = round.now(rt)?;
        if let Err(fault) = round.hear(service, now) {
            return Err(End::by(&fault));
        }
        if round.turn(rt, service, now) {
            return Ok(());
        }
        // the turn may have put the time ahead
        let now = round.now(rt)?;
        if let Err(fault) = round.wait(service, now) {
            return Err(End::by(&fault));
        }
    }
    Ok(())
}

/// The round of a survey, with its sockets and its clock.
#[derive(Drop)]
struct SurveyRound {
    poll: Poll,
    events: Events,
    tokens: SocketTokens,
    links: DeviceSockets,
    start: Instant,
    /// By how many milliseconds the service's time is ahead of the clock: the scan comes as soon as each device is read, or can't
    /// be.
    ahead: u64,
    /// Of each device, whether a search found that it has no map.
    unmapped: Vec<bool>,
}

impl SurveyRound {
    fn new<R: Net + Clock>(
        rt: &R,
        alloc: Global,
        links: &[Text],
        service: &Service,
    ) -> io::Result<SurveyRound> {
        let tokens = SocketTokens::new(links.len());
        let devices = service.core().site().devices().len();
        Ok(SurveyRound {
            poll: Poll::new(rt)?,
            events: Events::with_capacity(alloc, links.len().saturating_add(1))?,
            tokens,
            links: DeviceSockets::new(alloc, tokens, links)?,
            start: Instant::now(rt)?,
            ahead: 0,
            unmapped: vec![in alloc; false; devices]?,
        })
    }

    /// The service's time, in milliseconds.
    fn now<R: Clock>(&self, rt: &R) -> Result<u64, End> {
        match self.start.elapsed(rt) {
            Ok(spent) => Ok(milliseconds(spent).saturating_add(self.ahead)),
            Err(fault) => Err(End::by(&fault)),
        }
    }

    /// Hears devices before waits end: what came while this program itself had no time isn't late.
    fn hear(&mut self, service: &mut Service, now: u64) -> io::Result<()> {
        self.poll(0)?;
        self.links.receive(service, now);
        Ok(())
    }

    /// One turn; whether the scan is done.
    fn turn<R: Net + Processes<Started = SystemProcess>>(
        &mut self,
        rt: &R,
        service: &mut Service,
        now: u64,
    ) -> bool {
        service.tick(now);
        self.links.hang_up(service, now);
        self.links.dial(rt, self.poll.registry(), service, now);
        self.links.send(service);
        if self.is_scanned(service) {
            return true;
        }
        if self.ahead == 0 && self.is_settled(service) {
            self.ahead = ROUND.saturating_sub(now);
        }
        false
    }

    /// Takes what the service tells; whether its scan is done.
    fn is_scanned(&mut self, service: &mut Service) -> bool {
        for _ in 0..u64::MAX {
            match service.next_note() {
                None => return false,
                Some(Notice::Scanned(_)) => return true,
                Some(Notice::NoMap(device)) => self.find_none(device),
                Some(_) => {}
            }
        }
        false
    }

    fn find_none(&mut self, device: usize) {
        if let Some(unmapped) = self.unmapped.get_mut(device) {
            *unmapped = true;
        }
    }

    /// Whether each device is lost, has no map, or is read.
    fn is_settled(&self, service: &Service) -> bool {
        for (device, unmapped) in self.unmapped.iter().enumerate() {
            if !*unmapped && !is_tried(service, device) {
                return false;
            }
        }
        true
    }

    /// Waits until there is something to do.
    fn wait(&mut self, service: &Service, now: u64) -> io::Result<()> {
        let most = if self.links.is_busy(service) {
            0
        } else {
            service.wakes_at().saturating_sub(now)
        };
        self.poll(most)
    }

    /// Waits until the system says that there is something to do, at most so many milliseconds.
    fn poll(&mut self, most: u64) -> io::Result<()> {
        self.poll
            .poll(&mut self.events, Some(Duration::from_millis(most)))?;
        for event in self.events.iter() {
            if let Owner::Link(number) = self.tokens.owner(event.token().0) {
                self.links.wake(number);
            }
        }
        Ok(())
    }
}

/// Whether a device is lost, or has a map and is read.
fn is_tried(service: &Service, device: usize) -> bool {
    match service.device_status(device) {
        Some(status) => status.is_lost || (status.is_mapped && service.is_read(device)),
        None => true,
    }
}
