//! All sockets of a service, and the wait for them.
use crate::clients::Clients;
use crate::device_sockets::DeviceSockets;
use crate::door::Door;
use crate::kept_files::Kept;
use crate::line_writer::LineWriter;
use crate::page_sockets::{PLACES, PageSockets};
use crate::serving::{End, PageWindow, Serving};
use crate::tokens::{DOOR, Owner, SocketTokens};
use mio::{Events, Poll, Token};
use page_server::PageTexts;
use service::Service;
use site_model::Text;
use std::alloc::{AllocError, Global};
use std::io;
use std::io::Write;
use std::net::{Net, SocketAddr};
use std::process::{Processes, SystemProcess};
use std::random::RandomSource;
use std::time::Duration;

/// The longest wait while one at the door couldn't be taken in, in milliseconds.
const TRY_AGAIN: u64 = 1000;

/// All sockets of a service.
#[derive(Drop)]
pub(crate) struct Sockets {
    poll: Poll,
    events: Events,
    door: Door,
    links: DeviceSockets,
    clients: Clients,
    /// Those who look; None where nobody can.
    pages: Option<PageSockets>,
    tokens: SocketTokens,
}

/// What came in this turn is taken. What is set is kept only after that.
#[derive(Drop)]
pub(crate) struct TurnTaken {
    _by_sockets: (),
}

impl Sockets {
    /// The socket that clients come to, and no connection yet.
    pub(crate) fn new<R: Net + RandomSource>(
        rt: &R,
        alloc: Global,
        serving: &Serving<'_>,
        links: &[Text],
    ) -> Result<Sockets, End> {
        let poll = poll_of(rt)?;
        let door = door_of(rt, &poll, serving.listen)?;
        let pages = match serving.page {
            Some(window) => Some(pages_of(rt, alloc, &poll, window, links.len())?),
            None => None,
        };
        match Sockets::over(alloc, poll, door, pages, serving, links) {
            Ok(sockets) => Ok(sockets),
            Err(fault) => Err(End::by(&fault)),
        }
    }

    fn over(
        alloc: Global,
        poll: Poll,
        door: Door,
        pages: Option<PageSockets>,
        serving: &Serving<'_>,
        links: &[Text],
    ) -> io::Result<Sockets> {
        let tokens = SocketTokens::new(links.len());
        let most = tokens.of_client(serving.clients).saturating_add(PLACES);
        let links = DeviceSockets::new(alloc, tokens, links)?;
        let clients = Clients::new(alloc, tokens, serving.clients, serving.is_verbose)?;
        Ok(Sockets {
            events: Events::with_capacity(alloc, most)?,
            poll,
            door,
            links,
            clients,
            pages,
            tokens,
        })
    }

    /// The address that clients come to.
    pub(crate) fn address(&self) -> io::Result<SocketAddr> {
        self.door.address()
    }

    /// The address that those who look come to, where they can.
    pub(crate) fn page_address(&self) -> Option<SocketAddr> {
        match &self.pages {
            Some(pages) => pages.address().ok(),
            None => None,
        }
    }

    /// Whether somebody who looks is to be answered.
    pub(crate) fn has_lookers(&self) -> bool {
        match &self.pages {
            Some(pages) => pages.is_busy(),
            None => false,
        }
    }

    /// Answers those who look, by these texts; closes those who are silent.
    pub(crate) fn show(&mut self, window: PageWindow<'_>, texts: PageTexts<'_>, now: u64) {
        if let Some(pages) = &mut self.pages {
            pages.turn(self.poll.registry(), texts, window.names, now);
        }
    }

    /// This is set at the start.
    pub(crate) fn begin(&mut self, settings: &[Option<i64>]) -> Result<(), AllocError> {
        self.clients.begin(settings)
    }

    /// The clients' connections.
    pub(crate) fn clients(&self) -> &Clients {
        &self.clients
    }

    /// Hands over all that came from devices by now.
    pub(crate) fn hear(&mut self, service: &mut Service, now: u64) -> io::Result<()> {
        self.wait(0)?;
        self.links.receive(service, now);
        Ok(())
    }

    /// Takes in clients who wait, hands over what came from clients, and makes and closes connections to devices.
    pub(crate) fn take<R: Net + Processes<Started = SystemProcess>, W: Write>(
        &mut self,
        rt: &R,
        serving: &Serving<'_>,
        service: &mut Service,
        line_writer: &mut LineWriter<'_, W>,
    ) -> TurnTaken {
        let now = line_writer.now();
        let registry = self.poll.registry();
        self.clients.take_in(
            registry,
            &mut self.door,
            serving.writers,
            service,
            line_writer,
        );
        // a scan may have been made, and a client may write again what lapsed before it
        self.clients.tell_lapsed(service, line_writer);
        self.clients.receive(service, line_writer);
        self.links.hang_up(service, now);
        self.links.dial(rt, registry, service, now);
        TurnTaken { _by_sockets: () }
    }

    /// Sends what waits, once what is set is kept, and closes clients' connections that are over.
    pub(crate) fn give<W: Write>(
        &mut self,
        _kept: Kept,
        service: &mut Service,
        line_writer: &mut LineWriter<'_, W>,
    ) {
        self.links.send(service);
        self.clients.send(service);
        self.clients.close(service, line_writer);
    }

    /// The longest wait, where there is something to do in so many milliseconds at the latest.
    pub(crate) fn longest_wait(&self, service: &Service, most: u64) -> u64 {
        if self.door.is_busy() || self.links.is_busy(service) || self.clients.is_busy(service) {
            return 0;
        }
        if self.has_lookers() {
            return 0;
        }
        if self.door.is_stuck() || self.has_stuck_lookers() {
            most.min(TRY_AGAIN)
        } else {
            most
        }
    }

    /// Waits until the system says that there is something to do, at most so many milliseconds.
    pub(crate) fn wait(&mut self, most: u64) -> io::Result<()> {
        let most = Duration::from_millis(most);
        self.poll.poll(&mut self.events, Some(most))?;
        self.wake();
        Ok(())
    }

    /// Ends the connections to devices.
    pub(crate) fn end(&mut self) {
        self.links.end();
    }

    fn has_stuck_lookers(&self) -> bool {
        match &self.pages {
            Some(pages) => pages.is_stuck(),
            None => false,
        }
    }

    // Marks those of whom the system says that there is something to do. It says so once.
    fn wake(&mut self) {
        for event in self.events.iter() {
            match self.tokens.owner(event.token().0) {
                Owner::Door => self.door.wake(),
                Owner::Link(number) => self.links.wake(number),
                Owner::Client(place) => self.clients.wake(place),
                Owner::PageDoor => wake_page_door(&mut self.pages),
                Owner::Page(place) => wake_page(&mut self.pages, place),
            }
        }
    }
}

fn wake_page_door(pages: &mut Option<PageSockets>) {
    if let Some(pages) = pages {
        pages.wake_door();
    }
}

fn wake_page(pages: &mut Option<PageSockets>, place: usize) {
    if let Some(pages) = pages {
        pages.wake(place);
    }
}

fn pages_of<R: Net + RandomSource>(
    rt: &R,
    alloc: Global,
    poll: &Poll,
    window: PageWindow<'_>,
    links: usize,
) -> Result<PageSockets, End> {
    let tokens = SocketTokens::new(links);
    match PageSockets::new(rt, alloc, poll.registry(), tokens, window.listen) {
        Ok(pages) => Ok(pages),
        Err(fault) => Err(End::at_page(&fault)),
    }
}

fn poll_of<R: Net>(rt: &R) -> Result<Poll, End> {
    match Poll::new(rt) {
        Ok(poll) => Ok(poll),
        Err(fault) => Err(End::by(&fault)),
    }
}

fn door_of<R: Net>(rt: &R, poll: &Poll, listen: SocketAddr) -> Result<Door, End> {
    match Door::new(rt, poll.registry(), Token(DOOR), listen) {
        Ok(door) => Ok(door),
        Err(fault) => Err(End::at_door(&fault)),
    }
}
