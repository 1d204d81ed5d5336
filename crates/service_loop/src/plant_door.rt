//! A simulated plant behind a port.
use crate::door::Door;
use crate::plant_client::{LatePlant, PlantClient};
use crate::serve_loop::milliseconds;
use crate::tokens::{DOOR, Owner, SocketTokens};
use inverter_sim::Plant;
use mio::net::TcpStream;
use mio::{Events, Poll, Token};
use std::alloc::Global;
use std::io;
use std::net::{Net, SocketAddr};
use std::time::{Clock, Duration, Instant};

/// The most connections at once; more wait at the door.
const MOST_AT_ONCE: usize = 64;

/// The longest wait while one at the door couldn't be taken in, in milliseconds.
const TRY_AGAIN: u64 = 1000;

/// A port behind which a plant is served, over several connections at once. What one of them changes the others see.
#[derive(Drop)]
pub struct PlantDoor {
    poll: Poll,
    events: Events,
    door: Door,
    clients: Vec<Option<PlantClient>>,
    tokens: SocketTokens,
    /// How many may still come; none for ever more.
    left: Option<u64>,
}

impl PlantDoor {
    /// A port to which so many connections may come, without a limit where that is 0.
    pub fn open<R: Net>(
        rt: &R,
        alloc: Global,
        address: SocketAddr,
        connections: u64,
    ) -> io::Result<PlantDoor> {
        let poll = Poll::new(rt)?;
        let door = Door::new(rt, poll.registry(), Token(DOOR), address)?;
        let mut clients = Vec::new(alloc);
        for _ in 0..MOST_AT_ONCE {
            clients.push(None)?;
        }
        Ok(PlantDoor {
            poll,
            events: Events::with_capacity(alloc, MOST_AT_ONCE + 1)?,
            door,
            clients,
            tokens: SocketTokens::new(0),
            left: limit_of(connections),
        })
    }

    /// The address of the port.
    pub fn address(&self) -> io::Result<SocketAddr> {
        self.door.address()
    }

    /// Serves a plant until all connections that may come are over. A slow device answers late; the requests after its own
    /// on the same connection wait for that, and those on others don't. What a peer does ends its own connection alone; the
    /// call fails where the clock or the wait for sockets does.
    pub fn serve<R: Clock>(&mut self, rt: &R, plant: Plant) -> io::Result<()> {
        let start = Instant::now(rt)?;
        let mut plant = LatePlant::new(plant);
        for _ in 0..u64::MAX {
            self.take_in();
            self.receive(&mut plant);
            self.send(milliseconds(start.elapsed(rt)?));
            self.close();
            if self.is_done() {
                return Ok(());
            }
            self.wait(milliseconds(start.elapsed(rt)?))?;
        }
        Ok(())
    }

    // Takes in those who wait, as long as there are places.
    fn take_in(&mut self) {
        for _ in 0..MOST_AT_ONCE {
            let Some(place) = self.free_place() else {
                return;
            };
            let Some((stream, _)) = self.door.next() else {
                return;
            };
            self.join(place, stream);
        }
    }

    // A place for one more connection, where one may come.
    fn free_place(&self) -> Option<usize> {
        if self.left == Some(0) {
            return None;
        }
        for (place, client) in self.clients.iter().enumerate() {
            if client.is_none() {
                return Some(place);
            }
        }
        None
    }

    fn join(&mut self, place: usize, stream: TcpStream) {
        if let Some(left) = self.left {
            self.left = Some(left.saturating_sub(1));
        }
        let token = Token(self.tokens.of_client(place));
        let client = PlantClient::new(self.poll.registry(), token, stream);
        if let Some(there) = self.clients.get_mut(place) {
            *there = client;
        }
    }

    // Answers what came.
    fn receive(&mut self, plant: &mut LatePlant) {
        for client in self.clients.iter_mut() {
            if let Some(client) = client {
                client.receive(plant);
            }
        }
    }

    // Sends what may go out at a time.
    fn send(&mut self, now: u64) {
        for client in self.clients.iter_mut() {
            if let Some(client) = client {
                client.send(now);
            }
        }
    }

    // Closes the connections that are over.
    fn close(&mut self) {
        for client in self.clients.iter_mut() {
            if is_over(client) {
                *client = None;
            }
        }
    }

    // Whether none may come any more, and all who came are gone.
    fn is_done(&self) -> bool {
        self.left == Some(0) && self.clients.iter().all(|client| client.is_none())
    }

    fn wait(&mut self, now: u64) -> io::Result<()> {
        let most = self.longest_wait(now);
        self.poll.poll(&mut self.events, most)?;
        self.wake();
        Ok(())
    }

    // The longest wait; none where nothing but a socket ends it.
    fn longest_wait(&self, now: u64) -> Option<Duration> {
        if self.is_busy() {
            return Some(Duration::from_millis(0));
        }
        let again = self
            .door
            .is_stuck()
            .then_some(now.saturating_add(TRY_AGAIN));
        match earlier(again, self.first_due()) {
            Some(end) => Some(Duration::from_millis(end.saturating_sub(now))),
            None => None,
        }
    }

    // When the first answer that is held may go out.
    fn first_due(&self) -> Option<u64> {
        let mut first = None;
        for client in &self.clients {
            if let Some(client) = client {
                first = earlier(first, client.due());
            }
        }
        first
    }

    fn is_busy(&self) -> bool {
        if self.door.is_busy() && self.free_place().is_some() {
            return true;
        }
        for client in &self.clients {
            if let Some(client) = client {
                if client.is_busy() {
                    return true;
                }
            }
        }
        false
    }

    // Marks those of whom the system says that there is something to do. It says so once.
    fn wake(&mut self) {
        for event in self.events.iter() {
            match self.tokens.owner(event.token().0) {
                Owner::Door => self.door.wake(),
                Owner::Link(_) | Owner::PageDoor | Owner::Page(_) => {}
                Owner::Client(place) => {
                    if let Some(Some(client)) = self.clients.get_mut(place) {
                        client.wake();
                    }
                }
            }
        }
    }
}

fn earlier(one: Option<u64>, other: Option<u64>) -> Option<u64> {
    match (one, other) {
        (Some(one), Some(other)) => Some(one.min(other)),
        (one, None) => one,
        (None, other) => other,
    }
}

fn limit_of(connections: u64) -> Option<u64> {
    if connections == 0 {
        None
    } else {
        Some(connections)
    }
}

fn is_over(client: &Option<PlantClient>) -> bool {
    match client {
        Some(client) => client.is_over(),
        None => false,
    }
}
