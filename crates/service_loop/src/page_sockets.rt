//! The connections of those who look.
use crate::door::Door;
use crate::tokens::{PAGE_DOOR, SocketTokens};
use mio::net::TcpStream;
use mio::{Interest, Registry, Token};
use page_server::{PageConnection, PageTexts, Pages, TOO_MANY};
use std::alloc::Global;
use std::hash::RandomState;
use std::io;
use std::io::Write;
use std::net::{Net, SocketAddr};
use std::random::RandomSource;

/// How many may look at once.
pub(crate) const PLACES: usize = 16;

/// The most that are taken in in one turn.
const MOST_TAKEN: u32 = 16;

/// The connections of those who look, each at its place, under its token.
#[derive(Drop)]
pub(crate) struct PageSockets {
    alloc: Global,
    door: Door,
    /// What places headers in tables that nobody outside can foresee.
    keys: RandomState,
    tokens: SocketTokens,
    places: Vec<Option<PageConnection<TcpStream>>>,
}

impl PageSockets {
    /// The socket that they come to, and no connection yet.
    pub(crate) fn new<R: Net + RandomSource>(
        rt: &R,
        alloc: Global,
        registry: &Registry,
        tokens: SocketTokens,
        listen: SocketAddr,
    ) -> io::Result<PageSockets> {
        let mut places = Vec::new(alloc);
        for _ in 0..PLACES {
            places.push(None)?;
        }
        Ok(PageSockets {
            alloc,
            door: Door::new(rt, registry, Token(PAGE_DOOR), listen)?,
            keys: RandomState::new(rt)?,
            tokens,
            places,
        })
    }

    /// The address that they come to.
    pub(crate) fn address(&self) -> io::Result<SocketAddr> {
        self.door.address()
    }

    /// The system says that some wait.
    pub(crate) fn wake_door(&mut self) {
        self.door.wake();
    }

    /// The system says of the connection at a place that there is something to do.
    pub(crate) fn wake(&mut self, place: usize) {
        if let Some(Some(connection)) = self.places.get_mut(place) {
            connection.wake();
        }
    }

    /// Whether there is something to do without a wait.
    pub(crate) fn is_busy(&self) -> bool {
        self.door.is_busy() || self.has_work()
    }

    /// Whether one who waits is to be tried again later.
    pub(crate) fn is_stuck(&self) -> bool {
        self.door.is_stuck()
    }

    /// Whether one of them is to be answered, or closed.
    fn has_work(&self) -> bool {
        for connection in self.places.iter() {
            if let Some(connection) = connection {
                if connection.is_busy() {
                    return true;
                }
            }
        }
        false
    }

    /// Takes in those who wait, closes those who are over or silent, and answers the others by these texts.
    pub(crate) fn turn(
        &mut self,
        registry: &Registry,
        texts: PageTexts<'_>,
        names: &[String],
        now: u64,
    ) {
        self.take_in(registry, now);
        let mut pages = Pages::new(texts, names);
        for place in self.places.iter_mut() {
            turn_at(place, &mut pages, now);
        }
    }

    fn take_in(&mut self, registry: &Registry, now: u64) {
        for _ in 0..MOST_TAKEN {
            let Some((stream, _)) = self.door.next() else {
                return;
            };
            self.join(registry, stream, now);
        }
    }

    fn join(&mut self, registry: &Registry, stream: TcpStream, now: u64) {
        let mut stream = stream;
        let Some(place) = self.free_place() else {
            let _ = stream.write(TOO_MANY);
            return;
        };
        let interests = Interest::READABLE | Interest::WRITABLE;
        let token = Token(self.tokens.of_page(place));
        if registry.register(&mut stream, token, interests).is_err() {
            return;
        }
        let connection = PageConnection::new(self.alloc, self.keys, stream, now);
        if let Some(there) = self.places.get_mut(place) {
            *there = Some(connection);
        }
    }

    fn free_place(&self) -> Option<usize> {
        for (place, connection) in self.places.iter().enumerate() {
            if connection.is_none() {
                return Some(place);
            }
        }
        None
    }
}

/// One turn of the connection at a place; it is closed where it is over.
fn turn_at(place: &mut Option<PageConnection<TcpStream>>, pages: &mut Pages<'_>, now: u64) {
    let Some(connection) = place else {
        return;
    };
    connection.turn(pages, now);
    if connection.is_over(now) {
        *place = None;
    }
}
