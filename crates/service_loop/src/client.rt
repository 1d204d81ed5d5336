//! A client's connection.
ghost use Rattle.std.specs.Prelude.{◌<◌};
ghost use Rattle.service_parts.specs.Clients.{DoesAt, Sends};

use crate::client_record::ClientRecord;
use mio::net::TcpStream;
use mio::{Interest, Registry, Token};
use service::Service;
use service_edges::{Connection, Giver, Taker};
use std::net::SocketAddr;

/// The fewest bytes of a write that can be done: the seven of its header, function 6, address and value. So what one write set is
/// told before another one sets something.
const LEAST_WRITE: usize = 12;

/// A client's connection.
#[derive(Drop)]
pub(crate) struct Client {
    pub(crate) address: SocketAddr,
    pub(crate) record: ClientRecord,
    connection: Connection<TcpStream>,
}

impl Client {
    /// One whose connection is told of under a token; none where the system doesn't.
    pub(crate) fn new(
        registry: &Registry,
        token: Token,
        stream: TcpStream,
        address: SocketAddr,
        record: ClientRecord,
    ) -> Option<Client> {
        let mut stream = stream;
        let _ = stream.set_nodelay(true);
        let interests = Interest::READABLE | Interest::WRITABLE;
        registry.register(&mut stream, token, interests).ok()?;
        Some(Client {
            address,
            record,
            connection: Connection::new(stream),
        })
    }

    /// The system says that there is something to do.
    pub(crate) fn wake(&mut self) {
        self.connection.wake();
    }

    /// Whether there is something to do without a wait, where so many bytes are to go out.
    pub(crate) fn is_busy(&self, waiting: usize) -> bool {
        self.connection.is_busy(waiting)
    }

    /// Hands over what came, until a frame is answered: the service then has what it wrote.
    pub(crate) fn receive(&mut self, service: &mut Service, place: usize, now: u64) {
        self.connection.hand_over(&mut FromClient {
            service,
            place,
            now,
        });
    }

    /// Sends what waits.
    pub(crate) fn send(&mut self, service: &mut Service, place: usize) {
        self.connection.send(&mut ToClient { service, place });
    }

    /// Whether the connection is over, or is to be closed. What was still to be sent then had its last chance.
    pub(crate) fn is_over(&self, service: &Service, place: usize) -> bool {
        service.wants_close(place)
            || self.connection.is_broken()
            || self.connection.is_over() && service.to_client(place).is_empty()
    }
}

/// Takes what a client sends, until a frame is answered: the next one is taken once the answer is gone.
#[derive(Drop)]
struct FromClient<'s> {
    service: &'s mut Service,
    place: usize,
    now: u64,
}

impl Taker for FromClient<'_> {
    ghost use Rattle.std.specs.Prelude.{None};

    ghost taken = { λ _. None };

    fn take(&mut self, bytes: &[u8]) -> usize {
        let mut used: usize = 0;
        for _ in 0..bytes.len() {
            let Some((_, rest)) = bytes.split_at_checked(used) else {
                break;
            };
            if rest.is_empty() || self.is_answered() {
                break;
            }
            used = used.saturating_add(self.hand(rest));
        }
        used
    }
}

impl FromClient<'_> {
    /// Whether a frame was answered, and its answer waits.
    fn is_answered(&self) -> bool {
        !self.service.to_client(self.place).is_empty()
    }

    /// Hands over the next bytes, so few that they end at most one write that is done; how many were used.
    fn hand(&mut self, rest: &[u8]) -> usize {
        let front = rest.split_at(LEAST_WRITE.min(rest.len())).0;
        self.service.from_client(self.place, front, self.now)
    }
}

/// Has what goes out to a client.
#[derive(Drop)]
struct ToClient<'s> {
    service: &'s mut Service,
    place: usize,
}

impl Giver for ToClient<'_> {
    ghost use Rattle.std.specs.Prelude.{None};

    ghost left = { λ _. None };

    fn waiting(&self) -> &[u8] {
        self.service.to_client(self.place)
    }

    fn gone(&mut self, n: usize)
        ensures sends { 0 < n → DoesAt (λ old new. Sends old n new) self.old.service.now.places.items self.old.place self.new.service.now.places.items }
    {
        if n > 0 {
            self.service.sent_to_client(self.place, n);
        }
    }
}
