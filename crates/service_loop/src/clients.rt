//! The clients' connections.
ghost use Rattle.std.specs.Prelude.{IfSome};
ghost use Rattle.service_loop.specs.Admitting.{HasRight};

use crate::client::Client;
use crate::client_record::ClientRecord;
use crate::client_watch::ClientWatch;
use crate::door::Door;
use crate::line_writer::LineWriter;
use crate::tokens::SocketTokens;
use mio::net::TcpStream;
use mio::{Registry, Token};
use service::Service;
use service_texts::{Writer, may_write};
use std::alloc::{AllocError, Global};
use std::io::Write;
use std::net::{IpAddr, SocketAddr};

/// The most connections that are taken in one turn.
const MOST_TAKEN: u32 = 64;

/// The clients' connections, each at its place, under its token.
#[derive(Drop)]
pub(crate) struct Clients {
    tokens: SocketTokens,
    places: Vec<Option<Client>>,
    watch: ClientWatch,
}

impl Clients {
    /// Places for so many, all of them free; whether each client that comes or leaves is told.
    pub(crate) fn new(
        alloc: Global,
        tokens: SocketTokens,
        most: usize,
        tells_moves: bool,
    ) -> Result<Clients, AllocError> {
        let mut places = Vec::new(alloc);
        for _ in 0..most {
            places.push(None)?;
        }
        Ok(Clients {
            tokens,
            places,
            watch: ClientWatch::new(alloc, tells_moves)?,
        })
    }

    /// This is set at the start, and needn't be told.
    pub(crate) fn begin(&mut self, settings: &[Option<i64>]) -> Result<(), AllocError> {
        self.watch.begin(settings)
    }

    /// Tells which set values lapsed, where the program ran since this was asked last.
    pub(crate) fn tell_lapsed<W: Write>(
        &mut self,
        service: &Service,
        line_writer: &mut LineWriter<'_, W>,
    ) {
        self.watch.tell_lapsed(service, line_writer);
    }

    /// The system says of the client at a place that there is something to do.
    pub(crate) fn wake(&mut self, place: usize) {
        if let Some(Some(client)) = self.places.get_mut(place) {
            client.wake();
        }
    }

    /// Whether there is something to do without a wait.
    pub(crate) fn is_busy(&self, service: &Service) -> bool {
        for (place, client) in self.places.iter().enumerate() {
            if let Some(client) = client {
                if client.is_busy(service.to_client(place).len()) {
                    return true;
                }
            }
        }
        false
    }

    /// Takes in those who wait, where the service has a place for them; `writers` may write.
    pub(crate) fn take_in<W: Write>(
        &mut self,
        registry: &Registry,
        door: &mut Door,
        writers: &[Writer],
        service: &mut Service,
        line_writer: &mut LineWriter<'_, W>,
    ) {
        self.watch.tell_over(line_writer);
        for _ in 0..MOST_TAKEN {
            let Some((stream, address)) = door.next() else {
                return;
            };
            self.join(registry, stream, address, writers, service, line_writer);
        }
    }

    fn join<W: Write>(
        &mut self,
        registry: &Registry,
        stream: TcpStream,
        address: SocketAddr,
        writers: &[Writer],
        service: &mut Service,
        line_writer: &mut LineWriter<'_, W>,
    ) {
        match admitted(service, writers, address.ip(), line_writer.now()) {
            Some(place) => {
                // the first who was silent for over half a minute, where there was no free place
                self.leave(place, line_writer);
                let token = Token(self.tokens.of_client(place));
                let right = may_write(writers, address.ip());
                let record = ClientRecord::new(right, line_writer.now());
                let client = Client::new(registry, token, stream, address, record);
                self.put(place, client, service, line_writer);
            }
            None => line_writer.tell_client(address, "refused"),
        }
    }

    // Puts a client to a place; it is gone already where there is none.
    fn put<W: Write>(
        &mut self,
        place: usize,
        client: Option<Client>,
        service: &mut Service,
        line_writer: &mut LineWriter<'_, W>,
    ) {
        match &client {
            Some(client) => self.watch.tell_joined(client.address, line_writer),
            None => service.client_gone(place),
        }
        self.set(place, client);
    }

    fn set(&mut self, place: usize, client: Option<Client>) {
        if let Some(there) = self.places.get_mut(place) {
            *there = client;
        }
    }

    // Closes the connection at a place, where there is one.
    fn leave<W: Write>(&mut self, place: usize, line_writer: &mut LineWriter<'_, W>) {
        if let Some(address) = self.address_at(place) {
            self.set(place, None);
            self.watch.tell_left(address, line_writer);
        }
    }

    /// How many clients there are.
    pub(crate) fn count(&self) -> u64 {
        let mut count: u64 = 0;
        for client in self.places.iter() {
            if client.is_some() {
                count = count.saturating_add(1);
            }
        }
        count
    }

    /// How many places there are.
    pub(crate) fn places(&self) -> usize {
        self.places.len()
    }

    /// The client at a place, where there is one.
    pub(crate) fn at(&self, place: usize) -> Option<&Client> {
        match self.places.get(place) {
            Some(Some(client)) => Some(client),
            _ => None,
        }
    }

    /// Who set a tag to what it is set to; None where it isn't set, or was at the start.
    pub(crate) fn setter(&self, tag: usize) -> Option<SocketAddr> {
        self.watch.setter(tag)
    }

    /// The address of the client at a place, where there is one.
    pub(crate) fn address_at(&self, place: usize) -> Option<SocketAddr> {
        match self.places.get(place) {
            Some(Some(client)) => Some(client.address),
            _ => None,
        }
    }

    /// Hands over what came, of each client until a frame is answered, and tells what they set, before they are told that it is done.
    pub(crate) fn receive<W: Write>(
        &mut self,
        service: &mut Service,
        line_writer: &mut LineWriter<'_, W>,
    ) {
        let watch = &mut self.watch;
        for (place, client) in self.places.iter_mut().enumerate() {
            if let Some(client) = client {
                receive_at(client, place, watch, service, line_writer);
            }
        }
    }

    /// Sends what waits.
    pub(crate) fn send(&mut self, service: &mut Service) {
        for (place, client) in self.places.iter_mut().enumerate() {
            if let Some(client) = client {
                client.send(service, place);
            }
        }
    }

    /// Closes the connections that are over, or are to be closed.
    pub(crate) fn close<W: Write>(
        &mut self,
        service: &mut Service,
        line_writer: &mut LineWriter<'_, W>,
    ) {
        for place in 0..self.places.len() {
            if self.is_over(service, place) {
                self.leave(place, line_writer);
                service.client_gone(place);
            }
        }
    }

    fn is_over(&self, service: &Service, place: usize) -> bool {
        match self.places.get(place) {
            Some(Some(client)) => client.is_over(service, place),
            _ => false,
        }
    }
}

/// The place of a client that came from an address; none where the service has no place for it. It may write exactly where the
/// address is that of one who may.
fn admitted(service: &mut Service, writers: &[Writer], address: IpAddr, now: u64) -> Option<usize>
    ensures { IfSome result (HasRight writers.now address service.new.places.items) }
{
    service.client_came(may_write(writers, address), now)
}

/// Hands over what came of a client, and tells what it wrote.
fn receive_at<W: Write>(
    client: &mut Client,
    place: usize,
    watch: &mut ClientWatch,
    service: &mut Service,
    line_writer: &mut LineWriter<'_, W>,
) {
    let answered = service.client_requests(place);
    client.receive(service, place, line_writer.now());
    if service.client_requests(place) > answered {
        client
            .record
            .note(service.client_writes(), line_writer.now());
        watch.tell_writes(client.address, service, line_writer);
    }
}
