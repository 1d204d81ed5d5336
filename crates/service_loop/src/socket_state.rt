//! How far a connection to devices is.
use mio::net::TcpStream;
use mio::{Interest, Registry, Token};
use service_edges::{Connection, Lookup, Progress, Target, target_of};
use std::alloc::Global;
use std::io::ErrorKind;
use std::mem;
use std::net::{Net, SocketAddr};
use std::process::{Processes, SystemProcess};

/// How far a connection to devices is.
#[derive(Drop)]
pub(crate) enum SocketState {
    /// There is none.
    Down,
    /// The name in its address is being looked up.
    LookingUp(Lookup),
    /// It is being made.
    Connecting(Connection<TcpStream>),
    Up(Connection<TcpStream>),
}

/// What became of a connection that is being made.
#[derive(Clone, Copy)]
pub(crate) enum ConnectEnd {
    Stands,
    Open,
    Failed,
}

impl SocketState {
    /// That of a connection to `HOST:PORT` that begins: where HOST is a name, with its lookup. Down where it can't begin.
    pub(crate) fn begun<R: Net + Processes<Started = SystemProcess>>(
        rt: &R,
        alloc: Global,
        registry: &Registry,
        token: Token,
        address: &str,
    ) -> SocketState {
        match target_of(address) {
            Some(Target::Address(address)) => SocketState::to(rt, registry, token, address),
            Some(Target::Name(name, port)) => {
                match Lookup::begin(rt, alloc, registry, token, name, port) {
                    Ok(lookup) => SocketState::LookingUp(lookup),
                    Err(_) => SocketState::Down,
                }
            }
            None => SocketState::Down,
        }
    }

    /// That of a connection to an address that begins. Down where it can't begin.
    pub(crate) fn to<R: Net>(
        rt: &R,
        registry: &Registry,
        token: Token,
        address: SocketAddr,
    ) -> SocketState {
        match connecting(rt, registry, token, address) {
            Some(stream) => SocketState::Connecting(Connection::new(stream)),
            None => SocketState::Down,
        }
    }

    pub(crate) fn is_down(&self) -> bool {
        matches!(self, SocketState::Down)
    }

    /// The system says that there is something to do.
    pub(crate) fn wake(&mut self) {
        match self {
            SocketState::Down => {}
            SocketState::LookingUp(lookup) => lookup.wake(),
            SocketState::Connecting(connection) => connection.wake(),
            SocketState::Up(connection) => connection.wake(),
        }
    }

    /// Whether there is something to do without a wait, where so many bytes are to go out.
    pub(crate) fn is_busy(&self, waiting: usize) -> bool {
        match self {
            SocketState::LookingUp(lookup) => lookup.is_busy(),
            SocketState::Up(connection) => connection.is_busy(waiting),
            SocketState::Down | SocketState::Connecting(_) => false,
        }
    }

    /// How far its lookup is; nothing comes of it where there is none.
    pub(crate) fn look(&mut self) -> Progress {
        match self {
            SocketState::LookingUp(lookup) => lookup.receive(),
            _ => Progress::Waits,
        }
    }

    /// What became of it, where it is being made.
    pub(crate) fn connect_end(&self) -> ConnectEnd {
        match self {
            SocketState::Connecting(connection) => connect_end_of(connection.stream()),
            _ => ConnectEnd::Open,
        }
    }

    /// The connection that is being made is up from now on.
    pub(crate) fn come_up(&mut self) {
        let state = mem::replace(self, SocketState::Down);
        *self = match state {
            SocketState::Connecting(connection) => SocketState::Up(connection),
            state => state,
        };
    }

    /// Down from now on; no process goes on looking up its name.
    pub(crate) fn end(&mut self) {
        if let SocketState::LookingUp(lookup) = self {
            lookup.stop();
        }
        *self = SocketState::Down;
    }
}

// A connection to an address that is being made, or none where that can't be.
fn connecting<R: Net>(
    rt: &R,
    registry: &Registry,
    token: Token,
    address: SocketAddr,
) -> Option<TcpStream> {
    let mut stream = TcpStream::connect(rt, address).ok()?;
    let interests = Interest::READABLE | Interest::WRITABLE;
    registry.register(&mut stream, token, interests).ok()?;
    Some(stream)
}

fn connect_end_of(stream: &TcpStream) -> ConnectEnd {
    match stream.take_error() {
        Ok(None) => {}
        _ => return ConnectEnd::Failed,
    }
    match stream.peer_addr() {
        Ok(_) => {
            let _ = stream.set_nodelay(true);
            ConnectEnd::Stands
        }
        Err(fault) if fault.kind() == ErrorKind::NotConnected => ConnectEnd::Open,
        Err(_) => ConnectEnd::Failed,
    }
}
