//! Where clients come to.
use mio::net::{TcpListener, TcpStream};
use mio::{Interest, Registry, Token};
use std::io;
use std::io::ErrorKind;
use std::net::{Net, SocketAddr};

/// The socket that clients come to.
#[derive(Drop)]
pub(crate) struct Door {
    listener: TcpListener,
    /// Whether some may wait to be taken in.
    has_waiting: bool,
    /// Whether one who waits couldn't be taken in, as where there are no descriptors.
    is_stuck: bool,
}

impl Door {
    pub(crate) fn new<R: Net>(
        rt: &R,
        registry: &Registry,
        token: Token,
        listen: SocketAddr,
    ) -> io::Result<Door> {
        let mut listener = TcpListener::bind(rt, listen)?;
        registry.register(&mut listener, token, Interest::READABLE)?;
        Ok(Door {
            listener,
            has_waiting: false,
            is_stuck: false,
        })
    }

    pub(crate) fn address(&self) -> io::Result<SocketAddr> {
        self.listener.local_addr()
    }

    /// The system says that some wait.
    pub(crate) fn wake(&mut self) {
        self.has_waiting = true;
    }

    /// Whether some may be taken in without a wait.
    pub(crate) fn is_busy(&self) -> bool {
        self.has_waiting && !self.is_stuck
    }

    /// Whether it is to be tried again later.
    pub(crate) fn is_stuck(&self) -> bool {
        self.is_stuck
    }

    /// The next one who waits.
    pub(crate) fn next(&mut self) -> Option<(TcpStream, SocketAddr)> {
        if !self.has_waiting {
            return None;
        }
        self.is_stuck = false;
        match self.listener.accept() {
            Ok(came) => Some(came),
            Err(fault) => {
                self.not_come(fault.kind());
                None
            }
        }
    }

    fn not_come(&mut self, kind: ErrorKind) {
        match kind {
            ErrorKind::WouldBlock => self.has_waiting = false,
            _ => self.is_stuck = true,
        }
    }
}
