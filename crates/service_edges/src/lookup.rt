//! A name that is being looked up.
use crate::answer::address_in;
use crate::connection::Connection;
use crate::handing::Taker;
use mio::net::UnixStream;
use mio::{Interest, Registry, Token};
use std::alloc::Global;
use std::io;
use std::net::{Net, SocketAddr};
use std::os::fd::OwnedFd;
use std::os::unix::net;
use std::process::{Child, Command, Processes, Stdio, SystemProcess};

/// The program that looks up a name, as the system itself would, and prints its addresses.
const PROGRAM: &str = "/usr/bin/getent";

/// The most bytes of an answer that are kept. The first address is among them, with its blank: it has at most 56.
const MOST: usize = 64;

/// A name that is being looked up, by a second process. Whoever has it calls `stop` before it goes.
#[derive(Drop)]
pub struct Lookup {
    process: Child<SystemProcess>,
    stream: Connection<UnixStream>,
    answer: LookupAnswer,
    port: u16,
}

/// How far a lookup is.
#[derive(Clone, Copy)]
pub enum Progress {
    /// The answer isn't whole yet.
    Waits,
    /// The name has this address, here with the port.
    Found(SocketAddr),
    /// No address of this name is known, or the process ended in another way.
    Nothing,
}

impl Lookup {
    /// Begins to look up a name, for a connection to a port of it. The system tells under the token that something of the
    /// answer came. An error of the system where the process can't be started, or memory is refused.
    pub fn begin<R: Net + Processes<Started = SystemProcess>>(
        rt: &R,
        alloc: Global,
        registry: &Registry,
        token: Token,
        name: &str,
        port: u16,
    ) -> io::Result<Lookup> {
        let (ours, theirs) = net::UnixStream::pair(rt)?;
        let stream = polled(registry, token, ours)?;
        Ok(Lookup {
            process: started(rt, alloc, name, OwnedFd::from(theirs))?,
            stream: Connection::new(stream),
            answer: LookupAnswer::new(),
            port,
        })
    }

    /// The system says that something of the answer came.
    pub fn wake(&mut self) {
        self.stream.wake();
    }

    /// Whether there is something to do without a wait.
    pub fn is_busy(&self) -> bool {
        self.stream.is_busy(0)
    }

    /// Takes what came of the answer, and says how far it is.
    pub fn receive(&mut self) -> Progress {
        self.stream.hand_over(&mut self.answer);
        if !self.stream.is_over() && !self.answer.is_full() {
            return Progress::Waits;
        }
        match address_in(self.answer.bytes(), self.port) {
            Some(address) => Progress::Found(address),
            None => Progress::Nothing,
        }
    }

    /// Ends the process where it still runs, and takes its end from the system, which would keep it else.
    pub fn stop(&mut self) {
        if let Ok(None) = self.process.try_wait() {
            let _ = self.process.kill();
            let _ = self.process.wait();
        }
    }
}

// Our end of the answer's socket, of which the system tells.
fn polled(registry: &Registry, token: Token, ours: net::UnixStream) -> io::Result<UnixStream> {
    ours.set_nonblocking(true)?;
    let mut stream = UnixStream::from_std(ours);
    registry.register(&mut stream, token, Interest::READABLE)?;
    Ok(stream)
}

// The process that looks up a name and prints to this socket.
fn started<R: Processes<Started = SystemProcess>>(
    rt: &R,
    alloc: Global,
    name: &str,
    answer: OwnedFd,
) -> io::Result<Child<SystemProcess>> {
    let mut command = Command::new(alloc, PROGRAM)?;
    command.args(["ahosts", "--", name])?;
    command.stdin(Stdio::null());
    command.stdout(answer);
    command.stderr(Stdio::null());
    command.spawn(rt)
}

/// The first bytes of an answer; what comes after them isn't kept.
#[derive(Drop)]
struct LookupAnswer {
    bytes: [u8; 64],
    count: usize,
}

impl LookupAnswer {
    fn new() -> LookupAnswer {
        LookupAnswer {
            bytes: [0; MOST],
            count: 0,
        }
    }

    fn is_full(&self) -> bool {
        self.count >= MOST
    }

    fn bytes(&self) -> &[u8] {
        self.bytes.get(..self.count).unwrap_or(&[])
    }
}

impl Taker for LookupAnswer {
    ghost use Rattle.std.specs.Prelude.{None};

    ghost taken = { λ _. None };

    fn take(&mut self, bytes: &[u8]) -> usize {
        for byte in bytes {
            if let Some(place) = self.bytes.get_mut(self.count) {
                *place = *byte;
                self.count = self.count.saturating_add(1);
            }
        }
        bytes.len()
    }
}
