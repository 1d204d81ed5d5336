//! Whether standard output, or standard error, takes a line without a wait.
use mio::unix::SourceFd;
use mio::{Events, Interest, Poll, Token};
use std::alloc::Global;
use std::io;
use std::net::Net;
use std::time::Duration;

/// The descriptor of standard output.
pub(crate) const STANDARD_OUTPUT: i32 = 1;

/// The descriptor of standard error.
pub(crate) const STANDARD_ERROR: i32 = 2;

/// Its token.
const OUTPUT: Token = Token(0);

/// Whether standard output, or standard error, takes a line without a wait: a pipe that nobody reads is full at some time, and
/// a write to it would hold up the service.
#[derive(Drop)]
pub(crate) struct Room {
    poll: Poll,
    events: Events,
    /// Which one it is.
    descriptor: i32,
    /// Whether the system tells it. It doesn't for a file, which takes each line.
    is_told: bool,
}

impl Room {
    pub(crate) fn new<R: Net>(rt: &R, alloc: Global, descriptor: i32) -> io::Result<Room> {
        let poll = Poll::new(rt)?;
        let events = Events::with_capacity(alloc, 1)?;
        let is_told = poll
            .registry()
            .register(&mut SourceFd(&descriptor), OUTPUT, Interest::WRITABLE)
            .is_ok();
        Ok(Room {
            poll,
            events,
            descriptor,
            is_told,
        })
    }

    /// Whether a line can be written now.
    pub(crate) fn is_there(&mut self) -> bool {
        !self.is_told || self.is_asked() && self.is_answered()
    }

    // Has the system tell it once more.
    fn is_asked(&self) -> bool {
        self.poll
            .registry()
            .reregister(&mut SourceFd(&self.descriptor), OUTPUT, Interest::WRITABLE)
            .is_ok()
    }

    fn is_answered(&mut self) -> bool {
        let at_once = Duration::from_secs(0);
        match self.poll.poll(&mut self.events, Some(at_once)) {
            Ok(()) => !self.events.is_empty(),
            Err(_) => false,
        }
    }
}
