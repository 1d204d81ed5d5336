//! What a service is to do, and how it ends.
use crate::state_fault::StateFault;
use service::Identity;
use service_texts::{Start, Times, Writer};
use std::io;
use std::io::ErrorKind;
use std::net::SocketAddr;

/// Where browsers and monitors look.
#[derive(Clone, Copy)]
pub struct PageWindow<'a> {
    /// Where they come to.
    pub listen: SocketAddr,
    /// By which names this machine is asked there, beside its addresses.
    pub names: &'a [String],
    /// What they are told once: what doesn't change while the service runs, as an object of JSON.
    pub site: &'a str,
    /// And such an object of the program of the start.
    pub program: &'a str,
    /// Of each tag of the site the unit of its values; empty where it isn't known.
    pub units: &'a [String],
    /// The most bytes for the last hour.
    pub memory: u64,
}

/// What a service is to do.
#[derive(Clone, Copy)]
pub struct Serving<'a> {
    /// What is told of its start.
    pub start: &'a Start,
    /// What the site is called.
    pub name: Option<&'a str>,
    /// Why the program in its file is refused, where the one that was accepted last runs from the start in its place.
    pub refused: Option<&'a str>,
    /// By which time lines are told.
    pub times: Times,
    /// Where clients come to.
    pub listen: SocketAddr,
    /// Where browsers and monitors look; none where they can't.
    pub page: Option<PageWindow<'a>>,
    /// From one scan to the next, in milliseconds.
    pub period: u64,
    /// The most clients at once.
    pub clients: usize,
    /// For how many hours each device may be gone in its sleep, in their order.
    pub sleeps: &'a [Option<u8>],
    /// What each device must say of itself, in their order.
    pub identities: &'a [Option<Identity>],
    /// The clients that may write.
    pub writers: &'a [Writer],
    /// How many scans; none for ever.
    pub scans: Option<u64>,
    /// Whether each scan has its line.
    pub is_verbose: bool,
}

/// Why a service can't begin, or doesn't go on.
#[derive(Clone, Copy)]
pub enum End {
    /// Nothing can be served at the address, for this cause.
    Listen(ErrorKind),
    /// Browsers and monitors can't look at the address for them, for this cause.
    Page(ErrorKind),
    /// Set values can't be kept, for this cause.
    State(StateFault),
    /// The clock, or the wait for sockets, failed.
    System,
    /// Memory was refused.
    OutOfMemory,
}

impl End {
    /// The end that a fault of the system is.
    pub(crate) fn by(fault: &io::Error) -> End {
        match fault.kind() {
            ErrorKind::OutOfMemory => End::OutOfMemory,
            _ => End::System,
        }
    }

    /// The end that a fault of the socket for clients is.
    pub(crate) fn at_door(fault: &io::Error) -> End {
        match fault.kind() {
            ErrorKind::OutOfMemory => End::OutOfMemory,
            kind => End::Listen(kind),
        }
    }

    /// The end that a fault of the socket for those who look is.
    pub(crate) fn at_page(fault: &io::Error) -> End {
        match fault.kind() {
            ErrorKind::OutOfMemory => End::OutOfMemory,
            kind => End::Page(kind),
        }
    }

    /// The end that a fault of the file of set values is, or of its folder.
    pub(crate) fn at_state(fault: &io::Error) -> End {
        match fault.kind() {
            ErrorKind::OutOfMemory => End::OutOfMemory,
            kind => End::State(StateFault::of(kind)),
        }
    }
}

impl Serving<'_> {
    /// What a device must say of itself.
    pub(crate) fn identity(&self, device: usize) -> Option<Identity> {
        match self.identities.get(device) {
            Some(identity) => *identity,
            None => None,
        }
    }

    /// Whether so many scans are all that were asked for.
    pub(crate) fn is_done(&self, scans: u64) -> bool {
        match self.scans {
            Some(most) => scans >= most,
            None => false,
        }
    }
}
