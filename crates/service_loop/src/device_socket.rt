//! A connection to devices.
ghost use Rattle.std.specs.Prelude.{◌≡◌, IfOk};

use crate::link_bytes::{FromLink, ToLink};
use crate::socket_state::{ConnectEnd, SocketState};
use mio::{Registry, Token};
use service::Service;
use service_edges::{Progress, Target, target_of};
use site_model::Text;
use std::alloc::{AllocError, Global};
use std::net::{Net, SocketAddr};
use std::process::{Processes, SystemProcess};

/// A connection to devices.
#[derive(Drop)]
pub(crate) struct DeviceSocket {
    /// `HOST:PORT`; a name is looked up at each dial.
    address: Text,
    state: SocketState,
    /// Whether the system said something of it since that was looked at.
    is_told: bool,
}

impl DeviceSocket {
    /// One to an address; it is down.
    pub(crate) fn new(alloc: Global, address: &str) -> Result<DeviceSocket, AllocError>
        ensures { IfOk result (λ link. link.address ≡ address.now) }
    {
        Ok(DeviceSocket {
            address: Text::new(alloc, address)?,
            state: SocketState::Down,
            is_told: false,
        })
    }

    /// The system says that there is something to do.
    pub(crate) fn wake(&mut self)
        ensures { self.new.address ≡ self.old.address }
    {
        self.is_told = true;
        self.state.wake();
    }

    /// Whether there is something to do without a wait, where so many bytes are to go out.
    pub(crate) fn is_busy(&self, waiting: usize) -> bool {
        self.state.is_busy(waiting)
    }

    /// Begins a connection, by the lookup of its name where it has one, or tells that it can't be made. The start of a process
    /// takes a moment, so where one was started before in this turn nothing happens: the dial is wanted in the next one too.
    pub(crate) fn dial<R: Net + Processes<Started = SystemProcess>>(
        &mut self,
        rt: &R,
        alloc: Global,
        registry: &Registry,
        token: Token,
        service: &mut Service,
        number: usize,
        now: u64,
        has_started: &mut bool,
    )
        ensures { self.new.address ≡ self.old.address }
    {
        if self.has_name() {
            if *has_started {
                return;
            }
            *has_started = true;
        }
        self.state.end();
        self.state = SocketState::begun(rt, alloc, registry, token, self.address.as_str());
        self.is_told = false;
        if self.state.is_down() {
            service.link_down(number, now);
        } else {
            service.dial_began(number, now);
        }
    }

    // Whether its address has a name, which each dial looks up.
    fn has_name(&self) -> bool {
        matches!(target_of(self.address.as_str()), Some(Target::Name(_, _)))
    }

    /// Goes on from the lookup of its name to the connection, or tells that it can't be made. A dial began with the lookup, so
    /// its time bounds both together.
    pub(crate) fn go_on<R: Net>(
        &mut self,
        rt: &R,
        registry: &Registry,
        token: Token,
        service: &mut Service,
        number: usize,
        now: u64,
    )
        ensures { self.new.address ≡ self.old.address }
    {
        match self.state.look() {
            Progress::Waits => {}
            Progress::Found(address) => {
                self.connect(rt, registry, token, address);
                if self.state.is_down() {
                    service.link_down(number, now);
                }
            }
            Progress::Nothing => self.close(service, number, now),
        }
    }

    // Begins the connection to an address that was found, in place of the lookup.
    fn connect<R: Net>(&mut self, rt: &R, registry: &Registry, token: Token, address: SocketAddr)
        ensures { self.new.address ≡ self.old.address }
    {
        self.state.end();
        self.state = SocketState::to(rt, registry, token, address);
        self.is_told = false;
    }

    /// Hands over what came, and tells where the connection stands now, or ended.
    pub(crate) fn receive(&mut self, service: &mut Service, number: usize, now: u64)
        ensures { self.new.address ≡ self.old.address }
    {
        if self.is_told {
            self.meet(service, number, now);
        }
        if self.feed(service, number, now) {
            self.close(service, number, now);
        }
    }

    // Sees what became of a connection that is being made.
    fn meet(&mut self, service: &mut Service, number: usize, now: u64)
        ensures { self.new.address ≡ self.old.address }
    {
        self.is_told = false;
        match self.state.connect_end() {
            ConnectEnd::Stands => {
                self.state.come_up();
                service.link_up(number, now);
            }
            ConnectEnd::Open => {}
            ConnectEnd::Failed => self.close(service, number, now),
        }
    }

    // Hands over what came; whether the connection is over.
    fn feed(&mut self, service: &mut Service, number: usize, now: u64) -> bool
        ensures { self.new.address ≡ self.old.address }
    {
        let SocketState::Up(connection) = &mut self.state else {
            return false;
        };
        connection.hand_over(&mut FromLink {
            service,
            number,
            now,
        });
        connection.is_over()
    }

    /// Sends what waits.
    pub(crate) fn send(&mut self, service: &mut Service, number: usize)
        ensures { self.new.address ≡ self.old.address }
    {
        if let SocketState::Up(connection) = &mut self.state {
            connection.send(&mut ToLink { service, number });
        }
    }

    /// Closes it, and tells so.
    pub(crate) fn close(&mut self, service: &mut Service, number: usize, now: u64)
        ensures { self.new.address ≡ self.old.address }
    {
        self.end();
        service.link_down(number, now);
    }

    /// It is down from now on, and nobody is told.
    pub(crate) fn end(&mut self)
        ensures { self.new.address ≡ self.old.address }
    {
        self.state.end();
    }
}
