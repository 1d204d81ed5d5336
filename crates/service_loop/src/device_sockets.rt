//! The connections to the devices.
ghost use Rattle.std.specs.Prelude.{◌≡◌, IfOk, map};

use crate::device_socket::DeviceSocket;
use crate::tokens::SocketTokens;
use mio::{Registry, Token};
use service::Service;
use site_model::Text;
use std::alloc::{AllocError, Global};
use std::net::Net;
use std::process::{Processes, SystemProcess};

/// The connections to the devices, each under its token.
#[derive(Drop)]
pub(crate) struct DeviceSockets {
    alloc: Global,
    tokens: SocketTokens,
    links: Vec<DeviceSocket>,
}

impl DeviceSockets {
    /// Those to these addresses; none is made yet.
    pub(crate) fn new(
        alloc: Global,
        tokens: SocketTokens,
        addresses: &[Text],
    ) -> Result<DeviceSockets, AllocError>
        ensures { IfOk result (λ links. map (λ link. link.address) links.links.items ≡ addresses.now) }
    {
        let mut links = Vec::new(alloc);
        for address in addresses {
            links.push(DeviceSocket::new(alloc, address.as_str())?)?;
        }
        Ok(DeviceSockets {
            alloc,
            tokens,
            links,
        })
    }

    /// The system says of the connection of this number that there is something to do.
    pub(crate) fn wake(&mut self, number: usize)
        ensures { map (λ link. link.address) self.new.links.items ≡ map (λ link. link.address) self.old.links.items }
    {
        if let Some(link) = self.links.get_mut(number) {
            link.wake();
        }
    }

    /// Whether there is something to do without a wait.
    pub(crate) fn is_busy(&self, service: &Service) -> bool {
        for (number, link) in self.links.iter().enumerate() {
            if link.is_busy(service.to_link(number).len()) {
                return true;
            }
        }
        false
    }

    /// Hands over what came, and tells of connections that stand now, or ended.
    pub(crate) fn receive(&mut self, service: &mut Service, now: u64)
        ensures { map (λ link. link.address) self.new.links.items ≡ map (λ link. link.address) self.old.links.items }
    {
        for (number, link) in self.links.iter_mut().enumerate() {
            link.receive(service, number, now);
        }
    }

    /// Closes those that are to be closed; a name is looked up no longer than its dial may take.
    pub(crate) fn hang_up(&mut self, service: &mut Service, now: u64)
        ensures { map (λ link. link.address) self.new.links.items ≡ map (λ link. link.address) self.old.links.items }
    {
        for (number, link) in self.links.iter_mut().enumerate() {
            if service.wants_hang_up(number) {
                link.close(service, number, now);
            }
        }
    }

    /// Begins the connections that are wanted, and goes on with those whose name is looked up. Nothing of it waits.
    pub(crate) fn dial<R: Net + Processes<Started = SystemProcess>>(
        &mut self,
        rt: &R,
        registry: &Registry,
        service: &mut Service,
        now: u64,
    )
        ensures { map (λ link. link.address) self.new.links.items ≡ map (λ link. link.address) self.old.links.items }
    {
        let (alloc, tokens) = (self.alloc, self.tokens);
        let mut has_started = false;
        for (number, link) in self.links.iter_mut().enumerate() {
            let token = Token(tokens.of_link(number));
            if service.wants_dial(number) {
                link.dial(
                    rt,
                    alloc,
                    registry,
                    token,
                    service,
                    number,
                    now,
                    &mut has_started,
                );
            } else {
                link.go_on(rt, registry, token, service, number, now);
            }
        }
    }

    /// Sends what waits.
    pub(crate) fn send(&mut self, service: &mut Service)
        ensures { map (λ link. link.address) self.new.links.items ≡ map (λ link. link.address) self.old.links.items }
    {
        for (number, link) in self.links.iter_mut().enumerate() {
            link.send(service, number);
        }
    }

    /// Ends all of them, and each process that looks up a name: nobody is told.
    pub(crate) fn end(&mut self)
        ensures { map (λ link. link.address) self.new.links.items ≡ map (λ link. link.address) self.old.links.items }
    {
        for link in self.links.iter_mut() {
            link.end();
        }
    }
}
