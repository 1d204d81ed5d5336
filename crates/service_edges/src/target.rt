//! Where a text of the form `HOST:PORT` leads.
ghost use Rattle.std.specs.Prelude.{IfSome};
ghost use Rattle.service_edges.specs.Targets.{IsAt, Leads, LeadsBy};

use std::net::{IpAddr, SocketAddr};

/// Where a text of the form `HOST:PORT` leads.
#[derive(Clone, Copy)]
pub enum Target<'a> {
    /// To this address, which the text spells.
    Address(SocketAddr),
    /// To this port of whatever has this name, which spells no address.
    Name(&'a str, u16),
}

/// Where a text leads; None where it isn't `HOST:PORT`.
pub fn target_of(text: &str) -> Option<Target<'_>>
    ensures { IfSome result (Leads text.now) }
{
    match text.parse::<SocketAddr>() {
        Ok(address) => Some(Target::Address(address)),
        Err(_) => target_in(text),
    }
}

fn target_in(text: &str) -> Option<Target<'_>>
    ensures { IfSome result (LeadsBy text.now) }
{
    let (host, port) = text.rsplit_once(':')?;
    match port.parse::<u16>() {
        Ok(port) => Some(target_at(host, port)),
        Err(_) => None,
    }
}

fn target_at(host: &str, port: u16) -> Target<'_>
    ensures { IsAt host.now port result }
{
    match host.parse::<IpAddr>() {
        Ok(ip) => Target::Address(SocketAddr::new(ip, port)),
        Err(_) => Target::Name(host, port),
    }
}
