//! The connection over which a device is probed.
ghost use Rattle.std.specs.Prelude.{map, string_bytes};
ghost use Rattle.command_files.specs.Probed.{ProbesLink, ProbesLinked, ProbesOnce};

use crate::links::socket::{SocketLink, link_over, loopback};
use commands::{models_told, probe, tell_unlinked};
use gateway::Poller;
use modbus_frame::{Link, LinkFault};
use model_defs::ModelDef;
use refusal_notes::{Notes, escaped};
use service_texts::has_port;
use std::alloc::{AllocError, Global};
use std::io;
use std::io::{ErrorKind, Write};
use std::net::{Net, OpenStream, SocketAddr, TcpStream, ToSocketAddrs};
use std::time::Duration;

/// Where a device is probed.
#[derive(Clone, Copy)]
pub enum ProbeAddress<'a> {
    /// On this loopback port.
    Port(u16),
    /// At this `HOST:PORT`.
    Word(&'a str),
}

/// What is probed, and how long is waited.
#[derive(Clone, Copy)]
pub struct ProbeRun<'a> {
    pub address: ProbeAddress<'a>,
    pub unit: u8,
    /// The longest wait for a connection, and for bytes, in milliseconds; none without an end.
    pub timeout: Option<u64>,
}

/// Why there is no connection.
#[derive(Clone, Copy)]
enum NoConnection {
    UnknownName,
    Failed(ErrorKind),
}

impl<'a> ProbeAddress<'a> {
    /// What a word says: a port, or `HOST:PORT`.
    pub fn of(word: &'a str) -> Option<ProbeAddress<'a>> {
        match word.parse::<u16>() {
            Ok(0) => None,
            Ok(port) => Some(ProbeAddress::Port(port)),
            Err(_) if has_port(word) => Some(ProbeAddress::Word(word)),
            Err(_) => None,
        }
    }
}

/// Prints the points of a device by the shipped definitions and those of the notes, and gives the status. Where a text is
/// no definition nobody connects. It is told on standard error which definition is none, and why no connection comes to a
/// `HOST:PORT`.
pub fn probe_over<R: Net + Eprint + AllocGlobal, W: Write>(
    rt: &R,
    alloc: Global,
    run: ProbeRun<'_>,
    notes: &Notes<'_>,
    out: &mut W,
) -> u8
    ensures { ProbesOnce run.entry.unit (map string_bytes notes.now.defs.now) (W.contents out.old) (W.contents out.new) result }
{
    match models_told(alloc, notes.defs, out) {
        Ok(models) => probe_by(rt, alloc, run, notes.quiet, models.as_slice(), out),
        Err(refused) => {
            notes.explain(rt, &refused.cause);
            refused.status
        }
    }
}

/// Prints the points of a device by these definitions, or that no connection comes.
fn probe_by<R: Net + Eprint, W: Write>(
    rt: &R,
    alloc: Global,
    run: ProbeRun<'_>,
    quiet: bool,
    models: &[ModelDef],
    out: &mut W,
) -> u8
    ensures { ProbesLinked run.entry.unit models.now (W.contents out.old) (W.contents out.new) result }
{
    match connected(rt, run) {
        Ok(link) => probe_link(alloc, link, run.unit, models, out).0,
        Err(cause) => {
            let status = tell_unlinked(alloc, LinkFault::Read, out);
            if let (ProbeAddress::Word(word), false) = (run.address, quiet) {
                explain(rt, alloc, word, cause);
            }
            status
        }
    }
}

/// Prints the points of a unit over a link, over which nothing else goes, and gives it back after the status.
fn probe_link<L: Link, W: Write>(
    alloc: Global,
    link: L,
    unit: u8,
    models: &[ModelDef],
    out: &mut W,
) -> (u8, L)
    ensures { ProbesLink unit models.now
        (record { coming = L.coming link; sent = L.sent link; failures = L.failures link; calls = L.calls link })
        (record { coming = L.coming result.1; sent = L.sent result.1; failures = L.failures result.1; calls = L.calls result.1 })
        (W.contents out.old) (W.contents out.new) result.0 }
{
    let mut poller = Poller::new(link);
    let status = probe(alloc, &mut poller, unit, models, out);
    (status, poller.into_link())
}

fn explain<R: Eprint>(rt: &R, alloc: Global, word: &str, cause: NoConnection) {
    if let Ok(line) = cause_line(alloc, word, cause_text(cause)) {
        let _ = rt.eprint(line.as_str());
    }
}

fn cause_line(alloc: Global, word: &str, cause: &str) -> Result<String, AllocError> {
    let word = escaped(alloc, word)?;
    let text = format!(in alloc; "{word}: Read: {cause}\n")?;
    Ok(text)
}

fn cause_text(cause: NoConnection) -> &'static str {
    match cause {
        NoConnection::UnknownName => "no address of this name is known",
        NoConnection::Failed(ErrorKind::ConnectionRefused) => "nothing listens there",
        NoConnection::Failed(ErrorKind::TimedOut) => "no connection came in time",
        NoConnection::Failed(ErrorKind::HostUnreachable | ErrorKind::NetworkUnreachable) => {
            "no way leads there"
        }
        NoConnection::Failed(_) => "the system makes no connection",
    }
}

fn connected<R: Net>(rt: &R, run: ProbeRun<'_>) -> Result<SocketLink<R::Stream>, NoConnection> {
    let address = address_of(rt, run.address)?;
    match link_to(rt, address, run.timeout) {
        Ok(link) => Ok(link),
        Err(fault) => Err(NoConnection::Failed(fault.kind())),
    }
}

fn link_to<R: Net>(
    rt: &R,
    address: SocketAddr,
    timeout: Option<u64>,
) -> io::Result<SocketLink<R::Stream>> {
    link_over(stream_to(rt, address, timeout)?)
}

/// The first address that is meant.
fn address_of<R: Net>(rt: &R, address: ProbeAddress<'_>) -> Result<SocketAddr, NoConnection> {
    match address {
        ProbeAddress::Port(port) => Ok(loopback(port)),
        ProbeAddress::Word(word) => match first_address(rt, word) {
            Some(address) => Ok(address),
            None => Err(NoConnection::UnknownName),
        },
    }
}

fn first_address<R: Net>(rt: &R, word: &str) -> Option<SocketAddr> {
    match word.to_socket_addrs(rt) {
        Ok(mut found) => found.next(),
        Err(_) => None,
    }
}

fn stream_to<R: Net>(rt: &R, address: SocketAddr, timeout: Option<u64>) -> io::Result<R::Stream> {
    match timeout {
        Some(timeout) => stream_within(rt, address, Duration::from_millis(timeout)),
        None => TcpStream::connect(rt, address),
    }
}

fn stream_within<R: Net>(rt: &R, address: SocketAddr, timeout: Duration) -> io::Result<R::Stream> {
    let stream = TcpStream::connect_timeout(rt, &address, timeout)?;
    stream.set_read_timeout(Some(timeout))?;
    stream.set_write_timeout(Some(timeout))?;
    Ok(stream)
}
