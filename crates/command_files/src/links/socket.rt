//! Links over sockets.
ghost use Rattle.std.specs.Prelude.{◌≡◌, IfOk};

use modbus_frame::StreamLink;
use std::io;
use std::io::{Read, Write};
use std::net::{Ipv4Addr, OpenStream, SocketAddr, SocketAddrV4};

/// A link over a connection, whose halves are two handles of it.
pub(crate) type SocketLink<S> = StreamLink<S, S>;

/// The link over a connection, which was handed in and to which nothing is written. What the other handle of it reads no
/// contract tells: `try_clone` has none.
pub fn link_over<S: Read + Write + OpenStream + Drop>(stream: S) -> io::Result<SocketLink<S>>
    ensures { IfOk result (λ link. link.writer ≡ stream) }
{
    let reader = stream.try_clone()?;
    Ok(StreamLink::new(reader, stream))
}

/// A port of this machine; 0 stands for a free one.
pub fn loopback(port: u16) -> SocketAddr {
    SocketAddr::V4(SocketAddrV4::new(Ipv4Addr::LOCALHOST, port))
}
