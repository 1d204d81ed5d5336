//! A link over the two halves of a stream, as a connection has them.
ghost use Rattle.std.specs.Prelude.{◌≡◌};

use crate::link::{Down, Link};
use std::io::{Read, Write};

/// A link over a stream's two halves: what one gives comes, and what goes out is written to the other (MODBUS Messaging on
/// TCP/IP Implementation Guide, section 4.2). Where the halves tell contracts their bytes, so does it; it keeps no counts.
#[derive(Drop)]
pub struct StreamLink<R: Read + Drop, W: Write + Drop> {
    reader: R,
    writer: W,
}

impl<R: Read + Drop, W: Write + Drop> StreamLink<R, W> {
    /// The link over these halves.
    pub fn new(reader: R, writer: W) -> StreamLink<R, W>
        ensures { result ≡ record { reader = reader; writer = writer } }
    {
        StreamLink { reader, writer }
    }

    /// The halves, of which nothing was read ahead.
    pub fn into_halves(self) -> (R, W)
        ensures { result ≡ (self.reader, self.writer) }
    {
        (self.reader, self.writer)
    }
}

impl<R: Read + Drop, W: Write + Drop> Link for StreamLink<R, W> {
    ghost use Rattle.std.specs.Prelude.{None};
    ghost use Rattle.modbus_frame.specs.Link.{untold};

    ghost calls = { λ _. None };

    ghost failures = { λ _. untold };

    ghost coming = { λ l. R.remaining l.reader };

    ghost sent = { λ l. W.contents l.writer };

    fn read(&mut self, into: &mut [u8]) -> Result<usize, Down> {
        match self.reader.read(into) {
            Ok(n) => Ok(n),
            Err(_) => Err(Down),
        }
    }

    fn write(&mut self, from: &[u8]) -> Result<usize, Down> {
        match self.writer.write(from) {
            Ok(n) => Ok(n),
            Err(_) => Err(Down),
        }
    }
}
