//! Bytes that go out to a writer, one write after another.
ghost use Rattle.commands.specs.Told.{WritesFront};

use std::io;
use std::io::{ErrorKind, Write};

/// The most writes of one call.
const MOST_WRITES: u64 = u64::MAX;

/// Writes all of the bytes. Where a write fails, those of the writes before it went out, and nothing after them.
pub(crate) fn write_bytes<W: Write>(out: &mut W, bytes: &[u8]) -> io::Result<()>
    ensures { WritesFront (W.contents out.old) (W.contents out.new) bytes.now result }
{
    let mut rest = bytes;
    let mut turns = MOST_WRITES;
    while !rest.is_empty() {
        if turns == 0 {
            return Err(io::Error::from(ErrorKind::Interrupted));
        }
        turns -= 1;
        match out.write(rest) {
            Ok(0) => return Err(io::Error::from(ErrorKind::WriteZero)),
            Ok(n) => rest = rest.split_at(n).1,
            Err(fault) if fault.kind() == ErrorKind::Interrupted => {}
            Err(fault) => return Err(fault),
        }
    }
    Ok(())
}
