//! What a plant that was started prints.
use std::alloc::Global;
use std::io::{ErrorKind, Read};
use std::{io, str};

/// The most bytes of the line by which a plant says its port.
const LONGEST_LINE: usize = 4096;

/// The most bytes that are read after the line by which a plant is refused.
const LONGEST_REST: usize = 65536;

/// What a line of a refusal begins with.
pub(crate) const REFUSED: &[u8] = b"refused: ";

/// Why a plant that was started says no port.
#[derive(Drop)]
pub enum NoPort {
    /// What it prints can't be read.
    Unread(ErrorKind),
    /// Its first line is this one.
    Line(Vec<u8>),
}

/// The port that a plant says in the first line of what it prints.
pub fn told_port<P: Read>(alloc: Global, lines: &mut Option<P>) -> Result<u16, NoPort> {
    let Some(lines) = lines else {
        return Err(NoPort::Unread(ErrorKind::BrokenPipe));
    };
    match plant_line(alloc, lines) {
        Ok(line) => match port_in(line.as_slice()) {
            Some(port) => Ok(port),
            None => Err(NoPort::Line(line)),
        },
        Err(fault) => Err(NoPort::Unread(fault.kind())),
    }
}

/// The first line of a plant. One that is refused ends by itself, and is read to its end, so that its note on standard
/// error is out before it is killed.
fn plant_line<R: Read>(alloc: Global, reader: &mut R) -> io::Result<Vec<u8>> {
    let line = first_line(alloc, reader)?;
    if line.as_slice().starts_with(REFUSED) {
        read_away(reader);
    }
    Ok(line)
}

/// Reads to the end, or to an error, and at most so many bytes.
fn read_away<R: Read>(reader: &mut R) {
    for _ in 0..LONGEST_REST {
        let mut byte = [0u8];
        match reader.read(&mut byte) {
            Ok(0) | Err(_) => return,
            Ok(_) => {}
        }
    }
}

/// The bytes up to the first line feed, and with it.
fn first_line<R: Read>(alloc: Global, reader: &mut R) -> io::Result<Vec<u8>> {
    let mut line = Vec::new(alloc);
    push_line(&mut line, reader)?;
    Ok(line)
}

fn push_line<R: Read>(line: &mut Vec<u8>, reader: &mut R) -> io::Result<()> {
    for _ in 0..LONGEST_LINE {
        let mut byte = [0u8];
        if reader.read(&mut byte)? == 0 {
            return Ok(());
        }
        line.push(byte[0])?;
        if byte[0] == b'\n' {
            return Ok(());
        }
    }
    Ok(())
}

/// The port in the line `listening PORT`.
fn port_in(line: &[u8]) -> Option<u16> {
    let line = str::from_utf8(line).ok()?;
    line.strip_prefix("listening ")?
        .trim_end()
        .parse::<u16>()
        .ok()
}
