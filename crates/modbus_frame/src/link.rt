//! What bytes come from and go to, and how it fails.
ghost use Rattle.std.specs.Prelude.{◌≡◌};
ghost use Rattle.modbus_frame.specs.Fault.{link_fault_word};
ghost use Rattle.modbus_frame.specs.declared.link.LinkFault.TheVariants.{Frame};

use crate::fault::FrameFault;
use std::fmt;
use thiserror::Error;

/// What carries the bytes of frames both ways, as a connection does.
///
/// A contract sees, where a link tells them, its calls so far and what went wrong, the bytes to come and the bytes sent.
pub trait Link {
    ghost use Rattle.std.specs.Prelude.{ℕ, List, Option, ◌<◌, ◌≤◌, length, IfOk};
    ghost use Rattle.std.specs.Io.KnownBytes.{Keeps, ReadConsumes, WriteAppends};
    ghost use Rattle.modbus_frame.specs.Link.{Failures, CountsBy, CountsRead, CountsWritten};

    /// How many reads and writes were made.
    ghost calls: { Self → Option ℕ };

    /// How many reads and how many writes answered [`Down`], and how many reads gave nothing.
    ghost failures: { Self → Failures };

    /// The bytes that reads will give.
    ghost coming: { Self → Option (List ℕ) };

    /// The bytes that writes took.
    ghost sent: { Self → Option (List ℕ) };

    /// Puts the next bytes to come into the front of the buffer, and gives their number: none only where none are to
    /// come. [`Down`] takes nothing.
    fn read(&mut self, into: &mut [u8]) -> Result<usize, Down>
        requires { 0 < length into.old }
        ensures fits { IfOk result (λ n. n ≤ length into.old) }
        ensures reads { ReadConsumes (coming self.old) (coming self.new) result into.new }
        ensures keeps { Keeps (sent self.old) (sent self.new) }
        ensures failures { CountsRead (failures self.old) (failures self.new) result }
        ensures calls { CountsBy 1 (calls self.old) (calls self.new) };

    /// Sends bytes of the front of the buffer, and gives their number. [`Down`] sends nothing.
    fn write(&mut self, from: &[u8]) -> Result<usize, Down>
        requires { 0 < length from.now }
        ensures fits { IfOk result (λ n. n ≤ length from.now) }
        ensures writes { WriteAppends (sent self.old) (sent self.new) result from.now }
        ensures keeps { Keeps (coming self.old) (coming self.new) }
        ensures failures { CountsWritten (failures self.old) (failures self.new) result }
        ensures calls { CountsBy 1 (calls self.old) (calls self.new) };
}

/// A link failed at this call.
#[derive(Clone, Copy, Debug, PartialEq, Eq, Error)]
#[error("Down")]
pub struct Down;

/// Why work over a link ended.
#[derive(Clone, Copy, Debug, PartialEq, Eq, Error)]
pub enum LinkFault {
    /// A read failed.
    Read,
    /// A write failed.
    Write,
    /// The bytes that came are no frames.
    Frame(FrameFault),
    /// The bytes ended before a reply or inside a frame.
    End,
    /// One call used up its reads and writes.
    Turns,
    /// There was no memory.
    OutOfMemory,
}

impl fmt::Display for LinkFault {
    fn fmt<W: fmt::Write>(&self, f: &mut fmt::Formatter<W>) -> fmt::Result {
        f.write_str(self.word())
    }
}

impl LinkFault {
    /// The fault's name, as programs print it.
    pub fn word(self) -> &'static str
        ensures { result.now ≡ link_fault_word self }
    {
        match self {
            LinkFault::Read => "Read",
            LinkFault::Write => "Write",
            LinkFault::Frame(_) => "Frame",
            LinkFault::End => "End",
            LinkFault::Turns => "Turns",
            LinkFault::OutOfMemory => "OutOfMemory",
        }
    }
}

impl From<FrameFault> for LinkFault {
    ghost from_gives = { λ fault e. e ≡ Frame fault };

    fn from(fault: FrameFault) -> LinkFault {
        LinkFault::Frame(fault)
    }
}
