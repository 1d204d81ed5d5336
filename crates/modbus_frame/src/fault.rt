//! Why bytes are no frame.
ghost use Rattle.std.specs.Prelude.{◌≡◌};
ghost use Rattle.modbus_frame.specs.Fault.{frame_fault_word};

use std::fmt;
use thiserror::Error;

/// Why a stream of frames can't go on.
#[derive(Clone, Copy, Debug, PartialEq, Eq, Error)]
pub enum FrameFault {
    /// The third and fourth byte of a frame, its protocol identifier, aren't zero.
    BadProtocol,
    /// The length of a frame lies outside 2..254.
    BadLength,
}

impl fmt::Display for FrameFault {
    fn fmt<W: fmt::Write>(&self, f: &mut fmt::Formatter<W>) -> fmt::Result {
        f.write_str(self.word())
    }
}

impl FrameFault {
    /// The fault's name, as programs print it.
    pub fn word(self) -> &'static str
        ensures { result.now ≡ frame_fault_word self }
    {
        match self {
            FrameFault::BadProtocol => "BadProtocol",
            FrameFault::BadLength => "BadLength",
        }
    }
}
