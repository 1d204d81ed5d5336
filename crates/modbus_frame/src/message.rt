//! Requests and responses.
ghost use Rattle.std.specs.Prelude.{◌≡◌};
ghost use Rattle.modbus_frame.specs.Fault.{reply_fault_word};

use crate::words::Words;
use std::fmt;
use thiserror::Error;

/// What a client asks of a device: functions 3, 6 and 16
/// (Modbus Application Protocol V1.1b3, sections 6.3, 6.6 and 6.12).
#[derive(Debug, PartialEq, Eq, Drop)]
pub enum Request {
    /// Read `qty` holding registers from `addr` on, 1 to 125.
    Read { addr: u16, qty: u16 },
    /// Write one holding register.
    WriteOne { addr: u16, value: u16 },
    /// Write holding registers from `addr` on, 1 to 123.
    WriteMany { addr: u16, words: Words },
}

/// What a device that did as it was asked answers.
#[derive(Debug, PartialEq, Eq, Drop)]
pub enum Response {
    /// The registers that were read, in order.
    Words(Words),
    /// The registers are written.
    Wrote,
}

/// The code of an exception reply (Modbus Application Protocol V1.1b3, section 7).
#[derive(Clone, Copy, Debug, PartialEq, Eq)]
pub struct Exception(pub u8);

impl Exception {
    /// The function isn't one of those that are served.
    pub const ILLEGAL_FUNCTION: Exception = Exception(0x01);
    /// No register has such an address.
    pub const ILLEGAL_DATA_ADDRESS: Exception = Exception(0x02);
    /// A quantity, a count, a length or a value isn't allowed.
    pub const ILLEGAL_DATA_VALUE: Exception = Exception(0x03);
    /// The device failed.
    pub const SERVER_DEVICE_FAILURE: Exception = Exception(0x04);
    /// No such unit answers behind the gateway.
    pub const GATEWAY_TARGET_FAILED: Exception = Exception(0x0B);
}

/// Why a reply isn't what was asked for.
#[derive(Clone, Copy, Debug, PartialEq, Eq, Error)]
pub enum ReplyFault {
    /// The device answered with an exception.
    Exception(Exception),
    /// The bytes are no reply to this request.
    Mismatch,
}

impl fmt::Display for ReplyFault {
    fn fmt<W: fmt::Write>(&self, f: &mut fmt::Formatter<W>) -> fmt::Result {
        f.write_str(self.word())
    }
}

impl ReplyFault {
    /// The fault's name, as programs print it.
    pub fn word(self) -> &'static str
        ensures { result.now ≡ reply_fault_word self }
    {
        match self {
            ReplyFault::Exception(_) => "Exception",
            ReplyFault::Mismatch => "Mismatch",
        }
    }
}
