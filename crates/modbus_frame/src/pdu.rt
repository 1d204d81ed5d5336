//! A protocol data unit: the bytes of a message.
ghost use Rattle.std.specs.Prelude.{◌≡◌, ◌≤◌, length};
ghost use Rattle.std.specs.Option.{SomeIff};
ghost use Rattle.modbus_frame.specs.Bytes.{AreBytes};

use arrayvec::ArrayVec;
use std::marker::Model;

/// A protocol data unit: a function code and its data, 1 to 253 bytes
/// (Modbus Application Protocol V1.1b3, section 4.1).
///
/// A contract sees it as the list of its bytes.
#[derive(Debug, PartialEq, Eq, Drop)]
pub struct Pdu {
    bytes: ArrayVec<u8, 253>,
}

impl Model for Pdu {
    ghost use Rattle.std.specs.Prelude.{List, ℕ, ◌≤◌, length};
    ghost use Rattle.modbus_frame.specs.Bytes.{AreBytes};

    ghost Value = { List ℕ };

    ghost view = { λ p. p.bytes.items };

    ghost invariant = { λ p. (1 ≤ length p.bytes.items) × (length p.bytes.items ≤ 253)
        × AreBytes p.bytes.items };

    ghost inverse = { λ bytes. record { bytes = record { items = bytes } } };
}

impl Pdu {
    /// The most bytes that a PDU has.
    pub const MAX_LEN: usize = 253;

    /// The PDU of these bytes, or `None` where they are none or more than 253.
    pub fn from_bytes(bytes: &[u8]) -> Option<Pdu>
        ensures { SomeIff result ((1 ≤ length bytes.now) × (length bytes.now ≤ 253)) bytes.now }
    {
        if bytes.is_empty() {
            return None;
        }
        let bytes = ArrayVec::try_from(bytes).ok()?;
        Some(Pdu { bytes })
    }

    /// Its bytes, the function code first.
    pub fn bytes(&self) -> &[u8]
        ensures value { result.now ≡ self.now }
        ensures least { 1 ≤ length self.now }
        ensures most { length self.now ≤ 253 }
        ensures octets { AreBytes self.now }
    {
        &self.bytes
    }
}
