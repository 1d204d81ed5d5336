//! A Modbus TCP frame.
ghost use Rattle.std.specs.Prelude.{◌≡◌, ◌++◌, drop, length};
ghost use Rattle.modbus_frame.specs.Frame.{frame_bytes};

use crate::pdu::Pdu;

/// One message of a connection: a PDU with the header that Modbus has over TCP
/// (MODBUS Messaging on TCP/IP Implementation Guide, section 3.1.3).
#[derive(Debug, PartialEq, Eq, Drop)]
pub struct Frame {
    /// Pairs a reply with its request.
    pub transaction: u16,
    /// The device that is asked, or that answers.
    pub unit: u8,
    /// The message.
    pub pdu: Pdu,
}

impl Frame {
    /// The bytes before the PDU: transaction, protocol, length and unit.
    pub(crate) const HEADER_LEN: usize = 7;

    /// The most bytes that a frame has.
    pub const MAX_LEN: usize = 260;
}

/// Writes the frame to the front of the buffer, and gives the number of its bytes. The bytes after it stay.
pub fn write_frame(frame: &Frame, out: &mut [u8; 260]) -> usize
    ensures len { result ≡ length (frame_bytes frame.now) }
    ensures bytes { out.new ≡ frame_bytes frame.now ++ drop result out.old }
{
    let transaction = frame.transaction;
    let pdu = frame.pdu.bytes();
    let len = Frame::HEADER_LEN + pdu.len();
    let [t0, t1] = transaction.to_be_bytes();
    let [l0, l1] = (1 + pdu.len() as u16).to_be_bytes();
    out[..7].copy_from_slice(&[t0, t1, 0, 0, l0, l1, frame.unit]);
    out[7..len].copy_from_slice(pdu);
    len
}
