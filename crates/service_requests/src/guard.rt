//! Who may write.
ghost use Rattle.std.specs.Prelude.{◌≡◌, true};
ghost use Rattle.service_requests.specs.Guarding.{is_write, refusal_of};

use modbus_frame::{Exception, Frame, FrameReply, Pdu, exception_pdu};

/// Whether a request writes: functions 6 and 16.
pub fn is_write(pdu: &Pdu) -> bool
    ensures { result ≡ is_write pdu.now }
{
    let function = pdu.bytes()[0];
    function == 6 || function == 16
}

/// What answers a write that isn't let through.
pub fn refusal(frame: &Frame) -> FrameReply
    ensures { result ≡ record { bytes = refusal_of frame.now; goes_on = true } }
{
    FrameReply::whole(&Frame {
        transaction: frame.transaction,
        unit: frame.unit,
        pdu: exception_pdu(&frame.pdu, Exception::ILLEGAL_FUNCTION),
    })
}
