//! What came of a request to a device.
ghost use Rattle.std.specs.Prelude.{◌≡◌, ◌≤◌, length};
ghost use Rattle.gateway.specs.poller.LinkRun.{outcome_by, Suits};
ghost use Rattle.modbus_frame.specs.Message.{response_of};

use modbus_frame::{Exception, Pdu, ReplyFault, Request, Response, Words, parse_response};

/// What came of a request to a device (Modbus Application Protocol V1.1b3, section 4.1).
#[derive(Debug, PartialEq, Eq, Drop)]
pub enum Outcome {
    /// The registers that were read, in order.
    Words(Words),
    /// The registers are written.
    Wrote,
    /// The device refused the request by an exception, with any code.
    Exception(Exception),
    /// The reply is none to this request.
    Mismatch,
    /// Too many frames came that were no replies to this request.
    Stale,
}

impl Outcome {
    /// What a reply to the request says.
    pub fn of_reply(request: &Request, pdu: &Pdu) -> Outcome
        ensures said { result ≡ outcome_by (response_of request.now pdu.now) }
        ensures suits { Suits request.now result }
    {
        match parse_response(request, pdu) {
            Ok(Response::Words(words)) => Outcome::Words(words),
            Ok(Response::Wrote) => Outcome::Wrote,
            Err(ReplyFault::Exception(exception)) => Outcome::Exception(exception),
            Err(ReplyFault::Mismatch) => Outcome::Mismatch,
        }
    }
}
