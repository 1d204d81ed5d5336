//! Which outcomes are answers of a device.
ghost use Rattle.std.specs.Prelude.{◌≡◌};
ghost use Rattle.service_parts.specs.Answering.{answers, is_answer, is_gateways};

use gateway::Outcome;
use service_requests::RequestEnd;

/// Whether a device answered by what became of a request, or by nothing yet.
pub(crate) fn is_answered(fate: &Option<RequestEnd>) -> bool
    ensures { result ≡ answers fate.now }
{
    match fate {
        Some(RequestEnd::Told(outcome)) => is_answer(outcome),
        Some(RequestEnd::Lost) | None => false,
    }
}

/// Whether it is an answer of the device: after too many frames that answer something else there is none, and a gateway may say
/// that there is none.
pub fn is_answer(outcome: &Outcome) -> bool
    ensures { result ≡ is_answer outcome.now }
{
    match outcome {
        Outcome::Stale => false,
        Outcome::Exception(exception) => !is_gateways(exception.0),
        Outcome::Words(_) | Outcome::Wrote | Outcome::Mismatch => true,
    }
}

/// Whether a gateway says by this code that its unit can't be reached, or doesn't answer.
fn is_gateways(code: u8) -> bool
    ensures { result ≡ is_gateways code }
{
    code == 10 || code == 11
}
