//! What is proved of the definitions that the contracts cite; the functions do nothing.
ghost use Rattle.service_requests.specs.Hearing.{CutsGiveTheSame, OutcomesAreDecided};
ghost use Rattle.service_requests.specs.Sessions.{AnyCutIsAnswered};

use modbus_frame::Responder;

/// However the bytes of a connection are cut into pieces, the same comes of them.
pub fn cuts_give_the_same()
    ensures { CutsGiveTheSame }
{}

/// What comes of a request by pieces is its outcome by the frames of the stream.
pub fn outcomes_are_decided()
    ensures { OutcomesAreDecided }
{}

/// However a stream is cut into pieces, and whatever others do to what answers between two calls, what goes out are the
/// answers to the stream's frames, in order, each from the state at its turn; after a fault of the stream nothing more.
pub fn any_cut_is_answered<R: Responder>()
    ensures { AnyCutIsAnswered R.answers }
{}
