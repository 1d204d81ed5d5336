//! What answers the frames of clients.
ghost use Rattle.std.specs.Prelude.{◌≡◌, ◌<◌, length, true};
ghost use Rattle.gateway.specs.declared.event_core.event.Answer.TheVariants.{Reply as ReplyAnswer};
ghost use Rattle.gateway.specs.declared.event_core.event.Event.TheVariants.{Client as ClientEvent};
ghost use Rattle.gateway.specs.event_core.Control.{Advances, AnswersFrame, AnswersOn};
ghost use Rattle.service_requests.specs.Guarding.{Guards, is_write, refusal_of};
ghost use Rattle.service.specs.ClientWrites.{message_in, with_write, write_by, writes_after};

use crate::client_writes::{WriteOutcome, outcome_by};
use crate::cycle::Cycle;
use gateway::{Answer, Core, DEPTH, Event};
use modbus_frame::{Exception, Frame, FrameReply, Pdu, Responder, exception_pdu};
use service_requests::{is_write, refusal};

impl Responder for Cycle {
    ghost use Rattle.std.specs.Prelude.{◌≡◌};
    ghost use Rattle.gateway.specs.event_core.Control.{AnswersFrame};
    ghost use Rattle.service_requests.specs.Guarding.{Guards};
    ghost use Rattle.service.specs.ClientWrites.{writes_after};

    ghost answers = { λ old frame bytes goes_on new. (new.may_write ≡ old.may_write) × (new.round ≡ old.round)
        × Guards AnswersFrame old.may_write old.core.value frame bytes goes_on new.core.value
        × (new.writes ≡ writes_after frame bytes old.writes) };

    fn answer(&mut self, frame: &Frame) -> FrameReply {
        if is_write(&frame.pdu) {
            self.answer_write(frame)
        } else {
            self.core.answer(frame)
        }
    }
}

impl Cycle {
    /// Answers a frame that asks for a write, and tells what became of that: where its client may not write it is refused, and
    /// changes nothing.
    fn answer_write(&mut self, frame: &Frame) -> FrameReply
        requires { is_write frame.now.pdu ≡ true }
        ensures right { self.new.may_write ≡ self.old.may_write }
        ensures round { self.new.round ≡ self.old.round }
        ensures guards { Guards AnswersFrame self.old.may_write self.old.core.value frame.now result.bytes result.goes_on self.new.core.value }
        ensures told { self.new.writes ≡ writes_after frame.now result.bytes self.old.writes }
        ensures some { 0 < length result.bytes }
    {
        if self.may_write {
            self.do_write(frame)
        } else {
            self.refuse_write(frame)
        }
    }

    #[tactic(auto, using(crate::proofs::ToldWrites::refused_so))]
    fn refuse_write(&mut self, frame: &Frame) -> FrameReply
        requires { is_write frame.now.pdu ≡ true }
        ensures answer { result ≡ record { bytes = refusal_of frame.now; goes_on = true } }
        ensures told { self.new ≡ record self.old { writes = with_write (write_by frame.now.pdu (message_in (refusal_of frame.now))) self.old.writes } }
    {
        let outcome = WriteOutcome::Refused(Exception::ILLEGAL_FUNCTION);
        self.writes.add(&frame.pdu, outcome);
        refusal(frame)
    }

    fn do_write(&mut self, frame: &Frame) -> FrameReply
        ensures right { self.new.may_write ≡ self.old.may_write }
        ensures round { self.new.round ≡ self.old.round }
        ensures answers { AnswersFrame self.old.core.value frame.now result.bytes result.goes_on self.new.core.value }
        ensures told { self.new.writes ≡ with_write (write_by frame.now.pdu (message_in result.bytes)) self.old.writes }
        ensures some { 0 < length result.bytes }
    {
        let pdu = self.reply_to(frame);
        self.writes.add(&frame.pdu, outcome_by(&pdu));
        FrameReply::whole(&Frame {
            transaction: frame.transaction,
            unit: frame.unit,
            pdu,
        })
    }

    fn reply_to(&mut self, frame: &Frame) -> Pdu
        ensures right { self.new.may_write ≡ self.old.may_write }
        ensures round { self.new.round ≡ self.old.round }
        ensures writes { self.new.writes ≡ self.old.writes }
        ensures answers { AnswersOn self.old.core.value frame.now result self.new.core.value }
    {
        core_reply(&mut self.core, frame)
    }
}

/// The core's reply to a frame, for whichever unit it is.
fn core_reply(core: &mut Core<DEPTH>, frame: &Frame) -> Pdu
    ensures { AnswersOn core.old frame.now result core.new }
{
    if frame.unit != core.site().unit() {
        return exception_pdu(&frame.pdu, Exception::GATEWAY_TARGET_FAILED);
    }
    own_reply(core, &frame.pdu)
}

/// The core's reply to a message for its own unit.
fn own_reply(core: &mut Core<DEPTH>, asked: &Pdu) -> Pdu
    ensures advances { Advances core.old (ClientEvent asked.now) (ReplyAnswer result) core.new }
    ensures machine { core.new.machine ≡ core.old.machine }
{
    match core.step(Event::Client(copy_of(asked))) {
        Answer::Reply(reply) => reply,
        // a core replies to each client
        _ => exception_pdu(asked, Exception::SERVER_DEVICE_FAILURE),
    }
}

fn copy_of(pdu: &Pdu) -> Pdu
    ensures { result ≡ pdu.now }
{
    Pdu::from_bytes(pdu.bytes()).unwrap()
}
