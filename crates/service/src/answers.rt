//! What becomes of requests: answers that come, and those that don't.
ghost use Rattle.std.specs.Prelude.{◌≡◌, ◌<◌, ℕ, None, Some, slice_get, length, true, false};
ghost use Rattle.service_parts.specs.declared.asked.Aim.TheVariants.{Output as OutputAim};
ghost use Rattle.service_parts.specs.declared.device_connection.DeviceConnection.{DeviceConnection as LineValue};
ghost use Rattle.service_parts.specs.Answering.{is_answer};
ghost use Rattle.service_parts.specs.Overdue.{NoneIsLeft, asked_at, is_left};
ghost use Rattle.service_requests.specs.declared.request_end.RequestEnd.TheVariants.{Told};
ghost use Rattle.service.specs.declared.notice.Loss.TheVariants.{Frame as frame, Silent as silent};
ghost use Rattle.service.specs.declared.notice.Unwritten.TheVariants.{Unanswered};
ghost use Rattle.service.specs.declared.output.OutputState.TheVariants.{Unwritten as unwritten_for};
ghost use Rattle.service.specs.declared.polled_device.PolledDevice.{PolledDevice as DeviceValue};
ghost use Rattle.service.specs.declared.refusals.ReadRefusal.{ReadRefusal as RefusalValue};
ghost use Rattle.service.specs.Comparing.{TellsOthers, WritesAnew};
ghost use Rattle.service.specs.Counting.{CountsOneLossAtMost, KeepsLosses};
ghost use Rattle.service.specs.Noting.{Refuses};
ghost use Rattle.service.specs.ReadBack.{IsShownAt, IsShownBy, IsShownIf};
ghost use Rattle.service.specs.Refusing.{refusal_by};
ghost use Rattle.service.specs.Losing.{AreLost, AreLostWith, LostByFate, LostByHearing, LostByWait, LostByWaitAt, loss_by};
ghost use Rattle.service.specs.Told.{AnswersBy, BecomesBy, Goes, TellsAllBy, IsThis, LosesBy};
ghost use Rattle.service.specs.Cycle.{Answers, AnswersIf, DevicesLeadOn, EndsOwn, LeadsOn, Settles, SettlesIf, stage_of};
ghost use Rattle.service.specs.Rewriting.{after_answer, write_of};
ghost use Rattle.service.specs.Telling.{state_by, told_at};
ghost use Rattle.service.specs.Timing.{StaysAt};
ghost use Rattle.service.specs.Going.{LinksGo};
ghost use Rattle.service.specs.Having.{HasMoreBy, HasNoMore, HasOrTook, IsAnsweredBy, IsHeardBy, IsRefusedAt, IsRefusedBy, IsRefusedIf, TellsHad, taken_at, taken_by, taken_if};
ghost use Rattle.service.specs.Identity.{IsSaidAt, IsSaidBy, IsSaidIf, SaysMoreBy};
ghost use Rattle.service.specs.Staying.{Stays};
ghost use Rattle.service.specs.Together.{AllGoWith, GoTogether};

use crate::held_writes::write_of;
use crate::link_pace::Purpose;
use crate::notice::{Loss, Unwritten};
use crate::output::OutputState;
use crate::refusals::refusal_by;
use crate::service_state::Service;
use gateway::Outcome;
use service_parts::{Aim, Asked, is_answer};
use service_requests::RequestEnd;

impl Service {
    /// This became of the request that was under way on a connection; then the service goes on.
    pub(crate) fn settle(&mut self, link: usize, asked: Option<Asked>, fate: RequestEnd)
        ensures settles { SettlesIf asked fate self.old.cycle self.new.cycle }
        ensures goes { DevicesLeadOn self.old.cycle self.new.cycle }
        ensures rest { Stays self.old self.new }
        ensures lines { LinksGo self.old self.new }
        ensures held { HasMoreBy (taken_if asked (Some fate) self.old.side.now) self.old.held self.new.held }
        ensures together { AllGoWith self.old.held.companions.items (HasOrTook (taken_if asked (Some fate) self.old.side.now) self.old.held) self.old.lines.lines.items self.new.lines.links.numbers.items self.new.lines.lines.items }
        ensures says { SaysMoreBy (IsSaidIf asked (Some fate)) self.old.held.identities self.new.held.identities }
        ensures stands { TellsAllBy (LostByHearing self.old.lines.links.stations.items link asked (Some fate)) (IsHeardBy (taken_if asked (Some fate) self.old.side.now) (IsRefusedIf asked (Some fate)) self.old.held) (IsShownIf self.old.cycle.core.value.site.wants self.old.held asked (Some fate)) self.old.side self.new.side }
        ensures differing { TellsOthers (IsShownIf self.old.cycle.core.value.site.wants self.old.held asked (Some fate)) self.old.side self.new.side }
        ensures anew { WritesAnew (IsShownIf self.old.cycle.core.value.site.wants self.old.held asked (Some fate)) self.old.side self.new.held }
    {
        match asked {
            Some(asked) => self.settle_asked(link, asked, fate),
            None => self.go_on(),
        }
    }

    fn settle_asked(&mut self, link: usize, asked: Asked, fate: RequestEnd)
        ensures settles { Settles fate asked self.old.cycle self.new.cycle }
        ensures rest { Stays self.old self.new }
        ensures lines { LinksGo self.old self.new }
        ensures held { HasMoreBy (taken_at fate asked self.old.side.now) self.old.held self.new.held }
        ensures together { AllGoWith self.old.held.companions.items (HasOrTook (taken_at fate asked self.old.side.now) self.old.held) self.old.lines.lines.items self.new.lines.links.numbers.items self.new.lines.lines.items }
        ensures says { SaysMoreBy (IsSaidAt fate asked) self.old.held.identities self.new.held.identities }
        ensures stands { TellsAllBy (LostByFate self.old.lines.links.stations.items link asked fate) (IsHeardBy (taken_at fate asked self.old.side.now) (IsRefusedAt fate asked) self.old.held) (IsShownAt self.old.cycle.core.value.site.wants self.old.held asked fate) self.old.side self.new.side }
        ensures differing { TellsOthers (IsShownAt self.old.cycle.core.value.site.wants self.old.held asked fate) self.old.side self.new.side }
        ensures anew { WritesAnew (IsShownAt self.old.cycle.core.value.site.wants self.old.held asked fate) self.old.side self.new.held }
    {
        match fate {
            RequestEnd::Lost => self.lose_stream(link, asked.aim),
            RequestEnd::Told(outcome) => self.settle_told(link, asked, outcome),
        }
    }

    /// What came over a connection is no frame.
    #[tactic(auto, using(crate::proofs::Saying::right_noted))]
    fn lose_stream(&mut self, link: usize, aim: Aim)
        ensures rest { Stays self.old self.new }
        ensures lines { LinksGo self.old self.new }
        ensures goes { LeadsOn self.old.cycle self.new.cycle }
        ensures held { HasNoMore self.old.held self.new.held }
        ensures together { GoTogether self.old self.new }
        ensures stands { TellsHad (AreLost self.old.lines.links.stations.items link frame) self.old.held self.old.side self.new.side }
    {
        self.side.lose_write(aim);
        self.lines.spoil(link);
        self.lose_all(link, Loss::Frame);
        self.go_on();
    }

    fn settle_told(&mut self, link: usize, asked: Asked, outcome: Outcome)
        ensures settles { AnswersIf (is_answer outcome) asked outcome self.old.cycle self.new.cycle }
        ensures rest { Stays self.old self.new }
        ensures lines { LinksGo self.old self.new }
        ensures held { HasMoreBy (taken_by outcome asked self.old.side.now) self.old.held self.new.held }
        ensures together { AllGoWith self.old.held.companions.items (HasOrTook (taken_by outcome asked self.old.side.now) self.old.held) self.old.lines.lines.items self.new.lines.links.numbers.items self.new.lines.lines.items }
        ensures says { SaysMoreBy (IsSaidBy outcome asked) self.old.held.identities self.new.held.identities }
        ensures stands { TellsAllBy (LostByFate self.old.lines.links.stations.items link asked (Told outcome)) (IsHeardBy (taken_by outcome asked self.old.side.now) (IsRefusedAt (Told outcome) asked) self.old.held) (IsShownBy self.old.cycle.core.value.site.wants self.old.held asked outcome) self.old.side self.new.side }
        ensures differing { TellsOthers (IsShownBy self.old.cycle.core.value.site.wants self.old.held asked outcome) self.old.side self.new.side }
        ensures anew { WritesAnew (IsShownBy self.old.cycle.core.value.site.wants self.old.held asked outcome) self.old.side self.new.held }
    {
        if is_answer(&outcome) {
            self.take_answer(link, asked, outcome);
        } else {
            self.lose_answer(link, asked, loss_by(&outcome));
        }
    }

    /// What came is no answer of the device.
    fn lose_answer(&mut self, link: usize, asked: Asked, loss: Loss)
        ensures rest { Stays self.old self.new }
        ensures lines { LinksGo self.old self.new }
        ensures goes { LeadsOn self.old.cycle self.new.cycle }
        ensures held { HasNoMore self.old.held self.new.held }
        ensures together { GoTogether self.old self.new }
        ensures stands { TellsHad (AreLostWith self.old.lines.links.stations.items link asked.device loss) self.old.held self.old.side self.new.side }
    {
        self.side.lose_write(asked.aim);
        self.miss(link, asked.device, loss);
        self.go_on();
    }

    fn take_answer(&mut self, link: usize, asked: Asked, outcome: Outcome)
        ensures answers { Answers asked outcome self.old.cycle self.new.cycle }
        ensures rest { Stays self.old self.new }
        ensures lines { LinksGo self.old self.new }
        ensures held { HasMoreBy (taken_by outcome asked self.old.side.now) self.old.held self.new.held }
        ensures together { AllGoWith self.old.held.companions.items (HasOrTook (taken_by outcome asked self.old.side.now) self.old.held) self.old.lines.lines.items self.new.lines.links.numbers.items self.new.lines.lines.items }
        ensures says { SaysMoreBy (IsSaidBy outcome asked) self.old.held.identities self.new.held.identities }
        ensures stands { AnswersBy (IsHeardBy (taken_by outcome asked self.old.side.now) (IsRefusedBy outcome asked) self.old.held) (IsShownBy self.old.cycle.core.value.site.wants self.old.held asked outcome) self.old.side self.new.side }
        ensures differing { TellsOthers (IsShownBy self.old.cycle.core.value.site.wants self.old.held asked outcome) self.old.side self.new.side }
        ensures anew { WritesAnew (IsShownBy self.old.cycle.core.value.site.wants self.old.held asked outcome) self.old.side self.new.held }
    {
        let device = asked.device;
        let is_mapped = self.cycle.is_mapped(device);
        self.side.hear(device, is_mapped);
        self.note_reply(link, &asked);
        self.note_refusal(&asked, &outcome);
        self.compare(&asked, &outcome);
        let foreign = self.take(asked, outcome);
        self.forget_if(foreign, device);
        self.leave_turn(link, device);
        self.go_on();
    }

    /// A device whose blocks are all told leaves its turn to the next search, and to the next device that is read.
    fn leave_turn(&mut self, link: usize, device: usize)
        ensures lines { self.new.lines ≡ self.old.lines }
        ensures cycle { self.new.cycle ≡ self.old.cycle }
        ensures held { self.new.held ≡ self.old.held }
        ensures places { self.new.places.items ≡ self.old.places.items }
        ensures time { StaysAt self.old self.new }
        ensures stands { Goes self.old.side self.new.side }
    {
        if self.cycle.round().is_ready(device) {
            self.side.owe(link, true);
            let place = self.side.turn(link, Purpose::Read);
            if self.lines.device_at(link, place) == Some(device) {
                self.side
                    .turned(link, Purpose::Read, place.saturating_add(1));
            }
        }
    }

    /// How long a device took to answer, where nothing before held its answer up.
    fn note_reply(&mut self, link: usize, asked: &Asked)
        ensures lines { self.new.lines ≡ self.old.lines }
        ensures cycle { self.new.cycle ≡ self.old.cycle }
        ensures held { self.new.held ≡ self.old.held }
        ensures places { self.new.places.items ≡ self.old.places.items }
        ensures time { StaysAt self.old self.new }
        ensures stands { Goes self.old.side self.new.side }
    {
        let after = self.side.now.saturating_sub(asked.since);
        if !self.side.is_held_up(link) {
            self.side.replied(asked.device, after);
        }
        self.side.note_write(asked.device, asked.aim, true);
        self.side.hear_over(asked.device);
        self.side.hear_link(link, asked.device, asked.since);
    }

    /// A device that answered a read with an exception refuses it.
    fn note_refusal(&mut self, asked: &Asked, outcome: &Outcome)
        ensures refuses { (refusal : RefusalValue) (own : DeviceValue) → refusal_by asked.now.aim asked.now.address outcome.now ≡ Some refusal → slice_get self.old.side.devices.items asked.now.device ≡ Some own
            → Refuses asked.now.device refusal own self.old.side self.new.side }
        ensures answers { refusal_by asked.now.aim asked.now.address outcome.now ≡ None → self.new.side ≡ self.old.side }
        ensures lines { self.new.lines ≡ self.old.lines }
        ensures cycle { self.new.cycle ≡ self.old.cycle }
        ensures held { self.new.held ≡ self.old.held }
        ensures places { self.new.places.items ≡ self.old.places.items }
        ensures time { StaysAt self.old self.new }
        ensures stands { Goes self.old.side self.new.side }
    {
        if let Some(refusal) = refusal_by(asked, outcome) {
            self.side.refuse(asked.device, refusal);
        }
    }

    /// A device whose words are no block of the model that was asked for has other registers than its map says.
    fn forget_if(&mut self, foreign: bool, device: usize)
        ensures same { self.new.lines ≡ self.old.lines }
        ensures rest { Stays self.old self.new }
        ensures lines { LinksGo self.old self.new }
        ensures goes { LeadsOn self.old.cycle self.new.cycle }
        ensures held { HasNoMore self.old.held self.new.held }
        ensures together { GoTogether self.old self.new }
        ensures stands { Goes self.old.side self.new.side }
    {
        if foreign {
            self.forget(device);
            self.side.tell_again(device);
        }
    }

    /// A device didn't answer, and is lost: it isn't asked for a while. Where its connection is at fault all devices of that are lost.
    fn miss(&mut self, link: usize, device: usize, loss: Loss)
        ensures rest { Stays self.old self.new }
        ensures lines { LinksGo self.old self.new }
        ensures goes { LeadsOn self.old.cycle self.new.cycle }
        ensures held { HasNoMore self.old.held self.new.held }
        ensures together { GoTogether self.old self.new }
        ensures others { (other : ℕ) → (other ≡ link → ⊥) → slice_get self.new.lines.lines.items other ≡ slice_get self.old.lines.lines.items other }
        ensures counts { CountsOneLossAtMost loss self.old.side self.new.side }
        ensures stands { LosesBy (AreLostWith self.old.lines.links.stations.items link device loss) self.old.side self.new.side }
    {
        self.side.miss(device);
        self.lines.missed(link);
        let number = self.lines.number_for(device);
        self.cycle
            .seek_anew(device, number, self.held.wants(device));
        if self.lines.is_bad(link) {
            self.lose_all(link, loss);
        } else {
            self.lose(device, loss);
        }
    }

    /// The outcome ends the request; whether the words that came are no block of its model.
    #[tactic(auto, using(crate::proofs::Having::had_by, crate::proofs::Having::had_same, crate::proofs::Saying::says_same))]
    fn take(&mut self, asked: Asked, outcome: Outcome) -> bool
        ensures ends { EndsOwn asked.aim asked.device outcome (stage_of self.old.cycle) (stage_of self.new.cycle) }
        ensures same { self.new.lines ≡ self.old.lines }
        ensures rest { Stays self.old self.new }
        ensures lines { LinksGo self.old self.new }
        ensures held { HasMoreBy (taken_by outcome asked self.old.side.now) self.old.held self.new.held }
        ensures says { SaysMoreBy (IsSaidBy outcome asked) self.old.held.identities self.new.held.identities }
        ensures stands { BecomesBy (IsAnsweredBy (taken_by outcome asked self.old.side.now) (IsRefusedBy outcome asked)) self.old.side self.new.side }
    {
        match asked.aim {
            Aim::Map => {
                self.take_of_search(&asked, &outcome);
                false
            }
            Aim::Block(want) => self.cycle.close_block(asked.device, want, outcome),
            Aim::Output(output) => {
                self.take_write(asked, output, outcome);
                false
            }
        }
    }

    /// The outcome of a read of a search: of its map, or of the common model.
    #[tactic(auto, using(crate::proofs::Saying::right_heard))]
    fn take_of_search(&mut self, asked: &Asked, outcome: &Outcome)
        ensures same { stage_of self.new.cycle ≡ stage_of self.old.cycle }
        ensures rest { Stays self.old self.new }
        ensures lines { self.new.lines ≡ self.old.lines }
        ensures writes { self.new.held.writes ≡ self.old.held.writes }
        ensures companions { self.new.held.companions.items ≡ self.old.held.companions.items }
        ensures says { SaysMoreBy (IsSaidBy outcome.now asked.now) self.old.held.identities self.new.held.identities }
        ensures stands { Goes self.old.side self.new.side }
    {
        if self.cycle.answered(asked.device, asked.number, outcome) {
            let is_new = self.held.hear(asked, outcome);
            self.side.say_anew_if(is_new, asked.device);
        }
    }

    fn take_write(&mut self, asked: Asked, output: usize, outcome: Outcome)
        ensures taken { self.new.held.writes.items ≡ after_answer (state_by outcome) output (write_of asked self.old.side.now) self.old.held.writes.items }
        ensures companions { self.new.held.companions.items ≡ self.old.held.companions.items }
        ensures said { self.new.held.identities ≡ self.old.held.identities }
        ensures told { output < length self.old.side.outputs.items → told_at self.new.side.outputs.items output ≡ Some (state_by outcome) }
        ensures ends { EndsOwn (OutputAim output) asked.device outcome (stage_of self.old.cycle) (stage_of self.new.cycle) }
        ensures same { self.new.lines ≡ self.old.lines }
        ensures rest { Stays self.old self.new }
        ensures lines { LinksGo self.old self.new }
        ensures stands { BecomesBy (IsThis output (state_by outcome)) self.old.side self.new.side }
    {
        let state = state_by(&outcome);
        let device = asked.device;
        self.note_answer(state, output, asked);
        self.side.wrote(state == OutputState::Written);
        self.side.settle_output(output, state);
        self.cycle.close_write(device, output, &outcome);
    }

    /// What the device has of an output, by its answer to the request that writes it.
    #[tactic(auto, using(crate::proofs::Saying::right_held))]
    fn note_answer(&mut self, state: OutputState, output: usize, asked: Asked)
        ensures taken { self.new.held.writes.items ≡ after_answer state output (write_of asked self.old.side.now) self.old.held.writes.items }
        ensures companions { self.new.held.companions.items ≡ self.old.held.companions.items }
        ensures said { self.new.held.identities ≡ self.old.held.identities }
        ensures cycle { self.new.cycle ≡ self.old.cycle }
        ensures lines { self.new.lines ≡ self.old.lines }
        ensures side { self.new.side ≡ self.old.side }
        ensures places { self.new.places ≡ self.old.places }
    {
        if state == OutputState::Written {
            self.held.take(output, write_of(asked, self.side.now));
        }
    }

    /// The time of each request that is over ends its wait.
    pub(crate) fn end_waits(&mut self)
        ensures rest { Stays self.old self.new }
        ensures lines { LinksGo self.old self.new }
        ensures goes { LeadsOn self.old.cycle self.new.cycle }
        ensures held { HasNoMore self.old.held self.new.held }
        ensures together { GoTogether self.old self.new }
        ensures ended { NoneIsLeft self.old.side.now self.old.lines.lines.items self.new.lines.lines.items }
        ensures stands { LosesBy (LostByWait self.old.lines.links.stations.items self.old.lines.lines.items self.old.side.now) self.old.side self.new.side }
    {
        for link in 0..self.lines.count() {
            self.end_wait(link);
        }
    }

    #[tactic(auto, using(crate::proofs::Saying::right_noted))]
    fn end_wait(&mut self, link: usize)
        ensures rest { Stays self.old self.new }
        ensures lines { LinksGo self.old self.new }
        ensures goes { LeadsOn self.old.cycle self.new.cycle }
        ensures held { HasNoMore self.old.held self.new.held }
        ensures together { GoTogether self.old self.new }
        ensures others { (other : ℕ) → (other ≡ link → ⊥) → slice_get self.new.lines.lines.items other ≡ slice_get self.old.lines.lines.items other }
        ensures ended { (line : LineValue) → slice_get self.old.lines.lines.items link ≡ Some line → is_left self.old.side.now (asked_at self.new.lines.lines.items link) ≡ false }
        ensures stands { LosesBy (LostByWaitAt self.old.lines.links.stations.items self.old.lines.lines.items self.old.side.now link) self.old.side self.new.side }
    {
        if let Some(asked) = self.lines.give_up_overdue(link, self.side.now) {
            self.give_up(link, asked);
        }
    }

    /// A request had no answer in its time.
    fn give_up(&mut self, link: usize, asked: Asked)
        ensures rest { Stays self.old self.new }
        ensures lines { LinksGo self.old self.new }
        ensures goes { LeadsOn self.old.cycle self.new.cycle }
        ensures held { HasNoMore self.old.held self.new.held }
        ensures together { GoTogether self.old self.new }
        ensures others { (other : ℕ) → (other ≡ link → ⊥) → slice_get self.new.lines.lines.items other ≡ slice_get self.old.lines.lines.items other }
        ensures counts { CountsOneLossAtMost silent self.old.side self.new.side }
        ensures stands { LosesBy (AreLostWith self.old.lines.links.stations.items link asked.device silent) self.old.side self.new.side }
    {
        self.side.miss_link(link, asked.since);
        self.side.lose_write(asked.aim);
        self.side.note_write(asked.device, asked.aim, false);
        if self.is_silent(&asked) {
            self.miss(link, asked.device, Loss::Silent);
        } else {
            self.doubt(link, asked.device);
            self.lose_if_bad(link);
        }
    }

    /// Whether a device that didn't answer is lost: it had all of the time that it may take, or didn't answer before either.
    fn is_silent(&self, asked: &Asked) -> bool {
        self.side.had_time(asked.since) || !self.side.is_good(asked.device)
    }

    /// All devices of a connection that is at fault are lost.
    fn lose_if_bad(&mut self, link: usize)
        ensures rest { Stays self.old self.new }
        ensures lines { LinksGo self.old self.new }
        ensures goes { LeadsOn self.old.cycle self.new.cycle }
        ensures held { HasNoMore self.old.held self.new.held }
        ensures together { GoTogether self.old self.new }
        ensures same { self.new.lines ≡ self.old.lines }
        ensures counts { CountsOneLossAtMost silent self.old.side self.new.side }
        ensures stands { LosesBy (AreLost self.old.lines.links.stations.items link silent) self.old.side self.new.side }
    {
        if self.lines.is_bad(link) {
            self.lose_all(link, Loss::Silent);
        }
    }

    /// A device didn't answer in the time that it mostly takes: it is asked later whether it does. What is known of it stays known.
    fn doubt(&mut self, link: usize, device: usize)
        ensures rest { Stays self.old self.new }
        ensures lines { LinksGo self.old self.new }
        ensures goes { LeadsOn self.old.cycle self.new.cycle }
        ensures held { HasNoMore self.old.held self.new.held }
        ensures together { GoTogether self.old self.new }
        ensures others { (other : ℕ) → (other ≡ link → ⊥) → slice_get self.new.lines.lines.items other ≡ slice_get self.old.lines.lines.items other }
        ensures counts { KeepsLosses self.old.side self.new.side }
        ensures stands { Goes self.old.side self.new.side }
    {
        self.side.miss(device);
        self.lines.missed(link);
        self.cycle.drop_write(device);
    }
}

/// Why a device is lost that answered so.
fn loss_by(outcome: &Outcome) -> Loss
    ensures { result ≡ loss_by outcome.now }
{
    match outcome {
        Outcome::Exception(_) => Loss::Gateway,
        Outcome::Words(_) | Outcome::Wrote | Outcome::Mismatch | Outcome::Stale => Loss::Stale,
    }
}

/// What became of an output whose write was answered so.
fn state_by(outcome: &Outcome) -> OutputState
    ensures state { result ≡ state_by outcome.now }
    ensures answered { result ≡ unwritten_for Unanswered → ⊥ }
{
    match outcome {
        Outcome::Wrote => OutputState::Written,
        Outcome::Exception(exception) => {
            OutputState::Unwritten(Unwritten::Refused(Some(*exception)))
        }
        Outcome::Words(_) | Outcome::Mismatch | Outcome::Stale => {
            OutputState::Unwritten(Unwritten::Refused(None))
        }
    }
}
