//! Which writes aren't made: what a device has isn't written to it again for a while, and an output that goes with another one isn't
//! written without it.
ghost use Rattle.std.specs.Prelude.{◌≡◌, ◌*◌, IfSome, None, Some};
ghost use Rattle.modbus_frame.specs.Message.{HasQuantity};
ghost use Rattle.service.specs.Told.{BecomesBy};
ghost use Rattle.service.specs.Cycle.{LeadsOn, stage_of};
ghost use Rattle.service.specs.LeftOut.{GivesDue, IsLeftOut, left_by, left_in};
ghost use Rattle.service.specs.Stages.{Ends};
ghost use Rattle.service.specs.Rewriting.{kept_for};
ghost use Rattle.service_parts.specs.Requests.{IsOfRound};
ghost use Rattle.service.specs.Staying.{Stays};
ghost use Rattle.service.specs.Together.{GoTogether};
ghost use Rattle.service.specs.Going.{LinksGo, WishGoes};
ghost use Rattle.service.specs.Having.{Has, HasNoMore, WritesHad};
ghost use Rattle.service.specs.Pairing.{IsPaired};

use crate::held_writes::Intended;
use crate::notice::Unwritten;
use crate::output::OutputState;
use crate::service_state::Service;
use crate::wish::Wish;
use point_writer::NoWrite;
use service_parts::Aim;

/// Why a write isn't made.
#[derive(Clone, Copy)]
pub(crate) enum LeftOut {
    /// It would write once more what the device has of this output.
    Held(usize),
    /// The device didn't take what this output goes with.
    Alone(usize),
}

impl Service {
    /// The next write to a device over the connection with this number. What would write once more what the device
    /// has is left out, and counts as written; so is a write of an output without the one that it goes with, and that counts as
    /// not written. Nothing else is.
    #[tactic(auto, using(crate::proofs::LeftOut::left_nothing))]
    pub(crate) fn next_due(&mut self, number: u64, device: usize) -> Option<Wish>
        ensures quantity { IfSome result (λ wish. HasQuantity wish.request) }
        ensures asked { IfSome result (λ wish. IsOfRound self.new.cycle.core.value wish.aim device wish.request) }
        ensures due { IfSome result (λ wish. left_in self.new.held.companions.items self.new.held.writes.items device number (kept_for self.new.cycle.core.value.site.devices device) self.new.side.now wish.aim wish.request ≡ None) }
        ensures paired { IfSome result (λ wish. IsPaired self.old.held.companions.items (Has self.old.held) number wish.aim) }
        ensures left_out { GivesDue device (left_by self.old.held device number self.old.side.now) result (stage_of self.old.cycle) (stage_of self.new.cycle) }
        ensures same_lines { self.new.lines ≡ self.old.lines }
        ensures held { self.new.held ≡ self.old.held }
        ensures rest { Stays self.old self.new }
        ensures opens { WishGoes result self.old self.new }
        ensures goes { LeadsOn self.old.cycle self.new.cycle }
        ensures no_more { HasNoMore self.old.held self.new.held }
        ensures together { GoTogether self.old self.new }
        ensures stands { WritesHad self.old.held self.old.side self.new.side }
    {
        for _ in 0..self.cycle.round().outputs() {
            let Some(wish) = self.cycle.next_write(device) else {
                return None;
            };
            let Some(left) = self.left_out(number, device, &wish) else {
                return Some(wish);
            };
            self.leave_out(device, left);
        }
        None
    }

    /// Why a request isn't made, if so.
    fn left_out(&self, number: u64, device: usize, wish: &Wish) -> Option<LeftOut>
        ensures { result ≡ left_in self.entry.now.held.companions.items self.entry.now.held.writes.items device number (kept_for self.entry.now.cycle.core.value.site.devices device) self.entry.now.side.now wish.now.aim wish.now.request }
    {
        let Aim::Output(output) = wish.aim else {
            return None;
        };
        if !self.held.is_paired(output, number) {
            return Some(LeftOut::Alone(output));
        }
        let write = Intended {
            device,
            output,
            request: &wish.request,
            number,
        };
        if self.held.holds(write, self.kept_for(device), self.side.now) {
            Some(LeftOut::Held(output))
        } else {
            None
        }
    }

    /// The milliseconds for which a device keeps what it took.
    fn kept_for(&self, device: usize) -> u64
        ensures { result ≡ kept_for self.entry.now.cycle.core.value.site.devices device }
    {
        match self.cycle.core().site().devices().get(device) {
            Some(own) => milliseconds(own.rewrite),
            None => 0,
        }
    }

    /// The device's request that is under way isn't sent.
    fn leave_out(&mut self, device: usize, left: LeftOut)
        ensures ends { Ends device (stage_of self.old.cycle) (stage_of self.new.cycle) }
        ensures same_lines { self.new.lines ≡ self.old.lines }
        ensures held { self.new.held ≡ self.old.held }
        ensures rest { Stays self.old self.new }
        ensures lines { LinksGo self.old self.new }
        ensures goes { LeadsOn self.old.cycle self.new.cycle }
        ensures no_more { HasNoMore self.old.held self.new.held }
        ensures together { GoTogether self.old self.new }
        ensures stands { BecomesBy (IsLeftOut left) self.old.side self.new.side }
    {
        self.cycle.drop_write(device);
        match left {
            LeftOut::Held(output) => {
                self.side.wrote(true);
                self.side.settle_output(output, OutputState::Written);
            }
            LeftOut::Alone(output) => {
                self.side.settle_output(
                    output,
                    OutputState::Unwritten(Unwritten::NoSetPoint(NoWrite::With)),
                );
            }
        }
    }
}

fn milliseconds(seconds: u16) -> u64
    ensures { result ≡ seconds * 1000 }
{
    u64::from(seconds) * 1000
}
