//! Connections to devices, and what comes over them.
ghost use Rattle.std.specs.Prelude.{◌≡◌, ◌+◌, ◌<◌, ◌≤◌, ◌^◌, ◌↔◌, ℕ, IsTrue, None, Some, drop, length, max, set, slice_get, true};
ghost use Rattle.service_parts.specs.declared.device_connection.DeviceConnection.{DeviceConnection as LineValue};
ghost use Rattle.service_parts.specs.Frames.{ComesUp, GoesDown, Sends, dialled};
ghost use Rattle.service_parts.specs.Backing.{after};
ghost use Rattle.service_parts.specs.Requests.{IsRightfulOn};
ghost use Rattle.service_parts.specs.Waking.{IsToDial, IsToHangUp};
ghost use Rattle.service.specs.declared.notice.Loss.TheVariants.{Down as down, Frame as frame};
ghost use Rattle.service.specs.Counting.{CountsLoss, CountsOneLossAtMost, counts_at};
ghost use Rattle.service.specs.Losing.{AreLost, IsLost};
ghost use Rattle.service.specs.Told.{Goes, LosesBy};
ghost use Rattle.service.specs.Connections.{GoesFrom, Hears};
ghost use Rattle.service.specs.Cycle.{DevicesLeadOn, LeadsOn};
ghost use Rattle.service.specs.Timing.{TurnsTo};
ghost use Rattle.service.specs.Going.{LinksGo, OtherLinksGo};
ghost use Rattle.service.specs.Having.{Forgets, HasNoMore, TellsHad, WritesHad};
ghost use Rattle.service.specs.Identity.{AreRight};
ghost use Rattle.service.specs.Staying.{Stays};
ghost use Rattle.service.specs.Together.{GoTogether};

use crate::notice::Loss;
use crate::service_state::Service;
use service_parts::Intake;

impl Service {
    /// Whether a connection is to be made: it is down, no dial is under way, and its back-off is over.
    pub fn wants_dial(&self, link: usize) -> bool
        ensures { (line : LineValue) → slice_get self.now.lines.lines.items link ≡ Some line → IsTrue result ↔ IsToDial self.now.side.now line }
    {
        self.lines.wants_dial(link, self.side.now)
    }

    /// A dial began. It may take as long as a device may take to answer; then it is to be given up, and told as down. A connection
    /// that is up stays as it is.
    #[tactic(auto, using(crate::proofs::Saying::right_noted))]
    pub fn dial_began(&mut self, link: usize, now: u64)
        ensures links { self.new.lines.links ≡ self.old.lines.links }
        ensures dials { (line : LineValue) → slice_get self.old.lines.lines.items link ≡ Some line
            → slice_get self.new.lines.lines.items link ≡ Some (dialled (after (max self.old.side.now now) self.old.side.limits.timeout) line) }
        ensures others { (other : ℕ) → (other ≡ link → ⊥) → slice_get self.new.lines.lines.items other ≡ slice_get self.old.lines.lines.items other }
        ensures lines { LinksGo self.old self.new }
        ensures core { self.new.cycle.core.value ≡ self.old.cycle.core.value }
        ensures held { self.new.held ≡ self.old.held }
        ensures together { GoTogether self.old self.new }
        ensures places { self.new.places.items ≡ self.old.places.items }
        ensures time { TurnsTo now self.old self.new }
        ensures stands { Goes self.old.side self.new.side }
    {
        self.side.turn_to(now);
        self.lines.dial(link, self.side.dial_until());
    }

    /// A connection is up: its devices have no map, until a search finds one. It has the next number of its link.
    #[tactic(auto, using(crate::proofs::Saying::right_noted))]
    pub fn link_up(&mut self, link: usize, now: u64)
        ensures stations { self.new.lines.links.stations ≡ self.old.lines.links.stations }
        ensures goes { LeadsOn self.old.cycle self.new.cycle }
        ensures others { OtherLinksGo link self.old self.new }
        ensures anew { (number : ℕ) (line : LineValue) → slice_get self.old.lines.links.numbers.items link ≡ Some number → number + 1 < 2 ^ 64 → slice_get self.old.lines.lines.items link ≡ Some line
            → GoesFrom (ComesUp line) link self.old self.new }
        ensures next { (number : ℕ) → slice_get self.old.lines.links.numbers.items link ≡ Some number → number + 1 < 2 ^ 64
            → self.new.lines.links.numbers.items ≡ set self.old.lines.links.numbers.items link (number + 1) }
        ensures held { HasNoMore self.old.held self.new.held }
        ensures together { GoTogether self.old self.new }
        ensures places { self.new.places.items ≡ self.old.places.items }
        ensures time { TurnsTo now self.old self.new }
        ensures stands { WritesHad self.old.held self.old.side self.new.side }
    {
        self.side.turn_to(now);
        if self.lines.come_up(link) {
            self.begin_anew(link);
        }
    }

    /// A link has a new connection: what was known of its devices isn't known any more.
    fn begin_anew(&mut self, link: usize)
        ensures rest { Stays self.old self.new }
        ensures lines { LinksGo self.old self.new }
        ensures goes { LeadsOn self.old.cycle self.new.cycle }
        ensures held { HasNoMore self.old.held self.new.held }
        ensures together { GoTogether self.old self.new }
        ensures stands { WritesHad self.old.held self.old.side self.new.side }
    {
        self.forget_all(link);
        self.side.begin_link(link);
        self.go_on();
    }

    fn forget_all(&mut self, link: usize)
        ensures noted { self.new.lines.found_on ≡ self.old.lines.found_on }
        ensures rest { Stays self.old self.new }
        ensures lines { LinksGo self.old self.new }
        ensures goes { LeadsOn self.old.cycle self.new.cycle }
        ensures held { HasNoMore self.old.held self.new.held }
        ensures together { GoTogether self.old self.new }
        ensures stands { Goes self.old.side self.new.side }
    {
        for device in 0..self.cycle.devices() {
            self.forget_if_at(link, device);
        }
    }

    /// A device is forgotten where it is reached over this link.
    fn forget_if_at(&mut self, link: usize, device: usize)
        ensures noted { self.new.lines.found_on ≡ self.old.lines.found_on }
        ensures rest { Stays self.old self.new }
        ensures lines { LinksGo self.old self.new }
        ensures goes { LeadsOn self.old.cycle self.new.cycle }
        ensures held { HasNoMore self.old.held self.new.held }
        ensures together { GoTogether self.old self.new }
        ensures stands { Goes self.old.side self.new.side }
    {
        if self.lines.is_at(device, link) {
            self.forget(device);
        }
    }

    /// A connection is down: a dial failed, the peer ended it, or there was an error. Where nothing was under way its devices
    /// aren't lost: it is made again at once.
    #[tactic(auto, using(crate::proofs::Saying::right_noted))]
    pub fn link_down(&mut self, link: usize, now: u64)
        ensures links { self.new.lines.links ≡ self.old.lines.links }
        ensures others { OtherLinksGo link self.old self.new }
        ensures ends { (line : LineValue) → slice_get self.old.lines.lines.items link ≡ Some line → GoesFrom (GoesDown (max self.old.side.now now) self.old.side.limits line) link self.old self.new }
        ensures goes { LeadsOn self.old.cycle self.new.cycle }
        ensures held { HasNoMore self.old.held self.new.held }
        ensures together { GoTogether self.old self.new }
        ensures places { self.new.places.items ≡ self.old.places.items }
        ensures time { TurnsTo now self.old self.new }
        ensures stands { TellsHad (AreLost self.old.lines.links.stations.items link down) self.old.held self.old.side self.new.side }
    {
        self.side.turn_to(now);
        let is_idle = self.lines.is_idle(link);
        self.lines.go_down(link, self.side.now, &self.side.limits);
        self.lose_unless(is_idle, link);
        self.go_on();
    }

    /// All devices of a connection are lost, unless it ended while nothing was under way.
    fn lose_unless(&mut self, is_idle: bool, link: usize)
        ensures rest { Stays self.old self.new }
        ensures lines { LinksGo self.old self.new }
        ensures goes { LeadsOn self.old.cycle self.new.cycle }
        ensures held { HasNoMore self.old.held self.new.held }
        ensures together { GoTogether self.old self.new }
        ensures same { self.new.lines ≡ self.old.lines }
        ensures stands { LosesBy (AreLost self.old.lines.links.stations.items link down) self.old.side self.new.side }
    {
        if !is_idle {
            self.lose_all(link, Loss::Down);
        }
    }

    /// Whether a connection is to be closed, or its dial to be given up, and told as down.
    pub fn wants_hang_up(&self, link: usize) -> bool
        ensures { (line : LineValue) → slice_get self.now.lines.lines.items link ≡ Some line → IsTrue result ↔ IsToHangUp self.now.side.now line }
    {
        self.lines.wants_hang_up(link, self.side.now)
    }

    /// Bytes of a connection; how many of them were used: none where no request is under way. The rest is to be given again, before
    /// those that come. Of what they answer the core is told as of the request that is under way there, and of no other.
    pub fn from_link(&mut self, link: usize, bytes: &[u8], now: u64) -> usize
        ensures used { result ≤ length bytes.now }
        ensures hears { (line : LineValue) → slice_get self.old.lines.lines.items link ≡ Some line → Hears link line bytes.now (drop result bytes.now) self.old self.new }
        ensures links { self.new.lines.links ≡ self.old.lines.links }
        ensures others { OtherLinksGo link self.old self.new }
        ensures goes { DevicesLeadOn self.old.cycle self.new.cycle }
        ensures held { slice_get self.old.lines.lines.items link ≡ None → HasNoMore self.old.held self.new.held }
        ensures together { slice_get self.old.lines.lines.items link ≡ None → GoTogether self.old self.new }
        ensures places { self.new.places.items ≡ self.old.places.items }
        ensures time { TurnsTo now self.old self.new }
        ensures stands { slice_get self.old.lines.lines.items link ≡ None → WritesHad self.old.held self.old.side self.new.side }
    {
        self.side.turn_to(now);
        self.hear(link, bytes)
    }

    #[tactic(auto, using(crate::proofs::Saying::right_noted))]
    fn hear(&mut self, link: usize, bytes: &[u8]) -> usize
        ensures used { result ≤ length bytes.now }
        ensures hears { (line : LineValue) → slice_get self.old.lines.lines.items link ≡ Some line → Hears link line bytes.now (drop result bytes.now) self.old self.new }
        ensures rest { Stays self.old self.new }
        ensures others { OtherLinksGo link self.old self.new }
        ensures goes { DevicesLeadOn self.old.cycle self.new.cycle }
        ensures held { slice_get self.old.lines.lines.items link ≡ None → HasNoMore self.old.held self.new.held }
        ensures together { slice_get self.old.lines.lines.items link ≡ None → GoTogether self.old self.new }
        ensures stands { slice_get self.old.lines.lines.items link ≡ None → WritesHad self.old.held self.old.side self.new.side }
    {
        let Intake { used, asked, fate } = self.lines.take(link, bytes);
        if let Some(fate) = fate {
            self.settle(link, asked, fate);
        }
        used
    }

    /// What is to be written to a connection: the rest of the frame of a request that a device may be asked whose station
    /// is there, for its unit, by a state that this service's core came through. A round asks and writes by a map that was
    /// found over this very connection, of a device that said over it that it is the one that it has to be.
    pub fn to_link(&self, link: usize) -> &[u8]
        ensures rightful { IsRightfulOn self.entry.now.cycle.core.value self.entry.now.lines link result.now }
        ensures right { AreRight self.entry.now.held.identities self.entry.now.lines.found_on.items }
        ensures waits { (line : LineValue) → slice_get self.entry.now.lines.lines.items link ≡ Some line → result.now ≡ line.out.items }
    {
        self.lines.to_send(link)
    }

    /// So many bytes are written to a connection, and the rest of them waits. Once a request is written, bytes that came before it
    /// are to be given again.
    #[tactic(auto, using(crate::proofs::Saying::right_noted))]
    pub fn sent_to_link(&mut self, link: usize, n: usize)
        ensures sends { (line : LineValue) → slice_get self.old.lines.lines.items link ≡ Some line → GoesFrom (Sends n line) link self.old self.new }
        ensures rest { Stays self.old self.new }
        ensures others { OtherLinksGo link self.old self.new }
        ensures goes { LeadsOn self.old.cycle self.new.cycle }
        ensures held { HasNoMore self.old.held self.new.held }
        ensures together { GoTogether self.old self.new }
        ensures stands { WritesHad self.old.held self.old.side self.new.side }
    {
        self.lines.sent(link, n);
        if self.lines.is_free(link) {
            // the request was given up before all of it was written
            self.go_on();
        }
    }

    /// A device's map is forgotten, and it is searched from now on.
    pub(crate) fn forget(&mut self, device: usize)
        ensures noted { self.new.lines.found_on ≡ self.old.lines.found_on }
        ensures same { self.new.lines ≡ self.old.lines }
        ensures rest { Stays self.old self.new }
        ensures lines { LinksGo self.old self.new }
        ensures goes { LeadsOn self.old.cycle self.new.cycle }
        ensures held { HasNoMore self.old.held self.new.held }
        ensures together { GoTogether self.old self.new }
        ensures forgotten { Forgets device self.old.held self.new.held }
        ensures stands { Goes self.old.side self.new.side }
    {
        self.cycle.forget(device);
        self.cycle.skip_writes(device);
        let number = self.lines.number_for(device);
        self.cycle
            .seek_anew(device, number, self.held.wants(device));
        self.side.seek(device);
        self.held.forget(device);
    }

    /// All devices of a connection are lost.
    pub(crate) fn lose_all(&mut self, link: usize, loss: Loss)
        ensures rest { Stays self.old self.new }
        ensures lines { LinksGo self.old self.new }
        ensures goes { LeadsOn self.old.cycle self.new.cycle }
        ensures held { HasNoMore self.old.held self.new.held }
        ensures together { GoTogether self.old self.new }
        ensures same { self.new.lines ≡ self.old.lines }
        ensures counts { CountsOneLossAtMost loss self.old.side self.new.side }
        ensures stands { LosesBy (AreLost self.old.lines.links.stations.items link loss) self.old.side self.new.side }
    {
        for device in 0..self.cycle.devices() {
            self.lose_if_at(link, device, loss);
        }
    }

    /// A device is lost, where it is one of this connection.
    fn lose_if_at(&mut self, link: usize, device: usize, loss: Loss)
        ensures rest { Stays self.old self.new }
        ensures lines { LinksGo self.old self.new }
        ensures goes { LeadsOn self.old.cycle self.new.cycle }
        ensures held { HasNoMore self.old.held self.new.held }
        ensures together { GoTogether self.old self.new }
        ensures same { self.new.lines ≡ self.old.lines }
        ensures counts { CountsOneLossAtMost loss self.old.side self.new.side }
        ensures others { (other : ℕ) → (other ≡ device → ⊥) → counts_at self.new.side other ≡ counts_at self.old.side other }
        ensures stands { LosesBy (AreLost self.old.lines.links.stations.items link loss) self.old.side self.new.side }
    {
        if self.lines.is_at(device, link) {
            self.lose(device, loss);
        }
    }

    /// A device is lost: nothing more is written to it, and nothing is known of it any more.
    pub(crate) fn lose(&mut self, device: usize, loss: Loss)
        ensures rest { Stays self.old self.new }
        ensures lines { LinksGo self.old self.new }
        ensures goes { LeadsOn self.old.cycle self.new.cycle }
        ensures held { HasNoMore self.old.held self.new.held }
        ensures together { GoTogether self.old self.new }
        ensures same { self.new.lines ≡ self.old.lines }
        ensures forgotten { Forgets device self.old.held self.new.held }
        ensures counts { CountsLoss device loss self.old.side self.new.side }
        ensures stands { LosesBy (IsLost device loss) self.old.side self.new.side }
    {
        self.cycle.give_up(device);
        self.side.lose(device, loss);
        self.held.forget(device);
    }
}
