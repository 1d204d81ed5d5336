//! Requests to devices, and what comes of them.
ghost use Rattle.std.specs.Prelude.{◌≡◌, ◌⊎◌, ◌≤◌, ℕ, List, None, Some, drop, length, slice_get, false, true};
ghost use Rattle.modbus_frame.specs.Message.{HasQuantity, address_of};
ghost use Rattle.gateway.specs.event_core.Core.{Gateway};
ghost use Rattle.service_parts.specs.declared.device_connection.DeviceConnection.{DeviceConnection as LineValue};
ghost use Rattle.service_parts.specs.declared.limits.Limits.{Limits};
ghost use Rattle.service_parts.specs.Course.{Reached};
ghost use Rattle.service_requests.specs.declared.task.Task.{Task};
ghost use Rattle.service_parts.specs.Frames.{Hears, LinesGoAt, LinkGoes, OthersGo, Sends, TakesDue, ended_by};
ghost use Rattle.service_parts.specs.Overdue.{IsTimed, asked_at, is_over, overdue_at};
ghost use Rattle.service_parts.specs.Requests.{AreRightfulBy, IsRightfulOn, MayGoOver, StayRightful, words_of};
ghost use Rattle.service_parts.specs.Waking.{IsDueOf, due_at};

use crate::asked::Asked;
use crate::connections::Connections;
use crate::device_connection::Intake;
use modbus_frame::Request;

impl Connections {
    /// What is to be written over a link.
    pub fn to_send(&self, link: usize) -> &[u8]
        ensures rightful { (now : Gateway) → AreRightfulBy now self.now → IsRightfulOn now self.now link result.now }
        ensures waits { (line : LineValue) → slice_get self.now.lines.items link ≡ Some line → result.now ≡ line.out.items }
    {
        match self.lines.get(link) {
            Some(line) => line.out(),
            None => &[],
        }
    }

    /// Whether a request may begin on a link.
    pub fn is_free(&self, link: usize) -> bool {
        match self.lines.get(link) {
            Some(line) => line.is_free(),
            None => false,
        }
    }

    /// Begins a request to a device on this link, where one may begin.
    #[tactic(auto, using(crate::proofs::Frames::not_begun))]
    pub fn begin(&mut self, link: usize, asked: Asked, request: Request)
        requires quantity { HasQuantity request }
        requires number { slice_get self.old.links.numbers.items link ≡ Some asked.number }
        requires address { asked.address ≡ address_of request }
        requires words { asked.words ≡ words_of request }
        ensures rightful { (now : Gateway) → ∥ Reached now ∥₁ → MayGoOver now self.old.links.numbers.items self.old.found_on.items link asked.aim asked.device request
            → AreRightfulBy now self.old → AreRightfulBy now self.new }
        ensures found { self.new.found_on ≡ self.old.found_on }
        ensures links { self.new.links ≡ self.old.links }
        ensures lines { (now : ℕ) (limits : Limits) → IsTimed now limits asked → (before after : List Task) → TakesDue asked.aim before after
            → (at : ℕ) → LinkGoes now limits at before self.old.lines.items after self.new.lines.items }
        ensures others { (other : ℕ) → (other ≡ link → ⊥) → slice_get self.new.lines.items other ≡ slice_get self.old.lines.items other }
    {
        let Some(unit) = self.unit_at(asked.device, link) else {
            return;
        };
        if let Some(line) = self.lines.get_mut(link) {
            let _ = line.begin(asked, unit, request);
        }
    }

    /// So many bytes are written over a link.
    pub fn sent(&mut self, link: usize, n: usize)
        ensures rightful { StayRightful self.old self.new }
        ensures found { self.new.found_on ≡ self.old.found_on }
        ensures links { self.new.links ≡ self.old.links }
        ensures sends { (line : LineValue) → slice_get self.old.lines.items link ≡ Some line → (rest : LineValue) × (slice_get self.new.lines.items link ≡ Some rest) × Sends n line rest }
        ensures others { OthersGo link self.old.lines.items self.new.lines.items }
        ensures none { slice_get self.old.lines.items link ≡ None → slice_get self.new.lines.items link ≡ None }
    {
        if let Some(line) = self.lines.get_mut(link) {
            line.sent(n);
        }
    }

    /// Takes bytes of a link's stream, and tells how many, and what became of the request that is under way, which is over
    /// then and given away.
    pub fn take(&mut self, link: usize, bytes: &[u8]) -> Intake
        ensures rightful { StayRightful self.old self.new }
        ensures found { self.new.found_on ≡ self.old.found_on }
        ensures links { self.new.links ≡ self.old.links }
        ensures hears { (line : LineValue) → slice_get self.old.lines.items link ≡ Some line → (new : LineValue) × (slice_get self.new.lines.items link ≡ Some new) × Hears bytes.now (drop result.used bytes.now) result.fate line new }
        ensures used { result.used ≤ length bytes.now }
        ensures ended { result.asked ≡ ended_by result.fate (asked_at self.old.lines.items link) }
        ensures others { OthersGo link self.old.lines.items self.new.lines.items }
    {
        match self.lines.get_mut(link) {
            Some(line) => line.take(bytes),
            None => Intake {
                used: bytes.len(),
                asked: None,
                fate: None,
            },
        }
    }

    /// The request that is under way on a link is given up where its time is over, and given away then.
    pub fn give_up_overdue(&mut self, link: usize, now: u64) -> Option<Asked>
        ensures rightful { StayRightful self.old self.new }
        ensures found { self.new.found_on ≡ self.old.found_on }
        ensures links { self.new.links ≡ self.old.links }
        ensures overdue { result ≡ overdue_at self.old.lines.items now link }
        ensures ended { is_over now (asked_at self.new.lines.items link) ≡ false }
        ensures lines { LinesGoAt now self.old.lines.items self.new.lines.items }
        ensures others { (other : ℕ) → (other ≡ link → ⊥) → slice_get self.new.lines.items other ≡ slice_get self.old.lines.items other }
    {
        if self.is_overdue(link, now) {
            self.give_up(link, now)
        } else {
            None
        }
    }

    /// Whether the time of the request that is under way on a link is over.
    fn is_overdue(&self, link: usize, now: u64) -> bool
        ensures { result ≡ is_over now (asked_at self.now.lines.items link) }
    {
        match self.lines.get(link) {
            Some(line) => line.is_overdue(now),
            None => false,
        }
    }

    /// The request that is under way on a link, whose time is over, is given up, and given away.
    fn give_up(&mut self, link: usize, now: u64) -> Option<Asked>
        requires waited { is_over now (asked_at self.old.lines.items link) ≡ true }
        ensures asked { result ≡ asked_at self.old.lines.items link }
        ensures ended { asked_at self.new.lines.items link ≡ None }
        ensures rightful { StayRightful self.old self.new }
        ensures found { self.new.found_on ≡ self.old.found_on }
        ensures links { self.new.links ≡ self.old.links }
        ensures lines { LinesGoAt now self.old.lines.items self.new.lines.items }
        ensures others { (other : ℕ) → (other ≡ link → ⊥) → slice_get self.new.lines.items other ≡ slice_get self.old.lines.items other }
    {
        match self.lines.get_mut(link) {
            Some(line) => line.give_up(),
            None => None,
        }
    }

    /// When something is to be done about a connection next, or the given time where that is earlier.
    #[tactic(auto, using(crate::proofs::Waking::min_due))]
    pub fn wakes_at(&self, at: u64) -> u64
        ensures most { result ≤ at }
        ensures one { (result ≡ at) ⊎ IsDueOf self.now.lines.items result }
        ensures links { (link : ℕ) (line : LineValue) → slice_get self.now.lines.items link ≡ Some line → result ≤ due_at line }
    {
        let mut at = at;
        for link in 0..self.lines.len() {
            at = at.min(self.lines[link].wakes_at());
        }
        at
    }
}
