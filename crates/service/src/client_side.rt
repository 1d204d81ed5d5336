//! The clients' side.
ghost use Rattle.std.specs.Prelude.{◌≡◌, ◌≤◌, ◌<◌, ◌↔◌, [], length, take, slice_get, Some, IfNone, IfSome, IsTrue, false};
ghost use Rattle.service.specs.Told.{Goes};
ghost use Rattle.service.specs.Cycle.{ClientsLeadOn};
ghost use Rattle.service_parts.specs.declared.client_place.ClientPlace.{ClientPlace as Place};
ghost use Rattle.service_parts.specs.Clients.{DoesAt, IsDeaf, IsDone, IsOpen, OthersStay, Sends, ready_of};
ghost use Rattle.service_parts.specs.Places.{given_place};
ghost use Rattle.service.specs.ClientWrites.{HearsWrites};
ghost use Rattle.service.specs.Timing.{StaysAt, TurnsTo};

use crate::client_writes::ClientWrite;
use crate::cycle::Cycle;
use crate::service_state::Service;
use modbus_frame::Responder;
use service_parts::place_for;

impl Service {
    /// A client came: its place, or none where it is to be closed, since each place is taken and each client was heard of
    /// within half a minute. Where each is taken it may be the place of a client that was silent: that one's connection is
    /// to be closed.
    pub fn client_came(&mut self, may_write: bool, now: u64) -> Option<usize>
        ensures links { self.new.lines.links ≡ self.old.lines.links }
        ensures lines { self.new.lines ≡ self.old.lines }
        ensures core { self.new.cycle.core.value ≡ self.old.cycle.core.value }
        ensures held { self.new.held ≡ self.old.held }
        ensures time { TurnsTo now self.old self.new }
        ensures stands { Goes self.old.side self.new.side }
        ensures given { result ≡ given_place self.new.side.now self.old.places.items }
        ensures refused { IfNone result (self.new.places.items ≡ self.old.places.items) }
        ensures open { IfSome result (λ place. (c : Place) × (slice_get self.new.places.items place ≡ Some c) × IsOpen may_write self.new.side.now c) }
        ensures others { IfSome result (λ place. OthersStay self.old.places.items place self.new.places.items) }
    {
        self.side.turn_to(now);
        let now = self.side.now;
        let place = place_for(&self.places, now)?;
        self.places[place].open(may_write, now);
        Some(place)
    }

    /// The client at the place is gone.
    pub fn client_gone(&mut self, place: usize)
        ensures links { self.new.lines.links ≡ self.old.lines.links }
        ensures lines { self.new.lines ≡ self.old.lines }
        ensures core { self.new.cycle.core.value ≡ self.old.cycle.core.value }
        ensures gone { DoesAt (λ c d. d.is_taken ≡ false) self.old.places.items place self.new.places.items }
        ensures held { self.new.held ≡ self.old.held }
        ensures time { StaysAt self.old self.new }
        ensures stands { Goes self.old.side self.new.side }
    {
        if let Some(client) = self.places.get_mut(place) {
            client.leave();
        }
    }

    /// Bytes of a client; how many of them were used: none while its answers wait, and at most 8 frames. The rest is to be
    /// given again. What the frames asked to be written is told until the next call.
    pub fn from_client(&mut self, place: usize, bytes: &[u8], now: u64) -> usize
        ensures links { self.new.lines.links ≡ self.old.lines.links }
        ensures lines { self.new.lines ≡ self.old.lines }
        ensures goes { ClientsLeadOn self.old.cycle self.new.cycle }
        ensures held { self.new.held ≡ self.old.held }
        ensures time { TurnsTo now self.old self.new }
        ensures stands { Goes self.old.side self.new.side }
        ensures used { result ≤ length bytes.now }
        ensures takes { (c : Place) → slice_get self.old.places.items place ≡ Some c → (IsDeaf c → ⊥) → ready_of c ≡ [] → 0 < length bytes.now → 0 < result }
        ensures nobody { length self.old.places.items ≤ place → self.new.cycle.writes ≡ [] }
        ensures deaf { DoesAt (λ c d. IsDeaf c → (d ≡ c) × (self.new.cycle.core.value ≡ self.old.cycle.core.value) × (self.new.cycle.writes ≡ [])) self.old.places.items place self.new.places.items }
        ensures hears { DoesAt (λ c d. (IsDeaf c → ⊥) → HearsWrites ⟦<Cycle as Responder>⟧.answers self.new.side.now (record self.old.cycle { may_write = c.may_write; writes = [] })
            c (take result bytes.now) self.new.cycle d self.new.cycle.writes) self.old.places.items place self.new.places.items }
    {
        self.side.turn_to(now);
        let now = self.side.now;
        match self.places.get_mut(place) {
            Some(client) => {
                self.cycle.turn_to(client.may_write());
                client.take(&mut self.cycle, bytes, now)
            }
            None => {
                self.cycle.turn_to(false);
                bytes.len()
            }
        }
    }

    /// What clients wrote in the last call of [`from_client`](Service::from_client): each of its frames that was answered and asks
    /// for a write, in order, with what became of it.
    pub fn client_writes(&self) -> &[ClientWrite]
        ensures { result.now ≡ self.now.cycle.writes }
    {
        self.cycle.writes()
    }

    /// How many frames of the client at the place were answered; 0 where nobody was there yet.
    pub fn client_requests(&self, place: usize) -> u64
        ensures { (c : Place) → slice_get self.now.places.items place ≡ Some c → result ≡ c.requests }
    {
        match self.places.get(place) {
            Some(client) => client.requests(),
            None => 0,
        }
    }

    /// What is to be written to a client.
    pub fn to_client(&self, place: usize) -> &[u8]
        ensures { (c : Place) → slice_get self.now.places.items place ≡ Some c → result.now ≡ ready_of c }
    {
        match self.places.get(place) {
            Some(client) => client.out(),
            None => &[],
        }
    }

    /// So many bytes are written to a client.
    pub fn sent_to_client(&mut self, place: usize, n: usize)
        ensures links { self.new.lines.links ≡ self.old.lines.links }
        ensures lines { self.new.lines ≡ self.old.lines }
        ensures core { self.new.cycle.core.value ≡ self.old.cycle.core.value }
        ensures sends { DoesAt (λ c d. Sends c n d) self.old.places.items place self.new.places.items }
        ensures held { self.new.held ≡ self.old.held }
        ensures time { StaysAt self.old self.new }
        ensures stands { Goes self.old.side self.new.side }
    {
        if let Some(client) = self.places.get_mut(place) {
            client.sent(n);
        }
    }

    /// Whether a client's connection is to be closed: it was silent, or its stream is over and all answers are written.
    pub fn wants_close(&self, place: usize) -> bool
        ensures { (c : Place) → slice_get self.now.places.items place ≡ Some c → (IsTrue result ↔ IsDone c) }
    {
        match self.places.get(place) {
            Some(client) => client.wants_close(),
            None => true,
        }
    }
}
