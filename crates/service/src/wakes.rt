//! When something is to be done next.
ghost use Rattle.std.specs.Prelude.{◌≡◌, ◌⊎◌, ◌≤◌, ◌&&◌, not, true, ℕ, Some, slice_get};
ghost use Rattle.service_parts.specs.declared.client_place.ClientPlace.{ClientPlace as Place};
ghost use Rattle.service_parts.specs.declared.device_connection.DeviceConnection.{DeviceConnection as LineValue};
ghost use Rattle.service_parts.specs.Backing.{after};
ghost use Rattle.service_parts.specs.Waking.{due_at};
ghost use Rattle.service.specs.Waking.{IsCloseOf, IsWake};

use crate::service_state::Service;
use service_parts::ClientPlace;

impl Service {
    /// When a tick is wanted: the program is to run, a wait or a dial ends, a dial is due, a device may be asked again, or a client
    /// was silent for long. A time that is over asks for something at once: a connection is to be made, or to be closed.
    pub fn wakes_at(&self) -> u64
        ensures one { IsWake self.now result }
        ensures scan { result ≤ self.now.side.next_scan }
        ensures links { (link : ℕ) (line : LineValue) → slice_get self.now.lines.lines.items link ≡ Some line → result ≤ due_at line }
        ensures clients { (place : ℕ) (c : Place) → slice_get self.now.places.items place ≡ Some c → (c.is_taken && not c.is_closing) ≡ true → result ≤ after c.last self.now.side.limits.idle }
    {
        let at = self.lines.wakes_at(self.side.next_scan);
        wakes_for_clients(&self.places, self.side.limits.idle, at)
    }
}

fn wakes_for_clients(places: &[ClientPlace], idle: u64, at: u64) -> u64
    ensures most { result ≤ at }
    ensures one { (result ≡ at) ⊎ IsCloseOf places.now idle result }
    ensures clients { (place : ℕ) (c : Place) → slice_get places.now place ≡ Some c → (c.is_taken && not c.is_closing) ≡ true → result ≤ after c.last idle }
{
    let mut at = at;
    for place in 0..places.len() {
        at = wakes_for(&places[place], idle, at);
    }
    at
}

fn wakes_for(client: &ClientPlace, idle: u64, at: u64) -> u64
    ensures most { result ≤ at }
    ensures one { (result ≡ at) ⊎ (((client.now.is_taken && not client.now.is_closing) ≡ true) × (result ≡ after client.now.last idle)) }
    ensures client { (client.now.is_taken && not client.now.is_closing) ≡ true → result ≤ after client.now.last idle }
{
    if client.is_waited_for() {
        at.min(client.last().saturating_add(idle))
    } else {
        at
    }
}
