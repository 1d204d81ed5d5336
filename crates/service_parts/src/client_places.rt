//! The places of all clients.
ghost use Rattle.std.specs.Prelude.{◌≡◌, ◌<◌, length, map, IfSome};
ghost use Rattle.std.specs.List.{position};
ghost use Rattle.service_parts.specs.Places.{closed_if_idle, given_place, is_free, is_silent};

use crate::client_place::ClientPlace;

/// Clients of whom nothing was heard for so long are to be closed.
pub fn close_idle(places: &mut [ClientPlace], now: u64, idle: u64)
    ensures { places.new ≡ map (closed_if_idle now idle) places.old }
{
    for client in places.iter_mut() {
        client.close_if_idle(now, idle);
    }
}

/// The place of a client that comes: the first one where nobody is, else the first one whose client was silent.
pub fn place_for(places: &[ClientPlace], now: u64) -> Option<usize>
    ensures place { result ≡ given_place now places.now }
    ensures inside { IfSome result (λ i. i < length places.now) }
{
    match free_place(places) {
        Some(place) => Some(place),
        None => silent_place(places, now),
    }
}

fn free_place(places: &[ClientPlace]) -> Option<usize>
    ensures place { result ≡ position is_free places.now }
    ensures inside { IfSome result (λ i. i < length places.now) }
{
    places.iter().position(|client| client.is_free())
}

fn silent_place(places: &[ClientPlace], now: u64) -> Option<usize>
    ensures place { result ≡ position (is_silent now) places.now }
    ensures inside { IfSome result (λ i. i < length places.now) }
{
    places.iter().position(|client| client.is_silent(now))
}
