//! What a service of a gateway is made of beside its core, each part with its own promise: what goes out over the links to
//! devices, connections, and the places of clients. None knows of a socket or a clock.
#![tactic(auto)]

mod answering;
mod asked;
mod client_place;
mod client_places;
mod connections;
mod device_connection;
mod limits;
mod standing;
mod stations;
mod times;
mod traffic;

// what is asked of a service
pub use limits::{Limits, Station};
// the links to devices
pub use answering::is_answer;
pub use asked::{Aim, Asked, first_register, words_of};
pub use connections::Connections;
pub use device_connection::Intake;
// clients
pub use client_place::ClientPlace;
pub use client_places::{close_idle, place_for};
// times
pub use times::{longer, sooner};
