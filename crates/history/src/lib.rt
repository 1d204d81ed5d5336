//! The last hour of a service: of each quantity the least and the greatest number in each ten seconds, and the lines that were
//! told. Memory for it is taken at the start alone.
#![tactic(auto)]

mod asked;
mod bounds;
mod event;
mod event_ring;
mod last_hour;
mod points;
mod quantities;
mod rooms;
mod series;

pub use bounds::Bounds;
pub use event_ring::EventRing;
pub use last_hour::LastHour;
pub use quantities::{Quantities, bytes_of, quantities_in};
pub use series::Series;
