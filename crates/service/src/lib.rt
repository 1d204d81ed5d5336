//! What a service of a gateway does, as a whole: bytes of connections and the time are handed in, and bytes, wishes and
//! notes are taken out. It knows of no socket and no clock.
#![tactic(auto)]

mod adopting;
mod answers;
mod asking;
mod client_frames;
mod client_side;
mod client_writes;
mod companions;
mod comparing;
mod connections;
mod construction;
mod counts;
mod cycle;
mod device_side;
mod held_back;
mod held_writes;
mod identities;
mod last_scan;
mod last_told;
pub mod laws;
mod link_pace;
mod notice;
mod notices;
mod output;
mod own_words;
mod pacing;
mod polled_device;
mod read_back;
mod refusals;
mod replies;
mod restoring;
mod round;
mod round_times;
mod service_state;
mod status;
mod steps;
mod wakes;
mod wish;
mod wishes;

// a service, and what is asked of it
pub use service_parts::{Limits, Station};
pub use service_requests::Identity;
pub use service_state::Service;
// what it tells
pub use client_writes::{ClientWrite, WriteOutcome};
pub use notice::{Loss, Notice, Unwritten};
// how it stands
pub use counts::Counts;
pub use held_writes::HeldWrite;
pub use output::OutputState;
pub use read_back::{Difference, Registers};
pub use refusals::ReadRefusal;
pub use replies::Replies;
pub use status::DeviceStatus;
