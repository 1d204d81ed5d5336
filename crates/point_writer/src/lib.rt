//! What sets a tag of a device: the registers that are written, and their words.
#![tactic(auto)]

mod fitting;
mod going;
pub mod laws;
mod nearest;
mod place;
pub mod plan;
mod scale;
mod write;

pub use fitting::number_out;
pub use scale::factor;
pub use write::{NoWrite, Write};
