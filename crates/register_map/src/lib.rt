//! Finds the map of a SunSpec device in its Modbus registers: where each information model lies.
//!
//! [`discover`] reads a device through [`Registers`], [`chain`] reads a list of words. Both give a [`Map`] of [`Block`]s.
#![tactic(auto)]

mod access;
mod discovery;
pub mod laws;
mod layout;
mod memory;
mod words;

// the search for a map, over registers or over a list of words
pub use discovery::{chain, discover};
pub use layout::{Block, MOST_MODELS, Map, MapFault};
// registers that can be read, and those of a test
pub use access::{ReadFault, Registers};
pub use memory::{MemRegisters, PlannedFault};
