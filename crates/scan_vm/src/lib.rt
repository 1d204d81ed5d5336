//! The machine that runs a scan of bytecode and tests each step.
#![tactic(auto)]

mod arithmetic;
mod deferred;
mod deferred_words;
mod execution;
mod inputs;
pub mod laws;
mod machine;
mod operators;
mod registers;
mod resuming;
mod trap;
mod trial;
mod value;
mod word_machine;

// a scan of any program, with each step tested
pub use trap::{Trap, TrapKind};
pub use trial::{Scan, Trial};
// the scans of an accepted one
pub use machine::Machine;
pub use resuming::may_begin;
