//! Why a command refuses, in words: a [`RefusalNote`] of what the crate `commands` hands on, with the place in a file and what
//! is known there, and the [`Notes`] that print it on standard error.
#![tactic(auto)]

mod explained;
mod file_causes;
mod file_fault;
mod input_cause;
mod listen_fault;
mod notes;
mod program_causes;
mod refusal_note;
mod texts;
mod trap_cause;
mod verdict_cause;

pub use file_fault::FileFault;
pub use listen_fault::ListenFault;
pub use note_text::escaped;
pub use notes::{Notes, explain_program, explain_unserved, explain_unusable};
pub use refusal_note::{NotedFile, RefusalNote};
pub use texts::unwritten_help;
