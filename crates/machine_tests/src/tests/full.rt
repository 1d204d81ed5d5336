//! Facts in full, by an implementation of their own that shares only spans with the verifier's: a span for each variable
//! and each input, and of each input whether it is present. The tests hold both against each other, at each instruction.

mod comparison;
mod fact;
mod flow;
mod jumps;
mod operand;
mod pass;
mod programs;
mod value;

pub(crate) use comparison::first_difference;
pub(crate) use pass::full_pass;
use std::alloc::{AllocError, AllocFailed};
use verifier::refusal::RefusalKind;

/// Why nothing flows on from an instruction: it is refused, or memory was.
#[derive(Clone, Copy)]
pub(crate) enum Stop {
    Refused(RefusalKind),
    Memory,
}

impl From<RefusalKind> for Stop {
    fn from(kind: RefusalKind) -> Stop {
        Stop::Refused(kind)
    }
}

impl From<AllocError> for Stop {
    fn from(_error: AllocError) -> Stop {
        Stop::Memory
    }
}

impl<T: Drop> From<AllocFailed<T>> for Stop {
    fn from(_error: AllocFailed<T>) -> Stop {
        Stop::Memory
    }
}
