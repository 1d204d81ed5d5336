//! Why a file of cases can't be shown.
use std::alloc::{AllocError, AllocFailed};
use std::{fmt, io};

/// What is wrong with a line, or failed there.
#[derive(Clone, Copy)]
pub(crate) enum StepFault {
    /// It is no step, or one that can't be taken here.
    Step,
    Memory,
    Io,
}

/// What a line of a file of cases comes to.
pub(crate) type Shown<T> = Result<T, StepFault>;

impl StepFault {
    fn meaning(self) -> &'static str {
        match self {
            StepFault::Step => "no step that can be taken here",
            StepFault::Memory => "no memory",
            StepFault::Io => "a file can't be used",
        }
    }
}

impl fmt::Display for StepFault {
    fn fmt<W: fmt::Write>(&self, f: &mut fmt::Formatter<W>) -> fmt::Result {
        f.write_str(self.meaning())
    }
}

impl From<AllocError> for StepFault {
    fn from(_error: AllocError) -> StepFault {
        StepFault::Memory
    }
}

impl<T: Drop> From<AllocFailed<T>> for StepFault {
    fn from(_error: AllocFailed<T>) -> StepFault {
        StepFault::Memory
    }
}

impl From<io::Error> for StepFault {
    fn from(_error: io::Error) -> StepFault {
        StepFault::Io
    }
}
