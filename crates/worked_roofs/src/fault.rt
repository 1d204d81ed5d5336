//! Why a text of cases can't be played.
use std::alloc::{AllocError, AllocFailed};
use std::{fmt, io};

/// What is wrong with a line, or failed.
#[derive(Clone, Copy)]
pub(crate) enum RoofFault {
    /// It is no line of a case, or not one that may stand there.
    Line,
    /// The case is no site that can be served.
    Site,
    Memory,
    Io,
}

/// What a line, or a case, comes to.
pub(crate) type Played<T> = Result<T, RoofFault>;

impl RoofFault {
    fn meaning(self) -> &'static str {
        match self {
            RoofFault::Line => "no line that may stand here",
            RoofFault::Site => "no site that can be served",
            RoofFault::Memory => "no memory",
            RoofFault::Io => "a stream can't be used",
        }
    }
}

impl fmt::Display for RoofFault {
    fn fmt<W: fmt::Write>(&self, f: &mut fmt::Formatter<W>) -> fmt::Result {
        f.write_str(self.meaning())
    }
}

impl From<AllocError> for RoofFault {
    fn from(_error: AllocError) -> RoofFault {
        RoofFault::Memory
    }
}

impl<T: Drop> From<AllocFailed<T>> for RoofFault {
    fn from(_error: AllocFailed<T>) -> RoofFault {
        RoofFault::Memory
    }
}

impl From<io::Error> for RoofFault {
    fn from(_error: io::Error) -> RoofFault {
        RoofFault::Io
    }
}
