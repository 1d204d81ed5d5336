//! Why there is no core for a program and a site.
ghost use Rattle.std.specs.Prelude.{◌≡◌};

use std::alloc::{AllocError, AllocFailed};
use std::fmt;
use thiserror::Error;

/// Why there is no core for a site and a program.
#[derive(Clone, Copy, PartialEq, Eq, Debug, Error)]
pub enum CoreFault {
    /// The program was accepted for tags that the site doesn't have so.
    Foreign = 1,
    /// Memory was refused.
    OutOfMemory,
}

impl fmt::Display for CoreFault {
    fn fmt<W: fmt::Write>(&self, f: &mut fmt::Formatter<W>) -> fmt::Result {
        f.write_str(self.word())
    }
}

impl CoreFault {
    ghost use Rattle.gateway.specs.event_core.Fault.{core_fault_word};

    /// The word by which the fault is printed.
    pub fn word(self) -> &'static str
        ensures { result.now ≡ core_fault_word self }
    {
        match self {
            CoreFault::Foreign => "Foreign",
            CoreFault::OutOfMemory => "OutOfMemory",
        }
    }
}

impl From<AllocError> for CoreFault {
    ghost use Rattle.gateway.specs.declared.event_core.fault.CoreFault.TheVariants.{OutOfMemory};

    ghost from_gives = { λ _ e. e ≡ OutOfMemory };

    fn from(_refused: AllocError) -> CoreFault {
        CoreFault::OutOfMemory
    }
}

impl<T: Drop> From<AllocFailed<T>> for CoreFault {
    ghost use Rattle.gateway.specs.declared.event_core.fault.CoreFault.TheVariants.{OutOfMemory};

    ghost from_gives = { λ _ e. e ≡ OutOfMemory };

    fn from(_refused: AllocFailed<T>) -> CoreFault {
        CoreFault::OutOfMemory
    }
}
