//! Why a text defines no model.
ghost use Rattle.std.specs.Prelude.{◌≡◌};

use std::alloc::{AllocError, AllocFailed};
use std::fmt;
use thiserror::Error;

/// Why a text is no model definition. The rules are looked at in this order: the text is JSON; the keys of
/// the model; its id; groups that repeat; point by point its keys, its type and access, its size, its name;
/// then of the points together the header, the length, the scale factors.
#[derive(Clone, Copy, PartialEq, Eq, Debug, Error)]
pub enum DefFault {
    /// No JSON, or not UTF-8.
    NotJson,
    /// A key is missing or of another JSON kind.
    MissingKey,
    /// A type or an access word that isn't known, or an id outside 1..65534.
    BadType,
    /// A size that isn't the kind's, or a string without registers.
    BadSize,
    /// Two points of one name.
    DuplicateName,
    /// A scale factor that names no point of kind sunssf, or a number outside -10..10.
    BadScalePoint,
    /// The group has groups of its own.
    Repeating,
    /// More than 123 registers after ID and L.
    TooLong,
    /// The first two points aren't ID and L, both uint16.
    BadHeader,
    /// Memory for the tree or the definition was refused.
    OutOfMemory,
}

impl fmt::Display for DefFault {
    fn fmt<W: fmt::Write>(&self, f: &mut fmt::Formatter<W>) -> fmt::Result {
        f.write_str(self.word())
    }
}

impl DefFault {
    ghost use Rattle.model_defs.specs.Fault.{fault_word};

    /// The word by which the fault is printed.
    pub fn word(self) -> &'static str
        ensures { result.now ≡ fault_word self }
    {
        match self {
            DefFault::NotJson => "NotJson",
            DefFault::MissingKey => "MissingKey",
            DefFault::BadType => "BadType",
            DefFault::BadSize => "BadSize",
            DefFault::DuplicateName => "DuplicateName",
            DefFault::BadScalePoint => "BadScalePoint",
            DefFault::Repeating => "Repeating",
            DefFault::TooLong => "TooLong",
            DefFault::BadHeader => "BadHeader",
            DefFault::OutOfMemory => "OutOfMemory",
        }
    }
}

impl From<AllocError> for DefFault {
    ghost use Rattle.model_defs.specs.declared.fault.DefFault.TheVariants.{OutOfMemory};

    ghost from_gives = { λ _ e. e ≡ OutOfMemory };

    fn from(_refused: AllocError) -> DefFault {
        DefFault::OutOfMemory
    }
}

impl<T: Drop> From<AllocFailed<T>> for DefFault {
    ghost use Rattle.model_defs.specs.declared.fault.DefFault.TheVariants.{OutOfMemory};

    ghost from_gives = { λ _ e. e ≡ OutOfMemory };

    fn from(_refused: AllocFailed<T>) -> DefFault {
        DefFault::OutOfMemory
    }
}
