//! Why a text is no plant.
ghost use Rattle.std.specs.Prelude.{◌≡◌};

use std::alloc::{AllocError, AllocFailed};
use std::fmt;
use thiserror::Error;

/// Why a text is no plant file.
#[derive(Clone, Copy, PartialEq, Eq, Debug, Error)]
pub enum PlantFault {
    /// No TOML.
    NotToml,
    /// A key is missing or of another kind.
    MissingKey,
    /// A model that has no definition, or a value's model that isn't its device's.
    UnknownModel,
    /// A value's point that its model doesn't have.
    UnknownPoint,
    /// A number outside its limits, no watts, models that don't begin with 1, a map past the last register, or a value
    /// for a string, for ID or for L.
    BadRange,
    /// A unit, a model or a point twice, or two faults of one request.
    Duplicate,
    /// More entries than a plant has.
    TooMany,
    /// Memory for the tree or the plant was refused.
    OutOfMemory,
}

impl fmt::Display for PlantFault {
    fn fmt<W: fmt::Write>(&self, f: &mut fmt::Formatter<W>) -> fmt::Result {
        f.write_str(self.word())
    }
}

impl PlantFault {
    ghost use Rattle.inverter_sim.specs.Fault.{fault_word};

    /// The word by which the fault is printed.
    pub fn word(self) -> &'static str
        ensures { result.now ≡ fault_word self }
    {
        match self {
            PlantFault::NotToml => "NotToml",
            PlantFault::MissingKey => "MissingKey",
            PlantFault::UnknownModel => "UnknownModel",
            PlantFault::UnknownPoint => "UnknownPoint",
            PlantFault::BadRange => "BadRange",
            PlantFault::Duplicate => "Duplicate",
            PlantFault::TooMany => "TooMany",
            PlantFault::OutOfMemory => "OutOfMemory",
        }
    }
}

impl From<AllocError> for PlantFault {
    ghost use Rattle.inverter_sim.specs.declared.fault.PlantFault.TheVariants.{OutOfMemory};

    ghost from_gives = { λ _ e. e ≡ OutOfMemory };

    fn from(_refused: AllocError) -> PlantFault {
        PlantFault::OutOfMemory
    }
}

impl<T: Drop> From<AllocFailed<T>> for PlantFault {
    ghost use Rattle.inverter_sim.specs.declared.fault.PlantFault.TheVariants.{OutOfMemory};

    ghost from_gives = { λ _ e. e ≡ OutOfMemory };

    fn from(_refused: AllocFailed<T>) -> PlantFault {
        PlantFault::OutOfMemory
    }
}
