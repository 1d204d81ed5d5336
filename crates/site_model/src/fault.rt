//! Why a text is no site.
ghost use Rattle.std.specs.Prelude.{◌≡◌};

use std::alloc::{AllocError, AllocFailed};
use std::fmt;
use thiserror::Error;

/// Why a text is no site file. The rules are looked at in this order: the text is TOML; no list is too long; then the
/// gateway, the devices, the tags and what is served, entry by entry, and within an entry as the faults are listed.
#[derive(Clone, Copy, PartialEq, Eq, Debug, Error)]
pub enum SiteFault {
    /// No TOML.
    NotToml,
    /// A key is missing or of another kind.
    MissingKey,
    /// No device has this name.
    UnknownDevice,
    /// No definition has this ID, or it isn't among the gateway's models.
    UnknownModel,
    /// The model has no point of this name.
    UnknownPoint,
    /// An `out` or `set` tag on a point that can't be written.
    NotWritable,
    /// A number outside its range: an exponent, low, high, default, bit, unit, base or write function, the gateway's
    /// models (1 isn't first, or one is there twice), its map past 65535, a value that can't be encoded, a text too long.
    BadRange,
    /// A word that isn't allowed where it stands, a point of a kind that isn't, or keys that don't go together.
    BadType,
    /// A name, a unit, or a point that is used already.
    Duplicate,
    /// More than 16 gateway models, 64 devices, 1,024 tags or 256 served entries.
    TooMany,
    /// Memory for the tree or the site was refused.
    OutOfMemory,
}

impl fmt::Display for SiteFault {
    fn fmt<W: fmt::Write>(&self, f: &mut fmt::Formatter<W>) -> fmt::Result {
        f.write_str(self.word())
    }
}

impl SiteFault {
    ghost use Rattle.site_model.specs.Fault.{fault_word};

    /// The word by which the fault is printed.
    pub fn word(self) -> &'static str
        ensures { result.now ≡ fault_word self }
    {
        match self {
            SiteFault::NotToml => "NotToml",
            SiteFault::MissingKey => "MissingKey",
            SiteFault::UnknownDevice => "UnknownDevice",
            SiteFault::UnknownModel => "UnknownModel",
            SiteFault::UnknownPoint => "UnknownPoint",
            SiteFault::NotWritable => "NotWritable",
            SiteFault::BadRange => "BadRange",
            SiteFault::BadType => "BadType",
            SiteFault::Duplicate => "Duplicate",
            SiteFault::TooMany => "TooMany",
            SiteFault::OutOfMemory => "OutOfMemory",
        }
    }
}

impl From<AllocError> for SiteFault {
    ghost use Rattle.site_model.specs.declared.fault.SiteFault.TheVariants.{OutOfMemory};

    ghost from_gives = { λ _ e. e ≡ OutOfMemory };

    fn from(_refused: AllocError) -> SiteFault {
        SiteFault::OutOfMemory
    }
}

impl<T: Drop> From<AllocFailed<T>> for SiteFault {
    ghost use Rattle.site_model.specs.declared.fault.SiteFault.TheVariants.{OutOfMemory};

    ghost from_gives = { λ _ e. e ≡ OutOfMemory };

    fn from(_refused: AllocFailed<T>) -> SiteFault {
        SiteFault::OutOfMemory
    }
}
