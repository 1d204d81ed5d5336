//! What is written for a set point, or why nothing is.
ghost use Rattle.std.specs.Prelude.{◌≡◌};
ghost use Rattle.point_writer.specs.Fault.{no_write_of, no_write_word};

use point_types::Unencodable;
use site_model::Words;
use std::fmt;
use thiserror::Error;

/// Words for registers of a device that lie side by side.
#[derive(Debug, PartialEq, Eq, Drop)]
pub struct Write {
    /// The number of the device.
    pub device: usize,
    /// The address of the first register.
    pub addr: u16,
    /// The words, the most significant register of the point first.
    pub words: Words,
}

/// Why a tag isn't written, by the first cause that holds.
#[derive(Clone, Copy, PartialEq, Eq, Debug, Error)]
pub enum NoWrite {
    /// The program didn't store it.
    NotSet = 1,
    /// Its device has no map, the map hasn't its model, no words of that block are known, or its point or its factor lies
    /// past the map's length or the known words.
    NoBlock,
    /// The scale factor is absent or outside -10..10.
    BadScale,
    /// No raw number is the value by that factor.
    Inexact,
    /// The raw number lies outside the point's kind, or its words would read as absent.
    OutOfType,
    /// A tag that it goes with isn't written.
    With,
}

impl fmt::Display for NoWrite {
    fn fmt<W: fmt::Write>(&self, f: &mut fmt::Formatter<W>) -> fmt::Result {
        f.write_str(self.word())
    }
}

impl NoWrite {
    /// The cause's name, as it is printed.
    pub fn word(self) -> &'static str
        ensures { result.now ≡ no_write_word self }
    {
        match self {
            NoWrite::NotSet => "NotSet",
            NoWrite::NoBlock => "NoBlock",
            NoWrite::BadScale => "BadScale",
            NoWrite::Inexact => "Inexact",
            NoWrite::OutOfType => "OutOfType",
            NoWrite::With => "With",
        }
    }

    /// The cause why a number has no words.
    pub(crate) fn of(fault: Unencodable) -> NoWrite
        ensures { result ≡ no_write_of fault }
    {
        match fault {
            Unencodable::BadScale => NoWrite::BadScale,
            Unencodable::Inexact => NoWrite::Inexact,
            Unencodable::OutOfType => NoWrite::OutOfType,
        }
    }
}
