//! Why bytes are no image.
use std::alloc::{AllocError, AllocFailed};
use std::fmt;
use thiserror::Error;

/// Why bytes are no image, by number from 1 on; of several the one that is met first from left to right.
#[derive(Clone, Copy, PartialEq, Eq, Debug, Error)]
pub enum ImageFault {
    /// One of the first four bytes is there and isn't that of `ILSC`.
    Mark,
    /// A version other than 1 and 2.
    Version,
    /// The bytes end too soon.
    Cut,
    /// Bytes after the code.
    Rest,
    /// A count of over 1,024 variables or tags, a name that isn't one in lower case or comes twice, a type
    /// over 7, a direction over 1, or a range or a start value outside its bounds.
    Field,
    OutOfMemory,
}

impl fmt::Display for ImageFault {
    fn fmt<W: fmt::Write>(&self, f: &mut fmt::Formatter<W>) -> fmt::Result {
        f.write_str(self.word())
    }
}

impl ImageFault {
    ghost use Rattle.std.specs.Prelude.{◌≡◌};
    ghost use Rattle.scan_code.specs.ImageWord.{word_of};

    /// The word that stands for the fault in printed lines.
    pub fn word(self) -> &'static str
        ensures { result.now ≡ word_of self }
    {
        match self {
            ImageFault::Mark => "Mark",
            ImageFault::Version => "Version",
            ImageFault::Cut => "Cut",
            ImageFault::Rest => "Rest",
            ImageFault::Field => "Field",
            ImageFault::OutOfMemory => "OutOfMemory",
        }
    }
}

impl From<AllocError> for ImageFault {
    ghost use Rattle.std.specs.Prelude.{◌≡◌};
    ghost use Rattle.scan_code.specs.ImageWord.{out_of_memory};

    ghost from_gives = { λ _ fault. fault ≡ out_of_memory };

    fn from(_error: AllocError) -> ImageFault {
        ImageFault::OutOfMemory
    }
}

impl<T: Drop> From<AllocFailed<T>> for ImageFault {
    ghost use Rattle.std.specs.Prelude.{◌≡◌};
    ghost use Rattle.scan_code.specs.ImageWord.{out_of_memory};

    ghost from_gives = { λ _ fault. fault ≡ out_of_memory };

    fn from(_error: AllocFailed<T>) -> ImageFault {
        ImageFault::OutOfMemory
    }
}
