//! Why a program is refused.
ghost use Rattle.std.specs.Prelude.{◌≡◌};

use std::alloc::{AllocError, AllocFailed};
use std::fmt;
use thiserror::Error;

/// Why a program is refused.
#[derive(Clone, Copy, PartialEq, Eq, Debug, Error)]
pub enum RefusalKind {
    /// The code doesn't decode, or an instruction names what isn't there or has another direction, or
    /// the last instruction isn't END.
    Code,
    /// A jump that leads to no later instruction, or a counted one that leads to no earlier one.
    Jump,
    /// A value of another type than is wanted.
    WrongType,
    /// A number that may leave its type.
    Overflow,
    /// A divisor that may be 0.
    ZeroDivisor,
    /// A load of an input that may have no value.
    MayBeMissing,
    /// No deferred value where one is wanted, too many of them, or different numbers of them where
    /// ways meet.
    Stack,
    /// A store that may leave the range of the variable or the tag.
    StoreRange,
    /// The site has no tag of this name.
    TagUnknown,
    /// The site's tag has another type.
    TagType,
    /// The site's tag may not be loaded, or not be stored.
    TagAccess,
    /// No result where one is wanted.
    NoResult,
    /// No memory was left for the judgement.
    OutOfMemory,
    /// A scan may take more than 1,000,000 instructions.
    OverBudget,
}

impl fmt::Display for RefusalKind {
    fn fmt<W: fmt::Write>(&self, f: &mut fmt::Formatter<W>) -> fmt::Result {
        f.write_str(self.word())
    }
}

impl RefusalKind {
    ghost use Rattle.facts.specs.Word.{word_of};

    /// The kind as it is printed.
    pub fn word(self) -> &'static str
        ensures { result.now ≡ word_of self }
    {
        match self {
            RefusalKind::Code => "Code",
            RefusalKind::Jump => "Jump",
            RefusalKind::WrongType => "Type",
            RefusalKind::Overflow => "Overflow",
            RefusalKind::ZeroDivisor => "ZeroDivisor",
            RefusalKind::MayBeMissing => "MayBeMissing",
            RefusalKind::Stack => "Stack",
            RefusalKind::StoreRange => "StoreRange",
            RefusalKind::TagUnknown => "TagUnknown",
            RefusalKind::TagType => "TagType",
            RefusalKind::TagAccess => "TagAccess",
            RefusalKind::NoResult => "NoResult",
            RefusalKind::OutOfMemory => "OutOfMemory",
            RefusalKind::OverBudget => "OverBudget",
        }
    }
}

/// What of a program is refused.
#[derive(Clone, Copy, PartialEq, Eq, Debug)]
pub enum RefusedAt {
    /// The instruction of this number, counted from 0.
    Instruction(usize),
    /// The image's tag of this number, counted from 0: TagUnknown, TagType and TagAccess.
    Tag(usize),
    /// The whole program: OverBudget and OutOfMemory.
    Program,
}

impl RefusedAt {
    ghost use Rattle.facts.specs.Word.{number_of};

    /// The number that is printed: that of the instruction or of the tag, 0 for the program.
    pub fn number(self) -> usize
        ensures { result ≡ number_of self }
    {
        match self {
            RefusedAt::Instruction(number) => number,
            RefusedAt::Tag(number) => number,
            RefusedAt::Program => 0,
        }
    }
}

impl fmt::Display for RefusedAt {
    fn fmt<W: fmt::Write>(&self, f: &mut fmt::Formatter<W>) -> fmt::Result {
        fmt::Display::fmt(&self.number(), f)
    }
}

/// Why a program is refused, and what of it.
#[derive(Clone, Copy, PartialEq, Eq, Debug, Error)]
#[error("{kind} at {at}")]
pub struct Refusal {
    pub at: RefusedAt,
    pub kind: RefusalKind,
}

impl From<AllocError> for Refusal {
    ghost use Rattle.std.specs.Prelude.{◌≡◌};
    ghost use Rattle.facts.specs.Word.{out_of_memory};

    ghost from_gives = { λ _ refusal. refusal ≡ out_of_memory };

    fn from(_error: AllocError) -> Refusal {
        Refusal {
            at: RefusedAt::Program,
            kind: RefusalKind::OutOfMemory,
        }
    }
}

impl<T: Drop> From<AllocFailed<T>> for Refusal {
    ghost use Rattle.std.specs.Prelude.{◌≡◌};
    ghost use Rattle.facts.specs.Word.{out_of_memory};

    ghost from_gives = { λ _ refusal. refusal ≡ out_of_memory };

    fn from(_error: AllocFailed<T>) -> Refusal {
        Refusal {
            at: RefusedAt::Program,
            kind: RefusalKind::OutOfMemory,
        }
    }
}
