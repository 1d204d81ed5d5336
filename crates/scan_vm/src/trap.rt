//! Why a trial scan stopped.
use std::fmt;
use thiserror::Error;

/// Why a scan stopped, by the first of these that holds of an instruction: Code, Stack, Type,
/// ZeroDivisor, Overflow, MissingPoint, StoreRange.
#[derive(Clone, Copy, PartialEq, Eq, Debug, Error)]
pub enum TrapKind {
    /// No result where one is wanted, or a value of a wrong or another type.
    WrongType,
    /// A number outside its type.
    Overflow,
    /// DIV or MOD by 0.
    ZeroDivisor,
    /// A load of an input without a value.
    MissingPoint,
    /// No instruction at the address, a variable or a tag past its table or of the other direction,
    /// or a jump in the wrong direction.
    Code,
    /// No deferred value where one is wanted, or 128 of them where one more is deferred.
    Stack,
    /// A store outside the variable's declared range.
    StoreRange,
}

impl fmt::Display for TrapKind {
    fn fmt<W: fmt::Write>(&self, f: &mut fmt::Formatter<W>) -> fmt::Result {
        f.write_str(self.word())
    }
}

impl TrapKind {
    ghost use Rattle.std.specs.Prelude.{◌≡◌};
    ghost use Rattle.scan_vm.specs.Trap.{word_of};

    /// The kind as it is printed.
    pub fn word(self) -> &'static str
        ensures { result.now ≡ word_of self }
    {
        match self {
            TrapKind::WrongType => "Type",
            TrapKind::Overflow => "Overflow",
            TrapKind::ZeroDivisor => "ZeroDivisor",
            TrapKind::MissingPoint => "MissingPoint",
            TrapKind::Code => "Code",
            TrapKind::Stack => "Stack",
            TrapKind::StoreRange => "StoreRange",
        }
    }
}

/// A scan that stopped: why, and how many instructions it had begun before the one that stopped it.
#[derive(Clone, Copy, PartialEq, Eq, Debug, Error)]
#[error("{kind} at {at}")]
pub struct Trap {
    pub at: u32,
    pub kind: TrapKind,
}
