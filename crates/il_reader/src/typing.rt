//! Names and types as a declaration gives them.
ghost use Rattle.std.specs.Prelude.{◌≡◌, IsTrue};
ghost use Rattle.point_types.specs.Value.{is_ranged};

use crate::tree::Variable;
use point_types::{IlType, Name, Var};

/// A name of a declaration, and its line.
#[derive(Clone, Copy)]
pub struct Entry {
    pub line: u32,
    pub name: Name,
}

/// What a declaration says of its names: the type, the range and the start value, which lies in it.
#[derive(Clone, Copy)]
pub struct Typing {
    pub kind: IlType,
    pub low: i64,
    pub high: i64,
    pub start: i64,
    pub ghost ranged: { IsTrue (is_ranged kind low high start) },
}

impl Typing {
    ghost use Rattle.std.specs.Prelude.{◌≡◌};
    ghost use Rattle.il_reader.specs.Declaration.{begun, bounded, started, typing_of, variable_of, whole};

    /// A type without a subrange; it starts with 0.
    pub fn whole(kind: IlType) -> Option<Typing>
        ensures { result ≡ whole kind }
    {
        Typing::new(kind, kind.low(), kind.high(), 0)
    }

    /// A subrange of which the low end is known; none where that isn't a number of the type.
    pub fn begun(kind: IlType, low: i64) -> Option<Typing>
        ensures { result ≡ begun kind low }
    {
        Typing::new(kind, low, kind.high(), low)
    }

    /// The subrange with its high end; none where that isn't a number of the type, or is below the low
    /// end.
    pub(crate) fn bounded(&self, high: i64) -> Option<Typing>
        ensures { result ≡ bounded self.now high }
    {
        Typing::new(self.kind, self.low, high, self.low)
    }

    /// The range with a start value; none where that lies outside it.
    pub(crate) fn started(&self, start: i64) -> Option<Typing>
        ensures { result ≡ started self.now start }
    {
        Typing::new(self.kind, self.low, self.high, start)
    }

    // A type with a range and a start value; none where the range isn't in the type, or the value not
    // in the range.
    fn new(kind: IlType, low: i64, high: i64, start: i64) -> Option<Typing>
        ensures { result ≡ typing_of kind low high start }
    {
        if kind.low() <= low && low <= start && start <= high && high <= kind.high() {
            Some(Typing {
                kind,
                low,
                high,
                start,
            })
        } else {
            None
        }
    }

    /// The variable of a name.
    pub fn variable(&self, entry: Entry) -> Variable
        ensures { result ≡ variable_of self.now entry }
    {
        Variable {
            line: entry.line,
            var: Var {
                name: entry.name,
                kind: self.kind,
                low: self.low,
                high: self.high,
                start: self.start,
            },
        }
    }
}
