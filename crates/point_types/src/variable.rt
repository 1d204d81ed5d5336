//! A declared variable.
ghost use Rattle.std.specs.Prelude.{IsTrue};
ghost use Rattle.point_types.specs.Value.{is_ranged};

use crate::il_type::IlType;
use crate::name::Name;

/// A variable of a program: its name, its type, its declared range, and its value before the first
/// scan, which lies in that range (IEC 61131-3 edition 2, 2.4.3). BOOL counts FALSE as 0, TRUE as 1.
#[derive(Clone, Copy, PartialEq, Eq, Debug)]
pub struct Var {
    pub name: Name,
    pub kind: IlType,
    pub low: i64,
    pub high: i64,
    pub start: i64,
    pub ghost ranged: { IsTrue (is_ranged kind low high start) },
}
