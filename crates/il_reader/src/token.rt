//! Tokens, and what keywords stand for.
use point_types::{Condition, IlType, Name, Operator};

/// A word with a meaning of its own (IEC 61131-3 edition 2, 2.1.3 and 3.2).
#[derive(Clone, Copy)]
pub enum Keyword {
    Program,
    EndProgram,
    Var,
    VarExternal,
    EndVar,
    Truth(bool),
    Type(IlType),
    /// LD, or LDN where negated.
    Load(bool),
    /// ST, or STN where negated.
    Store(bool),
    /// S (true) or R (false).
    Set(bool),
    Jump(Condition),
    Return(Condition),
    /// An operator of two operands, MIN and MAX among them; negated: ANDN, ORN, XORN.
    Apply(Operator, bool),
    Limit,
    Select,
    Not,
    Absolute,
    /// A conversion, as INT_TO_DINT.
    Convert(IlType, IlType),
}

/// The smallest parts of a text: words, literals and marks.
#[derive(Clone, Copy)]
pub enum Token {
    Keyword(Keyword),
    Name(Name),
    /// A decimal without a sign.
    Decimal(i64),
    /// A number with a sign or a base.
    Number(i64),
    /// A number after its type, as INT#5.
    Typed(IlType, i64),
    Colon,
    Assign,
    Comma,
    Semicolon,
    Dots,
    Open,
    Close,
    OpenBrace,
    CloseBrace,
    LineEnd,
}
