//! The operators of the language.

/// An Instruction List operator of two operands, the result and one more (IEC 61131-3 edition 2, 3.2.2).
#[derive(Clone, Copy, PartialEq, Eq, Debug)]
pub enum Operator {
    And,
    Or,
    Xor,
    Add,
    Sub,
    Mul,
    Div,
    Mod,
    Gt,
    Ge,
    Eq,
    Ne,
    Le,
    Lt,
    Min,
    Max,
}

/// When a jump or a return acts: always, where the result is TRUE (C), where it is FALSE (CN).
#[derive(Clone, Copy, PartialEq, Eq, Debug)]
pub enum Condition {
    Always,
    IfTrue,
    IfFalse,
}
