//! An instruction.
use point_types::{Condition, IlType, Operator};

/// One instruction of the bytecode; numbers of variables, of tags and addresses have two bytes.
#[derive(Clone, Copy, PartialEq, Eq, Debug)]
pub enum Op {
    /// The scan ends.
    End,
    /// The result is a variable.
    LoadVariable(u16),
    /// The result is an input.
    LoadInput(u16),
    /// The result says whether an input has a value of its own.
    LoadPresence(u16),
    LoadBool(bool),
    LoadNumber(IlType, i64),
    StoreVariable(u16),
    StoreOutput(u16),
    /// A variable becomes TRUE where the result is TRUE.
    SetVariable(u16),
    /// A variable becomes FALSE where the result is TRUE.
    ResetVariable(u16),
    SetOutput(u16),
    ResetOutput(u16),
    /// The result is deferred.
    Push,
    Not,
    /// The last deferred value, the operator, the result.
    Apply(Operator),
    /// One of the last deferred value and the result, by the deferred value before.
    Select,
    Absolute,
    Convert(IlType, IlType),
    /// A jump forward.
    Jump(Condition, u16),
    Return(Condition),
    /// A counted jump: its counter, how often it is taken at most in a scan, its address.
    Repeat(Condition, u8, u8, u16),
}
