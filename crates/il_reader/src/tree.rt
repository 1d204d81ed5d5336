//! A program as a tree.
use crate::computation::Computation;
use point_types::{Condition, IlType, Items, Name, Operator, Var};

/// A program as its text has it (IEC 61131-3 edition 2, 2.5.3 and 3.2). Lines are counted from 1.
#[derive(Debug)]
pub struct Program {
    pub name: Name,
    /// The variables of all VAR blocks, in the order of the text.
    pub variables: Items<Variable>,
    /// The tags of all VAR_EXTERNAL blocks, in the order of the text.
    pub externals: Items<External>,
    /// The lines of the body that hold a label or an instruction, in the order of the text.
    pub statements: Items<Statement>,
    /// The line of END_PROGRAM.
    pub end_line: u32,
}

/// A call for whoever drops one: the proofs of the functions that own one needn't take it apart.
impl Drop for Program {
    fn drop(self) {
        let Program {
            name: _,
            variables: _,
            externals: _,
            statements: _,
            end_line: _,
        } = self;
    }
}

/// A declared variable, and the line of its name.
#[derive(Clone, Copy, PartialEq, Eq, Debug)]
pub struct Variable {
    pub line: u32,
    pub var: Var,
}

/// A tag that the program names, and the line of its name.
#[derive(Clone, Copy, PartialEq, Eq, Debug)]
pub struct External {
    pub line: u32,
    pub name: Name,
    pub kind: IlType,
}

/// A line of the body: the line of its first token, its label, and its instruction.
#[derive(Drop, Debug)]
pub struct Statement {
    pub line: u32,
    pub label: Option<Name>,
    pub action: Option<Action>,
}

/// What a line of the body does.
#[derive(Drop, Debug)]
pub enum Action {
    Compute(Computation),
    /// ST, or STN where negated.
    Store {
        negated: bool,
        name: Name,
    },
    /// S where the value is TRUE, R where it is FALSE.
    Set {
        value: bool,
        name: Name,
    },
    /// A jump to a label; a counted one is taken at most `turns` times in a scan.
    Jump {
        condition: Condition,
        label: Name,
        turns: Option<u8>,
    },
    Return(Condition),
}

/// An instruction that works on the current result alone.
#[derive(Drop, Debug)]
#[cycle(simple)]
pub enum Simple {
    /// LD, or LDN where negated.
    Load {
        negated: bool,
        operand: Operand,
    },
    /// An operator with its operand, which N negates.
    Apply {
        operator: Operator,
        negated: bool,
        operand: Operand,
    },
    /// An operator whose operand is what the lines in parentheses give.
    Defer {
        operator: Operator,
        negated: bool,
        operand: Option<Operand>,
        inner: Vec<InnerLine>,
    },
    /// LIMIT: an input and the greatest value; the least is the result.
    Limit {
        input: Operand,
        most: Operand,
    },
    /// SEL: what it gives where the result is FALSE, and where it is TRUE.
    Select {
        if_false: Operand,
        if_true: Operand,
    },
    Invert,
    Absolute,
    Convert {
        from: IlType,
        to: IlType,
    },
}

/// A line inside parentheses.
#[derive(Drop, Debug)]
#[cycle(simple)]
pub struct InnerLine {
    pub line: u32,
    pub simple: Simple,
}

/// The operand of an instruction: a name, or a literal, which has a type of its own or takes one.
#[derive(Clone, Copy, PartialEq, Eq, Debug)]
pub enum Operand {
    Named(Name),
    Truth(bool),
    Number(i64),
    Typed(IlType, i64),
}
