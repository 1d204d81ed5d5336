//! What these tests look at in the tree of a program.

use crate::tests::{assert_same, assert_true_at, program_of};
use il_reader::{Action, InnerLine, Operand, Program, Simple, Statement};
use point_types::{Condition, IlType, Operator};
use std::alloc::Global;
use std::process::Abort;

/// An operand that is wanted, or none.
#[derive(Clone, Copy)]
pub(crate) enum Want {
    Nothing,
    Named(&'static str),
    Truth(bool),
    Number(i64),
    Typed(IlType, i64),
}

impl Want {
    /// Whether it is this operand.
    pub(crate) fn is(self, operand: &Option<Operand>) -> bool {
        match self {
            Want::Nothing => operand.is_none(),
            Want::Named(text) => is_named(operand, text),
            Want::Truth(value) => *operand == Some(Operand::Truth(value)),
            Want::Number(number) => *operand == Some(Operand::Number(number)),
            Want::Typed(kind, number) => *operand == Some(Operand::Typed(kind, number)),
        }
    }
}

fn is_named(operand: &Option<Operand>, text: &str) -> bool {
    match operand {
        Some(Operand::Named(name)) => name.as_str() == text,
        _ => false,
    }
}

/// The word of an instruction, and its modifiers. A conversion has the words of its types.
pub(crate) type Spelled = (&'static str, &'static str);

pub(crate) fn spelling(action: &Action) -> Spelled {
    match action {
        Action::Compute(computation) => simple_spelling(computation.as_simple()),
        Action::Store { negated, .. } => ("ST", negation(*negated)),
        Action::Set { value: true, .. } => ("S", ""),
        Action::Set { value: false, .. } => ("R", ""),
        Action::Jump { condition, .. } => ("JMP", when(*condition)),
        Action::Return(condition) => ("RET", when(*condition)),
    }
}

pub(crate) fn simple_spelling(simple: &Simple) -> Spelled {
    match simple {
        Simple::Load { negated, .. } => ("LD", negation(*negated)),
        Simple::Apply {
            operator,
            negated,
            ..
        } => (operator_word(*operator), negation(*negated)),
        Simple::Defer {
            operator,
            negated: false,
            ..
        } => (operator_word(*operator), "("),
        Simple::Defer {
            operator,
            negated: true,
            ..
        } => (operator_word(*operator), "N("),
        Simple::Limit { .. } => ("LIMIT", ""),
        Simple::Select { .. } => ("SEL", ""),
        Simple::Invert => ("NOT", ""),
        Simple::Absolute => ("ABS", ""),
        Simple::Convert { from, to } => (type_word(*from), type_word(*to)),
    }
}

fn negation(negated: bool) -> &'static str {
    if negated { "N" } else { "" }
}

fn when(condition: Condition) -> &'static str {
    match condition {
        Condition::Always => "",
        Condition::IfTrue => "C",
        Condition::IfFalse => "CN",
    }
}

fn operator_word(operator: Operator) -> &'static str {
    match operator {
        Operator::And => "AND",
        Operator::Or => "OR",
        Operator::Xor => "XOR",
        Operator::Add => "ADD",
        Operator::Sub => "SUB",
        Operator::Mul => "MUL",
        Operator::Div => "DIV",
        Operator::Mod => "MOD",
        Operator::Gt => "GT",
        Operator::Ge => "GE",
        Operator::Eq => "EQ",
        Operator::Ne => "NE",
        Operator::Le => "LE",
        Operator::Lt => "LT",
        Operator::Min => "MIN",
        Operator::Max => "MAX",
    }
}

fn type_word(kind: IlType) -> &'static str {
    match kind {
        IlType::Bool => "BOOL",
        IlType::Sint => "SINT",
        IlType::Int => "INT",
        IlType::Dint => "DINT",
        IlType::Lint => "LINT",
        IlType::Usint => "USINT",
        IlType::Uint => "UINT",
        IlType::Udint => "UDINT",
    }
}

/// The operands of an instruction, a label or the name of a store among them.
pub(crate) fn operands(action: &Action) -> (Option<Operand>, Option<Operand>) {
    match action {
        Action::Compute(computation) => simple_operands(computation.as_simple()),
        Action::Store { name, .. } => (Some(Operand::Named(*name)), None),
        Action::Set { name, .. } => (Some(Operand::Named(*name)), None),
        Action::Jump { label, .. } => (Some(Operand::Named(*label)), None),
        Action::Return(_) => (None, None),
    }
}

pub(crate) fn simple_operands(simple: &Simple) -> (Option<Operand>, Option<Operand>) {
    match simple {
        Simple::Load { operand, .. } => (Some(*operand), None),
        Simple::Apply { operand, .. } => (Some(*operand), None),
        Simple::Defer { operand, .. } => (*operand, None),
        Simple::Limit { input, most } => (Some(*input), Some(*most)),
        Simple::Select { if_false, if_true } => (Some(*if_false), Some(*if_true)),
        Simple::Invert | Simple::Absolute | Simple::Convert { .. } => (None, None),
    }
}

/// How often a jump is taken at most, where it is counted.
pub(crate) fn turns(action: &Action) -> Option<u8> {
    match action {
        Action::Jump { turns, .. } => *turns,
        _ => None,
    }
}

/// The lines inside parentheses.
pub(crate) fn inner_of(simple: &Simple) -> &[InnerLine] {
    match simple {
        Simple::Defer { inner, .. } => inner.as_slice(),
        _ => &[],
    }
}

/// The instruction of a statement, counted from 0.
pub(crate) fn action_at<'a>(rt: &impl Abort, program: &'a Program, place: usize) -> &'a Action {
    let statement = program.statements.as_slice().get(place);
    let statement = statement.expect(rt, "a statement");
    statement.action.as_ref().expect(rt, "an instruction")
}

/// An instruction that is wanted: its text, its word and modifiers, its operands.
pub(crate) type Instruction = (&'static str, Spelled, Want, Want);

/// Each text is this instruction.
pub(crate) fn instructs(rt: &impl Abort, alloc: Global, wanted: &[Instruction]) {
    for row in wanted {
        let text = row.0;
        let whole = format!(in alloc; "PROGRAM p\n{text}\nEND_PROGRAM").expect(rt, "memory");
        let program = program_of(rt, alloc, whole.as_str());
        let is_wanted = is_instruction(action_at(rt, &program, 0), row);
        assert_true_at(rt, is_wanted, &text);
    }
}

fn is_instruction(action: &Action, wanted: &Instruction) -> bool {
    let (_, spelled, first, second) = wanted;
    let (left, right) = operands(action);
    spelling(action) == *spelled && first.is(&left) && second.is(&right)
}

/// A line that is wanted: its number, its label or nothing, its word and modifiers or nothing.
pub(crate) type Line = (u32, &'static str, Spelled);

/// The program has these lines.
pub(crate) fn has_lines(rt: &impl Abort, program: &Program, wanted: &[Line]) {
    let statements = program.statements.as_slice();
    assert_same(rt, &statements.len(), &wanted.len());
    for (statement, line) in statements.iter().zip(wanted) {
        assert_true_at(rt, is_line(statement, line), &line.0);
    }
}

fn is_line(statement: &Statement, wanted: &Line) -> bool {
    let (line, label, spelled) = wanted;
    statement.line == *line && label_of(statement) == *label && spelling_of(statement) == *spelled
}

fn label_of(statement: &Statement) -> &str {
    match &statement.label {
        Some(name) => name.as_str(),
        None => "",
    }
}

fn spelling_of(statement: &Statement) -> Spelled {
    match &statement.action {
        Some(action) => spelling(action),
        None => ("", ""),
    }
}
