//! Instructions, types and spans in words.
use facts::span::Span;
use point_types::{Condition, IlType, Operator};
use scan_code::Op;
use site_model::Access;
use std::alloc::{AllocError, Global};

/// An instruction by its name.
pub(crate) fn mnemonic(op: Op) -> &'static str {
    match op {
        Op::End => "END",
        Op::LoadVariable(_) => "LDV",
        Op::LoadInput(_) => "LDT",
        Op::LoadPresence(_) => "LDP",
        Op::LoadBool(_) => "LDB",
        Op::LoadNumber(_, _) => "LDC",
        Op::StoreVariable(_) => "STV",
        Op::StoreOutput(_) => "STT",
        Op::SetVariable(_) => "SETV",
        Op::ResetVariable(_) => "RSTV",
        Op::SetOutput(_) => "SETT",
        Op::ResetOutput(_) => "RSTT",
        Op::Push => "PUSH",
        Op::Not => "NOT",
        Op::Apply(operator) => operator_word(operator),
        Op::Select => "SEL",
        Op::Absolute => "ABS",
        Op::Convert(_, _) => "CONV",
        Op::Jump(condition, _) => conditioned(condition, "JMP", "JMPC", "JMPCN"),
        Op::Return(condition) => conditioned(condition, "END", "RETC", "RETCN"),
        Op::Repeat(condition, _, _, _) => conditioned(condition, "LOOP", "LOOPC", "LOOPCN"),
    }
}

fn operator_word(operator: Operator) -> &'static str {
    match operator {
        Operator::And => "AND",
        Operator::Or => "OR",
        Operator::Xor => "XOR",
        Operator::Add => "ADD",
        Operator::Sub => "SUB",
        Operator::Mul => "MUL",
        Operator::Div => "DIV",
        Operator::Mod => "MOD",
        Operator::Gt => "GT",
        Operator::Ge => "GE",
        Operator::Eq => "EQ",
        Operator::Ne => "NE",
        Operator::Le => "LE",
        Operator::Lt => "LT",
        Operator::Min => "MIN",
        Operator::Max => "MAX",
    }
}

/// The word of an instruction that acts always, where the result is TRUE, or where it is FALSE.
fn conditioned(
    condition: Condition,
    always: &'static str,
    if_true: &'static str,
    if_false: &'static str,
) -> &'static str {
    match condition {
        Condition::Always => always,
        Condition::IfTrue => if_true,
        Condition::IfFalse => if_false,
    }
}

/// The word of a type.
pub fn type_word(kind: IlType) -> &'static str {
    match kind {
        IlType::Bool => "BOOL",
        IlType::Sint => "SINT",
        IlType::Int => "INT",
        IlType::Dint => "DINT",
        IlType::Lint => "LINT",
        IlType::Usint => "USINT",
        IlType::Uint => "UINT",
        IlType::Udint => "UDINT",
    }
}

/// What a site's access lets programs do with a tag.
pub(crate) fn access_words(access: Access) -> &'static str {
    match access {
        Access::Input => "in, which programs load",
        Access::Output => "out, which programs store",
        Access::Setting => "set, which programs load",
        Access::Shown => "site, which programs store",
        Access::Time => "time, which programs load",
    }
}

/// A span by its ends.
pub(crate) fn span_words(alloc: Global, span: Span) -> Result<String, AllocError> {
    match span.ends() {
        Some((low, high)) => format!(in alloc; "{low}..{high}"),
        None => String::from_str(alloc, "none"),
    }
}
