//! The line of each instruction of an image.
ghost use Rattle.std.specs.Prelude.{◌≡◌, ◌≤◌, ◌++◌, IfOk, OnOk, replicate};
ghost use Rattle.il_assemble.specs.LineForms.{action_lines, body_lines, count_first, count_not, inner_lines, simple_lines};
ghost use Rattle.il_assemble.specs.LineTable.{instruction_lines};
ghost use Rattle.il_assemble.specs.Written.{written, written_inner};

use il_reader::{Action, InnerLine, Operand, Program, Simple, Statement};
use std::alloc::{AllocError, Global};

/// The line of each instruction of a program's image, in the order of the code: that of the statement whose
/// code it is in, inside parentheses that of the instruction there, and that of END_PROGRAM for the last END.
#[tactic(auto, using(crate::proofs::TabledLines::tabled))]
pub fn instruction_lines(alloc: Global, program: &Program) -> Result<Vec<u32>, AllocError>
    ensures { IfOk result (λ lines. lines.items ≡ instruction_lines program.now) }
{
    let mut lines = Vec::new(alloc);
    push_body(&mut lines, program.statements.as_slice())?;
    lines.push(program.end_line)?;
    Ok(lines)
}

/// Appends the lines of the instructions of all statements.
fn push_body(lines: &mut Vec<u32>, statements: &[Statement]) -> Result<(), AllocError>
    ensures { OnOk result (lines.new.items ≡ lines.old.items ++ body_lines statements.now) }
{
    for statement in statements {
        push_action(lines, statement.line, &statement.action)?;
    }
    Ok(())
}

fn push_action(lines: &mut Vec<u32>, line: u32, action: &Option<Action>) -> Result<(), AllocError>
    ensures { OnOk result (lines.new.items ≡ lines.old.items ++ action_lines line action.now) }
{
    match action {
        None => Ok(()),
        Some(Action::Compute(computation)) => push_simple(lines, line, computation.as_simple()),
        Some(Action::Store { negated, .. }) => {
            let nots = count_not(*negated);
            push_times(lines, line, 1 + nots + nots)
        }
        Some(Action::Set { .. }) | Some(Action::Jump { .. }) | Some(Action::Return(_)) => {
            push_times(lines, line, 1)
        }
    }
}

#[cycle(push_simple)]
fn push_simple(lines: &mut Vec<u32>, line: u32, simple: &Simple) -> Result<(), AllocError>
    ensures { OnOk result (lines.new.items ≡ lines.old.items ++ simple_lines line (written simple.now)) }
{
    match simple {
        Simple::Load { negated, .. } => push_times(lines, line, 1 + count_not(*negated)),
        Simple::Apply { negated, .. } => push_times(lines, line, 3 + count_not(*negated)),
        Simple::Defer {
            negated,
            operand,
            inner,
            ..
        } => {
            push_times(lines, line, 1 + count_first(operand))?;
            push_inner(lines, inner.as_slice())?;
            push_times(lines, line, 1 + count_not(*negated))?;
            Ok(())
        }
        Simple::Limit { .. } => push_times(lines, line, 6),
        Simple::Select { .. } => push_times(lines, line, 5),
        Simple::Invert | Simple::Absolute | Simple::Convert { .. } => push_times(lines, line, 1),
    }
}

/// The lines inside parentheses.
#[cycle(push_simple)]
fn push_inner(lines: &mut Vec<u32>, inner: &[InnerLine]) -> Result<(), AllocError>
    ensures { OnOk result (lines.new.items ≡ lines.old.items ++ inner_lines (written_inner inner.now)) }
{
    for line in inner {
        push_simple(lines, line.line, &line.simple)?;
    }
    Ok(())
}

/// Appends one line so many times.
fn push_times(lines: &mut Vec<u32>, line: u32, times: usize) -> Result<(), AllocError>
    ensures { OnOk result (lines.new.items ≡ lines.old.items ++ replicate times line) }
{
    for _ in 0..times {
        lines.push(line)?;
    }
    Ok(())
}

/// How many instructions the N after an operator makes.
fn count_not(negated: bool) -> usize
    ensures is { result ≡ count_not negated }
    ensures few { result ≤ 1 }
{
    if negated { 1 } else { 0 }
}

/// How many instructions an operand right after a parenthesis makes.
fn count_first(first: &Option<Operand>) -> usize
    ensures is { result ≡ count_first first.now }
    ensures few { result ≤ 1 }
{
    match first {
        Some(_) => 1,
        None => 0,
    }
}
