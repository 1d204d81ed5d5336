//! The longest path through a program, which makes its budget.
ghost use Rattle.std.specs.Prelude.{◌≡◌, ◌<◌, length};

use crate::items::ItemLine;
use crate::rows::Row;
use facts::context::Context;
use point_types::Condition;
use scan_code::Op;
use std::alloc::{AllocError, Global};
use verifier::budget::path_lengths;
use verifier::told::Standing;

/// Appends the longest path, by lines; nothing where an instruction wasn't judged.
pub(crate) fn push_longest(
    alloc: Global,
    line: &mut ItemLine,
    context: &Context,
    rows: &[Row],
) -> Result<(), AllocError>
    requires { length context.now.listing < 65536 }
{
    let steps = longest_path(alloc, context, rows)?;
    if steps.is_empty() {
        return Ok(());
    }
    push_steps(alloc, line, rows, &steps)
}

/// The lines that the longest path goes through; none where an instruction wasn't judged.
pub(crate) fn longest_lines(
    alloc: Global,
    context: &Context,
    rows: &[Row],
) -> Result<Vec<u32>, AllocError>
    requires { length context.now.listing < 65536 }
{
    let mut lines = Vec::new(alloc);
    let mut last = 0;
    for step in longest_path(alloc, context, rows)? {
        let number = line_of(rows, step);
        if number != last {
            lines.push(number)?;
        }
        last = number;
    }
    Ok(lines)
}

/// The numbers of the instructions on the longest path; none where an instruction wasn't judged.
fn longest_path(alloc: Global, context: &Context, rows: &[Row]) -> Result<Vec<usize>, AllocError>
    requires { length context.now.listing < 65536 }
{
    let reached = reached_flags(alloc, rows)?;
    if reached.len() != context.size() {
        return Ok(Vec::new(alloc));
    }
    let lengths = path_lengths(alloc, context, &reached)?;
    longest_steps(alloc, context, &lengths)
}

/// How many instructions a longest path has.
pub(crate) fn longest_length(
    alloc: Global,
    context: &Context,
    reached: &[bool],
) -> Result<usize, AllocError>
    requires few { length context.now.listing < 65536 }
    requires each { length reached.now ≡ length context.now.listing }
{
    let lengths = path_lengths(alloc, context, reached)?;
    Ok(length_of(&lengths, longest_start(context, &lengths)))
}

/// Which instructions a path reaches; of those that were judged.
pub(crate) fn reached_flags(alloc: Global, rows: &[Row]) -> Result<Vec<bool>, AllocError> {
    let mut reached = Vec::new(alloc);
    for row in rows {
        match &row.known {
            Some(Standing::Unreached) => reached.push(false)?,
            Some(_) => reached.push(true)?,
            None => return Ok(reached),
        }
    }
    Ok(reached)
}

/// The numbers of the instructions on a longest path from a start to an end.
fn longest_steps(
    alloc: Global,
    context: &Context,
    lengths: &[Option<usize>],
) -> Result<Vec<usize>, AllocError> {
    let mut steps = Vec::new(alloc);
    let mut at = longest_start(context, lengths);
    let length = length_of(lengths, at);
    steps.push(at)?;
    for done in 1..length {
        let Some(next) = next_of(context, lengths, at, length.saturating_sub(done)) else {
            break;
        };
        steps.push(next)?;
        at = next;
    }
    Ok(steps)
}

/// Where a longest path begins: at the first instruction, or where a counted jump leads.
fn longest_start(context: &Context, lengths: &[Option<usize>]) -> usize {
    let mut start = 0;
    for (_, op) in context.instructions() {
        if let Op::Repeat(_, _, _, to) = op {
            let head = context.number_at(usize::from(*to)).unwrap_or(0);
            if length_of(lengths, head) > length_of(lengths, start) {
                start = head;
            }
        }
    }
    start
}

fn length_of(lengths: &[Option<usize>], at: usize) -> usize {
    match lengths.get(at) {
        Some(Some(length)) => *length,
        _ => 0,
    }
}

/// The next instruction of a longest path, on which so many are left.
fn next_of(context: &Context, lengths: &[Option<usize>], at: usize, left: usize) -> Option<usize> {
    let next = at.checked_add(1)?;
    match context.instructions().get(at) {
        Some((_, Op::Jump(Condition::Always, to))) => context.number_at(usize::from(*to)),
        Some((_, Op::Jump(_, to))) if length_of(lengths, next) != left => {
            context.number_at(usize::from(*to))
        }
        Some(_) => Some(next),
        None => None,
    }
}

/// Appends how many instructions the path has, and the lines that it goes through.
fn push_steps(
    alloc: Global,
    line: &mut ItemLine,
    rows: &[Row],
    steps: &[usize],
) -> Result<(), AllocError> {
    let count = steps.len();
    let head = format!(in alloc; "longest path: {count} instructions, through lines ")?;
    line.push(head.as_str())?;
    let from = line.column;
    let mut last = 0;
    for step in steps {
        let number = line_of(rows, *step);
        if number != last {
            let number = format!(in alloc; "{number}")?;
            line.push_item(from, number.as_str())?;
        }
        last = number;
    }
    line.end()
}

/// The line of an instruction.
pub(crate) fn line_of(rows: &[Row], number: usize) -> u32 {
    match rows.get(number) {
        Some(row) => row.line,
        None => 0,
    }
}
