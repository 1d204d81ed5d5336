//! The instructions of a program with what is known before them.
ghost use Rattle.std.specs.Prelude.{◌≡◌, ◌<◌, ◌+◌, ◌^◌, ◌++◌, [], length, IfOk, OnOk};
ghost use Rattle.il_assemble.specs.LineTable as table;
ghost use Rattle.program_notes.specs.Rows.{all_rows, row_at, rows_from};

use facts::context::Context;
use il_assemble::instruction_lines;
use il_reader::Program;
use point_types::Items;
use scan_code::Op;
use std::alloc::{AllocError, Global};
use verifier::known::all_told;
use verifier::told::Standing;

/// An instruction: its line in the text, its number, what it is, and what is told before it; None after a
/// refused one.
#[derive(Drop)]
pub struct Row {
    pub line: u32,
    pub number: usize,
    pub op: Op,
    pub known: Option<Standing>,
}

/// The instructions of a program in the order of the code, each with its line and what is told of the fact
/// before it.
pub fn rows_of(
    alloc: Global,
    program: &Program,
    context: &Context,
) -> Result<Items<Row>, AllocError>
    requires { length context.now.listing < 65536 }
    ensures { IfOk result (λ rows. rows ≡ all_rows (table.instruction_lines program.now) context.now) }
{
    let lines = instruction_lines(alloc, program)?;
    let standings = all_told(alloc, context)?;
    rows_in(alloc, &lines, context.instructions(), standings)
}

/// The same by the lines, the instructions, and what is told before those that are judged.
fn rows_in(
    alloc: Global,
    lines: &[u32],
    listing: &[(usize, Op)],
    standings: Items<Standing>,
) -> Result<Items<Row>, AllocError>
    ensures { IfOk result (λ rows. rows ≡ rows_from lines.now 0 listing.now standings) }
{
    let mut rows = Items::new(alloc);
    let mut number = 0;
    let mut rest = listing;
    for standing in standings.into_vec() {
        let [(_, op), after @ ..] = rest else {
            return Ok(rows);
        };
        rows.push(row_at(lines, number, *op, Some(standing)))?;
        number += 1;
        rest = after;
    }
    push_unjudged(&mut rows, lines, number, rest)?;
    Ok(rows)
}

/// Appends the instructions after one that is refused.
fn push_unjudged(
    rows: &mut Items<Row>,
    lines: &[u32],
    first: usize,
    listing: &[(usize, Op)],
) -> Result<(), AllocError>
    requires { first + length listing.now < 2 ^ 64 }
    ensures { OnOk result (rows.new ≡ rows.old ++ rows_from lines.now first listing.now []) }
{
    let mut number = first;
    let mut rest = listing;
    while let [(_, op), after @ ..] = rest {
        rows.push(row_at(lines, number, *op, None))?;
        number += 1;
        rest = after;
    }
    Ok(())
}

/// A row, on line 0 where it has none.
fn row_at(lines: &[u32], number: usize, op: Op, known: Option<Standing>) -> Row
    ensures { result ≡ row_at lines.now number op known }
{
    let line = match lines.get(number) {
        Some(line) => *line,
        None => 0,
    };
    Row {
        line,
        number,
        op,
        known,
    }
}
