//! The most names of a program, and the ranges of its variables.
ghost use Rattle.std.specs.Prelude.{◌≡◌, length, ◌+◌, ◌≤◌, slice_get};
ghost use Rattle.il_assemble.specs.Elaboration.{is_action_within, is_inner_within, is_nested_within, nested, too_long, undivided, unless_external, unless_variable};
ghost use Rattle.il_reader.specs.Limit.{most_names};
ghost use Rattle.il_assemble.specs.Written.{written, written_inner};

use crate::fault::{AsmFault, AsmFaultKind};
use il_reader::{Action, External, InnerLine, Simple, Statement, Variable};
use scan_code::is_whole_if_bool;

/// The most variables of a program, and the most externals.
pub(crate) const MOST_NAMES: usize = 1024;

/// The most parentheses in one another.
const MOST_NESTED: usize = 100;

/// The most counted jumps.
pub(crate) const MOST_COUNTED: usize = 256;

/// The most bytes of code.
pub(crate) const MOST_CODE: usize = 65535;

pub(crate) fn too_long(line: u32) -> AsmFault
    ensures { result ≡ too_long line }
{
    AsmFault {
        line,
        kind: AsmFaultKind::TooLong,
    }
}

/// Whether there are no more variables than a program may have.
pub(crate) fn count_variables(variables: &[Variable]) -> Result<(), AsmFault>
    ensures { result ≡ unless_variable (slice_get variables.now most_names) }
{
    match variables.get(MOST_NAMES) {
        Some(extra) => Err(too_long(extra.line)),
        None => Ok(()),
    }
}

/// Whether there are no more externals than a program may have.
pub(crate) fn count_externals(externals: &[External]) -> Result<(), AsmFault>
    ensures { result ≡ unless_external (slice_get externals.now most_names) }
{
    match externals.get(MOST_NAMES) {
        Some(extra) => Err(too_long(extra.line)),
        None => Ok(()),
    }
}

/// Whether each BOOL has the range 0..1.
pub(crate) fn check_bools(variables: &[Variable]) -> Result<(), AsmFault>
    ensures { result ≡ undivided variables.now }
{
    for variable in variables {
        if !is_whole_if_bool(&variable.var) {
            return Err(AsmFault {
                line: variable.line,
                kind: AsmFaultKind::LiteralType,
            });
        }
    }
    Ok(())
}

/// Whether no more parentheses than `room` stand in one another.
#[cycle(is_nested_within)]
fn is_nested_within(room: usize, simple: &Simple) -> bool
    ensures { result ≡ is_nested_within room (written simple.now) }
{
    match simple {
        Simple::Defer { inner, .. } => room >= 1 && is_inner_within(room - 1, inner.as_slice()),
        _ => true,
    }
}

#[cycle(is_nested_within)]
fn is_inner_within(room: usize, inner: &[InnerLine]) -> bool
    ensures { result ≡ is_inner_within room (written_inner inner.now) }
{
    for line in inner {
        if !is_nested_within(room, &line.simple) {
            return false;
        }
    }
    true
}

fn is_action_within(action: &Option<Action>) -> bool
    ensures { result ≡ is_action_within action.now }
{
    match action {
        Some(Action::Compute(computation)) => is_nested_within(
            MOST_NESTED,
            computation.as_simple(),
        ),
        _ => true,
    }
}

/// Whether no line has more parentheses in one another than there may be.
pub(crate) fn check_nesting(statements: &[Statement]) -> Result<(), AsmFault>
    ensures { result ≡ nested statements.now }
{
    for statement in statements {
        if !is_action_within(&statement.action) {
            return Err(too_long(statement.line));
        }
    }
    Ok(())
}
