//! With which numbers variables begin.
ghost use Rattle.std.specs.Prelude.{◌≡◌, IfOk, map};
ghost use Rattle.scan_code.specs.Table.{start_of};
ghost use Rattle.scan_vm.specs.Resuming.{first_number, first_numbers, may_begin, next_kept, rest_kept};

use point_types::Var;
use std::alloc::{AllocError, Global};

/// The start value of each variable.
pub(crate) fn start_values(alloc: Global, vars: &[Var]) -> Result<Vec<i64>, AllocError>
    ensures { IfOk result (λ values. values.items ≡ map start_of vars.now) }
{
    vars.iter().map(|var| var.start).collect(alloc)
}

/// The first number of each variable: the one that was kept of it, in its declared range, else its start value. `kept` has
/// an entry for each variable, in their order; nothing was kept of those past its end.
pub(crate) fn first_numbers(
    alloc: Global,
    vars: &[Var],
    kept: &[Option<i64>],
) -> Result<Vec<i64>, AllocError>
    ensures { IfOk result (λ numbers. numbers.items ≡ first_numbers vars.now kept.now) }
{
    let mut numbers = Vec::with_capacity(alloc, vars.len())?;
    let mut vars = vars;
    let mut kept = kept;
    while let Some((var, more)) = vars.split_first() {
        numbers.push(first_number(var, next_kept(kept)))?;
        vars = more;
        kept = rest_kept(kept);
    }
    Ok(numbers)
}

/// The first number of a variable of which this was kept.
fn first_number(var: &Var, kept: Option<i64>) -> i64
    ensures { result ≡ first_number var.now kept }
{
    match kept {
        Some(number) if may_begin(var, number) => number,
        _ => var.start,
    }
}

/// Whether a variable may begin with this number: it lies in the variable's declared range.
pub fn may_begin(var: &Var, number: i64) -> bool
    ensures { result ≡ may_begin var.now number }
{
    var.low <= number && number <= var.high
}

fn next_kept(kept: &[Option<i64>]) -> Option<i64>
    ensures { result ≡ next_kept kept.now }
{
    match kept {
        [number, ..] => *number,
        [] => None,
    }
}

fn rest_kept(kept: &[Option<i64>]) -> &[Option<i64>]
    ensures { result.now ≡ rest_kept kept.now }
{
    match kept {
        [_, rest @ ..] => rest,
        [] => kept,
    }
}
