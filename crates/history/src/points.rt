//! A series as text.
ghost use Rattle.std.specs.Prelude.{◌≡◌, ◌++◌, string_bytes, flat_map, OnOk};
ghost use Rattle.std.specs.Fmt.{signed_decimal};
ghost use Rattle.history.specs.Points.{pair, point, with_comma};

use crate::bounds::Bounds;
use std::alloc::AllocError;

/// Appends the points of some steps, with a comma after each.
pub(crate) fn push_steps(text: &mut String, steps: &[Option<Bounds>]) -> Result<(), AllocError>
    ensures { OnOk result (string_bytes text.new ≡ string_bytes text.old ++ flat_map with_comma steps.now) }
{
    for step in steps {
        push_point(text, *step)?;
        text.push_str(",")?;
    }
    Ok(())
}

/// Appends the point of a step.
pub(crate) fn push_point(text: &mut String, step: Option<Bounds>) -> Result<(), AllocError>
    ensures { OnOk result (string_bytes text.new ≡ string_bytes text.old ++ point step) }
{
    match step {
        Some(bounds) if bounds.least < bounds.greatest => push_pair(text, bounds),
        Some(bounds) => push_number(text, bounds.least),
        None => text.push_str("null"),
    }
}

fn push_pair(text: &mut String, bounds: Bounds) -> Result<(), AllocError>
    ensures { OnOk result (string_bytes text.new ≡ string_bytes text.old ++ pair bounds) }
{
    text.push_str("[")?;
    push_number(text, bounds.least)?;
    text.push_str(",")?;
    push_number(text, bounds.greatest)?;
    text.push_str("]")
}

fn push_number(text: &mut String, number: i64) -> Result<(), AllocError>
    ensures { OnOk result (string_bytes text.new ≡ string_bytes text.old ++ signed_decimal number) }
{
    write!(text, "{number}")?;
    Ok(())
}
