//! The rules that each image keeps.
ghost use Rattle.std.specs.Prelude.{◌≡◌};
ghost use Rattle.std.specs.List.{list_all};
ghost use Rattle.point_types.specs.Value.{high_of, is_ranged, is_within, low_of};
ghost use Rattle.scan_code.specs.Image.{is_version, is_whole_if_bool};
ghost use Rattle.scan_code.specs.ImageReading.{is_high, is_low};

use point_types::{IlType, Var};

/// The most variables, and the most tags, of an image.
pub(crate) const MOST_ENTRIES: usize = 1024;

/// The most bytes of code of an image.
pub(crate) const MOST_CODE: usize = 65535;

/// Whether images have this version: 2 where there are counted jumps, else 1.
pub(crate) fn is_version(version: u8) -> bool
    ensures { result ≡ is_version version }
{
    version == 1 || version == 2
}

/// Whether each BOOL of these has the range 0..1.
pub(crate) fn have_whole_bools(vars: &[Var]) -> bool
    ensures { result ≡ list_all is_whole_if_bool vars.now }
{
    vars.iter().all(|var| is_whole_if_bool(var))
}

/// Whether the variable has the range 0..1 where it is a BOOL, as each of an image has.
pub fn is_whole_if_bool(var: &Var) -> bool
    ensures { result ≡ is_whole_if_bool var.now }
{
    match var.kind {
        IlType::Bool => var.low == 0 && var.high == 1,
        _ => true,
    }
}

/// Whether a number lies in its type's range.
pub(crate) fn is_within(kind: IlType, n: i64) -> bool
    ensures { result ≡ is_within (low_of kind) (high_of kind) n }
{
    lies_within(kind.low(), kind.high(), n)
}

/// Whether a number is the low end of a range of the type.
pub(crate) fn is_low(kind: IlType, n: i64) -> bool
    ensures { result ≡ is_low kind n }
{
    match kind {
        IlType::Bool => n == 0,
        _ => is_within(kind, n),
    }
}

/// Whether a number is the high end of a range of the type that begins with `low`.
pub(crate) fn is_high(kind: IlType, low: i64, n: i64) -> bool
    ensures { result ≡ is_high kind low n }
{
    match kind {
        IlType::Bool => n == 1,
        _ => is_within(kind, n) && low <= n,
    }
}

/// Whether a range lies in its type, and a start in the range.
pub(crate) fn is_ranged(kind: IlType, low: i64, high: i64, start: i64) -> bool
    ensures { result ≡ is_ranged kind low high start }
{
    kind.low() <= low && lies_within(low, high, start) && high <= kind.high()
}

fn lies_within(low: i64, high: i64, n: i64) -> bool
    ensures { result ≡ is_within low high n }
{
    low <= n && n <= high
}
