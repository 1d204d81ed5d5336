//! Where something stands in a chart, in tenths of a pixel.
ghost use Rattle.std.specs.Prelude.{◌≤◌, ◌+◌};

/// A chart's width.
pub(crate) const WIDE: u32 = 4800;
/// The width of one with a second axis at its right.
pub(crate) const WIDER: u32 = 5300;
/// Its height.
pub(crate) const TALL: u32 = 1700;
/// The plot's edges.
pub(crate) const LEFT: u32 = 960;

pub(crate) const RIGHT: u32 = 4600;

pub(crate) const TOP: u32 = 40;

pub(crate) const BOTTOM: u32 = 1300;
/// Between an edge of the plot and a number at the end of the axis.
const EDGE: u32 = 60;

/// Where the k-th of n scans begins, counted from 0; where the last one ends for n.
pub(crate) fn x_at(k: usize, n: usize) -> u32
    ensures left { LEFT ≤ result }
    ensures right { result ≤ RIGHT }
{
    LEFT + share(wide(k), wide(n), RIGHT - LEFT)
}

/// In the middle of the k-th of n scans, counted from 1.
pub(crate) fn x_within(k: usize, n: usize) -> u32
    ensures left { LEFT ≤ result }
    ensures right { result ≤ RIGHT }
{
    let half = wide(k).saturating_mul(2).saturating_sub(1);
    LEFT + share(half, wide(n).saturating_mul(2), RIGHT - LEFT)
}

/// How high a number stands on an axis from `low` to `high`.
pub(crate) fn y_on(low: i128, high: i128, number: i128) -> u32
    ensures top { TOP + EDGE ≤ result }
    ensures bottom { result + EDGE ≤ BOTTOM }
{
    let up = number.saturating_sub(low);
    BOTTOM - EDGE - share(up, high.saturating_sub(low), BOTTOM - TOP - 2 * EDGE)
}

fn wide(count: usize) -> i128 {
    i128::try_from(count).unwrap_or(0)
}

/// As much of `of` as the part is of the whole, rounded down; none of it for a part below 0, all for one above the whole.
fn share(part: i128, whole: i128, of: u32) -> u32
    ensures { result ≤ of }
{
    let Some(product) = part.checked_mul(i128::from(of)) else {
        return of;
    };
    match product.checked_div(whole) {
        Some(quotient) => u32::try_from(quotient.max(0)).unwrap_or(of).min(of),
        None => 0,
    }
}
