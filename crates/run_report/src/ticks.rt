//! Which scans are named below a chart.

/// How many at most, beside the first and the last.
const MOST: usize = 8;

/// How far apart they may be.
const STEPS: [usize; 9] = [1, 2, 5, 10, 20, 50, 100, 200, 500];

/// How far apart the named ones of n scans are.
pub(crate) fn tick_step(n: usize) -> usize {
    for step in STEPS {
        if n <= step.saturating_mul(MOST) {
            return step;
        }
    }
    n
}

/// Whether the k-th of n scans is named, counted from 1: the first, the last, and those in between that have room.
pub(crate) fn is_tick(k: usize, n: usize, step: usize) -> bool {
    k == 1 || k == n || k.checked_rem(step) == Some(0) && k.saturating_add(step / 2) < n
}
