//! Numbers in words.
use note_text::decimal;
use std::alloc::{AllocError, Global};

/// A number that counts a power of ten, as a decimal number.
pub(crate) fn shown(alloc: Global, number: i64, exponent: i8) -> Result<String, AllocError> {
    decimal(alloc, i128::from(number), exponent)
}

/// When a scan is, counted from 1, in seconds after the first one.
pub(crate) fn time_of(alloc: Global, scan: usize, every: u32) -> Result<String, AllocError> {
    let before = u64::try_from(scan.saturating_sub(1)).unwrap_or(0);
    seconds(alloc, before.saturating_mul(u64::from(every)))
}

/// So many milliseconds in seconds, with no more places after the point than they need.
pub(crate) fn seconds(alloc: Global, millis: u64) -> Result<String, AllocError> {
    let (number, exponent) = match (millis % 1000, millis % 100, millis % 10) {
        (0, _, _) => (millis / 1000, 0),
        (_, 0, _) => (millis / 100, -1),
        (_, _, 0) => (millis / 10, -2),
        _ => (millis, -3),
    };
    let mut text = decimal(alloc, i128::from(number), exponent)?;
    text.push_str(" s")?;
    Ok(text)
}
