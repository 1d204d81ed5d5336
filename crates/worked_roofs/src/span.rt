//! Spans of time, and the numbers of a line.
use crate::fault::{Played, RoofFault};

/// The largest number of a line.
const MOST: u64 = 1_000_000_000_000;

/// A time after all others.
pub(crate) const NEVER: u64 = u64::MAX;

/// From a time on, and before another one, both in milliseconds.
#[derive(Clone, Copy)]
pub(crate) struct TimeSpan {
    pub(crate) from: u64,
    pub(crate) to: u64,
}

impl TimeSpan {
    /// Whether a time is in it.
    pub(crate) fn has(&self, at: u64) -> bool {
        self.from <= at && at < self.to
    }

    /// The span that `FROM..TO` says, or `FROM..` for one without an end.
    pub(crate) fn read(word: &str) -> Played<TimeSpan> {
        match word.split_once("..") {
            Some((from, "")) => Ok(TimeSpan {
                from: number(from)?,
                to: NEVER,
            }),
            Some((from, to)) => Ok(TimeSpan {
                from: number(from)?,
                to: number(to)?,
            }),
            None => Err(RoofFault::Line),
        }
    }
}

/// The number that a word is.
pub(crate) fn number(word: &str) -> Played<u64> {
    match word.parse::<u64>() {
        Ok(number) if number <= MOST => Ok(number),
        _ => Err(RoofFault::Line),
    }
}

/// What a line needs, where it is there.
pub(crate) fn needed<T>(found: Option<T>) -> Played<T> {
    match found {
        Some(found) => Ok(found),
        None => Err(RoofFault::Line),
    }
}
