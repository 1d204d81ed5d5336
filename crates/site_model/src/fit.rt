//! What is written where a point can't say a number.

/// What is written of an `out` tag where its point can't say the number that the program stored, by the key `fit`.
#[derive(Clone, Copy, PartialEq, Eq, Debug)]
pub enum Fit {
    /// No key: nothing.
    Exact,
    /// `down`: the greatest number below it that the point says.
    Down,
    /// `up`: the least number above it that the point says.
    Up,
}
