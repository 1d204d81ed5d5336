//! The part of a file that breaks a rule.

/// A fault of a file, and the part that breaks the rule.
#[derive(Clone, Copy, PartialEq, Eq, Debug)]
pub struct Placed<F: Copy, P: Copy> {
    pub fault: F,
    /// The part of the file that breaks the rule; where memory was refused, the one that was read then.
    pub part: P,
}
