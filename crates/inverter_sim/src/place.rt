//! What a register of a device belongs to.

/// What a register of a device belongs to: how many registers of its point stand before it and after it, and whether
/// clients may write that point.
#[derive(Clone, Copy, PartialEq, Eq, Debug)]
pub struct RegisterPlace {
    pub writable: bool,
    pub before: u16,
    pub behind: u16,
}
