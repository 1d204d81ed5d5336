//! The parts of a site file.

/// The part of a site file that breaks a rule. Entries are counted from 0 in their section.
#[derive(Clone, Copy, PartialEq, Eq, Debug)]
pub enum SitePart {
    /// The text as a whole, or a section that is too long or no list.
    File,
    Gateway,
    Device(usize),
    Tag(usize),
    Served(usize),
}
