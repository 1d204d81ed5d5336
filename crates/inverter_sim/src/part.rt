//! The parts of a plant file.

/// The part of a plant file that breaks a rule. Entries are counted from 0 in their section.
#[derive(Clone, Copy, PartialEq, Eq, Debug)]
pub enum PlantPart {
    /// The text as a whole, or a section that is too long or no list.
    File,
    Device(usize),
    /// A device and one of its values.
    Value(usize, usize),
    Fault(usize),
}
