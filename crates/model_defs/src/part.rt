//! The parts of a model definition.

/// The part of a model definition that breaks a rule.
#[derive(Clone, Copy, PartialEq, Eq, Debug)]
pub enum DefPart {
    /// The text as a whole, the model's own keys, or its points together.
    Model,
    /// The point with that number, from 0.
    Point(usize),
}
