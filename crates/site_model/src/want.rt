//! A model of a device, as a site asks for it.

/// A model of a device that a site asks for (SunSpec Device Information Model Specification, models).
#[derive(Clone, Copy, Debug, PartialEq, Eq, Hash)]
pub struct Want {
    /// The device, by its number in the site.
    pub device: usize,
    /// The model's ID.
    pub model: u16,
}
