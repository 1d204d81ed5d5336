//! How a program and clients may use a tag.

/// What is done with a tag.
#[derive(Clone, Copy, PartialEq, Eq, Debug)]
pub enum Access {
    /// `in`: it is read from a device.
    Input,
    /// `out`: the program stores it, and it is written to a device.
    Output,
    /// `set`: a point of the gateway's own models that clients write and the program reads.
    Setting,
    /// `site`: the program stores it, and clients read it.
    Shown,
    /// `time`: how long ago the scan before was, in milliseconds; the program reads it. It has no point.
    Time,
}
