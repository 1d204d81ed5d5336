//! Texts on why an output isn't written.
use point_writer::NoWrite;

/// What to do about an output that isn't written.
pub fn unwritten_help(cause: NoWrite) -> &'static str {
    match cause {
        NoWrite::NotSet => "store a number in each scan",
        NoWrite::NoBlock => {
            "the device's block didn't come, or its map lacks the model or the point: look with probe whether it answers, and which models it has"
        }
        NoWrite::BadScale => {
            "a factor is a number in -10..10: look at it with probe, and set it in the device"
        }
        NoWrite::Inexact => {
            "no raw number is that value by the factor: give the tag fit (down or up), or store what the factor holds (the tag's exponent, low and high), or set another factor in the device"
        }
        NoWrite::OutOfType => {
            "the raw number doesn't fit the point's words by the factor: give the tag fit (down or up), or store what the factor holds (the tag's exponent, low and high), or set another factor in the device"
        }
        NoWrite::With => "it goes with another tag, which isn't written: look why that one isn't",
    }
}
