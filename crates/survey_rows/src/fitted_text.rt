//! What goes out in place of numbers that an output's point can't say, in words.
use note_text::decimal;
use point_writer::number_out;
use served_notes::Reason;
use site_model::{Fit, SiteTag};
use std::alloc::{AllocError, Global};

/// A number that a point can't say, and the one that goes out in its place.
#[derive(Clone, Copy)]
pub(crate) struct FittedExample {
    stored: i64,
    written: i64,
}

/// Such a number of a tag's range, the greatest where it is fitted down, and the least where it is fitted up; None where for some
/// number of the range none goes out.
pub(crate) fn fitted_example(tag: &SiteTag, factor: Option<i16>) -> Option<FittedExample> {
    match tag.fit {
        Fit::Exact => None,
        Fit::Down => {
            number_out(tag, tag.low, factor)?;
            first_fitted(tag, factor, [tag.high, tag.high.saturating_sub(1)])
        }
        Fit::Up => {
            number_out(tag, tag.high, factor)?;
            first_fitted(tag, factor, [tag.low, tag.low.saturating_add(1)])
        }
    }
}

/// The first of some numbers in place of which another one goes out.
fn first_fitted(tag: &SiteTag, factor: Option<i16>, numbers: [i64; 2]) -> Option<FittedExample> {
    for stored in numbers {
        let written = number_out(tag, stored, factor)?;
        if written != stored {
            return Some(FittedExample { stored, written });
        }
    }
    None
}

/// `says multiples of STEP, NUMBER goes out as NUMBER`; without the multiples where the factor isn't what is too coarse.
pub(crate) fn fitted_text(
    alloc: Global,
    reason: Reason,
    exponent: i8,
    example: FittedExample,
) -> Result<String, AllocError> {
    let stored = decimal(alloc, i128::from(example.stored), exponent)?;
    let written = decimal(alloc, i128::from(example.written), exponent)?;
    let (stored, written) = (stored.as_str(), written.as_str());
    match reason {
        Reason::TooCoarse(factor) => {
            let step = decimal(alloc, 1, i8::try_from(factor).unwrap_or(0))?;
            format!(in alloc; "says multiples of {step}, {stored} goes out as {written}")
        }
        _ => format!(in alloc; "{stored} goes out as {written}"),
    }
}
