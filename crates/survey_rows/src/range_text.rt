//! What of an output's range its point can't be told, in words.
use note_text::decimal;
use served_notes::{Reason, kind_word};
use served_ranges::Demand;
use std::alloc::{AllocError, Global};

/// What of a range can't be said, for this reason.
pub(crate) fn range_text(
    alloc: Global,
    demand: &Demand,
    reason: Reason,
) -> Result<String, AllocError> {
    let exponent = demand.exponent;
    match reason {
        Reason::NoFactor => no_factor(alloc),
        Reason::TooCoarse(factor) => coarse_text(alloc, demand, factor),
        Reason::Beyond(factor, limits) => {
            let number = decimal(alloc, demand.high, exponent)?;
            let end = decimal(alloc, limits.most, exponent)?;
            end_text(
                alloc,
                demand,
                number.as_str(),
                factor,
                "reaches",
                end.as_str(),
            )
        }
        Reason::Below(factor, limits) => {
            let number = decimal(alloc, demand.low, exponent)?;
            let end = decimal(alloc, limits.least, exponent)?;
            end_text(
                alloc,
                demand,
                number.as_str(),
                factor,
                "begins at",
                end.as_str(),
            )
        }
        Reason::NoNumber => {
            let kind = kind_word(demand.kind);
            format!(in alloc; "not each number can be said: the point is {kind}")
        }
    }
}

/// That nothing can be written.
pub(crate) fn no_factor(alloc: Global) -> Result<String, AllocError> {
    String::from_str(
        alloc,
        "nothing can be said (BadScale): set its scale factor in the device, a number in -10..10",
    )
}

/// `only multiples of 10 can be said: KIND by factor F; ..`.
fn coarse_text(alloc: Global, demand: &Demand, factor: i16) -> Result<String, AllocError> {
    let step = decimal(alloc, 1, step_exponent(factor))?;
    let kind = kind_word(demand.kind);
    format!(in alloc;
        "only multiples of {step} can be said: {kind} by factor {factor}; give the tag exponent = {factor} with low and high in these units"
    )
}

/// A factor in -10..10, as an exponent.
fn step_exponent(factor: i16) -> i8 {
    i8::try_from(factor).unwrap_or(0)
}

/// `NUMBER can't be said: KIND by factor F reaches END; ..`.
fn end_text(
    alloc: Global,
    demand: &Demand,
    number: &str,
    factor: i16,
    verb: &str,
    end: &str,
) -> Result<String, AllocError> {
    let kind = kind_word(demand.kind);
    format!(in alloc;
        "{number} can't be said: {kind} by factor {factor} {verb} {end}; narrow low and high of the tag"
    )
}
