//! What to do about a point that doesn't always show what it is to.
use crate::limits::{SettingLimits, limits_of, steps_to};
use crate::reason::Reason;
use crate::subject::{ShownNumber, Subject};
use served_ranges::Demand;
use std::alloc::{AllocError, Global};

/// The greatest exponent, of tags and of scale factors.
const MOST: i8 = 10;

/// What to do.
pub(crate) fn mend_of(
    alloc: Global,
    subject: Subject<'_>,
    demand: &Demand,
    reason: Reason,
) -> Result<String, AllocError> {
    match reason {
        Reason::NoFactor => served_factor(alloc, subject, demand),
        Reason::TooCoarse(factor) => coarser_numbers(alloc, subject, factor),
        Reason::Beyond(factor, limits) => coarser(alloc, subject, demand, factor, limits),
        Reason::Below(factor, limits) if limits.least < 0 => {
            coarser(alloc, subject, demand, factor, limits)
        }
        Reason::Below(_, _) => String::from_str(alloc, raised(subject.shown)),
        Reason::NoNumber => String::from_str(alloc, narrowed(subject.shown)),
    }
}

fn narrowed(shown: ShownNumber) -> &'static str {
    match shown {
        ShownNumber::Total => "narrow the ranges low..high of its parts, or take a wider point",
        ShownNumber::Stored => "narrow its range low..high, or take a wider point",
    }
}

fn raised(shown: ShownNumber) -> &'static str {
    match shown {
        ShownNumber::Total => "raise the low of its parts, or take a point of another kind",
        ShownNumber::Stored => "raise its low, or take a point of another kind",
    }
}

/// A scale factor that is as fine as the numbers.
fn served_factor(
    alloc: Global,
    subject: Subject<'_>,
    demand: &Demand,
) -> Result<String, AllocError> {
    let exponent = demand.exponent;
    match subject.factor {
        Some(factor) => {
            format!(in alloc;
                "serve its scale factor: a [[served]] with point = \"{factor}\" and value = {exponent}"
            )
        }
        None => String::from_str(alloc, "take a point with another scale factor"),
    }
}

/// Numbers that are as coarse as the factor, or a finer factor.
fn coarser_numbers(alloc: Global, subject: Subject<'_>, factor: i16) -> Result<String, AllocError> {
    match subject.shown {
        ShownNumber::Total => {
            format!(in alloc;
                "give its parts exponent = {factor} and round = \"down\", or serve a finer factor"
            )
        }
        ShownNumber::Stored => {
            format!(in alloc; "give the tag exponent = {factor}, or serve a finer factor")
        }
    }
}

/// A factor as coarse as the numbers, where that is enough; else numbers and a factor that are coarser by as many powers of
/// ten as it takes, where there are such ones.
fn coarser(
    alloc: Global,
    subject: Subject<'_>,
    demand: &Demand,
    factor: i16,
    limits: SettingLimits,
) -> Result<String, AllocError> {
    if let (Some(name), true) = (subject.factor, fits_as_counted(demand)) {
        let exponent = demand.exponent;
        return format!(in alloc;
            "serve {name} with value = {exponent}, as its numbers count; or narrow the range"
        );
    }
    let steps = steps_to(demand, limits);
    let exponent = demand.exponent.saturating_add(steps);
    let served = factor.saturating_add(i16::from(steps));
    match subject.factor {
        Some(name) if exponent <= MOST && served <= i16::from(MOST) => {
            let counted = counted_by(alloc, subject.shown, exponent, steps)?;
            let counted = counted.as_str();
            format!(in alloc;
                "{counted}, and serve {name} with value = {served}; or narrow the range"
            )
        }
        _ => String::from_str(alloc, narrowed(subject.shown)),
    }
}

/// Whether a demand is met by a factor that is its exponent.
fn fits_as_counted(demand: &Demand) -> bool {
    match limits_of(demand.kind, 0) {
        Some(limits) => steps_to(demand, limits) == 0,
        None => false,
    }
}

/// How the numbers are counted more coarsely.
fn counted_by(
    alloc: Global,
    shown: ShownNumber,
    exponent: i8,
    steps: i8,
) -> Result<String, AllocError> {
    match shown {
        ShownNumber::Total => {
            format!(in alloc;
                "give its parts exponent = {exponent}, round = \"down\", and low and high divided by 10^{steps}"
            )
        }
        ShownNumber::Stored => {
            format!(in alloc;
                "give the tag exponent = {exponent}, and low and high divided by 10^{steps}"
            )
        }
    }
}
