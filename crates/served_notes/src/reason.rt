//! Why a point doesn't always show what it is to.
use crate::limits::{SettingLimits, limits_of};
use served_ranges::Demand;

/// Why a point doesn't always show what it is to.
#[derive(Clone, Copy, PartialEq, Eq, Debug)]
pub enum Reason {
    /// It has no scale factor.
    NoFactor,
    /// Its scale factor is coarser than the numbers.
    TooCoarse(i16),
    /// The greatest number lies beyond what it says.
    Beyond(i16, SettingLimits),
    /// The least number lies below what it says.
    Below(i16, SettingLimits),
    /// No number is said in its kind, or none that large.
    NoNumber,
}

/// Why a demand isn't always met.
pub fn reason_of(demand: &Demand) -> Reason {
    let Some(factor) = demand.factor else {
        return Reason::NoFactor;
    };
    let steps = i32::from(demand.exponent) - i32::from(factor);
    if steps < 0 {
        return Reason::TooCoarse(factor);
    }
    match limits_of(demand.kind, steps.unsigned_abs()) {
        Some(limits) if demand.high > limits.most => Reason::Beyond(factor, limits),
        Some(limits) if demand.low < limits.least => Reason::Below(factor, limits),
        _ => Reason::NoNumber,
    }
}
