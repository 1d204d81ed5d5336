//! The numbers that a point says by its factor.
use point_types::Kind;
use served_ranges::Demand;
use site_model::raw_range;

/// The least and the greatest number that a point says, in units of 10^exponent, where its factor is no coarser.
#[derive(Clone, Copy, PartialEq, Eq, Debug)]
pub struct SettingLimits {
    pub least: i128,
    pub most: i128,
}

/// The limits of a kind, where a number counts so many powers of ten more than the factor; None for kinds without a number.
pub(crate) fn limits_of(kind: Kind, steps: u32) -> Option<SettingLimits> {
    let (least, most) = raw_range(kind)?;
    let unit = 10i128.checked_pow(steps)?;
    let least = if least > 0 {
        least
    } else {
        least.checked_div(unit)?
    };
    Some(SettingLimits {
        least,
        most: most.checked_div(unit)?,
    })
}

/// By how many powers of ten a demand has to count more coarsely to lie within limits.
pub(crate) fn steps_to(demand: &Demand, limits: SettingLimits) -> i8 {
    let above = steps_below(demand.high, limits.most);
    let below = steps_below(
        0i128.saturating_sub(demand.low),
        0i128.saturating_sub(limits.least),
    );
    above.max(below)
}

/// By how many powers of ten a number has to be cut to lie at another one or below it.
fn steps_below(number: i128, most: i128) -> i8 {
    let mut rest = number;
    for steps in 0i8..20 {
        if rest <= most {
            return steps;
        }
        rest /= 10;
    }
    20
}
