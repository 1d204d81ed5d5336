//! What the point of an output can't say of the tag's range, in words.
use crate::limits::SettingLimits;
use crate::reason::{Reason, reason_of};
use crate::words::kind_word;
use served_ranges::{Demand, demand_of_set};
use site_model::{Fit, Sf, SiteTag};
use std::alloc::{AllocError, Global};

/// What is wrong with the range of an `out` tag, and below it what to do.
pub(crate) fn told_of_output(alloc: Global, tag: &SiteTag) -> Result<String, AllocError> {
    let demand = demand_of_set(tag);
    let by = by_factor(alloc, tag.sf, &demand)?;
    let reason = reason_of(&demand);
    let mut text = wrong_with(alloc, &demand, reason, by.as_str())?;
    let mend = mend_of(alloc, tag.fit, &demand, reason)?;
    text.push_str("\n  help: ")?;
    text.push_str(mend.as_str())?;
    Ok(text)
}

fn by_factor(alloc: Global, sf: Sf, demand: &Demand) -> Result<String, AllocError> {
    match (sf, demand.factor) {
        (Sf::None | Sf::Fixed(_), Some(factor)) => format!(in alloc; "by factor {factor}"),
        _ => String::from_str(alloc, "whatever its factor"),
    }
}

fn wrong_with(
    alloc: Global,
    demand: &Demand,
    reason: Reason,
    by: &str,
) -> Result<String, AllocError> {
    let kind = kind_word(demand.kind);
    match reason {
        Reason::TooCoarse(_) => {
            let exponent = demand.exponent;
            format!(in alloc;
                "what the program sets counts 10^{exponent}, which its point ({kind}) can't always say {by}"
            )
        }
        Reason::Beyond(_, limits) => {
            let (high, most) = (demand.high, limits.most);
            format!(in alloc;
                "what the program sets may reach {high}, and its point ({kind}) says each number only up to {most}, {by}"
            )
        }
        Reason::Below(_, limits) => {
            let (low, least) = (demand.low, limits.least);
            format!(in alloc;
                "what the program sets may fall to {low}, and its point ({kind}) says each number only from {least} on, {by}"
            )
        }
        Reason::NoFactor | Reason::NoNumber => {
            format!(in alloc; "its point ({kind}) can't say each number that the program may set")
        }
    }
}

fn mend_of(alloc: Global, fit: Fit, demand: &Demand, reason: Reason) -> Result<String, AllocError> {
    match reason {
        Reason::TooCoarse(factor) => {
            let other = beside_exponent(fit);
            format!(in alloc; "give the tag exponent = {factor}, or {other}")
        }
        Reason::Beyond(_, limits) => narrowed(alloc, demand, limits),
        Reason::Below(_, limits) if limits.least < 0 => narrowed(alloc, demand, limits),
        Reason::Below(_, _) => String::from_str(alloc, "raise its low"),
        Reason::NoFactor | Reason::NoNumber => {
            String::from_str(alloc, "take a point of another kind")
        }
    }
}

/// What may be done in place of another exponent.
fn beside_exponent(fit: Fit) -> &'static str {
    match fit {
        Fit::Exact => "fit = \"down\"",
        Fit::Down => "a low that its point says",
        Fit::Up => "a high that its point says",
    }
}

/// A range that the point says.
fn narrowed(alloc: Global, demand: &Demand, limits: SettingLimits) -> Result<String, AllocError> {
    let (low, high) = (demand.low.max(limits.least), demand.high.min(limits.most));
    format!(in alloc; "narrow its range to low = {low} and high = {high}, or less")
}
