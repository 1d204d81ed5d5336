//! Why a point doesn't always show what it is to, in words.
use crate::reason::Reason;
use crate::subject::{ShownNumber, Subject};
use point_types::Kind;
use served_ranges::Demand;
use std::alloc::{AllocError, Global};

/// What is wrong with a demand.
pub(crate) fn wrong_with(
    alloc: Global,
    subject: Subject<'_>,
    demand: &Demand,
    reason: Reason,
) -> Result<String, AllocError> {
    let what = what_is_shown(subject.shown);
    let mut text = String::from_str(alloc, what)?;
    let rest = rest_of(alloc, subject, demand, reason)?;
    text.push_str(rest.as_str())?;
    Ok(text)
}

fn what_is_shown(shown: ShownNumber) -> &'static str {
    match shown {
        ShownNumber::Total => "the sum",
        ShownNumber::Stored => "what the program stores",
    }
}

/// What is wrong, after what is to be shown.
fn rest_of(
    alloc: Global,
    subject: Subject<'_>,
    demand: &Demand,
    reason: Reason,
) -> Result<String, AllocError> {
    let (point, kind) = (subject.point, kind_word(demand.kind));
    match reason {
        Reason::NoFactor => {
            format!(in alloc; " is never shown: {point} has no scale factor that is served")
        }
        Reason::TooCoarse(factor) => {
            let exponent = demand.exponent;
            format!(in alloc;
                " counts 10^{exponent}, which {point} ({kind}) can't always say by factor {factor}"
            )
        }
        Reason::Beyond(factor, limits) => {
            let (high, most) = (demand.high, limits.most);
            format!(in alloc;
                " may reach {high}, which {point} ({kind}) can't say by factor {factor} beyond {most}"
            )
        }
        Reason::Below(factor, limits) => {
            let (low, least) = (demand.low, limits.least);
            format!(in alloc;
                " may fall to {low}, which {point} ({kind}) can't say by factor {factor} below {least}"
            )
        }
        Reason::NoNumber => {
            format!(in alloc;
                " isn't always shown: {point} ({kind}) can't say each number in its range"
            )
        }
    }
}

/// The word of a kind, as definitions have it.
pub fn kind_word(kind: Kind) -> &'static str {
    match kind {
        Kind::Int16 => "int16",
        Kind::Uint16 => "uint16",
        Kind::Acc16 => "acc16",
        Kind::Enum16 => "enum16",
        Kind::Bitfield16 => "bitfield16",
        Kind::Sunssf => "sunssf",
        Kind::Pad => "pad",
        Kind::Int32 => "int32",
        Kind::Uint32 => "uint32",
        Kind::Enum32 => "enum32",
        Kind::Bitfield32 => "bitfield32",
        Kind::Acc32 => "acc32",
        Kind::Int64 => "int64",
        Kind::Uint64 => "uint64",
        Kind::Acc64 => "acc64",
        Kind::String => "string",
    }
}
