//! What is noted of a program that the verdict refuses.
use crate::refusal_note::RefusalNote;
use il_reader::Program;
use note_text::nearer;
use point_types::Name;
use program_notes::{address_of, detail_of, is_divided_by_zero, mend_of, name_in, tag_name};
use scan_code::{Image, decode};
use site_model::Site;
use std::alloc::{AllocError, Global};
use verifier::{Refusal, RefusalKind, Refused, RefusedAt};

/// The cause of a refusal, with the line that it speaks of and what is known there. Where memory for a part of it is
/// refused, it goes without.
pub(crate) fn cause_of_refusal(
    alloc: Global,
    program: &Program,
    site: &Site,
    refused: &Refused,
) -> RefusalNote {
    let refusal = Refusal {
        at: refused.at,
        kind: refused.kind,
    };
    let detail = detail_of(alloc, program, &refused.image, site, &refusal);
    let line = match &detail {
        Ok(detail) => detail.line,
        Err(_) => 0,
    };
    let mut cause = RefusalNote::unverified(alloc, refused.kind, line);
    if let Some(name) = refused_name(refused) {
        let _ = cause.name.push_str(name.as_str());
    }
    if let Ok(detail) = detail {
        cause.detail = detail.text;
    }
    if let RefusedAt::Instruction(number) = refused.at {
        let _ = cause.tell_closing(alloc, program, number);
    }
    match refused.kind {
        RefusalKind::TagUnknown => {
            let _ = push_tag_meant(alloc, &mut cause, site);
        }
        RefusalKind::WrongType => {
            let _ = put_mend(alloc, &mut cause, site, refused);
        }
        RefusalKind::ZeroDivisor => put_divisor(alloc, &mut cause, site, refused),
        RefusalKind::StoreRange => {
            let _ = push_step(alloc, &mut cause, site, refused);
        }
        _ => {}
    }
    cause
}

/// The help on a divisor that is always 0.
const NO_DIVISOR: &str = "divide by another number: no scan could go on after this";

/// Puts in that another divisor is wanted, where it is always 0.
fn put_divisor(alloc: Global, cause: &mut RefusalNote, site: &Site, refused: &Refused) {
    if let RefusedAt::Instruction(number) = refused.at {
        if is_divided_by_zero(alloc, &refused.image, site, number) {
            cause.help = NO_DIVISOR;
        }
    }
}

/// Appends the tag of the site that may be meant.
fn push_tag_meant(alloc: Global, cause: &mut RefusalNote, site: &Site) -> Result<(), AllocError> {
    let Some(meant) = tag_meant(site, cause.name.as_str()) else {
        return Ok(());
    };
    let question = format!(in alloc; "; did you mean {meant}?")?;
    cause.detail.push_str(question.as_str())
}

/// The name of the site's tag that is nearest to a written one.
fn tag_meant<'a>(site: &'a Site, written: &str) -> Option<&'a str> {
    let mut found = None;
    for tag in site.tags() {
        found = nearer(found, tag.name.as_str(), written);
    }
    found.map(|near| near.name)
}

/// Appends in which steps a tag counts that is stored, where that isn't in ones.
fn push_step(
    alloc: Global,
    cause: &mut RefusalNote,
    site: &Site,
    refused: &Refused,
) -> Result<(), AllocError> {
    let Some(exponent) = exponent_of(site, &refused.image, cause.name.as_str()) else {
        return Ok(());
    };
    match step_word(exponent) {
        Some(word) => cause.detail.push_str(word),
        None => {
            let text = format!(in alloc; " in steps of 10^{exponent}")?;
            cause.detail.push_str(text.as_str())
        }
    }
}

/// The exponent of the site's tag of a name that the program has as a tag.
fn exponent_of(site: &Site, image: &Image, name: &str) -> Option<i8> {
    for tag in image.tags.as_slice() {
        if tag.name.as_str() == name {
            let number = site.tag(name)?;
            let tag = site.tags().get(number)?;
            return Some(tag.exponent);
        }
    }
    None
}

/// In what a number of 10^exponent counts.
fn step_word(exponent: i8) -> Option<&'static str> {
    match exponent {
        -3 => Some(" in thousandths"),
        -2 => Some(" in hundredths"),
        -1 => Some(" in tenths"),
        0 => Some(""),
        1 => Some(" in tens"),
        2 => Some(" in hundreds"),
        3 => Some(" in thousands"),
        _ => None,
    }
}

/// Puts in what mends two types that don't agree.
fn put_mend(
    alloc: Global,
    cause: &mut RefusalNote,
    site: &Site,
    refused: &Refused,
) -> Result<(), AllocError> {
    let RefusedAt::Instruction(number) = refused.at else {
        return Ok(());
    };
    let Some(mend) = mend_of(alloc, &refused.image, site, number) else {
        return Ok(());
    };
    cause.name = mend.name(alloc)?;
    cause.help = mend.help();
    Ok(())
}

/// The name of the variable or the tag that is refused.
fn refused_name(refused: &Refused) -> Option<Name> {
    match refused.at {
        RefusedAt::Instruction(number) => instruction_name(&refused.image, number),
        RefusedAt::Tag(number) => tag_name(&refused.image, number),
        RefusedAt::Program => None,
    }
}

fn instruction_name(image: &Image, number: usize) -> Option<Name> {
    let code = image.code.as_slice();
    let address = address_of(code, number)?;
    let (op, _) = decode(code, address)?;
    name_in(image, op)
}
