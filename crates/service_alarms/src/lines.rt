//! The lines that tell what is missing.
ghost use Rattle.std.specs.Prelude.{◌≡◌, string_bytes, IfOk};
ghost use Rattle.service_alarms.specs.Lines as told;

use crate::alarm::Alarm;
use crate::met::{MetNumber, met_at};
use crate::names::tag_name;
use crate::words::{cause_text, missing_word, point_text, unwritten_word};
use gateway::{Core, DEPTH};
use modbus_frame::Exception;
use point_types::Cause;
use service::{ReadRefusal, Unwritten};
use site_model::SiteTag;
use std::alloc::{AllocError, Global};

/// The line of an alarm that begins; None where it has none here: devices, outputs and what lapses have lines of their own.
pub fn begun_line(
    alloc: Global,
    core: &Core<DEPTH>,
    alarm: Alarm,
) -> Option<Result<String, AllocError>> {
    match alarm {
        Alarm::InputMissing(tag, cause) => {
            let tag = core.site().tags().get(tag)?;
            Some(input_line(alloc, core, tag, cause))
        }
        Alarm::SumHidden(..) | Alarm::StoredHidden(..) => Some(hidden_line(alloc, core, alarm)),
        Alarm::NeverSet(tag) => Some(never_set_line(alloc, tag_name(core.site(), tag))),
        _ => None,
    }
}

/// The line of an alarm that is over; None where it has none here.
pub fn over_line(
    alloc: Global,
    core: &Core<DEPTH>,
    alarm: Alarm,
) -> Option<Result<String, AllocError>> {
    match alarm {
        Alarm::InputMissing(tag, _) => Some(present_line(alloc, tag_name(core.site(), tag))),
        Alarm::SumHidden(..) | Alarm::StoredHidden(..) => Some(again_line(alloc, core, alarm)),
        _ => None,
    }
}

// `input NAME missing CAUSE`, and after it what was met.
fn input_line(
    alloc: Global,
    core: &Core<DEPTH>,
    tag: &SiteTag,
    cause: Cause,
) -> Result<String, AllocError> {
    let cause = missing_text(alloc, cause, met_at(core, tag))?;
    missing_line(alloc, tag.name.as_str(), cause.as_str())
}

// `served MODEL POINT missing CAUSE`.
fn hidden_line(alloc: Global, core: &Core<DEPTH>, alarm: Alarm) -> Result<String, AllocError> {
    let point = point_text(alloc, core.site(), alarm)?;
    let cause = cause_text(alloc, core.site(), alarm)?;
    served_line(alloc, point.as_str(), cause.as_str())
}

// `served MODEL POINT shown`.
fn again_line(alloc: Global, core: &Core<DEPTH>, alarm: Alarm) -> Result<String, AllocError> {
    let point = point_text(alloc, core.site(), alarm)?;
    shown_line(alloc, point.as_str())
}

/// A cause, and where it is by the number that was met, ` raw R factor F` after it, or ` raw R` where there is no factor.
pub fn missing_text(
    alloc: Global,
    cause: Cause,
    met: Option<MetNumber>,
) -> Result<String, AllocError> {
    let mut text = String::from_str(alloc, missing_word(cause))?;
    if let (true, Some(met)) = (is_of_number(cause), met) {
        let met = met_text(alloc, met)?;
        text.push_str(met.as_str())?;
    }
    Ok(text)
}

/// Whether a cause is one that a number meets.
pub(crate) fn is_of_number(cause: Cause) -> bool {
    match cause {
        Cause::BadScale | Cause::Inexact | Cause::OutOfRange => true,
        Cause::NotImplemented | Cause::ShortModel | Cause::NoBlock => false,
    }
}

fn met_text(alloc: Global, met: MetNumber) -> Result<String, AllocError> {
    let raw = met.raw;
    let text = match met.factor {
        Some(factor) => format!(in alloc; " raw {raw} factor {factor}")?,
        None => format!(in alloc; " raw {raw}")?,
    };
    Ok(text)
}

/// `input NAME missing CAUSE`.
fn missing_line(alloc: Global, name: &str, cause: &str) -> Result<String, AllocError>
    ensures { IfOk result (λ text. string_bytes text ≡ told.missing_line name.now cause.now) }
{
    let text = format!(in alloc; "input {name} missing {cause}")?;
    Ok(text)
}

/// `input NAME present`.
fn present_line(alloc: Global, name: &str) -> Result<String, AllocError>
    ensures { IfOk result (λ text. string_bytes text ≡ told.present_line name.now) }
{
    let text = format!(in alloc; "input {name} present")?;
    Ok(text)
}

/// `set NAME never set`.
fn never_set_line(alloc: Global, name: &str) -> Result<String, AllocError>
    ensures { IfOk result (λ text. string_bytes text ≡ told.never_set_line name.now) }
{
    let text = format!(in alloc; "set {name} never set")?;
    Ok(text)
}

/// `served POINT missing CAUSE`.
fn served_line(alloc: Global, point: &str, cause: &str) -> Result<String, AllocError>
    ensures { IfOk result (λ text. string_bytes text ≡ told.served_line point.now cause.now) }
{
    let text = format!(in alloc; "served {point} missing {cause}")?;
    Ok(text)
}

/// `served POINT shown`.
fn shown_line(alloc: Global, point: &str) -> Result<String, AllocError>
    ensures { IfOk result (λ text. string_bytes text ≡ told.shown_line point.now) }
{
    let text = format!(in alloc; "served {point} shown")?;
    Ok(text)
}

/// Why an output isn't written: its word, and after `Refused` the exception code with which the device answered, where it did.
pub fn unwritten_text(alloc: Global, cause: Unwritten) -> Result<String, AllocError> {
    match cause {
        Unwritten::Refused(Some(exception)) => refused_text(alloc, exception),
        _ => String::from_str(alloc, unwritten_word(cause)),
    }
}

/// `Refused CODE`, of an output: the exception code (Modbus Application Protocol V1.1b3, section 7).
fn refused_text(alloc: Global, exception: Exception) -> Result<String, AllocError>
    ensures { IfOk result (λ text. string_bytes text ≡ told.refused_text exception) }
{
    let code = exception.0;
    let text = format!(in alloc; "Refused {code}")?;
    Ok(text)
}

/// `lacks ID`, of a device.
pub fn lacks_text(alloc: Global, model: u16) -> Result<String, AllocError>
    ensures { IfOk result (λ text. string_bytes text ≡ told.lacks_text model) }
{
    let text = format!(in alloc; "lacks {model}")?;
    Ok(text)
}

/// `refuses 3 ADDRESS CODE`, of a device: the function by which registers are read (Modbus Application Protocol V1.1b3, section
/// 6.3), the address of the first of them, and the exception code (section 7).
pub fn refuses_text(alloc: Global, refusal: ReadRefusal) -> Result<String, AllocError>
    ensures { IfOk result (λ text. string_bytes text ≡ told.refuses_text refusal) }
{
    let (address, code) = (refusal.address, refusal.code);
    let text = format!(in alloc; "refuses 3 {address} {code}")?;
    Ok(text)
}
