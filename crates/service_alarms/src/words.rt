//! Kinds, names and causes of what is wrong, as they are told.
use crate::alarm::{Alarm, Hidden};
use crate::names::{device_name, output_name, tag_name};
use crate::points::shown_point;
use note_text::escaped;
use point_types::Cause;
use service::{Loss, Unwritten};
use site_model::Site;
use std::alloc::{AllocError, Global};

/// The word of an alarm's kind.
pub fn kind_word(alarm: Alarm) -> &'static str {
    match alarm {
        Alarm::DeviceLost(..) => "device_lost",
        Alarm::DeviceUnmapped(_) => "device_unmapped",
        Alarm::DeviceAnother(_) => "another",
        Alarm::ModelMissing(_) => "model_missing",
        Alarm::InputMissing(..) => "input_missing",
        Alarm::OutputUnwritten(..) => "output_unwritten",
        Alarm::OutputDiffers(..) => "differs",
        Alarm::SetLapsed(_) => "lapsed",
        Alarm::NeverSet(_) => "never_set",
        Alarm::SumHidden(..) | Alarm::StoredHidden(..) => "served_missing",
        Alarm::RoundLate => "round_late",
        Alarm::StateUnwritten => "file_unwritten",
        Alarm::ProgramRefused => "program_refused",
    }
}

/// The name of what an alarm is of.
pub fn name_text(alloc: Global, site: &Site, alarm: Alarm) -> Result<String, AllocError> {
    let name = match alarm {
        Alarm::DeviceLost(device, _)
        | Alarm::DeviceUnmapped(device)
        | Alarm::DeviceAnother(device) => device_name(site, device),
        Alarm::ModelMissing(want) => device_name(site, want.device),
        Alarm::InputMissing(tag, _) | Alarm::SetLapsed(tag) | Alarm::NeverSet(tag) => {
            tag_name(site, tag)
        }
        Alarm::OutputUnwritten(output, _) | Alarm::OutputDiffers(output, _) => {
            output_name(site, output)
        }
        Alarm::SumHidden(..) | Alarm::StoredHidden(..) => return point_text(alloc, site, alarm),
        Alarm::RoundLate => "rounds",
        Alarm::StateUnwritten => "state",
        Alarm::ProgramRefused => "program",
    };
    escaped(alloc, name)
}

/// What an alarm is of, in a sentence: a name, or `POINT of model ID`.
pub fn subject_text(alloc: Global, site: &Site, alarm: Alarm) -> Result<String, AllocError> {
    let Some((model, point)) = shown_point(site, alarm) else {
        return name_text(alloc, site, alarm);
    };
    let point = escaped(alloc, point)?;
    let text = format!(in alloc; "{point} of model {model}")?;
    Ok(text)
}

/// The cause of an alarm, as it is told; for a model its ID. Why a program isn't accepted is known to whoever judged it.
pub fn cause_text(alloc: Global, site: &Site, alarm: Alarm) -> Result<String, AllocError> {
    let word = match alarm {
        Alarm::DeviceLost(_, Some(loss)) => loss_word(loss),
        Alarm::DeviceLost(_, None) => "Lost",
        Alarm::DeviceUnmapped(_) => "NoMap",
        Alarm::DeviceAnother(_) => "Another",
        Alarm::ModelMissing(want) => return model_text(alloc, want.model),
        Alarm::InputMissing(_, cause) => missing_word(cause),
        Alarm::OutputUnwritten(_, cause) => unwritten_word(cause),
        Alarm::OutputDiffers(..) => "Differs",
        Alarm::SetLapsed(_) => "Lapsed",
        Alarm::NeverSet(_) => "NeverSet",
        Alarm::SumHidden(_, why) | Alarm::StoredHidden(_, why) => {
            return hidden_text(alloc, site, why);
        }
        Alarm::RoundLate => "Late",
        Alarm::StateUnwritten => "Unwritten",
        Alarm::ProgramRefused => "Refused",
    };
    String::from_str(alloc, word)
}

/// `MODEL POINT`, the point that an alarm is of; empty where it is of none.
pub fn point_text(alloc: Global, site: &Site, alarm: Alarm) -> Result<String, AllocError> {
    let Some((model, point)) = shown_point(site, alarm) else {
        return Ok(String::new(alloc));
    };
    let point = escaped(alloc, point)?;
    let text = format!(in alloc; "{model} {point}")?;
    Ok(text)
}

/// Why a point doesn't show what it is to, as it is told.
pub fn hidden_text(alloc: Global, site: &Site, why: Hidden) -> Result<String, AllocError> {
    let word = match why {
        Hidden::Part(tag) => return part_text(alloc, tag_name(site, tag)),
        Hidden::NotStored => "NotStored",
        Hidden::BadScale => "BadScale",
        Hidden::Inexact => "Inexact",
        Hidden::OutOfType => "OutOfType",
    };
    String::from_str(alloc, word)
}

fn part_text(alloc: Global, name: &str) -> Result<String, AllocError> {
    let text = format!(in alloc; "Part {name}")?;
    Ok(text)
}

fn model_text(alloc: Global, model: u16) -> Result<String, AllocError> {
    let text = format!(in alloc; "{model}")?;
    Ok(text)
}

/// The word by which a loss is told.
pub fn loss_word(loss: Loss) -> &'static str {
    match loss {
        Loss::Down => "Down",
        Loss::Silent => "Silent",
        Loss::Frame => "Frame",
        Loss::Stale => "Stale",
        Loss::Gateway => "Gateway",
    }
}

/// The word by which it is told why an output isn't written.
pub fn unwritten_word(cause: Unwritten) -> &'static str {
    match cause {
        Unwritten::NoSetPoint(cause) => cause.word(),
        Unwritten::Refused(_) => "Refused",
        Unwritten::Unanswered => "Unanswered",
    }
}

/// The word by which it is told why a tag has no value of its own.
pub fn missing_word(cause: Cause) -> &'static str {
    match cause {
        Cause::NotImplemented => "NotImplemented",
        Cause::BadScale => "BadScale",
        Cause::Inexact => "Inexact",
        Cause::OutOfRange => "OutOfRange",
        Cause::ShortModel => "ShortModel",
        Cause::NoBlock => "NoBlock",
    }
}
