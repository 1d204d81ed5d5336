//! What is wrong, as a sentence.
use crate::alarm::{Alarm, Hidden};
use crate::devices::is_lacking;
use crate::exceptions::refusal_words;
use crate::lines::{is_of_number, unwritten_text};
use crate::met::{MetNumber, met_at};
use crate::names::{device_name, output_name, tag_name};
use crate::points::demand_at;
use crate::shown_numbers::shown_number;
use crate::words::subject_text;
use gateway::{Core, DEPTH};
use note_text::escaped;
use point_types::Cause;
use point_writer::NoWrite;
use register_map::Map;
use served_ranges::Demand;
use service::{Difference, Loss, Unwritten};
use site_model::{Site, SiteTag, Want};
use std::alloc::{AllocError, Global};

/// What is wrong, for whoever reads a list of it.
pub fn sentence(alloc: Global, core: &Core<DEPTH>, alarm: Alarm) -> Result<String, AllocError> {
    let site = core.site();
    match alarm {
        Alarm::DeviceLost(device, loss) => lost_text(alloc, device_name(site, device), loss),
        Alarm::DeviceUnmapped(device) => unmapped_text(alloc, device_name(site, device)),
        Alarm::DeviceAnother(device) => another_text(alloc, device_name(site, device)),
        Alarm::ModelMissing(want) => lacking_text(alloc, core, want),
        Alarm::InputMissing(tag, cause) => input_text(alloc, core, tag, cause),
        Alarm::OutputUnwritten(output, cause) => {
            output_text(alloc, output_name(site, output), cause)
        }
        Alarm::OutputDiffers(output, difference) => {
            differing_text(alloc, core, output, difference)
        }
        Alarm::SetLapsed(tag) => lapsed_text(alloc, site, tag),
        Alarm::NeverSet(tag) => never_set_text(alloc, site, tag),
        Alarm::SumHidden(_, why) | Alarm::StoredHidden(_, why) => {
            hidden_sentence(alloc, core.site(), alarm, why)
        }
        Alarm::RoundLate => {
            String::from_str(
                alloc,
                "a round began more than a period late within the last minute",
            )
        }
        Alarm::StateUnwritten => String::from_str(alloc, "the file of set values can't be written"),
        Alarm::ProgramRefused => {
            String::from_str(
                alloc,
                "the program in its file isn't accepted: the one before it goes on",
            )
        }
    }
}

fn lost_text(alloc: Global, name: &str, loss: Option<Loss>) -> Result<String, AllocError> {
    let name = escaped(alloc, name)?;
    let why = match loss {
        Some(Loss::Down) => "its connection is down",
        Some(Loss::Silent) => "it answers nothing in time",
        Some(Loss::Frame) => "what comes from it is no Modbus TCP",
        Some(Loss::Stale) => "it mixes up its answers",
        Some(Loss::Gateway) => "its gateway says that it doesn't answer",
        None => "it gives nothing",
    };
    let text = format!(in alloc; "{name} is lost: {why}")?;
    Ok(text)
}

fn unmapped_text(alloc: Global, name: &str) -> Result<String, AllocError> {
    let name = escaped(alloc, name)?;
    let text = format!(in alloc; "no SunSpec map was found in {name} so far")?;
    Ok(text)
}

fn another_text(alloc: Global, name: &str) -> Result<String, AllocError> {
    let name = escaped(alloc, name)?;
    let text = format!(in alloc;
        "what answers for {name} is another device than the site file says: nothing is written to it"
    )?;
    Ok(text)
}

// `NAME has no model ID, it has MODELS`.
fn lacking_text(alloc: Global, core: &Core<DEPTH>, want: Want) -> Result<String, AllocError> {
    let name = escaped(alloc, device_name(core.site(), want.device))?;
    let model = want.model;
    let mut text = format!(in alloc; "{name} has no model {model}, it has")?;
    match core.maps().get(want.device) {
        Some(Some(map)) => push_models(alloc, &mut text, map)?,
        _ => text.push_str(" no map")?,
    }
    Ok(text)
}

/// Appends the IDs of a map's models, each after a blank.
pub fn push_models(alloc: Global, text: &mut String, map: &Map) -> Result<(), AllocError> {
    for block in map.blocks() {
        let model = block.id;
        let word = format!(in alloc; " {model}")?;
        text.push_str(word.as_str())?;
    }
    Ok(())
}

// `NAME isn't written: CAUSE`, with what that means.
fn output_text(alloc: Global, name: &str, cause: Unwritten) -> Result<String, AllocError> {
    let why = unwritten_text(alloc, cause)?;
    let what = match cause {
        Unwritten::NoSetPoint(NoWrite::With) => "the tag that it goes with isn't written",
        Unwritten::NoSetPoint(_) => "there is no set point for it",
        Unwritten::Refused(exception) => refusal_words(exception),
        Unwritten::Unanswered => "its device didn't answer",
    };
    let text = format!(in alloc; "{name} isn't written ({why}): {what}")?;
    Ok(text)
}

// `the device of NAME took W and shows V: ..`.
fn differing_text(
    alloc: Global,
    core: &Core<DEPTH>,
    output: usize,
    difference: Difference,
) -> Result<String, AllocError> {
    let name = output_name(core.site(), output);
    let wrote = shown_number(alloc, core, output, difference.wrote)?;
    let shows = shown_number(alloc, core, output, difference.shows)?;
    let mut text = format!(in alloc; "the device of {name} took {wrote}")?;
    let rest = format!(in alloc; " and shows {shows}: look whether its remote control is on")?;
    text.push_str(rest.as_str())?;
    Ok(text)
}

// `no client wrote NAME for N s: ..`.
fn lapsed_text(alloc: Global, site: &Site, tag: usize) -> Result<String, AllocError> {
    let Some(tag) = site.tags().get(tag) else {
        return Ok(String::new(alloc));
    };
    let (name, seconds) = (tag.name.as_str(), tag.lapse.unwrap_or(0));
    let text = format!(in alloc;
        "no client wrote {name} for {seconds} s: the program works with its default"
    )?;
    Ok(text)
}

// `no client has written NAME since the start: ..`.
fn never_set_text(alloc: Global, site: &Site, tag: usize) -> Result<String, AllocError> {
    let name = tag_name(site, tag);
    let text = format!(in alloc;
        "no client has written {name} since the start: the program works with its default"
    )?;
    Ok(text)
}

// `POINT of model ID isn't shown: ..`.
fn hidden_sentence(
    alloc: Global,
    site: &Site,
    alarm: Alarm,
    why: Hidden,
) -> Result<String, AllocError> {
    let mut text = subject_text(alloc, site, alarm)?;
    let rest = why_hidden(alloc, site, alarm, why)?;
    text.push_str(" isn't shown: ")?;
    text.push_str(rest.as_str())?;
    Ok(text)
}

/// Why a point isn't shown.
pub fn why_hidden(
    alloc: Global,
    site: &Site,
    alarm: Alarm,
    why: Hidden,
) -> Result<String, AllocError> {
    let what = match why {
        Hidden::Part(tag) => return part_text(alloc, tag_name(site, tag)),
        Hidden::NotStored => return String::from_str(alloc, "the program stored nothing"),
        Hidden::BadScale => {
            return String::from_str(alloc, "no scale factor in -10..10 is served for it");
        }
        Hidden::Inexact => "no raw number is the value",
        Hidden::OutOfType => "its words don't hold the value",
    };
    factor_text(alloc, what, demand_at(site, alarm))
}

fn part_text(alloc: Global, name: &str) -> Result<String, AllocError> {
    let text = format!(in alloc; "{name} has no value of its own")?;
    Ok(text)
}

fn factor_text(alloc: Global, what: &str, demand: Option<Demand>) -> Result<String, AllocError> {
    let mut text = String::from_str(alloc, what)?;
    if let Some(demand) = demand {
        if let Some(factor) = demand.factor {
            let by = format!(in alloc; " by factor {factor}")?;
            text.push_str(by.as_str())?;
        }
    }
    Ok(text)
}

// `NAME has no value: ..`.
fn input_text(
    alloc: Global,
    core: &Core<DEPTH>,
    tag: usize,
    cause: Cause,
) -> Result<String, AllocError> {
    let Some(tag) = core.site().tags().get(tag) else {
        return Ok(String::new(alloc));
    };
    let name = tag.name.as_str();
    let mut text = format!(in alloc; "{name} has no value: ")?;
    let why = why_missing(alloc, core, tag, cause)?;
    text.push_str(why.as_str())?;
    Ok(text)
}

/// Why an input has no value.
pub fn why_missing(
    alloc: Global,
    core: &Core<DEPTH>,
    tag: &SiteTag,
    cause: Cause,
) -> Result<String, AllocError> {
    match met_at(core, tag) {
        Some(met) if is_of_number(cause) => number_text(alloc, tag, cause, met),
        _ => block_text(alloc, core, tag, cause),
    }
}

// Why there is no number, by the block.
fn block_text(
    alloc: Global,
    core: &Core<DEPTH>,
    tag: &SiteTag,
    cause: Cause,
) -> Result<String, AllocError> {
    let Some(device) = tag.device else {
        return Ok(String::new(alloc));
    };
    let want = Want {
        device,
        model: tag.model,
    };
    match cause {
        Cause::NoBlock if is_lacking(core.maps(), want) => lacking_text(alloc, core, want),
        Cause::NoBlock => unread_text(alloc, core.site(), want),
        Cause::ShortModel => short_text(alloc, core.site(), want),
        _ => unset_text(alloc, core.site(), want),
    }
}

fn unread_text(alloc: Global, site: &Site, want: Want) -> Result<String, AllocError> {
    let name = escaped(alloc, device_name(site, want.device))?;
    let model = want.model;
    let text = format!(in alloc; "model {model} of {name} wasn't read")?;
    Ok(text)
}

fn short_text(alloc: Global, site: &Site, want: Want) -> Result<String, AllocError> {
    let name = escaped(alloc, device_name(site, want.device))?;
    let model = want.model;
    let text = format!(in alloc;
        "model {model} of {name} ends before the point or its scale factor"
    )?;
    Ok(text)
}

fn unset_text(alloc: Global, site: &Site, want: Want) -> Result<String, AllocError> {
    let name = escaped(alloc, device_name(site, want.device))?;
    let model = want.model;
    let text = format!(in alloc; "{name} says in model {model} that it has none")?;
    Ok(text)
}

// Why the number of a point is none of its tag.
fn number_text(
    alloc: Global,
    tag: &SiteTag,
    cause: Cause,
    met: MetNumber,
) -> Result<String, AllocError> {
    let raw = met.raw;
    let Some(factor) = met.factor else {
        let text = format!(in alloc; "raw {raw} has no scale factor")?;
        return Ok(text);
    };
    let mut text = format!(in alloc; "raw {raw} by factor {factor}")?;
    let rest = rest_text(alloc, tag, cause)?;
    text.push_str(rest.as_str())?;
    Ok(text)
}

fn rest_text(alloc: Global, tag: &SiteTag, cause: Cause) -> Result<String, AllocError> {
    let (exponent, low, high) = (tag.exponent, tag.low, tag.high);
    let text = match cause {
        Cause::Inexact => format!(in alloc; " is no whole number of 10^{exponent}")?,
        Cause::OutOfRange => {
            format!(in alloc; " lies outside {low}..{high}, in units of 10^{exponent}")?
        }
        _ => String::from_str(alloc, ", which is no factor in -10..10")?,
    };
    Ok(text)
}
