//! What to do about what is missing.
use crate::alarm::{Alarm, Hidden};
use crate::devices::is_lacking;
use crate::met::met_at;
use gateway::{Core, DEPTH};
use point_types::Cause;
use site_model::{SiteTag, Want};
use std::alloc::{AllocError, Global};

/// What to do about an input or a point that is missing; empty where that of something else is what to do.
pub fn mend(alloc: Global, core: &Core<DEPTH>, alarm: Alarm) -> Result<String, AllocError> {
    match alarm {
        Alarm::InputMissing(tag, cause) => match core.site().tags().get(tag) {
            Some(tag) => input_mend(alloc, core, tag, cause),
            None => Ok(String::new(alloc)),
        },
        Alarm::SumHidden(_, why) | Alarm::StoredHidden(_, why) => {
            String::from_str(alloc, hidden_mend(why))
        }
        _ => Ok(String::new(alloc)),
    }
}

fn input_mend(
    alloc: Global,
    core: &Core<DEPTH>,
    tag: &SiteTag,
    cause: Cause,
) -> Result<String, AllocError> {
    let text = match cause {
        Cause::Inexact => return finer_mend(alloc, core, tag),
        Cause::NoBlock if lacks_model(core, tag) => {
            "give the tag a model that the device has and that has the point"
        }
        Cause::NoBlock => "look with probe whether the device answers, and which models it has",
        Cause::ShortModel => {
            "look with probe how long the model is there: a definition with its length goes in with --def"
        }
        Cause::NotImplemented => {
            "look with probe which points the device has: take another one, or give the tag a default"
        }
        Cause::BadScale => {
            "a factor is a number in -10..10: look at it with probe, and set it in the device"
        }
        Cause::OutOfRange => {
            "widen low and high of the tag, or give it another exponent; else the device says what can't be"
        }
    };
    String::from_str(alloc, text)
}

/// Whether the map of a tag's device lacks its model.
fn lacks_model(core: &Core<DEPTH>, tag: &SiteTag) -> bool {
    match tag.device {
        Some(device) => {
            let model = tag.model;
            is_lacking(core.maps(), Want { device, model })
        }
        None => false,
    }
}

/// What to do where the device counts in finer steps than the tag.
fn finer_mend(alloc: Global, core: &Core<DEPTH>, tag: &SiteTag) -> Result<String, AllocError> {
    let factor = match met_at(core, tag) {
        Some(met) => met.factor,
        None => None,
    };
    match factor {
        Some(factor) => {
            let text = format!(in alloc;
                "give the tag round = \"down\", or exponent = {factor} with low and high in these units"
            )?;
            Ok(text)
        }
        None => String::from_str(alloc, "give the tag round = \"down\", or a lower exponent"),
    }
}

fn hidden_mend(why: Hidden) -> &'static str {
    match why {
        Hidden::Part(_) => "",
        Hidden::NotStored => "store a number in each scan",
        Hidden::BadScale => "serve its scale factor with a value in -10..10",
        Hidden::Inexact =>
            "serve a scale factor that is no greater than the exponent of what is shown",
        Hidden::OutOfType => "serve a greater scale factor, or narrow the range of what is shown",
    }
}
