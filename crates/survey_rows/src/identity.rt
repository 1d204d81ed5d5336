//! Who made a device, and which one it is, by its common model (SunSpec Device Information Model Specification, model 1).
use crate::point_name::definition_of;
use crate::survey::Survey;
use model_defs::ModelDef;
use service_alarms::{Said, push_label};
use site_model::Want;
use site_model::wants::place_of_want;
use std::alloc::{AllocError, Global};

/// The common model.
const COMMON: u16 = 1;

/// Appends ` Mn TEXT Md TEXT SN TEXT` of a device, with `-` for a text that isn't known or is empty.
pub(crate) fn push_identity(
    alloc: Global,
    text: &mut String,
    survey: &Survey<'_>,
    device: usize,
) -> Result<(), AllocError> {
    let said = said_by(survey, device);
    for (name, registers) in [("Mn", said.maker), ("Md", said.model), ("SN", said.serial)] {
        text.push_str(" ")?;
        text.push_str(name)?;
        text.push_str(" ")?;
        push_label(alloc, text, registers)?;
    }
    Ok(())
}

/// What a device says of itself, as far as it is known.
pub(crate) fn said_by<'a>(survey: &Survey<'a>, device: usize) -> Said<'a> {
    let words = common_words(survey, device);
    let model = definition_of(survey.models, COMMON);
    Said {
        maker: text_words(model, "Mn", words),
        model: text_words(model, "Md", words),
        serial: text_words(model, "SN", words),
    }
}

/// Whether a device has a map, and its common model was asked for where the map has that.
pub(crate) fn is_asked(survey: &Survey<'_>, device: usize) -> bool {
    let core = survey.service.core();
    let want = Want {
        device,
        model: COMMON,
    };
    match core.maps().get(device) {
        Some(Some(_)) => place_of_want(core.site().wants(), want).is_some(),
        _ => false,
    }
}

/// The words of a device's common model, as far as they are known.
fn common_words<'a>(survey: &Survey<'a>, device: usize) -> &'a [u16] {
    let core = survey.service.core();
    let want = Want {
        device,
        model: COMMON,
    };
    let Some(place) = place_of_want(core.site().wants(), want) else {
        return &[];
    };
    match core.scanned().get(place) {
        Some(Some(words)) => words.as_slice(),
        _ => &[],
    }
}

/// The words of a text of a model; none where they aren't known.
fn text_words<'a>(model: Option<&ModelDef>, name: &str, words: &'a [u16]) -> &'a [u16] {
    let Some(model) = model else {
        return &[];
    };
    let Some(number) = model.find(name) else {
        return &[];
    };
    let Some(point) = model.points.as_slice().get(number) else {
        return &[];
    };
    let start = usize::from(point.offset);
    let end = start.saturating_add(usize::from(point.size));
    words.get(start..end).unwrap_or(&[])
}
