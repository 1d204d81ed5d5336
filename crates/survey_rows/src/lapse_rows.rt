//! The rows of how long what clients set counts, where devices have a time of their own for that.
use crate::point_name::point_name;
use crate::reversion::reversion_point;
use crate::row::Rows;
use crate::survey::Survey;
use note_text::push_escaped;
use site_model::{Access, SiteTag};
use std::alloc::{AllocError, Global};

/// A row for each `set` tag for whose point a time stands beside it, which ends nothing in the gateway.
pub(crate) fn lapse_rows(alloc: Global, survey: &Survey<'_>) -> Result<Rows, AllocError> {
    let mut rows = Rows::new(alloc);
    for tag in survey.site.tags() {
        if tag.access == Access::Setting {
            push_lapse(alloc, &mut rows, survey, tag)?;
        }
    }
    Ok(rows)
}

fn push_lapse(
    alloc: Global,
    rows: &mut Rows,
    survey: &Survey<'_>,
    tag: &SiteTag,
) -> Result<(), AllocError> {
    let point = point_name(survey.models, tag);
    match reversion_point(tag.model, point) {
        Some(time) => {
            let subject = lapse_subject(alloc, tag, point)?;
            rows.push(subject, lapse_text(alloc, tag, time)?, false)
        }
        None => Ok(()),
    }
}

/// `lapse NAME MODEL POINT`.
fn lapse_subject(alloc: Global, tag: &SiteTag, point: &str) -> Result<String, AllocError> {
    let (name, model) = (tag.name.as_str(), tag.model);
    let mut text = format!(in alloc; "lapse {name} {model} ")?;
    push_escaped(&mut text, point)?;
    Ok(text)
}

/// When what clients set ends, and that their own time doesn't end it.
fn lapse_text(alloc: Global, tag: &SiteTag, time: &str) -> Result<String, AllocError> {
    match tag.lapse {
        Some(seconds) => {
            format!(in alloc; "{seconds} s: by the tag's lapse; {time} of clients ends nothing")
        }
        None => {
            format!(in alloc;
                "never: what clients set stays, and their {time} ends nothing; lapse of the tag would"
            )
        }
    }
}
