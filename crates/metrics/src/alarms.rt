//! What is wrong.
use crate::numbers::Metrics;
use crate::sheet::Sheet;
use service_alarms::{
    Alarm, StandingAlarm, cause_text, kind_word, output_name, shown_point, unwritten_word,
};
use site_model::Site;
use std::alloc::AllocError;

/// The kinds of alarms, as they are told.
const KINDS: [&str; 13] = [
    "device_lost",
    "device_unmapped",
    "another",
    "model_missing",
    "input_missing",
    "output_unwritten",
    "differs",
    "lapsed",
    "never_set",
    "served_missing",
    "round_late",
    "file_unwritten",
    "program_refused",
];

pub(crate) fn push_alarms(sheet: &mut Sheet, metrics: &Metrics<'_>) -> Result<(), AllocError> {
    let site = metrics.service.core().site();
    sheet.gauge(
        "sunsite_output_unwritten",
        "1 for each out tag that isn't written.",
    )?;
    for one in metrics.standing {
        push_output(sheet, site, one.alarm)?;
    }
    sheet.gauge(
        "sunsite_served_missing",
        "1 for each point that clients read as not implemented.",
    )?;
    for one in metrics.standing {
        push_point(sheet, site, one.alarm)?;
    }
    sheet.gauge("sunsite_alarms", "How many alarms stand of a kind.")?;
    for kind in KINDS {
        sheet.labelled(
            "sunsite_alarms",
            &[("kind", kind)],
            count_of(metrics.standing, kind),
        )?;
    }
    Ok(())
}

fn push_output(sheet: &mut Sheet, site: &Site, alarm: Alarm) -> Result<(), AllocError> {
    match alarm {
        Alarm::OutputUnwritten(output, cause) => {
            let labels = [
                ("tag", output_name(site, output)),
                ("cause", unwritten_word(cause)),
            ];
            sheet.labelled("sunsite_output_unwritten", &labels, 1)
        }
        _ => Ok(()),
    }
}

fn push_point(sheet: &mut Sheet, site: &Site, alarm: Alarm) -> Result<(), AllocError> {
    let Some((model, point)) = shown_point(site, alarm) else {
        return Ok(());
    };
    let (model, point) = (
        model.to_string(sheet.alloc)?,
        String::from_str(sheet.alloc, point)?,
    );
    let cause = cause_text(sheet.alloc, site, alarm)?;
    let labels = [
        ("model", model.as_str()),
        ("point", point.as_str()),
        ("cause", cause.as_str()),
    ];
    sheet.labelled("sunsite_served_missing", &labels, 1)
}

/// How many of these alarms are of a kind.
fn count_of(standing: &[StandingAlarm], kind: &str) -> u64 {
    let mut count: u64 = 0;
    for one in standing {
        if kind_word(one.alarm) == kind {
            count = count.saturating_add(1);
        }
    }
    count
}
