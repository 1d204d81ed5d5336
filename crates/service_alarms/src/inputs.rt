//! What is missing of the inputs.
ghost use Rattle.std.specs.Prelude.{◌≡◌, ◌++◌, OnOk, slice_get};
ghost use Rattle.service_alarms.specs.Alarms.{inputs_missing, of_access, of_input, of_reading};

use crate::alarm::Alarm;
use point_types::{Items, Reading};
use site_model::{Access, SiteTag};
use std::alloc::AllocError;

/// Appends an alarm for each `in` tag that had no value of its own in these readings.
pub(crate) fn push_inputs(
    alarms: &mut Items<Alarm>,
    readings: &[Reading],
    tags: &[SiteTag],
) -> Result<(), AllocError>
    ensures { OnOk result (alarms.new ≡ alarms.old ++ inputs_missing readings.now tags.now) }
{
    for (i, tag) in tags.iter().enumerate() {
        push_input(alarms, readings, i, tag)?;
    }
    Ok(())
}

fn push_input(
    alarms: &mut Items<Alarm>,
    readings: &[Reading],
    i: usize,
    tag: &SiteTag,
) -> Result<(), AllocError>
    ensures { OnOk result (alarms.new ≡ alarms.old ++ of_input readings.now i tag.now) }
{
    match tag.access {
        Access::Input => push_missing(alarms, i, reading_at(readings, i)),
        Access::Output | Access::Setting | Access::Shown | Access::Time => Ok(()),
    }
}

fn push_missing(
    alarms: &mut Items<Alarm>,
    i: usize,
    reading: Option<Reading>,
) -> Result<(), AllocError>
    ensures { OnOk result (alarms.new ≡ alarms.old ++ of_reading i reading) }
{
    match reading {
        Some(Reading::Default(_, cause)) => alarms.push(Alarm::InputMissing(i, cause)),
        Some(Reading::Absent(cause)) => alarms.push(Alarm::InputMissing(i, cause)),
        Some(Reading::Value(_)) | None => Ok(()),
    }
}

fn reading_at(readings: &[Reading], i: usize) -> Option<Reading>
    ensures { result ≡ slice_get readings.now i }
{
    readings.get(i).copied()
}
