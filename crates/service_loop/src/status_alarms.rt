//! What is wrong at a service, as JSON.
use crate::alarm_watch::AlarmWatch;
use crate::line_writer::LineWriter;
use crate::members::{put_number, put_text};
use crate::status_tags::{put_code, put_difference};
use gateway::{Core, DEPTH};
use serde_json::{Map, Value};
use service_alarms::{Alarm, advice, cause_text, kind_word, name_text, sentence};
use std::alloc::{AllocError, Global};
use std::io::Write;

/// Each alarm, in the order of the list; the times of day are those of the lines.
pub(crate) fn alarms_value<W: Write>(
    alloc: Global,
    core: &Core<DEPTH>,
    alarm_watch: &AlarmWatch,
    line_writer: &LineWriter<'_, W>,
) -> Result<Vec<Value>, AllocError> {
    let mut values = Vec::new(alloc);
    for one in alarm_watch.standing()? {
        let began = line_writer.time_after_start(one.since)?;
        let mut value = alarm_value(alloc, core, one.alarm, alarm_watch)?;
        put_number(&mut value, alloc, "since", one.since)?;
        put_text(&mut value, alloc, "began", began.as_str())?;
        values.push(Value::Object(value))?;
    }
    Ok(values)
}

fn alarm_value(
    alloc: Global,
    core: &Core<DEPTH>,
    alarm: Alarm,
    alarm_watch: &AlarmWatch,
) -> Result<Map<String, Value>, AllocError> {
    let mut value = Map::new(alloc);
    let name = name_text(alloc, core.site(), alarm)?;
    let cause = cause_of(alloc, core, alarm, alarm_watch.refused_for())?;
    let text = sentence(alloc, core, alarm)?;
    put_text(&mut value, alloc, "kind", kind_word(alarm))?;
    put_text(&mut value, alloc, "name", name.as_str())?;
    put_text(&mut value, alloc, "cause", cause.as_str())?;
    put_more(&mut value, alloc, core, alarm)?;
    put_text(&mut value, alloc, "text", text.as_str())?;
    put_text(&mut value, alloc, "todo", advice(alarm))?;
    if let Some(place) = alarm_watch.origin(core.site(), alarm) {
        put_number(&mut value, alloc, "by", place as u64)?;
    }
    Ok(value)
}

/// Puts what alarms of one kind alone have.
fn put_more(
    value: &mut Map<String, Value>,
    alloc: Global,
    core: &Core<DEPTH>,
    alarm: Alarm,
) -> Result<(), AllocError> {
    match alarm {
        Alarm::DeviceLost(device, _)
        | Alarm::DeviceUnmapped(device)
        | Alarm::DeviceAnother(device) => put_number(value, alloc, "number", device as u64),
        Alarm::ModelMissing(want) => put_number(value, alloc, "number", want.device as u64),
        Alarm::OutputUnwritten(_, cause) => put_code(value, alloc, cause),
        Alarm::OutputDiffers(output, difference) => {
            put_difference(value, alloc, core, output, difference)
        }
        _ => Ok(()),
    }
}

fn cause_of(
    alloc: Global,
    core: &Core<DEPTH>,
    alarm: Alarm,
    refused_for: &str,
) -> Result<String, AllocError> {
    match alarm {
        Alarm::ProgramRefused => String::from_str(alloc, refused_for),
        _ => cause_text(alloc, core.site(), alarm),
    }
}
