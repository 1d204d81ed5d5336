//! How a service stands, as JSON.
use crate::alarm_watch::AlarmWatch;
use crate::client::Client;
use crate::clients::Clients;
use crate::line_writer::LineWriter;
use crate::members::{put_list, put_number, put_text, put_truth};
use crate::round_time::RoundTime;
use crate::scan_steps::ScanSteps;
use crate::serving::Serving;
use crate::status_alarms::alarms_value;
use crate::status_devices::devices_value;
use crate::status_served::served_value;
use crate::status_tags::{outputs_value, set_value, tags_value, variables_value};
use crate::taken_outputs::TakenOutputs;
use serde_json::{Map, Value, put};
use service::Service;
use service_texts::{Addresses, Start};
use std::alloc::{AllocError, Global};
use std::io::Write;

/// What a service has counted.
#[derive(Clone, Copy)]
pub(crate) struct ServiceCounts {
    /// The whole seconds since its start.
    pub seconds: u64,
    /// The rounds that began late.
    pub late: u64,
    /// The lines that were told after their time.
    pub lines: u64,
    pub steps: ScanSteps,
    pub round: RoundTime,
}

/// The text of how a service stands at the time of its lines.
pub(crate) fn status_text<W: Write>(
    alloc: Global,
    start: &Start,
    line_writer: &LineWriter<'_, W>,
    counts: ServiceCounts,
    serving: &Serving<'_>,
    service: &Service,
    addresses: &Addresses,
    clients: &Clients,
    alarm_watch: &AlarmWatch,
    taken: &TakenOutputs,
) -> Result<String, AllocError> {
    let mut status = Map::new(alloc);
    put_list(
        &mut status,
        alloc,
        "alarms",
        alarms_value(alloc, service.core(), alarm_watch, line_writer)?,
    )?;
    put(&mut status, alloc, "started", started_value(alloc, start)?)?;
    put_text(
        &mut status,
        alloc,
        "time",
        line_writer.time_of_day()?.as_str(),
    )?;
    put_number(&mut status, alloc, "scans", service.scans())?;
    put_counts(&mut status, alloc, counts)?;
    put_site(
        &mut status,
        alloc,
        serving,
        service,
        addresses,
        clients,
        alarm_watch,
    )?;
    let outputs = outputs_value(alloc, service, taken, line_writer.now())?;
    put(&mut status, alloc, "outputs", outputs)?;
    put_list(
        &mut status,
        alloc,
        "served",
        served_value(alloc, service.core(), alarm_watch.standing()?)?,
    )?;
    put_list(
        &mut status,
        alloc,
        "clients",
        clients_value(alloc, service, clients, line_writer.now())?,
    )?;
    let mut text = Value::Object(status).to_string(alloc)?;
    text.push_str("\n")?;
    Ok(text)
}

fn put_counts(
    status: &mut Map<String, Value>,
    alloc: Global,
    counts: ServiceCounts,
) -> Result<(), AllocError> {
    put_number(status, alloc, "seconds", counts.seconds)?;
    put_number(status, alloc, "late", counts.late)?;
    put_steps(status, alloc, "steps", counts.steps.last())?;
    put_steps(status, alloc, "steps_most", counts.steps.most())?;
    put_milliseconds(status, alloc, "round_ms", counts.round.took())?;
    put_number(status, alloc, "events", counts.lines)
}

/// Puts how long something took, or null before it was over once.
fn put_milliseconds(
    status: &mut Map<String, Value>,
    alloc: Global,
    key: &str,
    took: Option<u64>,
) -> Result<(), AllocError> {
    match took {
        Some(took) => put_number(status, alloc, key, took),
        None => put(status, alloc, key, Value::Null),
    }
}

/// Puts how many instructions a scan took, or null before the first one.
fn put_steps(
    status: &mut Map<String, Value>,
    alloc: Global,
    key: &str,
    steps: Option<u32>,
) -> Result<(), AllocError> {
    match steps {
        Some(steps) => put_number(status, alloc, key, u64::from(steps)),
        None => put(status, alloc, key, Value::Null),
    }
}

/// What runs since when.
fn started_value(alloc: Global, start: &Start) -> Result<Value, AllocError> {
    let mut started = Map::new(alloc);
    put_text(&mut started, alloc, "time", start.time.as_str())?;
    put_text(&mut started, alloc, "version", start.version)?;
    put_text(&mut started, alloc, "site", start.site.as_str())?;
    put_text(&mut started, alloc, "program", start.program.as_str())?;
    Ok(Value::Object(started))
}

/// Puts what the site's parts are to it.
fn put_site(
    status: &mut Map<String, Value>,
    alloc: Global,
    serving: &Serving<'_>,
    service: &Service,
    addresses: &Addresses,
    clients: &Clients,
    alarm_watch: &AlarmWatch,
) -> Result<(), AllocError> {
    let core = service.core();
    put_list(
        status,
        alloc,
        "devices",
        devices_value(alloc, serving, service, addresses, alarm_watch)?,
    )?;
    put(status, alloc, "tags", tags_value(alloc, core, clients)?)?;
    put(status, alloc, "set", set_value(alloc, core)?)?;
    put(status, alloc, "variables", variables_value(alloc, core)?)
}

/// Each client, so many milliseconds after the start.
fn clients_value(
    alloc: Global,
    service: &Service,
    clients: &Clients,
    now: u64,
) -> Result<Vec<Value>, AllocError> {
    let mut values = Vec::new(alloc);
    for place in 0..clients.places() {
        if let Some(client) = clients.at(place) {
            let requests = service.client_requests(place);
            values.push(client_value(alloc, client, requests, now)?)?;
        }
    }
    Ok(values)
}

fn client_value(
    alloc: Global,
    client: &Client,
    requests: u64,
    now: u64,
) -> Result<Value, AllocError> {
    let (mut value, record) = (Map::new(alloc), client.record);
    let address = client.address.to_string(alloc)?;
    put_text(&mut value, alloc, "address", address.as_str())?;
    put_truth(&mut value, alloc, "may_write", record.may_write)?;
    put_number(&mut value, alloc, "requests", requests)?;
    put_number(&mut value, alloc, "writes", record.writes)?;
    put_number(&mut value, alloc, "refused", record.refused)?;
    put_number(&mut value, alloc, "age", record.age(now))?;
    put_number(&mut value, alloc, "idle", record.idle(now))?;
    Ok(Value::Object(value))
}
