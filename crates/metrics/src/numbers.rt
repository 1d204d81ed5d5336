//! All numbers of a service.
use crate::alarms::push_alarms;
use crate::devices::push_devices;
use crate::program::push_program;
use crate::sheet::Sheet;
use crate::tags::push_tags;
use service::Service;
use service_alarms::StandingAlarm;
use service_texts::Start;
use std::alloc::{AllocError, Global};

/// What there is to tell of a service.
#[derive(Clone, Copy)]
pub struct Metrics<'a> {
    /// What runs.
    pub start: &'a Start,
    /// What the site is called.
    pub name: Option<&'a str>,
    /// Of each tag the unit of its values; empty where it isn't known.
    pub units: &'a [String],
    pub service: &'a Service,
    /// What is wrong after the last scan.
    pub standing: &'a [StandingAlarm],
    /// The seconds since 1970-01-01T00:00:00Z at the start, and when the last scan was told, where they are known.
    pub began_at: Option<u64>,
    pub scanned_at: Option<u64>,
    /// From one scan to the next, in milliseconds.
    pub period: u64,
    /// How many milliseconds the last round took that is over; none before.
    pub round: Option<u64>,
    /// How many rounds began late.
    pub late: u64,
    /// How many lines couldn't be written.
    pub left_out: u64,
    /// How many instructions the last scan took; none before the first one.
    pub steps: Option<u32>,
    /// How many clients there are.
    pub clients: u64,
}

/// All numbers of a service, each under its name, with what it is.
pub fn metrics_text(alloc: Global, metrics: &Metrics<'_>) -> Result<String, AllocError> {
    let mut sheet = Sheet::new(alloc);
    push_program(&mut sheet, metrics)?;
    push_devices(&mut sheet, metrics.service)?;
    push_tags(&mut sheet, metrics.service.core(), metrics.units)?;
    push_alarms(&mut sheet, metrics)?;
    Ok(sheet.into_text())
}
