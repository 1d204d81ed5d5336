//! Devices that sleep at night, and what is missing since they do.
ghost use Rattle.std.specs.Prelude.{◌≡◌, ◌++◌, None, OnOk, false, option_map};
ghost use Rattle.service_alarms.specs.Sleeping.{awake, device_hidden, device_of, device_of_output, device_of_tag, gone_since, is_asleep, is_gone_within, is_of_sleeper, news, of_awake, seen, sleeps_at};

use crate::alarm::{Alarm, Hidden};
use point_types::Items;
use site_model::Site;
use std::alloc::AllocError;

/// How a device sleeps: for how long it may be gone, and since when it is. Times are in seconds of whoever looks.
#[derive(Clone, Copy)]
pub struct Sleep {
    hours: Option<u8>,
    since: Option<u64>,
    is_asleep: bool,
}

/// What there is to tell of the sleep of a device.
#[derive(Clone, Copy, Debug, PartialEq, Eq)]
pub enum Slept {
    /// It sleeps from now on: it is gone.
    Asleep,
    /// It has been gone for its hours: it is missing from now on.
    Overdue,
}

impl Sleep {
    /// Of a device that may be gone for so many hours, or doesn't sleep, and isn't gone.
    pub fn new(hours: Option<u8>) -> Sleep
        ensures { result ≡ record { hours = hours; since = None; is_asleep = false } }
    {
        Sleep {
            hours,
            since: None,
            is_asleep: false,
        }
    }

    /// Now it is gone, as [`crate::is_gone`] has it, or it isn't; what there is to tell.
    pub fn see(&mut self, is_gone: bool, now: u64) -> Option<Slept>
        ensures seen { self.new ≡ seen is_gone now self.old }
        ensures told { result ≡ news is_gone self.old.is_asleep self.new.is_asleep }
    {
        let was_asleep = self.is_asleep;
        self.since = gone_since(is_gone, now, self.since);
        self.is_asleep = is_asleep(self.hours, self.since, now);
        news(is_gone, was_asleep, self.is_asleep)
    }

    /// Whether it sleeps: it is gone, for less than its hours. None where it never does.
    pub fn is_asleep(&self) -> Option<bool>
        ensures { result ≡ option_map (λ hours. self.now.is_asleep) self.now.hours }
    {
        match self.hours {
            Some(_) => Some(self.is_asleep),
            None => None,
        }
    }
}

fn is_asleep(hours: Option<u8>, since: Option<u64>, now: u64) -> bool
    ensures { result ≡ is_asleep hours since now }
{
    match (hours, since) {
        (Some(hours), Some(since)) => is_gone_within(hours, since, now),
        _ => false,
    }
}

fn news(is_gone: bool, was_asleep: bool, is_asleep: bool) -> Option<Slept>
    ensures { result ≡ news is_gone was_asleep is_asleep }
{
    if is_asleep && !was_asleep {
        Some(Slept::Asleep)
    } else if is_gone && was_asleep && !is_asleep {
        Some(Slept::Overdue)
    } else {
        None
    }
}

fn gone_since(is_gone: bool, now: u64, since: Option<u64>) -> Option<u64>
    ensures { result ≡ gone_since is_gone now since }
{
    if !is_gone {
        return None;
    }
    match since {
        Some(since) => Some(since),
        None => Some(now),
    }
}

fn is_gone_within(hours: u8, since: u64, now: u64) -> bool
    ensures { result ≡ is_gone_within hours since now }
{
    now.saturating_sub(since) < u64::from(hours).saturating_mul(3600)
}

/// From now on `alarms` are those of `all`, in order, that don't follow from the sleep of a device: those of the device itself,
/// of an input or an output of it, and of a sum of whose parts that input is the first that is missing. Which devices sleep is
/// told in their order.
pub fn leave_out_sleepers(
    alarms: &mut Items<Alarm>,
    all: &[Alarm],
    site: &Site,
    asleep: &[bool],
) -> Result<(), AllocError>
    ensures { OnOk result (alarms.new ≡ awake site.now asleep.now all.now) }
{
    alarms.clear();
    for alarm in all {
        push_awake(alarms, *alarm, site, asleep)?;
    }
    Ok(())
}

fn push_awake(
    alarms: &mut Items<Alarm>,
    alarm: Alarm,
    site: &Site,
    asleep: &[bool],
) -> Result<(), AllocError>
    ensures { OnOk result (alarms.new ≡ alarms.old ++ of_awake site.now asleep.now alarm) }
{
    if !is_of_sleeper(alarm, site, asleep) {
        alarms.push(alarm)?;
    }
    Ok(())
}

/// Whether an alarm follows from the sleep of a device.
fn is_of_sleeper(alarm: Alarm, site: &Site, asleep: &[bool]) -> bool
    ensures { result ≡ is_of_sleeper site.now asleep.now alarm }
{
    match device_of(alarm, site) {
        Some(device) => sleeps_at(asleep, device),
        None => false,
    }
}

fn sleeps_at(asleep: &[bool], device: usize) -> bool
    ensures { result ≡ sleeps_at asleep.now device }
{
    match asleep.get(device) {
        Some(is_asleep) => *is_asleep,
        None => false,
    }
}

/// The device that is gone, where an alarm is of it or of what it gives and takes.
fn device_of(alarm: Alarm, site: &Site) -> Option<usize>
    ensures { result ≡ device_of site.now alarm }
{
    match alarm {
        Alarm::DeviceLost(device, _) | Alarm::DeviceUnmapped(device) => Some(device),
        Alarm::InputMissing(tag, _) => device_of_tag(site, tag),
        Alarm::OutputUnwritten(output, _) => device_of_output(site, output),
        Alarm::OutputDiffers(output, _) => device_of_output(site, output),
        Alarm::SumHidden(_, why) => device_hidden(site, why),
        Alarm::DeviceAnother(_)
        | Alarm::ModelMissing(_)
        | Alarm::SetLapsed(_)
        | Alarm::NeverSet(_)
        | Alarm::StoredHidden(_, _)
        | Alarm::RoundLate
        | Alarm::StateUnwritten
        | Alarm::ProgramRefused => None,
    }
}

fn device_of_tag(site: &Site, tag: usize) -> Option<usize>
    ensures { result ≡ device_of_tag site.now tag }
{
    match site.tags().get(tag) {
        Some(tag) => tag.device,
        None => None,
    }
}

fn device_of_output(site: &Site, output: usize) -> Option<usize>
    ensures { result ≡ device_of_output site.now output }
{
    match site.outs().get(output) {
        Some(tag) => device_of_tag(site, *tag),
        None => None,
    }
}

/// The device of the first part of a sum that is missing.
fn device_hidden(site: &Site, why: Hidden) -> Option<usize>
    ensures { result ≡ device_hidden site.now why }
{
    match why {
        Hidden::Part(tag) => device_of_tag(site, tag),
        Hidden::NotStored | Hidden::BadScale | Hidden::Inexact | Hidden::OutOfType => None,
    }
}
