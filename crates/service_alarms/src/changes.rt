//! What changed in what is wrong.
ghost use Rattle.std.specs.Prelude.{Decides, List, OnOk, length, slice_get};
ghost use Rattle.service_alarms.specs.Changing.{AreBegun, AreOf, AreOver, IsChange, NextBegun, NextOver, Stood};
ghost use Rattle.service_alarms.specs.Finding.{TellOfAlarms, TellOfStood};
ghost use Rattle.service_alarms.specs.declared.alarm.Alarm.{Alarm};

use crate::alarm::{Alarm, AlarmSubject, is_one};
use crate::places::AlarmPlaces;
use crate::standing::{StandingAlarm, from_first};
use point_types::Items;
use std::alloc::{AllocError, Global};

/// What changed from one list of alarms to the next one.
#[derive(Drop)]
pub struct Changes {
    /// Where the first alarm of each subject is, of those that were seen last.
    places: AlarmPlaces,
    /// The alarms that didn't stand before, with this cause.
    pub begun: Items<Alarm>,
    /// Those that stood before, of which nothing is wrong any more.
    pub over: Items<Alarm>,
}

impl Changes {
    /// Nothing changed.
    pub fn new(alloc: Global) -> Changes {
        Changes {
            places: AlarmPlaces::new(alloc),
            begun: Items::new(alloc),
            over: Items::new(alloc),
        }
    }

    /// From now on it is what changed from what stood, of which the places tell, to these alarms.
    pub(crate) fn see(
        &mut self,
        stood: &[StandingAlarm],
        places: &AlarmPlaces,
        alarms: &[Alarm],
    ) -> Result<(), AllocError>
        requires { TellOfStood places.now stood.now }
        ensures { OnOk result (IsChange stood.now alarms.now self.new.begun self.new.over) }
    {
        fill_begun(&mut self.begun, stood, places, alarms)?;
        self.places.note_alarms(alarms)?;
        fill_over(&mut self.over, stood, &self.places)
    }

    /// The place of the first alarm of a subject, of those that were seen last.
    pub(crate) fn place_of(&self, subject: AlarmSubject) -> Option<usize> {
        self.places.first(subject)
    }
}

fn fill_begun(
    begun: &mut Items<Alarm>,
    stood: &[StandingAlarm],
    places: &AlarmPlaces,
    alarms: &[Alarm],
) -> Result<(), AllocError>
    requires { TellOfStood places.now stood.now }
    ensures { OnOk result (AreBegun stood.now alarms.now (length alarms.now) begun.new) }
{
    begun.clear();
    for i in 0..alarms.len() {
        push_begun(begun, stood, places, alarms, i)?;
    }
    Ok(())
}

fn fill_over(
    over: &mut Items<Alarm>,
    stood: &[StandingAlarm],
    places: &AlarmPlaces,
) -> Result<(), AllocError>
    ensures { (alarms : List Alarm) → TellOfAlarms places.now alarms → OnOk result (AreOver stood.now alarms (length stood.now) over.new) }
{
    over.clear();
    for i in 0..stood.len() {
        push_over(over, stood, places, i)?;
    }
    Ok(())
}

fn push_begun(
    begun: &mut Items<Alarm>,
    stood: &[StandingAlarm],
    places: &AlarmPlaces,
    alarms: &[Alarm],
    i: usize,
) -> Result<(), AllocError>
    requires { TellOfStood places.now stood.now }
    ensures { OnOk result (NextBegun stood.now (slice_get alarms.now i) begun.old begun.new) }
{
    match alarms.get(i) {
        Some(alarm) if !has_stood(stood, places, *alarm) => begun.push(*alarm),
        _ => Ok(()),
    }
}

fn push_over(
    over: &mut Items<Alarm>,
    stood: &[StandingAlarm],
    places: &AlarmPlaces,
    i: usize,
) -> Result<(), AllocError>
    ensures { (alarms : List Alarm) → TellOfAlarms places.now alarms → OnOk result (NextOver alarms (slice_get stood.now i) over.old over.new) }
{
    match stood.get(i) {
        Some(before) if !are_of(places, before.alarm.subject()) => over.push(before.alarm),
        _ => Ok(()),
    }
}

/// Whether an alarm stood, with its cause.
fn has_stood(stood: &[StandingAlarm], places: &AlarmPlaces, alarm: Alarm) -> bool
    requires { TellOfStood places.now stood.now }
    ensures { Decides result (Stood stood.now alarm) }
{
    is_among(from_first(stood, places, alarm.subject()), alarm)
}

/// Whether an alarm is among these, with its cause. They begin with the first of its subject, which mostly is the one.
fn is_among(stood: &[StandingAlarm], alarm: Alarm) -> bool
    ensures { Decides result (Stood stood.now alarm) }
{
    for before in stood {
        if is_one(before.alarm, alarm) {
            return true;
        }
    }
    false
}

/// Whether some alarm is of a subject, of those that the places tell of.
fn are_of(places: &AlarmPlaces, subject: AlarmSubject) -> bool
    ensures { (alarms : List Alarm) → TellOfAlarms places.now alarms → Decides result (AreOf alarms subject) }
{
    places.first(subject).is_some()
}
