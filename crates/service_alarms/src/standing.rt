//! Since when something is wrong.
ghost use Rattle.std.specs.Prelude.{◌≡◌, [], OnErr, OnOk, length, slice_get};
ghost use Rattle.service_alarms.specs.Changing.{AreStanding, IsChange, IsSince, NextStanding};
ghost use Rattle.service_alarms.specs.Finding.{TellOfStood, from_first};

use crate::alarm::{Alarm, AlarmSubject, is_same};
use crate::changes::Changes;
use crate::origins::Origins;
use crate::places::AlarmPlaces;
use point_types::Items;
use site_model::Site;
use std::alloc::{AllocError, Global};

/// An alarm, and since when something is wrong with what it is of, in seconds of whoever looks; the cause may be a later one.
#[derive(Clone, Copy, Debug, PartialEq, Eq)]
pub struct StandingAlarm {
    pub alarm: Alarm,
    pub since: u64,
}

/// What is wrong, and since when, by the list that was seen last, and what that list changed. It takes memory only where a
/// list is longer than any before.
#[derive(Drop)]
pub struct Watch {
    standing: Items<StandingAlarm>,
    /// Room for those that come next.
    next: Items<StandingAlarm>,
    /// Where the first of each subject was, of what stood before.
    places: AlarmPlaces,
    changes: Changes,
}

impl Watch {
    /// Nothing was seen yet.
    pub fn new(alloc: Global) -> Watch
        ensures { result.standing ≡ [] }
    {
        Watch {
            standing: Items::new(alloc),
            next: Items::new(alloc),
            places: AlarmPlaces::new(alloc),
            changes: Changes::new(alloc),
        }
    }

    /// What is wrong, in the order of the list that was seen last.
    pub fn standing(&self) -> &[StandingAlarm]
        ensures { result.now ≡ self.now.standing }
    {
        self.standing.as_slice()
    }

    /// What the list that was seen last changed.
    pub fn changes(&self) -> &Changes
        ensures { result.now ≡ self.now.changes }
    {
        &self.changes
    }

    /// The place, in that order, of the alarm that one of them follows from; None where it follows from none.
    pub fn origin(&self, site: &Site, alarm: Alarm) -> Option<usize> {
        let origins = Origins::of(site, alarm);
        match self.place_of(origins.first) {
            Some(place) => Some(place),
            None => self.place_of(origins.second),
        }
    }

    fn place_of(&self, subject: Option<AlarmSubject>) -> Option<usize> {
        match subject {
            Some(subject) => self.changes.place_of(subject),
            None => None,
        }
    }

    /// From now on these are the alarms, and this changed; where memory is refused, what stands stays.
    pub fn see(&mut self, alarms: &[Alarm], now: u64) -> Result<(), AllocError>
        ensures seen { OnOk result (AreStanding self.old.standing alarms.now now (length alarms.now) self.new.standing) }
        ensures changed { OnOk result (IsChange self.old.standing alarms.now self.new.changes.begun self.new.changes.over) }
        ensures refused { OnErr result (self.new.standing ≡ self.old.standing) }
    {
        self.places.note_stood(self.standing.as_slice())?;
        self.changes
            .see(self.standing.as_slice(), &self.places, alarms)?;
        fill_standing(
            &mut self.next,
            self.standing.as_slice(),
            &self.places,
            alarms,
            now,
        )?;
        std::mem::swap(&mut self.standing, &mut self.next);
        Ok(())
    }
}

/// These alarms, each since when its subject had one, or since now.
fn fill_standing(
    standing: &mut Items<StandingAlarm>,
    stood: &[StandingAlarm],
    places: &AlarmPlaces,
    alarms: &[Alarm],
    now: u64,
) -> Result<(), AllocError>
    requires { TellOfStood places.now stood.now }
    ensures { OnOk result (AreStanding stood.now alarms.now now (length alarms.now) standing.new) }
{
    standing.clear();
    for i in 0..alarms.len() {
        push_standing(standing, stood, places, alarms, now, i)?;
    }
    Ok(())
}

fn push_standing(
    standing: &mut Items<StandingAlarm>,
    stood: &[StandingAlarm],
    places: &AlarmPlaces,
    alarms: &[Alarm],
    now: u64,
    i: usize,
) -> Result<(), AllocError>
    requires { TellOfStood places.now stood.now }
    ensures { OnOk result (NextStanding stood.now now (slice_get alarms.now i) standing.old standing.new) }
{
    match alarms.get(i) {
        Some(alarm) => standing.push(StandingAlarm {
            alarm: *alarm,
            since: since_of(stood, places, alarm.subject(), now),
        }),
        None => Ok(()),
    }
}

/// Since when the first of a subject stood, or from now on.
fn since_of(stood: &[StandingAlarm], places: &AlarmPlaces, subject: AlarmSubject, now: u64) -> u64
    requires { TellOfStood places.now stood.now }
    ensures { IsSince stood.now now subject result }
{
    since_among(from_first(stood, places, subject), subject, now)
}

fn since_among(stood: &[StandingAlarm], subject: AlarmSubject, now: u64) -> u64
    ensures { IsSince stood.now now subject result }
{
    for before in stood {
        if is_same(before.alarm.subject(), subject) {
            return before.since;
        }
    }
    now
}

/// What stood, from the first of a subject on.
pub(crate) fn from_first<'a>(
    stood: &'a [StandingAlarm],
    places: &AlarmPlaces,
    subject: AlarmSubject,
) -> &'a [StandingAlarm]
    requires { TellOfStood places.now stood.now }
    ensures { result.now ≡ from_first stood.now subject }
{
    match places.first(subject) {
        Some(i) => stood.split_at(i).1,
        None => &[],
    }
}
