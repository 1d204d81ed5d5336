//! Where in a list the first alarm of each subject is.
ghost use Rattle.std.specs.Prelude.{◌≡◌, OnOk};
ghost use Rattle.std.specs.HashMap.{get};
ghost use Rattle.service_alarms.specs.Finding.{TellOfAlarms, TellOfStood, same};

use crate::alarm::{Alarm, AlarmSubject};
use crate::standing::StandingAlarm;
use std::alloc::{AllocError, Global};
use std::collections::HashMap;

/// Where the first alarm of each subject is, in the list that was noted last. It is looked up in one step, so that two long
/// lists are compared in little time. It takes memory only where a list is longer than any before.
#[derive(Drop)]
pub(crate) struct AlarmPlaces {
    numbers: HashMap<AlarmSubject, usize>,
}

impl AlarmPlaces {
    /// It tells of no alarm yet, and takes no memory.
    pub(crate) fn new(alloc: Global) -> AlarmPlaces {
        AlarmPlaces {
            numbers: HashMap::new(alloc),
        }
    }

    /// From now on it tells of these alarms. It begins with the last one, since what is put in later counts. Where memory is
    /// refused it tells of some of them only.
    pub(crate) fn note_alarms(&mut self, alarms: &[Alarm]) -> Result<(), AllocError>
        ensures { OnOk result (TellOfAlarms self.new alarms.now) }
    {
        self.numbers.clear();
        let mut i = alarms.len();
        while i > 0 {
            i -= 1;
            self.numbers.insert(alarms[i].subject(), i)?;
        }
        Ok(())
    }

    /// From now on it tells of what stood, or of some of it only, where memory is refused.
    pub(crate) fn note_stood(&mut self, stood: &[StandingAlarm]) -> Result<(), AllocError>
        ensures { OnOk result (TellOfStood self.new stood.now) }
    {
        self.numbers.clear();
        let mut i = stood.len();
        while i > 0 {
            i -= 1;
            self.numbers.insert(stood[i].alarm.subject(), i)?;
        }
        Ok(())
    }

    /// Where the first alarm of a subject is.
    pub(crate) fn first(&self, subject: AlarmSubject) -> Option<usize>
        ensures { result ≡ get same self.now.numbers subject }
    {
        self.numbers.get(&subject).copied()
    }
}
