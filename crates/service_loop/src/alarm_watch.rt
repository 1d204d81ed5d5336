//! What is looked at to see what is wrong.
use crate::kept_files::KeptFiles;
use crate::nights::Nights;
use crate::paces::Paces;
use crate::program_watch::ProgramRefusal;
use point_types::Items;
use service::{DeviceStatus, Difference, OutputState, Service};
use service_alarms::{
    Alarm, Changes, Seen, Slept, StandingAlarm, Watch, leave_out_sleepers, wrong_now,
};
use site_model::Site;
use std::alloc::{AllocError, Global};

/// How long a round that began late is an alarm, in milliseconds.
const LATE_FOR: u64 = 60_000;

/// What is wrong at a service, as it was after the last scan.
#[derive(Drop)]
pub(crate) struct AlarmWatch {
    watch: Watch,
    /// Room for how the devices stand, for what became of the outputs and how their devices show them, and for what is wrong: memory
    /// is taken only where a list is longer than any before.
    devices: Items<DeviceStatus>,
    outputs: Items<Option<OutputState>>,
    differences: Items<Option<Difference>>,
    wrong: Items<Alarm>,
    alarms: Items<Alarm>,
    /// Which devices sleep.
    nights: Nights,
    /// Which devices don't keep up.
    paces: Paces,
    /// Whether that is what was wrong after the last scan: memory for it may be refused.
    is_of_now: bool,
    /// When a round began late last, in milliseconds since the start.
    late_at: Option<u64>,
    /// Why the program in its file doesn't run; None where it does.
    refusal: Option<ProgramRefusal>,
}

impl AlarmWatch {
    /// Nothing was looked at yet of so many devices, which may be gone for so many hours in their sleep.
    pub(crate) fn new(
        alloc: Global,
        devices: usize,
        hours: &[Option<u8>],
    ) -> Result<AlarmWatch, AllocError> {
        Ok(AlarmWatch {
            watch: Watch::new(alloc),
            devices: Items::new(alloc),
            outputs: Items::new(alloc),
            differences: Items::new(alloc),
            wrong: Items::new(alloc),
            alarms: Items::new(alloc),
            nights: Nights::new(alloc, devices, hours)?,
            paces: Paces::new(alloc, devices)?,
            is_of_now: true,
            late_at: None,
            refusal: None,
        })
    }

    /// A round began late.
    pub(crate) fn came_late(&mut self, now: u64) {
        self.late_at = Some(now);
    }

    /// The program in its file is refused.
    pub(crate) fn refuse(&mut self, refusal: ProgramRefusal) {
        self.refusal = Some(refusal);
    }

    /// The program in its file runs.
    pub(crate) fn settle(&mut self) {
        self.refusal = None;
    }

    /// Why the program in its file is refused; empty where it isn't.
    pub(crate) fn refused_for(&self) -> &str {
        match &self.refusal {
            Some(refusal) => refusal.words(),
            None => "",
        }
    }

    /// Looks what is wrong after a scan, and gives what changed. Where memory is refused the next scan is told of in its place.
    pub(crate) fn look(
        &mut self,
        service: &Service,
        files: &KeptFiles<'_>,
        now: u64,
    ) -> Result<&Changes, AllocError> {
        let seen = self.see(service, files, now);
        self.is_of_now = seen.is_ok();
        match seen {
            Ok(()) => Ok(self.watch.changes()),
            Err(AllocError) => Err(AllocError),
        }
    }

    fn see(
        &mut self,
        service: &Service,
        files: &KeptFiles<'_>,
        now: u64,
    ) -> Result<(), AllocError> {
        self.see_devices(service)?;
        self.nights.see(self.devices.as_slice(), now / 1000);
        self.see_outputs(service)?;
        let seen = Seen {
            devices: self.devices.as_slice(),
            outputs: self.outputs.as_slice(),
            differences: self.differences.as_slice(),
            running: now,
            is_late: is_late(self.late_at, now),
            is_unkept: files.is_unkept(),
            is_refused: self.refusal.is_some(),
        };
        wrong_now(&mut self.wrong, service.core(), &seen)?;
        leave_out_sleepers(
            &mut self.alarms,
            self.wrong.as_slice(),
            service.core().site(),
            self.nights.asleep(),
        )?;
        self.watch.see(self.alarms.as_slice(), now / 1000)
    }

    // How the devices stand.
    fn see_devices(&mut self, service: &Service) -> Result<(), AllocError> {
        self.devices.clear();
        for device in 0..service.core().site().devices().len() {
            if let Some(status) = service.device_status(device) {
                self.devices.push(status)?;
            }
        }
        Ok(())
    }

    // What became of the outputs, and how their devices show them.
    fn see_outputs(&mut self, service: &Service) -> Result<(), AllocError> {
        self.outputs.clear();
        self.differences.clear();
        for output in 0..service.core().site().outs().len() {
            self.outputs.push(service.output_state(output))?;
            self.differences.push(service.difference(output))?;
        }
        Ok(())
    }

    /// What is told of a device's sleep after the last scan, where that changed.
    pub(crate) fn news_of_sleep(&self, device: usize) -> Option<Slept> {
        self.nights.news(device)
    }

    /// Whether a device sleeps, or None where it never does.
    pub(crate) fn is_asleep(&self, device: usize) -> Option<bool> {
        self.nights.is_asleep(device)
    }

    /// In which of so many rounds a device is read and written, where that is to be told after the last scan.
    pub(crate) fn news_of_pace(&mut self, device: usize) -> Option<u64> {
        let status = self.devices.as_slice().get(device).copied();
        self.paces.see(device, status)
    }

    /// The place, in what was wrong after the last scan, of the alarm that one of them follows from; None where there is none.
    pub(crate) fn origin(&self, site: &Site, alarm: Alarm) -> Option<usize> {
        self.watch.origin(site, alarm)
    }

    /// What was wrong after the last scan; AllocError where memory for it was refused.
    pub(crate) fn standing(&self) -> Result<&[StandingAlarm], AllocError> {
        if self.is_of_now {
            Ok(self.watch.standing())
        } else {
            Err(AllocError)
        }
    }
}

fn is_late(late_at: Option<u64>, now: u64) -> bool {
    match late_at {
        Some(at) => now < at.saturating_add(LATE_FOR),
        None => false,
    }
}
