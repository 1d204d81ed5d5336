//! What is wrong at a service after its scan.
use point_types::Items;
use service::{DeviceStatus, Service};
use service_alarms::{Alarm, AlarmSubject, Seen, wrong_now};
use std::alloc::{AllocError, Global};

/// All that is wrong at a service, as alarms tell it.
#[derive(Drop)]
pub(crate) struct Wrongs {
    alarms: Items<Alarm>,
}

impl Wrongs {
    /// What is wrong now.
    pub(crate) fn of(alloc: Global, service: &Service) -> Result<Wrongs, AllocError> {
        let devices = devices_of(alloc, service)?;
        let mut alarms = Items::new(alloc);
        let seen = Seen {
            devices: devices.as_slice(),
            outputs: &[],
            differences: &[],
            running: 0,
            is_late: false,
            is_unkept: false,
            is_refused: false,
        };
        wrong_now(&mut alarms, service.core(), &seen)?;
        Ok(Wrongs { alarms })
    }

    /// What is wrong with this; None where nothing is.
    pub(crate) fn with(&self, subject: AlarmSubject) -> Option<Alarm> {
        for alarm in self.alarms.as_slice() {
            if alarm.subject() == subject {
                return Some(*alarm);
            }
        }
        None
    }
}

/// How the devices stand.
fn devices_of(alloc: Global, service: &Service) -> Result<Items<DeviceStatus>, AllocError> {
    let mut devices = Items::new(alloc);
    for device in 0..service.core().site().devices().len() {
        if let Some(status) = service.device_status(device) {
            devices.push(status)?;
        }
    }
    Ok(devices)
}
