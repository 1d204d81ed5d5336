//! Which devices sleep at night.
use service::DeviceStatus;
use service_alarms::{Sleep, Slept, is_gone};
use std::alloc::{AllocError, Global};

/// Which devices sleep, by the hours that the site file gives them.
#[derive(Drop)]
pub(crate) struct Nights {
    nights: Vec<Night>,
    /// Of each device, whether it sleeps.
    asleep: Vec<bool>,
}

/// How a device sleeps.
#[derive(Clone, Copy)]
struct Night {
    sleep: Sleep,
    /// What there is to tell of it.
    news: Option<Slept>,
}

impl Nights {
    /// Nothing was seen of so many devices yet, which may be gone for so many hours.
    pub(crate) fn new(
        alloc: Global,
        devices: usize,
        hours: &[Option<u8>],
    ) -> Result<Nights, AllocError> {
        let mut nights = Vec::with_capacity(alloc, devices)?;
        let mut asleep = Vec::with_capacity(alloc, devices)?;
        for device in 0..devices {
            nights.push(Night {
                sleep: Sleep::new(hours_at(hours, device)),
                news: None,
            })?;
            asleep.push(false)?;
        }
        Ok(Nights { nights, asleep })
    }

    /// So the devices stand now, in seconds since the start.
    pub(crate) fn see(&mut self, devices: &[DeviceStatus], now: u64) {
        for (device, status) in devices.iter().enumerate() {
            self.see_one(device, is_gone(status), now);
        }
    }

    fn see_one(&mut self, device: usize, is_gone: bool, now: u64) {
        if let Some(night) = self.nights.get_mut(device) {
            night.news = night.sleep.see(is_gone, now);
            if let Some(asleep) = self.asleep.get_mut(device) {
                *asleep = night.sleep.is_asleep() == Some(true);
            }
        }
    }

    /// Of each device, whether it sleeps.
    pub(crate) fn asleep(&self) -> &[bool] {
        &self.asleep
    }

    /// What there is to tell of a device after what was seen last.
    pub(crate) fn news(&self, device: usize) -> Option<Slept> {
        self.nights.get(device)?.news
    }

    /// Whether a device sleeps; None where it never does.
    pub(crate) fn is_asleep(&self, device: usize) -> Option<bool> {
        self.nights.get(device)?.sleep.is_asleep()
    }
}

/// The hours of a device; none where the list ends before it.
fn hours_at(hours: &[Option<u8>], device: usize) -> Option<u8> {
    match hours.get(device) {
        Some(hours) => *hours,
        None => None,
    }
}
