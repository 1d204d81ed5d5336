//! Which devices are read and written less often than the program runs.
use service::DeviceStatus;
use std::alloc::{AllocError, Global};

/// A pace is judged by so many scans in a row in which the device wasn't lost.
const JUDGED_BY: u64 = 30;

/// How often each device is read and written, and what was told of that.
#[derive(Drop)]
pub(crate) struct Paces {
    paces: Vec<Pace>,
}

/// How often a device is read and written.
#[derive(Clone, Copy)]
struct Pace {
    /// So many scans were looked at.
    scans: u64,
    /// What was seen at them, together.
    sum: u64,
    /// It is told as slow: each so many rounds; 1 where it isn't.
    told: u64,
}

impl Paces {
    /// Nothing was seen of so many devices yet.
    pub(crate) fn new(alloc: Global, devices: usize) -> Result<Paces, AllocError> {
        let mut paces = Vec::with_capacity(alloc, devices)?;
        for _ in 0..devices {
            paces.push(Pace::new())?;
        }
        Ok(Paces { paces })
    }

    /// How a device stands after a scan. In which of so many rounds it is read and written, where that is to be told: it is slow,
    /// slower than it was told before, or keeps up again.
    pub(crate) fn see(&mut self, device: usize, status: Option<DeviceStatus>) -> Option<u64> {
        let pace = self.paces.get_mut(device)?;
        match status {
            Some(status) if !status.is_lost && status.each > 0 => pace.see(status.each),
            _ => {
                pace.forget();
                None
            }
        }
    }
}

impl Pace {
    fn new() -> Pace {
        Pace {
            scans: 0,
            sum: 0,
            told: 1,
        }
    }

    /// What was seen counts no more.
    fn forget(&mut self) {
        self.scans = 0;
        self.sum = 0;
    }

    /// It was read and written each so many rounds last; what is to be told.
    fn see(&mut self, each: u64) -> Option<u64> {
        self.scans = self.scans.saturating_add(1);
        self.sum = self.sum.saturating_add(each);
        if self.scans < JUDGED_BY {
            return None;
        }
        let (rounds, keeps_up) = (self.nearest(), self.sum == self.scans);
        self.forget();
        if rounds > self.told || keeps_up && self.told > 1 {
            self.told = rounds;
            Some(rounds)
        } else {
            None
        }
    }

    /// What was seen, to the nearest number of rounds.
    fn nearest(&self) -> u64 {
        self.sum.saturating_add(JUDGED_BY / 2) / JUDGED_BY
    }
}
