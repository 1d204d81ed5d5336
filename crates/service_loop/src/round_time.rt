//! How long rounds take.

/// How long a round takes: from a run of the program until nothing of it is left to be written. Times are in milliseconds since the
/// start.
#[derive(Clone, Copy)]
pub(crate) struct RoundTime {
    /// How many scans there were, as far as is known.
    scans: u64,
    /// When the last of them was.
    began: u64,
    /// How many rounds aren't over.
    open: u64,
    /// How long the last one took that is over; none before the first one.
    took: Option<u64>,
}

impl RoundTime {
    /// There was no round yet.
    pub(crate) fn new() -> RoundTime {
        RoundTime {
            scans: 0,
            began: 0,
            open: 0,
            took: None,
        }
    }

    /// After so many scans it is this time. One that begins ends the round before, where that wasn't over.
    pub(crate) fn turn(&mut self, scans: u64, now: u64) {
        if scans == self.scans {
            return;
        }
        if self.open != 0 {
            self.took = Some(now.saturating_sub(self.began));
        }
        self.scans = scans;
        self.began = now;
        self.open = self.open.saturating_add(1);
    }

    /// It is told that nothing of a scan is left to be written; whether that is the last one.
    pub(crate) fn end(&mut self, now: u64) -> bool {
        self.open = self.open.saturating_sub(1);
        if self.open != 0 {
            return false;
        }
        self.took = Some(now.saturating_sub(self.began));
        true
    }

    pub(crate) fn took(self) -> Option<u64> {
        self.took
    }
}
