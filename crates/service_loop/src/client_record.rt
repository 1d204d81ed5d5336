//! What a client did so far.
use service::{ClientWrite, WriteOutcome};

/// What a client did so far. Times are in milliseconds since the start.
#[derive(Clone, Copy)]
pub(crate) struct ClientRecord {
    /// Whether it may write.
    pub may_write: bool,
    came_at: u64,
    /// When a request of it was answered last, or it came.
    answered_at: u64,
    /// How many of its writes were done.
    pub writes: u64,
    /// How many of them were refused.
    pub refused: u64,
}

impl ClientRecord {
    /// One that comes now.
    pub(crate) fn new(may_write: bool, now: u64) -> ClientRecord {
        ClientRecord {
            may_write,
            came_at: now,
            answered_at: now,
            writes: 0,
            refused: 0,
        }
    }

    /// Requests of it were answered, and these writes were among them.
    pub(crate) fn note(&mut self, writes: &[ClientWrite], now: u64) {
        self.answered_at = now;
        for write in writes {
            self.note_write(write.outcome);
        }
    }

    fn note_write(&mut self, outcome: WriteOutcome) {
        match outcome {
            WriteOutcome::Done => self.writes = self.writes.saturating_add(1),
            WriteOutcome::Refused(_) => self.refused = self.refused.saturating_add(1),
        }
    }

    /// For how many seconds it has been there.
    pub(crate) fn age(&self, now: u64) -> u64 {
        now.saturating_sub(self.came_at) / 1000
    }

    /// For how many seconds no request of it was answered.
    pub(crate) fn idle(&self, now: u64) -> u64 {
        now.saturating_sub(self.answered_at) / 1000
    }
}
