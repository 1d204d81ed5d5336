//! How often changed variables are written.
ghost use Rattle.std.specs.Prelude.{◌≡◌, ◌≤◌, ◌+◌, ◌^◌, ◌-◌, ◌↔◌, IsTrue, min};

/// The shortest time from one write of changed variables to the next, in milliseconds.
const LEAST: u64 = 10_000;

/// From when on changed variables may be written: a file in flash memory lasts some hundred thousand writes.
#[derive(Clone, Copy)]
pub struct RetainPace {
    /// In milliseconds since the start.
    next: u64,
}

impl RetainPace {
    /// From the start on.
    pub fn new() -> RetainPace
        ensures { result.next ≡ 0 }
    {
        RetainPace { next: 0 }
    }

    /// Whether changed variables may be written now, in milliseconds since the start.
    pub fn is_due(&self, now: u64) -> bool
        ensures { IsTrue result ↔ self.now.next ≤ now }
    {
        self.next <= now
    }

    /// They were written now: not again for ten seconds.
    pub fn written(&mut self, now: u64)
        ensures { self.new.next ≡ min (now + 10000) (2 ^ 64 - 1) }
    {
        self.next = now.saturating_add(LEAST);
    }
}
