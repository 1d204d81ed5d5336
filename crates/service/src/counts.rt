//! How often a device was asked and lost.
ghost use Rattle.std.specs.Prelude.{◌≡◌};
ghost use Rattle.service.specs.Counting.{asked_once_more, lost_once_more};

use crate::notice::Loss;

/// How often a device was asked, and how often it was lost, by cause: a request that ended so, or its connection that
/// ended or couldn't be made. A count that is full stays.
#[derive(Clone, Copy, Debug, PartialEq, Eq)]
pub struct Counts {
    /// Requests that began.
    pub requests: u64,
    /// How often its connection was down.
    pub down: u64,
    /// How often nothing came in time.
    pub silent: u64,
    /// How often what came is no frame.
    pub frame: u64,
    /// How often too many frames came that answered something else.
    pub stale: u64,
    /// How often a gateway said that it doesn't answer.
    pub gateway: u64,
}

impl Counts {
    /// None so far.
    pub fn new() -> Counts
        ensures { result ≡ record { requests = 0; down = 0; silent = 0; frame = 0; stale = 0; gateway = 0 } }
    {
        Counts {
            requests: 0,
            down: 0,
            silent: 0,
            frame: 0,
            stale: 0,
            gateway: 0,
        }
    }

    /// A request begins.
    pub fn ask(&mut self)
        ensures { self.new ≡ asked_once_more self.old }
    {
        self.requests = self.requests.saturating_add(1);
    }

    /// It is lost.
    pub fn lose(&mut self, loss: Loss)
        ensures { self.new ≡ lost_once_more loss self.old }
    {
        match loss {
            Loss::Down => self.down = self.down.saturating_add(1),
            Loss::Silent => self.silent = self.silent.saturating_add(1),
            Loss::Frame => self.frame = self.frame.saturating_add(1),
            Loss::Stale => self.stale = self.stale.saturating_add(1),
            Loss::Gateway => self.gateway = self.gateway.saturating_add(1),
        }
    }
}
