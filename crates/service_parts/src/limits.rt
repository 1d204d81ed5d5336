//! What is asked of a service.
ghost use Rattle.std.specs.Prelude.{◌≡◌};
ghost use Rattle.service_parts.specs.Overdue.{least_wait};

/// Its times, in milliseconds, and its room.
#[derive(Clone, Copy)]
pub struct Limits {
    /// From one scan to the next.
    pub period: u64,
    /// How long a device may take to answer.
    pub timeout: u64,
    /// How long one that never answered is waited for on a connection where others answer.
    pub first_wait: u64,
    /// The most clients.
    pub clients: usize,
    /// A client is closed of which no whole frame came for so long.
    pub idle: u64,
    /// The longest wait before a connection is made again.
    pub back_off_most: u64,
    /// How long after a search that found no map the next one begins.
    pub search_again: u64,
}

impl Limits {
    /// The least time in milliseconds that an answer has: three fifths of that of a device that never answered, and more than
    /// nothing; or as long as any may take, where that is less.
    pub fn least_wait(&self) -> u64
        ensures { result ≡ least_wait self.now }
    {
        (self.first_wait / 5 * 3).max(1).min(self.timeout)
    }
}

/// Where a device is reached.
#[derive(Clone, Copy, Debug, PartialEq, Eq)]
pub struct Station {
    /// The number of its connection.
    pub link: usize,
    /// Its unit there.
    pub unit: u8,
}
